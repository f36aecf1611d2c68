use field_bytes::{Exactly, Made, Making, Octets, ReadFault, Writing};
use rsvp_bodies::{Body, Description};
use std::alloc::{AllocError, Global};
use std::marker::PhantomData;

/// Bytes of a traffic description (RFC 2210, 3.1 and 3.2).
const TRAFFIC_LEN: usize = 32;

/// How a traffic description is spelled: by its bytes.
pub struct TrafficParts<Side> {
    side: PhantomData<Side>,
}

/// What one side of a flow says of its traffic: 32 bytes, as they came.
pub type TrafficField<Side> = Made<TrafficParts<Side>>;

impl<Side: Drop> Making for TrafficParts<Side> {
    ghost use Rattle.std.specs.Prelude.{refl};
    ghost use Rattle.body_fields.specs.Traffic.{IsTraffic, same_traffic};

    type Parts = Exactly<32>;

    type Whole = Description<Side>;

    ghost Allows = { IsTraffic };

    ghost back = { same_traffic };

    ghost spelling = { same_traffic };

    ghost told = { λ x y _ _ same. same };

    ghost spelled = { λ bytes. refl };

    fn make(_alloc: Global, parts: Octets) -> Result<Description<Side>, ReadFault> {
        if parts.as_slice().len() != TRAFFIC_LEN {
            return Err(ReadFault::Format);
        }
        Ok(Description::from_body(Body::from_vec(parts.into_vec())))
    }
}

impl<Side: Drop> Writing for TrafficParts<Side> {
    fn put_parts(traffic: &Description<Side>, out: &mut Vec<u8>) -> Result<(), AllocError> {
        if traffic.as_slice().len() != TRAFFIC_LEN {
            return Err(AllocError);
        }
        out.extend_from_slice(traffic.as_slice())
    }
}
