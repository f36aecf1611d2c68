ghost use Rattle.std.specs.Prelude.{◌≡◌};
ghost use Rattle.field_bytes.specs.Making.{Makes};
ghost use Rattle.fact_fields.specs.Fitting.{IsAny};
ghost use Rattle.fact_fields.specs.Origins.{origin_parts, via_parts};

use body_fields::put_byte;
use field_bytes::{Address, Byte, Field, Long, Pair, Put, ReadFault, Short, Word};
use lsr_facts::{Origin, Via};
use rsvp_objects::Hop;
use std::alloc::{AllocError, Global};
use std::net::Ipv4Addr;

/// Says that Paths come over a link, and that they come through stacks of labels.
const VIA_LINK: u8 = 0;

const VIA_STACK: u8 = 1;

/// The number that stands where there is no link.
const NO_LINK: u16 = 0;

/// How Paths come: 0 and the link; or 1 and a link number of 0.
pub(crate) struct ViaField;

/// The parts of how Paths come.
type ViaParts = Pair<Byte, Short>;

/// How Paths come, by these.
#[tactic(auto, using(crate::specs::Origins::no_via))]
fn via_of(parts: (u8, u16)) -> Result<Via, ReadFault>
    ensures { Makes IsAny via_parts parts result }
{
    let (via, link) = parts;
    if via == VIA_LINK {
        return Ok(Via::Link(link));
    }
    if via == VIA_STACK && link == NO_LINK {
        return Ok(Via::Stack);
    }
    Err(ReadFault::Format)
}

impl Field for ViaField {
    ghost use Rattle.fact_fields.specs.Fitting.{ViaFits};
    ghost use Rattle.fact_fields.specs.Laws.{one_via};
    ghost use Rattle.fact_fields.specs.Origins.{via_bytes};

    type Value = Via;

    ghost Fits = { ViaFits };

    ghost spelling = { via_bytes };

    ghost one = { one_via };

    fn read(alloc: Global, bytes: &[u8]) -> Result<(Via, &[u8]), ReadFault> {
        let (parts, rest) = <ViaParts as Field>::read(alloc, bytes)?;
        Ok((via_of(parts)?, rest))
    }
}

impl Put for ViaField {
    fn put(via: &Via, out: &mut Vec<u8>) -> Result<(), AllocError> {
        match via {
            Via::Link(number) => {
                put_byte(VIA_LINK, out)?;
                Short::put(number, out)
            }
            Via::Stack => {
                put_byte(VIA_STACK, out)?;
                Short::put(&NO_LINK, out)
            }
        }
    }
}

/// An origin of a path: how its Paths come, the router that sent them, that router's logical interface handle, and until when it counts, in
/// milliseconds.
pub(crate) struct OriginField;

/// The parts of an origin.
type OriginParts = Pair<ViaField, Pair<Address, Pair<Word, Long>>>;

/// The origin of these.
fn origin_of(parts: (Via, (Ipv4Addr, (u32, u64)))) -> Origin
    ensures { origin_parts result ≡ parts }
{
    let (via, (address, (interface, expiry))) = parts;
    Origin {
        via,
        hop: Hop { address, interface },
        expiry,
    }
}

impl Field for OriginField {
    ghost use Rattle.fact_fields.specs.Fitting.{OriginFits};
    ghost use Rattle.fact_fields.specs.Laws.{one_origin};
    ghost use Rattle.fact_fields.specs.Origins.{origin_bytes};

    type Value = Origin;

    ghost Fits = { OriginFits };

    ghost spelling = { origin_bytes };

    ghost one = { one_origin };

    fn read(alloc: Global, bytes: &[u8]) -> Result<(Origin, &[u8]), ReadFault> {
        let (parts, rest) = <OriginParts as Field>::read(alloc, bytes)?;
        Ok((origin_of(parts), rest))
    }
}

impl Put for OriginField {
    fn put(origin: &Origin, out: &mut Vec<u8>) -> Result<(), AllocError> {
        ViaField::put(&origin.via, out)?;
        Address::put(&origin.hop.address, out)?;
        Word::put(&origin.hop.interface, out)?;
        Long::put(&origin.expiry, out)
    }
}
