use crate::unread::{UnreadArrive, UnreadRelay};
use abstract_paths::ArrivalWay;
use field_bytes::{Address, Byte, Counted, Made, Making, Octets, Optional, Pair, ReadFault, Short};
use std::alloc::Global;
use std::net::Ipv4Addr;

/// The way of a message that came in a Hop frame, through a stack of labels, and in a Routed frame.
const WAY_HOP: u8 = 1;

const WAY_STACK: u8 = 2;

const WAY_ROUTED: u8 = 3;

/// How a way is spelled: by its number.
pub struct WayParts;

/// The way of a message that came.
pub type WayField = Made<WayParts>;

impl Making for WayParts {
    ghost use Rattle.std.specs.Prelude.{refl};
    ghost use Rattle.event_fields.specs.Unread.{way_bytes, way_told};
    ghost use Rattle.journal_bytes.specs.Events.{way_number};

    type Parts = Byte;

    type Whole = ArrivalWay;

    ghost Allows = { λ way. Unit {0} };

    ghost back = { way_number };

    ghost spelling = { way_bytes };

    ghost told = { way_told };

    ghost spelled = { λ way. refl };

    #[tactic(auto, using(crate::specs::Unread::no_way))]
    fn make(_alloc: Global, parts: u8) -> Result<ArrivalWay, ReadFault> {
        if parts == WAY_HOP {
            Ok(ArrivalWay::Hop)
        } else if parts == WAY_STACK {
            Ok(ArrivalWay::Stack)
        } else if parts == WAY_ROUTED {
            Ok(ArrivalWay::Routed)
        } else {
            Err(ReadFault::Format)
        }
    }
}

/// How a message for this router is spelled.
pub struct ArriveParts;

/// A message for this router: its link, its way, its bytes, and the object that its type doesn't know.
pub type ArriveField = Made<ArriveParts>;

impl Making for ArriveParts {
    ghost use Rattle.std.specs.Prelude.{refl};
    ghost use Rattle.event_fields.specs.Unread.{arrive_parts, arrive_told, unread_arrive_bytes};

    type Parts = Pair<Short, Pair<WayField, Pair<Counted, Optional<Pair<Byte, Byte>>>>>;

    type Whole = UnreadArrive;

    ghost Allows = { λ arrive. Unit {0} };

    ghost back = { arrive_parts };

    ghost spelling = { unread_arrive_bytes };

    ghost told = { arrive_told };

    ghost spelled = { λ arrive. refl };

    fn make(
        _alloc: Global,
        parts: (u16, (ArrivalWay, (Octets, Option<(u8, u8)>))),
    ) -> Result<UnreadArrive, ReadFault> {
        let (link, (way, (message, unknown))) = parts;
        Ok(UnreadArrive {
            link,
            way,
            message,
            unknown,
        })
    }
}

/// How a message for another router is spelled.
pub struct RelayParts;

/// A message for another router: its link, where it is to go, its limit and its bytes.
pub type RelayField = Made<RelayParts>;

impl Making for RelayParts {
    ghost use Rattle.std.specs.Prelude.{refl};
    ghost use Rattle.event_fields.specs.Unread.{relay_parts, relay_told, unread_relay_bytes};

    type Parts = Pair<Short, Pair<Address, Pair<Byte, Counted>>>;

    type Whole = UnreadRelay;

    ghost Allows = { λ relay. Unit {0} };

    ghost back = { relay_parts };

    ghost spelling = { unread_relay_bytes };

    ghost told = { relay_told };

    ghost spelled = { λ relay. refl };

    fn make(
        _alloc: Global,
        parts: (u16, (Ipv4Addr, (u8, Octets))),
    ) -> Result<UnreadRelay, ReadFault> {
        let (link, (to, (limit, message))) = parts;
        Ok(UnreadRelay {
            link,
            to,
            limit,
            message,
        })
    }
}
