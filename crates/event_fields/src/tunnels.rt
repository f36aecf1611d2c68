ghost use Rattle.field_bytes.specs.Making.{Makes};
ghost use Rattle.event_fields.specs.Tunnels.{AnyChange, AnyTunnel, change_parts, tunnel_parts};

use abstract_paths::{NewBypass, NewTunnel, TunnelChange};
use body_fields::{AttrField, ProtectionField, RouteField, TrafficField};
use field_bytes::{Address, Field, Long, Made, Making, Optional, Pair, ReadFault, Short};
use rsvp_bodies::{Attr, Route, Sender, Tspec};
use rsvp_objects::FastReroute;
use std::alloc::Global;
use std::net::Ipv4Addr;

/// Bytes of a traffic descriptor (RFC 2210, 3.1).
const TRAFFIC_LEN: usize = 32;

/// What a new tunnel is made of.
type NewTunnelValue = (
    u16,
    (Ipv4Addr, (Route, (Tspec, (Attr, Option<FastReroute>)))),
);

/// What follows a tunnel's end.
type Asked = Pair<
    RouteField,
    Pair<TrafficField<Sender>, Pair<AttrField, Optional<ProtectionField>>>,
>;

/// A tunnel that is to begin here: its number, its end, its route, its traffic, its attributes and its protection.
pub struct NewTunnelField;

/// The tunnel of these parts, whose traffic has 32 bytes.
#[tactic(auto, using(crate::specs::Tunnels::no_tunnel))]
fn tunnel_of(parts: NewTunnelValue) -> Result<NewTunnel, ReadFault>
    ensures { Makes AnyTunnel tunnel_parts parts result }
{
    let (number, (endpoint, (route, (tspec, (attr, fast_reroute))))) = parts;
    if tspec.as_slice().len() != TRAFFIC_LEN {
        return Err(ReadFault::Format);
    }
    Ok(NewTunnel {
        number,
        endpoint,
        route,
        tspec,
        attr,
        fast_reroute,
    })
}

impl Field for NewTunnelField {
    ghost use Rattle.journal_bytes.specs.Events.{tunnel_bytes};
    ghost use Rattle.event_fields.specs.Fitting.{TunnelFits};
    ghost use Rattle.event_fields.specs.Laws.{one_tunnel};

    type Value = NewTunnel;

    ghost Fits = { TunnelFits };

    ghost spelling = { tunnel_bytes };

    ghost one = { one_tunnel };

    fn read(alloc: Global, bytes: &[u8]) -> Result<(NewTunnel, &[u8]), ReadFault> {
        let (parts, rest) = <NewTunnelParts as Field>::read(alloc, bytes)?;
        Ok((tunnel_of(parts)?, rest))
    }
}

/// The parts of a new tunnel.
type NewTunnelParts = Pair<Short, Pair<Address, Asked>>;

/// The parts of a change of a tunnel.
type ChangeParts = Pair<Short, Pair<RouteField, TrafficField<Sender>>>;

/// What a change of a tunnel is made of.
type ChangeValue = (u16, (Route, Tspec));

/// What a tunnel is to become: its number, its route and its traffic.
pub struct ChangeField;

/// The change of these parts, whose traffic has 32 bytes.
#[tactic(auto, using(crate::specs::Tunnels::no_change))]
fn change_of(parts: ChangeValue) -> Result<TunnelChange, ReadFault>
    ensures { Makes AnyChange change_parts parts result }
{
    let (number, (route, tspec)) = parts;
    if tspec.as_slice().len() != TRAFFIC_LEN {
        return Err(ReadFault::Format);
    }
    Ok(TunnelChange {
        number,
        route,
        tspec,
    })
}

impl Field for ChangeField {
    ghost use Rattle.journal_bytes.specs.Events.{change_bytes};
    ghost use Rattle.event_fields.specs.Fitting.{ChangeFits};
    ghost use Rattle.event_fields.specs.Laws.{one_change};

    type Value = TunnelChange;

    ghost Fits = { ChangeFits };

    ghost spelling = { change_bytes };

    ghost one = { one_change };

    fn read(alloc: Global, bytes: &[u8]) -> Result<(TunnelChange, &[u8]), ReadFault> {
        let (parts, rest) = <ChangeParts as Field>::read(alloc, bytes)?;
        Ok((change_of(parts)?, rest))
    }
}

/// How a bypass that is to protect a link is spelled.
pub struct NewBypassParts;

/// A bypass that is to protect a link: its number, its tunnel, its link and its capacity.
pub type NewBypassField = Made<NewBypassParts>;

impl Making for NewBypassParts {
    ghost use Rattle.std.specs.Prelude.{refl};
    ghost use Rattle.journal_bytes.specs.Events.{bypass_bytes};
    ghost use Rattle.event_fields.specs.Tunnels.{bypass_parts, bypass_told};

    type Parts = Pair<Short, Pair<Short, Pair<Short, Long>>>;

    type Whole = NewBypass;

    ghost Allows = { λ bypass. Unit {0} };

    ghost back = { bypass_parts };

    ghost spelling = { bypass_bytes };

    ghost told = { bypass_told };

    ghost spelled = { λ bypass. refl };

    fn make(_alloc: Global, parts: (u16, (u16, (u16, u64)))) -> Result<NewBypass, ReadFault> {
        let (number, (tunnel, (link, capacity))) = parts;
        Ok(NewBypass {
            number,
            tunnel,
            link,
            capacity,
        })
    }
}
