//! The tunnels and bypasses that an operator asks for.

ghost use Rattle.std.specs.Prelude.{◌≡◌, length};

use rsvp_contents::{Attr, FastReroute, Route, Tspec};
use sorted_rows::TryCopy;
use std::alloc::{AllocError, Global};
use std::net::Ipv4Addr;

/// A tunnel that is to begin here.
#[derive(Debug, Drop)]
pub struct NewTunnel {
    /// Its number.
    pub number: u16,
    /// Where it is to end.
    pub endpoint: Ipv4Addr,
    /// The route that it is to take from here, without this router's own step.
    pub route: Route,
    /// The traffic that it is to carry: a body of 32 bytes (RFC 2210, 3.1).
    pub tspec: Tspec,
    /// Priorities, flags and name.
    pub attr: Attr,
    /// The protection that is asked for.
    pub fast_reroute: Option<FastReroute>,
    ghost whole: { length tspec ≡ 32 },
}

/// What a tunnel that begins here is to become.
#[derive(Debug, Drop)]
pub struct TunnelChange {
    /// The tunnel's number.
    pub number: u16,
    /// The route that it is to take from here, without this router's own step.
    pub route: Route,
    /// The traffic that it is to carry: a body of 32 bytes (RFC 2210, 3.1).
    pub tspec: Tspec,
    ghost whole: { length tspec ≡ 32 },
}

/// A bypass that is to protect a link (RFC 4090, 3.2).
#[derive(Clone, Copy, Debug, PartialEq, Eq)]
pub struct NewBypass {
    /// Its number.
    pub number: u16,
    /// The number of the tunnel that it runs in.
    pub tunnel: u16,
    /// The number of the link that it protects.
    pub link: u16,
    /// The bandwidth that it is to have for repairs, in bytes per second; 0 for none of its own (RFC 4090, 4.3).
    pub capacity: u64,
}

impl TryCopy for NewTunnel {
    fn try_copy(&self, _alloc: Global) -> Result<NewTunnel, AllocError> {
        Ok(NewTunnel {
            number: self.number,
            endpoint: self.endpoint,
            route: self.route.clone()?,
            tspec: self.tspec.clone()?,
            attr: self.attr.clone()?,
            fast_reroute: self.fast_reroute,
        })
    }
}

impl TryCopy for TunnelChange {
    fn try_copy(&self, _alloc: Global) -> Result<TunnelChange, AllocError> {
        Ok(TunnelChange {
            number: self.number,
            route: self.route.clone()?,
            tspec: self.tspec.clone()?,
        })
    }
}
