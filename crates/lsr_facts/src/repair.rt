//! Local repair of LSPs whose link fails, over bypass tunnels (RFC 4090, 3.2 and 6).

ghost use Rattle.std.specs.Prelude.{◌≡◌, true};
ghost use Rattle.lsr_facts.specs.Reservations.{timeless_repair};

use crate::resv_fact::ResvFact;
use sorted_rows::TryCopy;
use std::alloc::{AllocError, Global};
use std::net::Ipv4Addr;

/// How an LSP goes on whose link went down: over a bypass (RFC 4090, 6.4). It has no reservation of its own any more.
#[derive(Debug, Drop)]
pub struct Repair {
    /// The number of the bypass.
    pub bypass: u16,
    /// Whether it is an NNHOP bypass (RFC 4090, 2): it ends after the next hop, so that the router there is
    /// protected too.
    pub is_nnhop: bool,
    /// The reservation that was lost, on the link that is protected. Its label is the one under which the router at the
    /// bypass's end takes the LSP.
    pub resv: ResvFact,
}

impl Repair {
    /// Whether another repair is the same, but for when it expires.
    pub fn is_same_but_expiry(&self, other: &Repair) -> bool
        ensures { result ≡ true → timeless_repair self.now ≡ timeless_repair other.now }
    {
        self.bypass == other.bypass
            && self.is_nnhop == other.is_nnhop
            && self.resv.is_same_but_expiry(&other.resv)
    }
}

impl TryCopy for Repair {
    fn try_copy(&self, alloc: Global) -> Result<Repair, AllocError> {
        Ok(Repair {
            bypass: self.bypass,
            is_nnhop: self.is_nnhop,
            resv: self.resv.try_copy(alloc)?,
        })
    }
}

/// What the current LSP of a bypass's tunnel stands on, where the bypass is up.
#[derive(Clone, Copy, Debug, PartialEq, Eq)]
pub struct Over {
    /// The number of the link that the LSP leaves by.
    pub link: u16,
    /// The label that its next hop takes it with.
    pub label: u32,
}

/// A bypass tunnel, as the point of local repair sees it (RFC 4090, 2 and 3.2).
#[derive(Clone, Copy, Debug, PartialEq, Eq)]
pub struct BypassTunnel {
    /// The number of the tunnel that it runs through.
    pub tunnel: u16,
    /// The number of the link that it protects.
    pub protects: u16,
    /// The router at which it ends: the merge point.
    pub ends_at: Ipv4Addr,
    /// The bandwidth that it has for repairs, in bytes per second; 0 where none is said (RFC 4090, 4.3).
    pub capacity: u64,
    /// What it runs over; `None` where it isn't up.
    pub over: Option<Over>,
}

/// The bypass that an LSP would be repaired over (RFC 4090, 6.2).
#[derive(Clone, Copy, Debug, PartialEq, Eq)]
pub struct Selected {
    /// The number of the bypass.
    pub bypass: u16,
    /// Whether it is an NNHOP bypass (RFC 4090, 2): it ends after the next hop, so that the router there is
    /// protected too.
    pub is_nnhop: bool,
    /// The label under which the router at its end takes the LSP.
    pub label: u32,
    /// The bandwidth that it has for repairs, in bytes per second; 0 where none is said (RFC 4090, 4.3).
    pub capacity: u64,
}
