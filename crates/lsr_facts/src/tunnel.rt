ghost use Rattle.std.specs.Prelude.{◌≡◌, length, IfOk, IfSome};
ghost use Rattle.lsr_facts.specs.Bypasses.{carries};

use rsvp_contents::{Attr, FastReroute, Route, Tspec};
use sorted_rows::TryCopy;
use std::alloc::{AllocError, Global};
use std::net::Ipv4Addr;

/// An LSP of a tunnel that begins here, as it is asked for.
#[derive(Debug, Drop)]
pub struct TunnelLsp {
    /// Its LSP ID.
    pub id: u16,
    /// The route that it is to take, without this router's own step.
    pub route: Route,
    /// The traffic that it is to carry.
    pub tspec: Tspec,
}

/// Written out, so that it is dropped by one call, whatever it holds.
impl Drop for Tunnel {
    fn drop(self) {
        let Tunnel {
            endpoint: _endpoint,
            attr: _attr,
            fast_reroute: _fast_reroute,
            current: _current,
            pending: _pending,
            last: _last,
            noted: _noted,
        } = self;
    }
}

/// An error that came for one of a tunnel's LSPs (RFC 2205, 3.1.7 and A.5).
#[derive(Clone, Copy, Debug, PartialEq, Eq)]
pub struct Noted {
    /// The router that found it.
    pub node: Ipv4Addr,
    /// What is wrong.
    pub code: u8,
    /// More of it, by the code.
    pub value: u16,
}

/// A tunnel that begins here (RFC 3209, 2.1): the LSP that carries its traffic, and the one that is to take its place, if
/// the tunnel is being changed (RFC 3209, 2.5).
#[derive(Debug)]
pub struct Tunnel {
    /// Where it ends.
    pub endpoint: Ipv4Addr,
    /// Priorities, flags and name of its LSPs.
    pub attr: Attr,
    /// The protection that is asked for.
    pub fast_reroute: Option<FastReroute>,
    /// The LSP that carries its traffic once it is reserved.
    pub current: TunnelLsp,
    /// The LSP that is to take its place once that one is reserved.
    pub pending: Option<TunnelLsp>,
    /// The LSP ID that was given last.
    pub last: u16,
    /// The error that came last for one of its LSPs.
    pub noted: Option<Noted>,
}

impl TryCopy for TunnelLsp {
    fn try_copy(&self, _alloc: Global) -> Result<TunnelLsp, AllocError> {
        Ok(TunnelLsp {
            id: self.id,
            route: self.route.clone()?,
            tspec: self.tspec.clone()?,
        })
    }
}

impl Tunnel {
    /// Whether so much bandwidth, in bytes per second, fits the tunnel's traffic, and that of the LSP which is to take its
    /// current one's place: a bypass in this tunnel may have it for repairs (RFC 4090, 4.3). Their traffic is written in 32
    /// bytes.
    pub fn carries(&self, capacity: u64) -> bool
        requires current { length self.now.current.tspec ≡ 32 }
        requires pending { IfSome self.now.pending (λ lsp. length lsp.tspec ≡ 32) }
        ensures { result ≡ carries capacity self.now }
    {
        let by_pending = match &self.pending {
            Some(lsp) => capacity <= lsp.tspec.rate_asked(),
            None => true,
        };
        capacity <= self.current.tspec.rate_asked() && by_pending
    }
}

/// A copy of an LSP, if there is one. The only error is out of memory.
fn copied(alloc: Global, lsp: &Option<TunnelLsp>) -> Result<Option<TunnelLsp>, AllocError>
    ensures { IfOk result (λ copy. copy ≡ lsp.now) }
{
    match lsp {
        Some(lsp) => Ok(Some(lsp.try_copy(alloc)?)),
        None => Ok(None),
    }
}

impl TryCopy for Tunnel {
    fn try_copy(&self, alloc: Global) -> Result<Tunnel, AllocError> {
        Ok(Tunnel {
            endpoint: self.endpoint,
            attr: self.attr.clone()?,
            fast_reroute: self.fast_reroute,
            current: self.current.try_copy(alloc)?,
            pending: copied(alloc, &self.pending)?,
            last: self.last,
            noted: self.noted,
        })
    }
}
