//! How a tunnel that begins here is changed without a gap: its new LSP is set up beside the one that carries its traffic,
//! and takes its place once it is reserved (RFC 3209, 2.5).

ghost use Rattle.std.specs.Prelude.{◌≡◌, ◌<◌};
ghost use Rattle.lsr_facts.specs.Changes.{begun, cancelled, switched};

use crate::tunnel::{Tunnel, TunnelLsp};
use rsvp_contents::{Route, Tspec};

/// The greatest LSP ID.
pub const MAX_LSP_ID: u16 = u16::MAX;

/// The tunnel is to take another route and to carry other traffic: the LSP of the next LSP ID is to take the place of the
/// current one. It asks that an LSP ID is left. Takes no memory.
pub fn begin(tunnel: &mut Tunnel, route: Route, tspec: Tspec)
    requires { tunnel.old.last < 65535 }
    ensures { tunnel.new ≡ begun route tspec tunnel.old }
{
    let id = tunnel.last + 1;
    tunnel.pending = Some(TunnelLsp { id, route, tspec });
    tunnel.last = id;
}

/// The change is given up: the current LSP stays. Takes no memory.
pub fn cancel(tunnel: &mut Tunnel)
    ensures { tunnel.new ≡ cancelled tunnel.old }
{
    tunnel.pending = None;
}

/// The LSP that was to take the place of the current one takes it; where there is none, nothing changes. Takes no memory.
pub fn switch(tunnel: &mut Tunnel)
    ensures { tunnel.new ≡ switched tunnel.old }
{
    if let Some(lsp) = tunnel.pending.take() {
        tunnel.current = lsp;
    }
}
