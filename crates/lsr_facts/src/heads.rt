//! The keys of the LSPs of tunnels that begin here (RFC 3209, 2.1 and 4.6).

ghost use Rattle.std.specs.Prelude.{◌≡◌};
ghost use Rattle.lsr_facts.specs.Tunnels.{current_key, head_key, pending_key};

use crate::key::Key;
use crate::router::Router;
use crate::tunnel::Tunnel;
use rsvp_objects::{Session, Template};
use std::net::Ipv4Addr;

/// The LSP of a tunnel that has this ID: the router's id is its extended tunnel ID, and its sender.
pub fn head_key(router: &Router, number: u16, endpoint: Ipv4Addr, id: u16) -> Key
    ensures { result ≡ head_key router.now number endpoint id }
{
    Key {
        session: Session {
            endpoint,
            tunnel: number,
            extended: router.id,
        },
        sender: Template {
            sender: router.id,
            lsp: id,
        },
    }
}

/// The LSP that carries the traffic of the tunnel of a number.
pub fn current_key(router: &Router, number: u16, tunnel: &Tunnel) -> Key
    ensures { result ≡ current_key router.now (number, tunnel.now) }
{
    head_key(router, number, tunnel.endpoint, tunnel.current.id)
}

/// The LSP that is to take its place, if there is one.
pub fn pending_key(router: &Router, number: u16, tunnel: &Tunnel) -> Option<Key>
    ensures { result ≡ pending_key router.now (number, tunnel.now) }
{
    match &tunnel.pending {
        Some(lsp) => Some(head_key(router, number, tunnel.endpoint, lsp.id)),
        None => None,
    }
}
