//! Bypasses as a point of local repair sees them: where each ends, and what it runs over (RFC 4090, 3.2).

ghost use Rattle.std.specs.FinMap.Entries.{find};
ghost use Rattle.std.specs.Ordering.{nat_cmp};
ghost use Rattle.std.specs.Prelude.{◌≡◌};
ghost use Rattle.abstract_router.specs.BypassTunnels.{bypass_tunnel_by, bypass_tunnels_of, over_at, over_of};

use crate::standing::stands;
use lsr_facts::{Bypass, BypassTunnel, Over, Tunnel, current_key};
use state_views::StateView;

/// What the tunnel of a number runs over: its current LSP is reserved, and the reservation stands.
fn over_of<V: StateView>(view: &V, number: u16, tunnel: &Tunnel) -> Option<Over>
    ensures { result ≡ over_of (V.router view.now) (V.state view.now) (number, tunnel.now) }
{
    let key = current_key(view.node().router, number, tunnel);
    let resv = view.resv(&key)?;
    if !stands(view, &key, resv) {
        return None;
    }
    Some(Over {
        link: resv.link,
        label: resv.label,
    })
}

/// A bypass, by the tunnel that it names; `None` where there is no such tunnel. Takes no memory.
pub fn bypass_tunnel_by<V: StateView>(view: &V, bypass: &(u16, Bypass)) -> Option<BypassTunnel>
    ensures { result ≡ bypass_tunnel_by (V.router view.now) (V.state view.now) bypass.now }
{
    let number = bypass.1.tunnel;
    let tunnel = view.tunnel(number)?;
    Some(BypassTunnel {
        tunnel: number,
        protects: bypass.1.link,
        ends_at: tunnel.endpoint,
        capacity: bypass.1.capacity,
        over: over_of(view, number, tunnel),
    })
}

/// The bypass of a number. Takes no memory.
pub fn bypass_tunnel_at<V: StateView>(view: &V, number: u16) -> Option<BypassTunnel>
    ensures { result ≡ find nat_cmp number (bypass_tunnels_of (V.router view.now) (V.state view.now)) }
{
    let bypasses = view.bypasses();
    // That no two bypasses have one number.
    let _ = bypasses.as_slice();
    match bypasses.get(&number) {
        Some(bypass) => bypass_tunnel_by(view, &(number, *bypass)),
        None => None,
    }
}

/// What the bypass of a number runs over. It is up where that is something. Takes no memory.
pub fn over_at<V: StateView>(view: &V, number: u16) -> Option<Over>
    ensures { result ≡ over_at (bypass_tunnels_of (V.router view.now) (V.state view.now)) number }
{
    bypass_tunnel_at(view, number)?.over
}
