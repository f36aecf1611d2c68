//! What bypasses ask of tunnels: a bypass may not run over the link that it protects (RFC 4090, 3.2), and its tunnel carries
//! its capacity (RFC 4090, 4.3).

ghost use Rattle.std.specs.Prelude.{◌≡◌};
ghost use Rattle.lsr_facts.specs.Bypasses.{is_above_rate, is_for_bypass, is_to_protect};
ghost use Rattle.abstract_paths.specs.Commands.{is_onto_its_link, runs_over};
ghost use Rattle.explicit_routes.specs.Choosing.{choice_of};

use explicit_routes::Way;
use lsr_facts::{Bypass, Tunnel, current_key};
use path_steps::leaves_by;
use sorted_rows::Table;
use state_views::StateView;

/// Whether a bypass runs in the tunnel of this number.
pub(crate) fn is_for_bypass(bypasses: &Table<u16, Bypass>, tunnel: u16) -> bool
    ensures { result ≡ is_for_bypass bypasses.now tunnel }
{
    bypasses
        .as_slice()
        .iter()
        .any(|bypass| bypass.1.tunnel == tunnel)
}

/// Whether one does that protects this link.
fn is_to_protect(bypasses: &Table<u16, Bypass>, tunnel: u16, link: u16) -> bool
    ensures { result ≡ is_to_protect bypasses.now tunnel link }
{
    bypasses.as_slice().iter().any(|bypass| bypass.1.tunnel == tunnel && bypass.1.link == link)
}

/// Whether a bypass that runs in the tunnel of this number has more capacity than this rate, in bytes per second (RFC 4090,
/// 4.3).
pub(crate) fn is_above_rate(bypasses: &Table<u16, Bypass>, tunnel: u16, rate: u64) -> bool
    ensures { result ≡ is_above_rate bypasses.now tunnel rate }
{
    bypasses.as_slice().iter().any(|bypass| bypass.1.tunnel == tunnel && rate < bypass.1.capacity)
}

/// Whether the current LSP of a tunnel has a path, and leaves by the link.
pub(crate) fn runs_over<V: StateView>(view: &V, link: u16, number: u16, tunnel: &Tunnel) -> bool
    ensures { result ≡ runs_over (V.router view.now) (V.state view.now).facts link (number, tunnel.now) }
{
    match view.path(&current_key(view.node().router, number, tunnel)) {
        Some(path) => leaves_by(link, path),
        None => false,
    }
}

/// Whether a way leaves by a link that a bypass in the tunnel of this number protects.
pub(crate) fn is_onto_its_link(bypasses: &Table<u16, Bypass>, number: u16, way: &Way) -> bool
    ensures { result ≡ is_onto_its_link bypasses.now number (choice_of way.now) }
{
    match way {
        Way::Tail => false,
        Way::Link(link, _) => is_to_protect(bypasses, number, *link),
    }
}
