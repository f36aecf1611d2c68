//! Whether edits leave what all LSPs share as it is: the links that are up, the static routes and the bypasses.

ghost use Rattle.std.specs.List.{list_any};
ghost use Rattle.std.specs.Prelude.{◌≡◌, filter_map, true};
ghost use Rattle.abstract_router.specs.BypassTunnels.{bypass_tunnel_by};
ghost use Rattle.abstract_router.specs.Lsps.{around_of};
ghost use Rattle.facility_backup.specs.Asking.{row_by};
ghost use Rattle.facility_backup.specs.Carrying.{leaves_tunnels, names_tunnel, runs_bypass};
ghost use Rattle.state_views.specs.Edits.{edited};

use crate::bypass_tunnels::bypass_tunnel_by;
use crate::protecting::names_tunnel;
use lsr_facts::{Bypass, BypassTunnel, Key, Router};
use state_views::{Changed, Edits, StateView};

/// Whether an LSP is one of a tunnel that begins here, in which one of these bypasses runs.
fn runs_bypass(router: &Router, bypasses: &[(u16, Bypass)], key: &Key) -> bool
    ensures { result ≡ runs_bypass router.now bypasses.now key.now }
{
    key.session.extended == router.id && names_tunnel(bypasses, key.session.tunnel)
}

/// Whether one of these LSPs is.
fn any_runs_bypass<E>(router: &Router, bypasses: &[(u16, Bypass)], lsps: &[(Key, E)]) -> bool
    ensures { result ≡ list_any (λ lsp. runs_bypass router.now bypasses.now lsp.0) lsps.now }
{
    lsps.iter().any(|lsp| runs_bypass(router, bypasses, &lsp.0))
}

/// Whether one of these tunnels is one in which a bypass runs.
fn any_named<E>(bypasses: &[(u16, Bypass)], tunnels: &[(u16, E)]) -> bool
    ensures { result ≡ list_any (λ tunnel. names_tunnel bypasses.now tunnel.0) tunnels.now }
{
    tunnels
        .iter()
        .any(|tunnel| names_tunnel(bypasses, tunnel.0))
}

/// Whether edits are of no tunnel in which one of these bypasses runs, and of no reservation and no path of its LSPs: then
/// none of them has to be looked up.
fn leaves_tunnels(router: &Router, bypasses: &[(u16, Bypass)], edits: &Edits) -> bool
    ensures { result ≡ leaves_tunnels router.now bypasses.now edits.now }
{
    !any_named(bypasses, edits.tunnels.as_slice())
        && !any_runs_bypass(router, bypasses, edits.resvs.as_slice())
        && !any_runs_bypass(router, bypasses, edits.paths.as_slice())
}

/// Whether these are the same bypass.
fn is_same_bypass_tunnel(was: Option<BypassTunnel>, now: Option<BypassTunnel>) -> bool
    ensures { result ≡ true → was ≡ now }
{
    was == now
}

/// Whether edits leave these bypasses as they are: where they end, and what they run over.
fn leaves_each<V: StateView>(view: &V, edits: &Edits, bypasses: &[(u16, Bypass)]) -> bool
    ensures { let r = V.router view.now in
        let s = V.state view.now in
        result ≡ true → filter_map (row_by r s) bypasses.now ≡ filter_map (row_by r (edited edits.now s)) bypasses.now }
{
    let changed = Changed { under: view, edits };
    for bypass in bypasses {
        if !is_same_bypass_tunnel(
            bypass_tunnel_by(view, bypass),
            bypass_tunnel_by(&changed, bypass),
        ) {
            return false;
        }
    }
    true
}

/// Whether edits leave links, static routes and bypasses as they are. It says no wherever one of the three came or went.
/// Takes no memory.
#[tactic(auto, using(crate::proofs::Rows::same_around))]
pub fn is_same_around<V: StateView>(view: &V, edits: &Edits) -> bool
    ensures { let r = V.router view.now in
        let s = V.state view.now in
        result ≡ true → around_of r s ≡ around_of r (edited edits.now s) }
{
    if edits.up.is_some() || edits.routes.is_some() || edits.bypasses.is_some() {
        return false;
    }
    let bypasses = view.bypasses().as_slice();
    if leaves_tunnels(view.node().router, bypasses, edits) {
        return true;
    }
    leaves_each(view, edits, bypasses)
}
