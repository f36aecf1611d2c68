//! The bypass over which an LSP would be repaired, and what its records say of that (RFC 4090, 4.4 and 6.4.2).

ghost use Rattle.std.specs.Prelude.{◌≡◌, ◌≤◌};
ghost use Rattle.abstract_router.specs.Lsps.{around_of, lsp_of};
ghost use Rattle.abstract_router.specs.Protecting.{is_preferred, selected};
ghost use Rattle.abstract_router.specs.Upstreams.{bandwidth_flag, flags_ready, own_flags, protection_flags};
ghost use Rattle.facility_backup.specs.Asking.{candidate_by};
ghost use Rattle.facility_backup.specs.Choosing.{best_of};
ghost use Rattle.facility_backup.specs.Serving.{bypass_flags, serves, serving_by};

use crate::bypass_tunnels::bypass_tunnel_by;
use crate::protecting::{is_preferred, is_protected, selected_by};
use lsr_facts::{Assignment, Bypass, Key, PathFact, ResvFact, Selected};
use state_views::StateView;

/// The flag of a recorded router that it protects the LSP (RFC 4090, 4.4).
const PROTECTION_AVAILABLE: u8 = 0x01;
/// The flag that the LSP runs over a bypass.
const PROTECTION_IN_USE: u8 = 0x02;
/// The flag that the LSP's bandwidth is protected.
const BANDWIDTH_PROTECTION: u8 = 0x04;
/// The flag that the next router is protected too.
const NODE_PROTECTION: u8 = 0x08;

/// A bypass as a candidate for a reservation.
fn candidate_by<V: StateView>(view: &V, resv: &ResvFact, bypass: &(u16, Bypass)) -> Option<Selected>
    ensures { result ≡ candidate_by (V.router view.now) (V.state view.now) resv.now bypass.now }
{
    let bypass_tunnel = bypass_tunnel_by(view, bypass)?;
    selected_by(view.node().router, resv, bypass.0, &bypass_tunnel)
}

/// Whether a bypass may serve an LSP that is promised this: one that is promised bandwidth is served by that bypass alone, any
/// other by a bypass that has none to promise.
fn serves(given: Option<Assignment>, bypass: &(u16, Bypass)) -> bool
    ensures { result ≡ serves given bypass.now }
{
    match given {
        Some(given) => bypass.0 == given.bypass,
        None => bypass.1.capacity == 0,
    }
}

/// A bypass as a candidate for a reservation, where it may serve.
fn serving_by<V: StateView>(
    view: &V,
    given: Option<Assignment>,
    resv: &ResvFact,
    bypass: &(u16, Bypass),
) -> Option<Selected>
    ensures { result ≡ serving_by (V.router view.now) (V.state view.now) given resv.now bypass.now }
{
    if serves(given, bypass) {
        candidate_by(view, resv, bypass)
    } else {
        None
    }
}

/// The first candidate among these bypasses that may serve and that the head prefers, else the first that may serve.
fn best_of<V: StateView>(
    view: &V,
    path: &PathFact,
    given: Option<Assignment>,
    resv: &ResvFact,
    bypasses: &[(u16, Bypass)],
) -> Option<Selected>
    ensures { result ≡ best_of (is_preferred path.now)
        (serving_by (V.router view.now) (V.state view.now) given resv.now) bypasses.now None }
{
    let mut first = None;
    for bypass in bypasses {
        if let Some(choice) = serving_by(view, given, resv, bypass) {
            if is_preferred(path, choice) {
                return Some(choice);
            }
            first = first.or(Some(choice));
        }
    }
    first
}

/// The bypass over which a protected LSP with this promise, or with none, would be repaired: of those that may
/// serve it and are up around its link, in the order of their numbers, the first that ends where the head would have it, else
/// the first (RFC 4090, 4.3 and 6.4.2). Takes no memory.
pub fn select<V: StateView>(
    view: &V,
    key: &Key,
    path: &PathFact,
    given: Option<Assignment>,
    resv: &ResvFact,
) -> Option<Selected>
    ensures { result ≡ selected (around_of (V.router view.now) (V.state view.now)) key.now path.now given resv.now }
{
    if !is_protected(view, key, path) {
        return None;
    }
    best_of(view, path, given, resv, view.bypasses().as_slice())
}

/// How a bypass protects, in this router's own entry of a record (RFC 4090, 4.4).
fn protection_flags(in_use: bool, is_nnhop: bool) -> u8
    ensures flags { result ≡ protection_flags in_use is_nnhop }
    ensures most { result ≤ 0x0b }
{
    let use_flag = if in_use { PROTECTION_IN_USE } else { 0 };
    let node_flag = if is_nnhop { NODE_PROTECTION } else { 0 };
    PROTECTION_AVAILABLE + use_flag + node_flag
}

/// How an LSP is protected that is reserved: by the bypass over which it would be repaired, if there is one.
#[tactic(auto, using(crate::proofs::Rows::selected_timeless))]
fn flags_ready<V: StateView>(view: &V, key: &Key, path: &PathFact, resv: &ResvFact) -> u8
    ensures flags { let s = V.state view.now in
        result ≡ flags_ready (around_of (V.router view.now) s) (key.now, lsp_of s key.now path.now) resv.now }
    ensures most { result ≤ 0x0b }
{
    match select(view, key, path, view.assignment(key), resv) {
        Some(choice) => protection_flags(false, choice.is_nnhop),
        None => 0,
    }
}

/// How an LSP is protected by a bypass: the one over which it runs, or would run.
fn bypass_flags<V: StateView>(view: &V, key: &Key, path: &PathFact) -> u8
    ensures flags { let s = V.state view.now in
        result ≡ bypass_flags (around_of (V.router view.now) s) (key.now, lsp_of s key.now path.now) }
    ensures most { result ≤ 0x0b }
{
    if let Some(resv) = view.resv(key) {
        return flags_ready(view, key, path, resv);
    }
    match view.repair(key) {
        Some(repair) => protection_flags(true, repair.is_nnhop),
        None => 0,
    }
}

/// That the bandwidth is protected of an LSP that is promised some of a bypass (RFC 4090, 4.4).
fn bandwidth_flag(given: Option<Assignment>) -> u8
    ensures { result ≡ bandwidth_flag given }
{
    if given.is_some() {
        BANDWIDTH_PROTECTION
    } else {
        0
    }
}

/// How this router protects an LSP, as its own entry of a record says it (RFC 4090, 4.4): by the bypass over which the LSP
/// runs, or would run, and whether with bandwidth. Takes no memory.
#[tactic(auto, unfolding(abstract_router::specs::Upstreams::own_flags))]
pub fn own_flags<V: StateView>(view: &V, key: &Key, path: &PathFact) -> u8
    ensures { let s = V.state view.now in
        result ≡ own_flags (around_of (V.router view.now) s) (key.now, lsp_of s key.now path.now) }
{
    bypass_flags(view, key, path) + bandwidth_flag(view.assignment(key))
}
