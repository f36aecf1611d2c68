//! What stands under reservations: links, static routes, time, tunnels, bypasses and paths.

ghost use Rattle.std.specs.Prelude.{◌≡◌, ◌↔◌, IsTrue, [], true};
ghost use Rattle.abstract_paths.specs.Soundness.{IsSignalled, IsStanding};
ghost use Rattle.plain_soundness.specs.Surroundings.{ArePathsOfTunnels, AreSurroundings};

use crate::apart::are_paths;
use crate::checks::{Check, holds_of_all};
use crate::keys::have_same_keys;
use crate::links::are_routes;
use crate::tunnels::{are_bypasses, are_tunnels};
use journal_bytes::Exact;
use lsr_facts::limits::MAX_MOMENT;
use lsr_facts::{Facts, Key, PathFact, Router, Tunnel, TunnelLsp, begins_here, head_key};
use path_steps::is_head;
use plain_views::Known;
use sorted_rows::Table;

/// A path that begins here exactly where its LSP is one of a tunnel's.
#[derive(Drop)]
struct HeadCheck<'a> {
    known: Known<'a>,
}

impl Check<(Key, PathFact)> for HeadCheck<'_> {
    ghost use Rattle.abstract_paths.specs.Soundness.{IsHeadOf};

    ghost Holds = { λ c path. IsHeadOf c.known.router.now c.known.state.now.facts.tunnels path };

    fn holds(&self, path: &(Key, PathFact)) -> bool {
        begins_here(path.1.role) == is_head(&self.known, &path.0)
    }
}

/// Whether a tunnel's LSP has a path, which is asked for what the LSP is.
fn is_signalled(paths: &Table<Key, PathFact>, key: &Key, lsp: &TunnelLsp) -> bool
    ensures { IsTrue result ↔ IsSignalled paths.now key.now lsp.now }
{
    let Some(path) = paths.get(key) else {
        return false;
    };
    match &path.given {
        Some(given) => given.is_same(&lsp.route) && path.tspec.is_same(&lsp.tspec),
        None => false,
    }
}

/// A tunnel whose LSP that is to take the current one's place, if there is one, was signalled.
#[derive(Drop)]
struct PendingCheck<'a> {
    router: &'a Router,
    paths: &'a Table<Key, PathFact>,
}

impl Check<(u16, Tunnel)> for PendingCheck<'_> {
    ghost use Rattle.abstract_paths.specs.Soundness.{IsPendingSignalled};

    ghost Holds = { λ c tunnel. IsPendingSignalled c.router.now c.paths.now tunnel };

    fn holds(&self, tunnel: &(u16, Tunnel)) -> bool {
        let Some(lsp) = &tunnel.1.pending else {
            return true;
        };
        let key = head_key(self.router, tunnel.0, tunnel.1.endpoint, lsp.id);
        is_signalled(self.paths, &key, lsp)
    }
}

/// Whether no path is known to a cold router.
fn is_empty_where_cold(facts: &Facts) -> bool
    ensures { IsTrue result ↔ (facts.now.cold ≡ true → facts.now.paths ≡ []) }
{
    !facts.cold || facts.paths.as_slice().is_empty()
}

/// Whether links, static routes, time, tunnels and bypasses are as they should be.
fn has_surroundings(router: &Router, facts: &Facts) -> bool
    ensures { IsTrue result ↔ AreSurroundings router.now facts.now }
{
    facts.moment <= MAX_MOMENT
        && have_same_keys(facts.up.as_slice(), router.links.as_slice())
        && are_routes(router, &facts.routes)
        && are_tunnels(router, &facts.tunnels)
        && are_bypasses(router, &facts.tunnels, &facts.bypasses)
}

/// Whether paths are as they should be, and those of tunnels are there.
fn has_paths(known: &Known<'_>) -> bool
    ensures { IsTrue result ↔ ArePathsOfTunnels known.now.router.now known.now.state.now.facts }
{
    let router = known.router;
    let facts = &known.state.facts;
    let check = PendingCheck {
        router,
        paths: &facts.paths,
    };
    are_paths(router, facts.moment, &facts.paths)
        && holds_of_all(&HeadCheck { known: *known }, facts.paths.as_slice())
        && holds_of_all(&check, facts.tunnels.as_slice())
        && is_empty_where_cold(facts)
}

/// Whether links, static routes, time, tunnels, bypasses and paths are as they should be.
pub(crate) fn is_standing(known: &Known<'_>) -> bool
    ensures { IsTrue result ↔ IsStanding known.now.router.now known.now.state.now.facts }
{
    has_surroundings(known.router, &known.state.facts) && has_paths(known)
}
