//! The tunnels that a moment tries: those whose current LSP has no path (RFC 3209, 2.1).

ghost use Rattle.std.specs.FinMap.Entries.{is_sorted};
ghost use Rattle.std.specs.Prelude.{◌≡◌, IfOk, T, count_by, is_none, length};
ghost use Rattle.lsr_facts.specs.Orders.{key_cmp};
ghost use Rattle.lsr_facts.specs.Tunnels.{AreTunnels, IsTunnel};
ghost use Rattle.abstract_paths.specs.Changes.{with_path};
ghost use Rattle.abstract_paths.specs.Heads.{signalled, tried};
ghost use Rattle.abstract_router.specs.States.{State, with_facts};
ghost use Rattle.state_views.specs.Edits.{edited};
ghost use Rattle.path_steps.specs.Signalling.{AreOfKnown, IsCounted, is_passed_over};

use crate::heads::head_of;
use lsr_facts::limits::MAX_LSPS;
use lsr_facts::{Key, PathFact, Tunnel, current_key};
use state_views::{Changed, Edits, StateView, WholeState};
use std::alloc::{AllocError, Global};

/// What changes as tunnels are tried, one after the other.
#[derive(Debug, Drop)]
struct Counted {
    /// The edits so far.
    edits: Edits,
    /// How many paths are known after them.
    count: usize,
}

/// How many of the edits take a row away.
fn gone_count<K, V>(edits: &[(K, Option<V>)]) -> usize
    ensures { result ≡ count_by (λ edit. is_none edit.1) edits.now }
{
    edits.iter().filter(|edit| edit.1.is_none()).count()
}

/// How many paths are known after edits of known ones.
fn path_count<V: WholeState>(view: &V, edits: &Edits) -> usize
    requires order { T (is_sorted key_cmp (V.state view.now).facts.paths) }
    requires known { AreOfKnown edits.now (V.state view.now) }
    ensures { result ≡ length (edited edits.now (V.state view.now)).facts.paths }
{
    view.path_count() - gone_count(edits.paths.as_slice())
}

/// Whether a tunnel isn't tried after what changed so far: there is no room for another path, or its current LSP has one.
fn is_passed_over<V: StateView>(view: &V, so_far: &Counted, number: u16, tunnel: &Tunnel) -> bool
    requires { IsCounted so_far.now (V.state view.now) }
    ensures { result ≡ is_passed_over (V.router view.now)
        (edited so_far.now.edits (V.state view.now)).facts (number, tunnel.now) }
{
    let key = current_key(view.node().router, number, tunnel);
    let changed = Changed {
        under: view,
        edits: &so_far.edits,
    };
    so_far.count >= MAX_LSPS || changed.path(&key).is_some()
}

/// Edits, and then an LSP has this path. The only error is out of memory.
fn put_path(edits: Edits, key: Key, path: PathFact) -> Result<Edits, AllocError>
    ensures { IfOk result (λ after. (s : State) → T (is_sorted key_cmp s.facts.paths) →
        edited after s ≡ with_facts (with_path key path (edited edits s).facts) (edited edits s)) }
{
    let mut edits = edits;
    edits.paths.set(key, Some(path))?;
    Ok(edits)
}

/// A tunnel is tried after what changed so far, if its current LSP has no path and there is room for one. The only error
/// is out of memory.
fn tried<V: StateView>(
    alloc: Global,
    view: &V,
    so_far: Counted,
    number: u16,
    tunnel: &Tunnel,
) -> Result<Counted, AllocError>
    requires order { T (is_sorted key_cmp (V.state view.now).facts.paths) }
    requires tunnel { IsTunnel (V.router view.now) (number, tunnel.now) }
    requires counted { IsCounted so_far (V.state view.now) }
    ensures counted { IfOk result (λ after. IsCounted after (V.state view.now)) }
    ensures tried { IfOk result (λ after. edited after.edits (V.state view.now) ≡ with_facts
        (tried (V.router view.now) (edited so_far.edits (V.state view.now)).facts (number, tunnel.now))
        (edited so_far.edits (V.state view.now))) }
{
    if is_passed_over(view, &so_far, number, tunnel) {
        return Ok(so_far);
    }
    let Counted { edits, count } = so_far;
    let changed = Changed {
        under: view,
        edits: &edits,
    };
    match head_of(alloc, &changed, number, tunnel, &tunnel.current)? {
        Some((key, path)) => Ok(Counted {
            edits: put_path(edits, key, path)?,
            count: count + 1,
        }),
        None => Ok(Counted { edits, count }),
    }
}

/// Edits of known paths, and then each tunnel is tried, in the order of their numbers, whose current LSP has no path. The
/// only error is out of memory.
#[tactic(auto, unfolding(abstract_paths::specs::Heads::signalled))]
pub fn signalled<V: WholeState>(alloc: Global, view: &V, edits: Edits) -> Result<Edits, AllocError>
    requires order { T (is_sorted key_cmp (V.state view.now).facts.paths) }
    requires tunnels { AreTunnels (V.router view.now) (V.state view.now).facts.tunnels }
    requires known { AreOfKnown edits (V.state view.now) }
    ensures { IfOk result (λ after. edited after (V.state view.now) ≡ with_facts
        (signalled (V.router view.now) (edited edits (V.state view.now)).facts)
        (edited edits (V.state view.now))) }
{
    let tunnels = view.tunnels();
    if tunnels.is_empty() {
        return Ok(edits);
    }
    let count = path_count(view, &edits);
    let mut so_far = Counted { edits, count };
    for row in tunnels {
        so_far = tried(alloc, view, so_far, row.0, &row.1)?;
    }
    Ok(so_far.edits)
}
