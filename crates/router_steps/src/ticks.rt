//! What a moment that comes does (RFC 2205, 2.3 and 3.7).

ghost use Rattle.std.specs.FinMap.Entries.{find, is_sorted};
ghost use Rattle.std.specs.List.{AllByRecursion};
ghost use Rattle.std.specs.Prelude.{◌≡◌, IfOk, OnErr, T, false, is_some, true};
ghost use Rattle.lsr_facts.specs.Lifetimes as paths;
ghost use Rattle.lsr_facts.specs.Orders.{key_cmp};
ghost use Rattle.lsr_facts.specs.Tunnels.{AreTunnels};
ghost use Rattle.lsr_facts.specs.Reservations as resvs;
ghost use Rattle.sorted_rows.specs.Edits as rows;
ghost use Rattle.abstract_router.specs.Arrivals.{moment_comes};
ghost use Rattle.state_views.specs.Drafts.{IsDraft};
ghost use Rattle.state_views.specs.Edits.{edited};
ghost use Rattle.router_steps.specs.Expiring.{expired, expiry_at, left_of};
ghost use Rattle.path_steps.specs.Signalling.{AreOfKnown};

use lsr_facts::limits::MAX_MOMENT;
use lsr_facts::{Key, PathFact, Refusal, Repair, Reply, ResvFact, keep_living, lives_on};
use message_rules::Outputs;
use path_steps::signalled;
use sorted_rows::{Table, TryCopy};
use state_views::{Draft, Edits, StateView, WholeState, refused, without_rows};
use std::alloc::{AllocError, Global};

/// What a moment leaves of an LSP's path: nothing, or the path with the origins that live past it.
fn left_of(
    alloc: Global,
    moment: u64,
    key: Key,
    fact: &PathFact,
) -> Result<Option<PathFact>, AllocError>
    ensures { IfOk result (λ left. left ≡ left_of moment (key, fact.now)) }
{
    let mut path = (key, fact.try_copy(alloc)?);
    if !lives_on(moment, &path) {
        return Ok(None);
    }
    keep_living(moment, &mut path.1);
    Ok(Some(path.1))
}

/// What a moment leaves of an LSP's path, as an edit, if a path of it is known.
fn expiry_at<V: StateView>(
    alloc: Global,
    view: &V,
    moment: u64,
    key: &Key,
) -> Result<Option<(Key, Option<PathFact>)>, AllocError>
    ensures { IfOk result (λ edit. edit ≡ expiry_at moment (V.state view.now).facts.paths key.now) }
{
    match view.path(key) {
        Some(fact) => Ok(Some((*key, left_of(alloc, moment, *key, fact)?))),
        None => Ok(None),
    }
}

/// The edits by which that goes of paths which has expired at a moment. The only error is out of memory.
fn path_expiries<V: WholeState>(
    alloc: Global,
    view: &V,
    moment: u64,
) -> Result<Table<Key, Option<PathFact>>, AllocError>
    requires { T (is_sorted key_cmp (V.state view.now).facts.paths) }
    ensures known { IfOk result (λ edits. AllByRecursion
        (λ edit. is_some (find key_cmp edit.0 (V.state view.now).facts.paths) ≡ true) edits) }
    ensures left { IfOk result (λ edits. rows.edited key_cmp edits (V.state view.now).facts.paths
        ≡ paths.expire moment (V.state view.now).facts.paths) }
{
    let keys = view.expiring_paths(alloc, moment)?;
    let mut edits = Vec::new(alloc);
    for key in keys.as_slice() {
        if let Some(edit) = expiry_at(alloc, view, moment, key)? {
            edits.push(edit)?;
        }
    }
    Ok(Table::from_rows(edits))
}

/// The edits by which the reservations go that have expired at a moment. The only error is out of memory.
fn resv_expiries<V: WholeState>(
    alloc: Global,
    view: &V,
    moment: u64,
) -> Result<Table<Key, Option<ResvFact>>, AllocError>
    requires { T (is_sorted key_cmp (V.state view.now).resvs) }
    ensures { IfOk result (λ edits. rows.edited key_cmp edits (V.state view.now).resvs
        ≡ resvs.expire_resvs moment (V.state view.now).resvs) }
{
    let keys = view.expiring_resvs(alloc, moment)?;
    without_rows(Table::new(alloc), keys.as_slice())
}

/// The edits by which the repairs go that have expired at a moment. The only error is out of memory.
fn repair_expiries<V: WholeState>(
    alloc: Global,
    view: &V,
    moment: u64,
) -> Result<Table<Key, Option<Repair>>, AllocError>
    requires { T (is_sorted key_cmp (V.state view.now).repairs) }
    ensures { IfOk result (λ edits. rows.edited key_cmp edits (V.state view.now).repairs
        ≡ resvs.expire_repairs moment (V.state view.now).repairs) }
{
    let keys = view.expiring_repairs(alloc, moment)?;
    without_rows(Table::new(alloc), keys.as_slice())
}

/// The edits by which a moment comes, that goes of paths, of reservations and of repairs which has expired, and labels are
/// free whose rest is over. The only error is out of memory.
fn expiries<V: WholeState>(alloc: Global, view: &V, moment: u64) -> Result<Edits, AllocError>
    requires paths { T (is_sorted key_cmp (V.state view.now).facts.paths) }
    requires resvs { T (is_sorted key_cmp (V.state view.now).resvs) }
    requires repairs { T (is_sorted key_cmp (V.state view.now).repairs) }
    ensures known { IfOk result (λ edits. AreOfKnown edits (V.state view.now)) }
    ensures left { IfOk result (λ edits. edited edits (V.state view.now) ≡ expired moment (V.state view.now)) }
{
    let mut edits = Edits::none(alloc);
    edits.moment = Some(moment);
    edits.paths = path_expiries(alloc, view, moment)?;
    edits.resvs = resv_expiries(alloc, view, moment)?;
    edits.repairs = repair_expiries(alloc, view, moment)?;
    Ok(edits)
}

/// What it does that a moment comes, in milliseconds: what has expired goes of paths, of reservations and of repairs,
/// labels are free whose rest is over, tunnels without a path are tried, and messages are due. The only error is out of
/// memory.
#[tactic(auto, unfolding(abstract_paths::specs::Time::tick, abstract_router::specs::Arrivals::moment_comes))]
pub(crate) fn tick<V: WholeState>(alloc: Global, view: &V, moment: u64) -> Result<Draft, AllocError>
    requires paths { T (is_sorted key_cmp (V.state view.now).facts.paths) }
    requires resvs { T (is_sorted key_cmp (V.state view.now).resvs) }
    requires repairs { T (is_sorted key_cmp (V.state view.now).repairs) }
    requires tunnels { AreTunnels (V.router view.now) (V.state view.now).facts.tunnels }
    ensures draft { IfOk result (λ draft. IsDraft draft
        (moment_comes (V.router view.now) (V.state view.now) moment)
        (V.router view.now) (V.state view.now)) }
    ensures memory { OnErr result
        ((moment_comes (V.router view.now) (V.state view.now) moment).is_silent ≡ false) }
{
    if moment > MAX_MOMENT {
        return Ok(refused(alloc, view, Refusal::BadMoment));
    }
    if moment < view.moment() {
        return Ok(refused(alloc, view, Refusal::Late));
    }
    let gone = expiries(alloc, view, moment)?;
    Ok(Draft {
        reply: Reply::Done,
        errors: Outputs::new(alloc),
        due: Some(moment),
        is_silent: false,
        edits: signalled(alloc, view, gone)?,
    })
}
