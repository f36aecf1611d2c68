//! What the keeper of the bandwidth of links has to be told of a step's edits: beside each reservation the priority at
//! which its path has it kept.

ghost use Rattle.std.specs.FinMap.Entries.{find, is_sorted};
ghost use Rattle.std.specs.List.{AllByRecursion};
ghost use Rattle.std.specs.Option.{option_and_then, option_copied, option_map};
ghost use Rattle.std.specs.Prelude.{◌≡◌, ◌≤◌, IfOk, IsOk, T, map};
ghost use Rattle.rsvp_bodies.specs.Traffic.{flowspec_rate};
ghost use Rattle.sorted_rows.specs.Edits.{edited};
ghost use Rattle.lsr_facts.specs.Orders.{key_cmp};
ghost use Rattle.lsr_facts.specs.declared.key.Key.{Key};
ghost use Rattle.lsr_facts.specs.Priorities.{holding_of};
ghost use Rattle.abstract_router.specs.Preempting.{claims_of};
ghost use Rattle.admission.specs.Bandwidths.{AreEdits, claim_edits, resv_edits};
ghost use Rattle.state_settling.specs.Keeping.{edit_at, holding_at, kept_edit, moved, with_edit};

use lsr_facts::{Key, PathFact, ResvFact, holding_of};
use sorted_rows::{Table, TryCopy};
use state_views::StateView;
use std::alloc::{AllocError, Global};

/// Edits of paths.
type PathEdits = Table<Key, Option<PathFact>>;

/// Edits of reservations.
type ResvEdits = Table<Key, Option<ResvFact>>;

/// Edits of what LSPs have: from now on this reservation, kept at this priority, or none.
type BandwidthEdits = Table<Key, Option<(ResvFact, u8)>>;

/// The priority, 0 (best) to 7, at which a path has its LSP's reservation kept.
fn holding_on(path: Option<&PathFact>) -> u8
    ensures { result ≡ holding_of (option_and_then (λ fact. fact.attr) (option_copied path.entry)) }
{
    match path {
        Some(path) => holding_of(path.attr.as_ref()),
        None => holding_of(None),
    }
}

/// The priority at which an LSP's path has its reservation kept.
fn holding_at<V: StateView>(view: &V, key: &Key) -> u8
    ensures { result ≡ holding_at (V.state view.now).facts.paths key.now }
{
    holding_on(view.path(key))
}

/// The priority at which an LSP's path has its reservation kept, after edits of paths.
#[tactic(auto, using(state_views::specs::EditLaws::row_edited))]
fn holding_after<V: StateView>(view: &V, paths: &PathEdits, key: &Key) -> u8
    ensures { result ≡ holding_at (edited key_cmp paths.now (V.state view.now).facts.paths) key.now }
{
    match paths.get(key) {
        Some(edit) => holding_on(edit.as_ref()),
        None => holding_at(view, key),
    }
}

/// A reservation, if there is one, kept at a priority.
fn kept_at(now: Option<ResvFact>, holding: u8) -> Option<(ResvFact, u8)>
    ensures { result ≡ option_map (λ fact. (fact, holding)) now }
{
    match now {
        Some(fact) => Some((fact, holding)),
        None => None,
    }
}

/// The edits of reservations, beside each the priority at which it is kept after the edits of paths.
fn kept_rows<V: StateView>(
    alloc: Global,
    view: &V,
    paths: &PathEdits,
    mut resvs: Vec<(Key, Option<ResvFact>)>,
) -> Result<Vec<(Key, Option<(ResvFact, u8)>)>, AllocError>
    ensures { IfOk result (λ edits. edits.items
        ≡ map (kept_edit (edited key_cmp paths.now (V.state view.now).facts.paths)) resvs.items) }
{
    resvs.reverse();
    let mut edits = Vec::new(alloc);
    while let Some((key, now)) = resvs.pop() {
        let holding = holding_after(view, paths, &key);
        edits.push((key, kept_at(now, holding)))?;
    }
    Ok(edits)
}

/// The table of the edits of reservations, beside each the priority at which it is kept after the edits of paths.
fn kept_edits<V: StateView>(
    alloc: Global,
    view: &V,
    paths: &PathEdits,
    resvs: ResvEdits,
) -> Result<BandwidthEdits, AllocError>
    ensures { IfOk result (λ edits. edits
        ≡ map (kept_edit (edited key_cmp paths.now (V.state view.now).facts.paths)) resvs) }
{
    Ok(Table::from_rows(kept_rows(alloc, view, paths, resvs.into_rows())?))
}

/// What an LSP has, where its path has it kept at another priority after the edits of paths.
#[tactic(auto, using(crate::proofs::Moving::unmoved))]
fn moved<V: StateView>(
    alloc: Global,
    view: &V,
    paths: &PathEdits,
    key: &Key,
) -> Result<Option<(ResvFact, u8)>, AllocError>
    ensures { IfOk result (λ edit. edit ≡ moved (V.state view.now).facts.paths
        (edited key_cmp paths.now (V.state view.now).facts.paths) (V.state view.now).resvs key.now) }
{
    let holding = holding_after(view, paths, key);
    if holding == holding_at(view, key) {
        return Ok(None);
    }
    let Some(fact) = view.resv(key) else {
        return Ok(None);
    };
    Ok(Some((fact.try_copy(alloc)?, holding)))
}

/// Among edits that of an LSP whose path is edited, where it has none yet.
fn with_one<V: StateView>(
    alloc: Global,
    view: &V,
    paths: &PathEdits,
    key: Key,
    edits: BandwidthEdits,
) -> Result<BandwidthEdits, AllocError>
    ensures { IfOk result (λ all. all ≡ with_edit key (moved (V.state view.now).facts.paths
        (edited key_cmp paths.now (V.state view.now).facts.paths) (V.state view.now).resvs key) edits) }
{
    let mut all = edits;
    if all.contains_key(&key) {
        return Ok(all);
    }
    if let Some(moved) = moved(alloc, view, paths, &key)? {
        all.set(key, Some(moved))?;
    }
    Ok(all)
}

/// Among edits those of the LSPs whose paths are edited that have none yet.
fn with_moved<V: StateView>(
    alloc: Global,
    view: &V,
    paths: &PathEdits,
    kept: BandwidthEdits,
) -> Result<BandwidthEdits, AllocError>
    ensures edits { IfOk result (λ edits. (key : Key) → find key_cmp key edits
        ≡ edit_at (find key_cmp key kept) (find key_cmp key paths.now) (moved (V.state view.now).facts.paths
        (edited key_cmp paths.now (V.state view.now).facts.paths) (V.state view.now).resvs key)) }
    ensures sorted { IfOk result (λ edits. T (is_sorted key_cmp edits)) }
{
    let touched = paths.as_slice();
    let mut edits = kept;
    for path in touched {
        edits = with_one(alloc, view, paths, path.0, edits)?;
    }
    // That they are in order: each is found under its key for this reason.
    let _ = edits.as_slice();
    Ok(edits)
}

/// What [`admission::Admission::edit`] is told of a step's edits of paths and of reservations: the edits of reservations,
/// and of each other LSP whose path has its reservation kept at another priority from now on, that reservation at this. It
/// asks that each reservation after them has a rate. The only error is out of memory.
pub fn bandwidth_edits<V: StateView>(
    alloc: Global,
    view: &V,
    paths: &PathEdits,
    resvs: ResvEdits,
) -> Result<BandwidthEdits, AllocError>
    requires before { T (is_sorted key_cmp (V.state view.now).resvs) }
    requires rated { AllByRecursion (λ resv. IsOk (flowspec_rate resv.1.flowspec))
        (edited key_cmp resvs (V.state view.now).resvs) }
    ensures resvs { IfOk result (λ edits. edited key_cmp (resv_edits edits) (V.state view.now).resvs
        ≡ edited key_cmp resvs (V.state view.now).resvs) }
    ensures claims { IfOk result (λ edits.
        edited key_cmp (claim_edits edits) (claims_of (V.state view.now).facts.paths (V.state view.now).resvs)
        ≡ claims_of (edited key_cmp paths.now (V.state view.now).facts.paths) (edited key_cmp resvs (V.state view.now).resvs)) }
    ensures edits { IfOk result (λ edits. AreEdits edits) }
{
    let kept = kept_edits(alloc, view, paths, resvs)?;
    with_moved(alloc, view, paths, kept)
}
