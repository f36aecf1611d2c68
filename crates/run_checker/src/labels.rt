//! Whether labels may be chosen.

ghost use Rattle.std.specs.FinMap.Entries.{is_sorted};
ghost use Rattle.std.specs.List.{AllByRecursion};
ghost use Rattle.std.specs.Prelude.{◌≡◌, ◌↔◌, IfErr, IfOk, IsTrue, T};
ghost use Rattle.sorted_rows.specs.Edits as rows;
ghost use Rattle.sorted_rows.specs.Rows.{keys_of};
ghost use Rattle.lsr_facts.specs.Orders.{key_cmp};
ghost use Rattle.label_space.specs.FreeLabels.{is_free, is_held};
ghost use Rattle.abstract_router.specs.Choosing.{CanLabel};
ghost use Rattle.abstract_router.specs.Labels.{IsLabelling, MayBeGiven};
ghost use Rattle.run_checker.specs.Faulty.{IsNoLabelling};
ghost use Rattle.run_checker.specs.Labelling.{IsChoiceLike};

use crate::fault::{EntryFault, Stop};
use journal_bytes::are_same_items;
use lsr_facts::{Key, PathFact, State};
use plain_views::{Known, SoundView};
use sorted_rows::Table;
use state_settling::chosen_labels;
use std::alloc::{AllocError, Global};

/// Whether an LSP holds a label.
fn is_held(labels: &[(Key, u32)], label: u32) -> bool
    ensures { result ≡ is_held labels.now label }
{
    labels.iter().any(|held| held.1 == label)
}

/// Whether no LSP holds a label, and it doesn't rest.
fn is_free(state: &State, label: u32) -> bool
    ensures { result ≡ is_free state.now.labels state.now.resting label }
{
    !is_held(state.labels.as_slice(), label) && !state.resting.contains_key(&label)
}

/// Whether a label is in the router's range, and free.
fn may_be_given(known: &Known<'_>, label: u32) -> bool
    ensures { IsTrue result ↔ MayBeGiven known.now.router.now known.now.state.now.labels known.now.state.now.resting label }
{
    let range = known.router.labels;
    range.first <= label && label <= range.last && is_free(known.state, label)
}

/// Whether each of some labels is in the router's range, and free.
fn may_be_given_each(known: &Known<'_>, labels: &[(Key, u32)]) -> bool
    ensures { IsTrue result ↔ AllByRecursion (λ row. MayBeGiven known.now.router.now known.now.state.now.labels
        known.now.state.now.resting row.1) labels.now }
{
    for row in labels {
        if !may_be_given(known, row.1) {
            return false;
        }
    }
    true
}

/// The LSPs that labels are of. The only error is out of memory.
fn lsps_of(alloc: Global, labels: &[(Key, u32)]) -> Result<Vec<Key>, AllocError>
    ensures { IfOk result (λ keys. keys.items ≡ keys_of labels.now) }
{
    labels.iter().map(|row| row.0).collect(alloc)
}

/// Whether labels are of the LSPs that others are of, and may be given. The only error is out of memory.
fn are_like(
    alloc: Global,
    known: &Known<'_>,
    others: &[(Key, u32)],
    labels: &[(Key, u32)],
) -> Result<bool, AllocError>
    ensures { IfOk result (λ yes. IsTrue yes ↔ IsChoiceLike known.now.router.now known.now.state.now others.now labels.now) }
{
    let lsps = lsps_of(alloc, labels)?;
    let others = lsps_of(alloc, others)?;
    Ok(are_same_items(lsps.as_slice(), others.as_slice()) && may_be_given_each(known, labels))
}

/// An entry's labels, where they may be chosen for edits of paths. It asks for the plain state that the view is of, that no more
/// than one LSP is new, and that then a label is free.
pub(crate) fn labels_for(
    alloc: Global,
    known: &Known<'_>,
    view: &SoundView<'_>,
    paths: &[(Key, Option<PathFact>)],
    labels: &[(Key, u32)],
) -> Result<Table<Key, u32>, Stop>
    requires view { view.now ≡ record { router = known.now.router.now; state = known.now.state.now } }
    requires order { T (is_sorted key_cmp paths.now) }
    requires choice { CanLabel view.now.router view.now.state (rows.edited key_cmp paths.now view.now.state.facts.paths) }
    ensures same { IfOk result (λ table. table ≡ labels.now) }
    ensures chosen { IfOk result (IsLabelling view.now.router view.now.state (rows.edited key_cmp paths.now view.now.state.facts.paths)) }
    ensures wrong { IfErr result (λ stop. IsNoLabelling stop view.now.router view.now.state
        (rows.edited key_cmp paths.now view.now.state.facts.paths) labels.now) }
{
    view.soundness();
    let others = chosen_labels(alloc, view, paths)?;

    // No more than one LSP is new: so no label is given twice.
    if !are_like(alloc, known, others.as_slice(), labels)? {
        return Err(Stop::Wrong(EntryFault::Choice(others)));
    }
    Ok(Table::from_rows(Vec::from_slice(alloc, labels)?))
}
