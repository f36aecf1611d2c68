//! The labels of LSPs, and those that rest.

ghost use Rattle.std.specs.List.{IsDistinct};
ghost use Rattle.std.specs.Prelude.{◌≡◌, ◌↔◌, IfOk, IsTrue, nat_eq};
ghost use Rattle.sorted_rows.specs.Rows.{keys_of, values_of};
ghost use Rattle.label_space.specs.Rests.{AreApart, AreRestingOf};
ghost use Rattle.abstract_router.specs.Labels.{labelled_keys};
ghost use Rattle.abstract_router.specs.Soundness.{AreLabelled};

use crate::checks::{Check, holds_of_all};
use crate::keys::{Test, keys_where};
use journal_bytes::are_same_items;
use lsr_facts::{Key, LabelRange, PathFact, Router, State, begins_here};
use sorted_rows::Table;
use std::alloc::{AllocError, Global};

/// A path whose LSP doesn't begin here, so that it has a label.
#[derive(Drop)]
struct NeedsLabel;

impl Test<PathFact> for NeedsLabel {
    ghost use Rattle.std.specs.Prelude.{not};
    ghost use Rattle.lsr_facts.specs.Lifetimes.{begins_here};

    ghost test = { λ t path. not (begins_here path.role) };

    fn passes(&self, path: &PathFact) -> bool {
        !begins_here(path.role)
    }
}

/// The LSPs that have labels. The only error is out of memory.
fn holders_of(alloc: Global, labels: &[(Key, u32)]) -> Result<Vec<Key>, AllocError>
    ensures { IfOk result (λ keys. keys.items ≡ keys_of labels.now) }
{
    labels.iter().map(|row| row.0).collect(alloc)
}

/// Whether labels are those of exactly the LSPs that don't begin here. The only error is out of memory.
fn are_of_lsps(
    alloc: Global,
    paths: &[(Key, PathFact)],
    labels: &[(Key, u32)],
) -> Result<bool, AllocError>
    ensures { IfOk result (λ passes. IsTrue passes ↔ (keys_of labels.now ≡ labelled_keys paths.now)) }
{
    let holders = holders_of(alloc, labels)?;
    let lsps = keys_where(alloc, paths, &NeedsLabel)?;
    Ok(are_same_items(holders.as_slice(), lsps.as_slice()))
}

/// An LSP's label that is of a range.
#[derive(Drop)]
struct RangeCheck {
    range: LabelRange,
}

impl Check<(Key, u32)> for RangeCheck {
    ghost use Rattle.std.specs.Prelude.{◌≤◌};

    ghost Holds = { λ c row. (c.range.first ≤ row.1) × (row.1 ≤ c.range.last) };

    fn holds(&self, row: &(Key, u32)) -> bool {
        self.range.first <= row.1 && row.1 <= self.range.last
    }
}

/// An LSP's label that is another one than another LSP's.
#[derive(Drop)]
struct OtherCheck<'a> {
    row: &'a (Key, u32),
}

impl Check<(Key, u32)> for OtherCheck<'_> {
    ghost use Rattle.plain_soundness.specs.Labelled.{AreOthers};

    ghost Holds = { λ c other. AreOthers c.row.now other };

    fn holds(&self, other: &(Key, u32)) -> bool {
        self.row.1 != other.1 || self.row.0.cmp(&other.0).is_eq()
    }
}

/// An LSP's label that is another one than each other LSP's.
#[derive(Drop)]
struct OwnCheck<'a> {
    labels: &'a [(Key, u32)],
}

impl Check<(Key, u32)> for OwnCheck<'_> {
    ghost use Rattle.std.specs.List.{AllByRecursion};
    ghost use Rattle.plain_soundness.specs.Labelled.{AreOthers};

    ghost Holds = { λ c row. AllByRecursion (AreOthers row) c.labels.now };

    fn holds(&self, row: &(Key, u32)) -> bool {
        holds_of_all(&OtherCheck { row }, self.labels)
    }
}

/// Whether each label is one LSP's.
fn are_distinct(labels: &Table<Key, u32>) -> bool
    ensures { IsTrue result ↔ IsDistinct nat_eq (values_of labels.now) }
{
    let rows = labels.as_slice();
    holds_of_all(&OwnCheck { labels: rows }, rows)
}

/// Whether exactly the LSPs that don't begin here have labels, each its own of the router's range. The only error is out of
/// memory.
pub(crate) fn are_labelled(
    alloc: Global,
    router: &Router,
    state: &State,
) -> Result<bool, AllocError>
    ensures { IfOk result (λ yes. IsTrue yes ↔ AreLabelled router.now state.now) }
{
    let labels = state.labels.as_slice();
    let range = router.labels;
    Ok(
        are_of_lsps(alloc, state.facts.paths.as_slice(), labels)?
            && holds_of_all(&RangeCheck { range }, labels)
            && are_distinct(&state.labels),
    )
}

/// A label of an LSP that doesn't rest.
#[derive(Drop)]
struct AwakeCheck<'a> {
    resting: &'a Table<u32, u64>,
}

impl Check<(Key, u32)> for AwakeCheck<'_> {
    ghost use Rattle.std.specs.FinMap.Entries.{find};
    ghost use Rattle.std.specs.Ordering.{nat_cmp};
    ghost use Rattle.std.specs.Prelude.{◌≡◌, None};

    ghost Holds = { λ c row. find nat_cmp row.1 c.resting.now ≡ None };

    fn holds(&self, row: &(Key, u32)) -> bool {
        self.resting.get(&row.1).is_none()
    }
}

/// Whether no LSP holds a label that rests.
fn are_apart(labels: &[(Key, u32)], resting: &Table<u32, u64>) -> bool
    ensures { IsTrue result ↔ AreApart labels.now resting.now }
{
    // That each label rests once.
    let _ = resting.as_slice();
    holds_of_all(&AwakeCheck { resting }, labels)
}

/// A label of a range that rests until a moment which is yet to come, in milliseconds.
#[derive(Drop)]
struct RestCheck {
    range: LabelRange,
    moment: u64,
}

impl Check<(u32, u64)> for RestCheck {
    ghost use Rattle.std.specs.Prelude.{◌≤◌, ◌<◌};

    ghost Holds = { λ c row. (c.range.first ≤ row.0) × (row.0 ≤ c.range.last) × (c.moment < row.1) };

    fn holds(&self, row: &(u32, u64)) -> bool {
        self.range.first <= row.0 && row.0 <= self.range.last && self.moment < row.1
    }
}

/// Whether these are labels of a range that rest at a moment, in milliseconds, beside those that LSPs hold.
pub(crate) fn are_resting(range: LabelRange, state: &State) -> bool
    ensures { IsTrue result ↔ AreRestingOf range state.now.facts.moment state.now.labels state.now.resting }
{
    let moment = state.facts.moment;
    let check = RestCheck { range, moment };
    holds_of_all(&check, state.resting.as_slice())
        && are_apart(state.labels.as_slice(), &state.resting)
}
