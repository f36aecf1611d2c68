//! Whether what is wanted rests, or is sent.

ghost use Rattle.std.specs.List.Sorted.{IsSorted};
ghost use Rattle.std.specs.Option.{option_copied};
ghost use Rattle.std.specs.Prelude.{◌≡◌, IfOk, None, Some, if◌then◌else◌, true};
ghost use Rattle.abstract_paths.specs.Outputs.{is_due, rests};

use abstract_paths::Output;
use message_rules::rests;
use std::alloc::{AllocError, Global};

/// Whether an item is one of those that are due. They stand in the order of items: a binary search.
fn is_due<I: Ord>(due: &[I], item: &I) -> bool
    requires { IsSorted I.cmp due.now }
    ensures { result ≡ is_due I.cmp due.now item.now }
{
    due.binary_search(item).is_ok()
}

/// Whether an item stands at a place among those that are due.
fn is_due_at<I: Ord>(due: &[I], place: usize, item: &I) -> bool
    ensures { result ≡ true → is_due I.cmp due.now item.now ≡ true }
{
    if place >= due.len() {
        return false;
    }
    due[place].cmp(item).is_eq()
}

/// Whether an item is one of those that are due. They stand in the order of items: it is looked for at a place first, where
/// it mostly is.
pub(crate) fn is_due_near<I: Ord>(due: &[I], place: usize, item: &I) -> bool
    requires { IsSorted I.cmp due.now }
    ensures { result ≡ is_due I.cmp due.now item.now }
{
    is_due_at(due, place, item) || is_due(due, item)
}

/// What is wanted, where it is sent: asked once, whether it rests, beside what was sent before.
pub(crate) fn fresh<I: Ord + Copy + Drop>(
    alloc: Global,
    due: &[I],
    was: Option<&Output>,
    wants: (I, Output),
) -> Result<Option<(I, Output)>, AllocError>
    requires { IsSorted I.cmp due.now }
    ensures { IfOk result (λ row. row ≡ (if rests I.cmp due.now (option_copied was.entry) wants then None else Some wants)) }
{
    let is_due = is_due(due, &wants.0);
    if rests(alloc, is_due, was, &wants.1)? {
        return Ok(None);
    }
    Ok(Some(wants))
}
