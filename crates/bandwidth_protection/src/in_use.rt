//! What LSPs were promised, and what of that is in use.

ghost use Rattle.std.specs.FinMap.Entries.{is_sorted, where_key};
ghost use Rattle.std.specs.Prelude.{◌≡◌, IfOk, T};
ghost use Rattle.lsr_facts.specs.Orders.{key_cmp};
ghost use Rattle.abstract_router.specs.Assigning.{is_in_use};

use lsr_facts::{Assignment, Key};
use message_rules::leaves_by;
use sorted_rows::Table;
use state_views::{StateView, WholeState};
use std::alloc::{AllocError, Global};

/// All that LSPs are promised, in the order of the LSPs. The only error is out of memory.
pub(crate) fn known_assignments<V: WholeState>(
    alloc: Global,
    view: &V,
) -> Result<Table<Key, Assignment>, AllocError>
    requires { T (is_sorted key_cmp (V.state view.now).assignments) }
    ensures { IfOk result (λ all. all ≡ (V.state view.now).assignments) }
{
    let mut rows = Vec::with_capacity(alloc, view.assignment_count())?;
    for place in 0..view.assignment_count() {
        if let Some(row) = view.assignment_at(place) {
            rows.push((row.0, row.1))?;
        }
    }
    Ok(Table::from_rows(rows))
}

/// Whether what an LSP is promised is in use: it is repaired, and leaves by the link that was lost. Takes no memory.
fn is_in_use<A: StateView>(after: &A, key: &Key) -> bool
    ensures { result ≡ is_in_use (A.state after.now) key.now }
{
    let Some(repair) = after.repair(key) else {
        return false;
    };
    match after.path(key) {
        Some(path) => leaves_by(repair.resv.link, path),
        None => false,
    }
}

/// What of these is in use, in their order. The only error is out of memory.
pub(crate) fn used_of<A: StateView>(
    alloc: Global,
    after: &A,
    assignments: &Table<Key, Assignment>,
) -> Result<Table<Key, Assignment>, AllocError>
    ensures { IfOk result (λ used. used ≡ where_key key_cmp (is_in_use (A.state after.now)) assignments.now) }
{
    let rows = assignments.as_slice();
    let mut used = Vec::new(alloc);
    for row in rows {
        if is_in_use(after, &row.0) {
            used.push((row.0, row.1))?;
        }
    }
    Ok(Table::from_rows(used))
}
