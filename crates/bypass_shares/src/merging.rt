//! Two tables in one.

ghost use Rattle.std.specs.FinMap.Entries.{is_sorted};
ghost use Rattle.std.specs.Prelude.{◌≡◌, T, IfOk};
ghost use Rattle.lsr_facts.specs.Orders.{key_cmp};
ghost use Rattle.bypass_shares.specs.Merged.{with_rows};

use lsr_facts::{Assignment, Key};
use sorted_rows::Table;
use std::alloc::{AllocError, Global};
use std::cmp::Ordering;

/// Rows in order with others in order among them. One way over both. Fails only when out of memory.
fn merged(
    alloc: Global,
    rows: &[(Key, Assignment)],
    more: &[(Key, Assignment)],
) -> Result<Vec<(Key, Assignment)>, AllocError>
    requires rows { T (is_sorted key_cmp rows.now) }
    requires more { T (is_sorted key_cmp more.now) }
    ensures { IfOk result (λ all. all.items ≡ with_rows key_cmp more.now rows.now) }
{
    let mut all = Vec::with_capacity(alloc, rows.len().saturating_add(more.len()))?;
    let mut i = 0;
    let mut j = 0;
    while i < rows.len() && j < more.len() {
        match rows[i].0.cmp(&more[j].0) {
            Ordering::Less => {
                all.push(rows[i])?;
                i += 1;
            }
            Ordering::Equal => {
                all.push(more[j])?;
                i += 1;
                j += 1;
            }
            Ordering::Greater => {
                all.push(more[j])?;
                j += 1;
            }
        }
    }
    all.extend_from_slice(&rows[i..])?;
    all.extend_from_slice(&more[j..])?;
    Ok(all)
}

/// A table with the rows of another among its own; of two of one key the other's counts. Fails only when out of memory.
pub fn merge(
    alloc: Global,
    rows: Table<Key, Assignment>,
    more: Table<Key, Assignment>,
) -> Result<Table<Key, Assignment>, AllocError>
    ensures { IfOk result (λ all. all ≡ with_rows key_cmp more rows) }
{
    if more.as_slice().is_empty() {
        return Ok(rows);
    }
    if rows.as_slice().is_empty() {
        return Ok(more);
    }
    Ok(Table::from_rows(merged(alloc, rows.as_slice(), more.as_slice())?))
}
