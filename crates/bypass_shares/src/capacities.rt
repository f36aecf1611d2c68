//! What bypasses have to assign.

ghost use Rattle.std.specs.Prelude.{◌≡◌, ℕ, T, IfOk, map};
ghost use Rattle.std.specs.FinMap.Entries.{is_sorted};
ghost use Rattle.std.specs.Ordering.{nat_cmp};
ghost use Rattle.lsr_facts.specs.Orders.{key_cmp};
ghost use Rattle.bypass_shares.specs.Left.{AreLeft, left_at};
ghost use Rattle.bypass_shares.specs.Shares.{IsWithin, capacity_in};

use crate::left::take;
use lsr_facts::{Assignment, Bypass, Key};
use sorted_rows::Table;
use std::alloc::{AllocError, Global};

/// The capacity of each bypass.
fn capacities(alloc: Global, bypasses: &[(u16, Bypass)]) -> Result<Table<u16, u64>, AllocError>
    requires { T (is_sorted nat_cmp bypasses.now) }
    ensures { IfOk result (λ left. left ≡ map (λ row. (row.0, row.1.capacity)) bypasses.now) }
{
    let mut rows = Vec::with_capacity(alloc, bypasses.len())?;
    for row in bypasses {
        rows.push((row.0, row.1.capacity))?;
    }
    Ok(Table::from_rows(rows))
}

/// What is left of each bypass's capacity beside what is in use, by number, in bytes per second. It asks that what is in use is
/// within the capacities. Fails only when out of memory.
pub fn left_of(
    alloc: Global,
    bypasses: &Table<u16, Bypass>,
    in_use: &Table<Key, Assignment>,
) -> Result<Table<u16, u64>, AllocError>
    requires { IsWithin key_cmp (capacity_in bypasses.now) in_use.now }
    ensures { IfOk result (λ left. AreLeft (capacity_in bypasses.now) left in_use.now) }
{
    let mut left = capacities(alloc, bypasses.as_slice())?;
    for row in in_use.as_slice() {
        take(&mut left, row.1.bypass, row.1.rate)?;
    }
    Ok(left)
}
