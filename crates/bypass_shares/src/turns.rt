//! One turn of a pass: what an LSP is given of what is left.

ghost use Rattle.std.specs.FinMap.Entries.{find, is_sorted, put};
ghost use Rattle.std.specs.Ordering.{nat_cmp};
ghost use Rattle.std.specs.Prelude.{◌≡◌, ◌-◌, ℕ, T, List, is_some, option_map, find as find_first, OnOk};
ghost use Rattle.lsr_facts.specs.Orders.{key_cmp};
ghost use Rattle.lsr_facts.specs.declared.assignment.Assignment.{Assignment};
ghost use Rattle.lsr_facts.specs.declared.key.Key.{Key};
ghost use Rattle.bypass_shares.specs.Left.{AreLeft, left_at};
ghost use Rattle.bypass_shares.specs.Merged.{with_rows};
ghost use Rattle.bypass_shares.specs.Shares.{has_room};

use crate::left::{first_with, take};
use crate::near::find_near;
use crate::wish::Wish;
use lsr_facts::{Assignment, Key};
use sorted_rows::Table;
use std::alloc::AllocError;

/// What is left for an LSP: so much as it asks for, of the first of its bypasses that has so much left.
pub fn found(left: &Table<u16, u64>, wish: &Wish) -> Option<Assignment>
    ensures { (capacity : ℕ → ℕ) (pairs : List (Key × Assignment)) → AreLeft capacity left.now pairs →
        result ≡ option_map (λ number. record { bypass = number; rate = wish.now.rate }) (find_first (has_room key_cmp capacity pairs wish.now.rate) wish.now.bypasses) }
{
    let bypass = first_with(left, wish.rate, wish.bypasses.as_slice())?;
    Some(Assignment {
        bypass,
        rate: wish.rate,
    })
}

/// Gives an LSP so much of a bypass. Fails only when out of memory.
pub fn give(
    left: &mut Table<u16, u64>,
    made: &mut Table<Key, Assignment>,
    key: Key,
    given: Assignment,
) -> Result<(), AllocError>
    ensures made { OnOk result (made.new ≡ put key_cmp key given made.old) }
    ensures left { OnOk result (left.new ≡ put nat_cmp given.bypass (left_at left.old given.bypass - given.rate) left.old) }
{
    take(left, given.bypass, given.rate)?;
    made.set(key, given)
}

/// Whether an LSP has some among rows, or among those that were made in this pass.
pub fn has_some(
    rows: &Table<Key, Assignment>,
    made: &Table<Key, Assignment>,
    key: &Key,
    place: &mut usize,
) -> bool
    ensures some { result ≡ is_some (find key_cmp key.now (with_rows key_cmp made.now rows.now)) }
    ensures rows { T (is_sorted key_cmp rows.now) }
    ensures made { T (is_sorted key_cmp made.now) }
{
    let rows = rows.as_slice();
    let made = made.as_slice();
    let mut end = made.len();
    if find_near(made, key, &mut end).is_some() {
        return true;
    }
    find_near(rows, key, place).is_some()
}
