//! The pass over the wishes of LSPs that have none yet.

ghost use Rattle.std.specs.Prelude.{◌≡◌, ℕ, IfOk, OnOk};
ghost use Rattle.lsr_facts.specs.Orders.{key_cmp};
ghost use Rattle.bypass_shares.specs.Left.{AreLeft};
ghost use Rattle.bypass_shares.specs.Merged.{with_rows};
ghost use Rattle.bypass_shares.specs.Shares.{each_in_turn, new_for, with_given};

use crate::turns::{found, give, has_some};
use crate::wish::Wish;
use lsr_facts::{Assignment, Key};
use sorted_rows::Table;
use std::alloc::{AllocError, Global};

/// One LSP's turn to be given some, if it has none.
fn give_next(
    left: &mut Table<u16, u64>,
    made: &mut Table<Key, Assignment>,
    kept: &Table<Key, Assignment>,
    wish: &(Key, Wish),
    place: &mut usize,
) -> Result<(), AllocError>
    ensures { OnOk result ((capacity : ℕ → ℕ) → AreLeft capacity left.old (with_rows key_cmp made.old kept.now) →
        AreLeft capacity left.new (with_rows key_cmp made.new kept.now)
        × (with_rows key_cmp made.new kept.now ≡ with_given key_cmp capacity wish.now.0 (new_for key_cmp capacity (with_rows key_cmp made.old kept.now) wish.now) (with_rows key_cmp made.old kept.now))) }
{
    if has_some(kept, made, &wish.0, place) {
        return Ok(());
    }
    let given = match found(left, &wish.1) {
        Some(given) => given,
        None => return Ok(()),
    };
    give(left, made, wish.0, given)?;
    Ok(())
}

/// What LSPs are given that have none among what is kept, as long as there is room (RFC 4090, 4.3). Wishes stand in the order of keys, which
/// is the order of turns. `left` is what is left of each bypass beside what is kept. One way over the wishes. Fails only when out of memory.
pub fn give_each(
    alloc: Global,
    left: &mut Table<u16, u64>,
    kept: &Table<Key, Assignment>,
    wishes: &[(Key, Wish)],
) -> Result<Table<Key, Assignment>, AllocError>
    ensures { IfOk result (λ made. (capacity : ℕ → ℕ) → AreLeft capacity left.old kept.now →
        with_rows key_cmp made kept.now ≡ each_in_turn key_cmp capacity (new_for key_cmp capacity) kept.now wishes.now) }
{
    let mut made = Table::new(alloc);
    let mut place = 0;
    for wish in wishes {
        give_next(left, &mut made, kept, wish, &mut place)?;
    }
    Ok(made)
}
