// Copies of tables in slots.
ghost use Rattle.std.specs.FinMap.Entries.{is_sorted};
ghost use Rattle.std.specs.List.{cons_option};
ghost use Rattle.std.specs.Prelude.{◌≡◌, ◌<◌, ◌∷◌, ◌++◌, T, [], IfOk, OnOk, length, vec_capacity};
ghost use Rattle.slab.specs.Slab.{get};
ghost use Rattle.slot_rows.specs.Marks.{IsMarked};
ghost use Rattle.slot_rows.specs.Slots.{IsSlotted, rows_of};

use crate::numbering::Numbering;
use crate::slots::OrderedSlots;
use slab::Slab;
use sorted_rows::TryCopy;
use std::alloc::{AllocError, Global};

/// A copy of a slot's row goes to the end of rows. An empty slot adds none.
fn push_copy<K: Copy, V: TryCopy + Drop>(
    alloc: Global,
    rows: &mut Vec<(K, V)>,
    slots: &Slab<(K, V)>,
    slot: usize,
) -> Result<(), AllocError>
    ensures { OnOk result (rows.new.items ≡ rows.old.items ++ cons_option (get slots.now slot) []) }
{
    if let Some(row) = slots.get(slot) {
        rows.push((row.0, row.1.try_copy(alloc)?))?;
    }
    Ok(())
}

impl<K: Ord + Copy, V: TryCopy + Drop, N, const MOST: usize> OrderedSlots<K, V, N, MOST> {
    /// The rows in the order of the keys: a copy. The only error is out of memory.
    pub fn copied(&self, alloc: Global) -> Result<Vec<(K, V)>, AllocError>
        ensures { IfOk result (λ rows. rows.items ≡ rows_of self.now.slots self.now.by_key.items) }
    {
        let mut rows = Vec::with_capacity(alloc, self.by_key.len())?;
        for slot in &self.by_key {
            push_copy(alloc, &mut rows, &self.slots, usize::from(*slot))?;
        }
        Ok(rows)
    }
}

impl<K: Ord, V, N: Numbering<K>, const MOST: usize> OrderedSlots<K, V, N, MOST> {
    /// A row comes whose key is above those of all rows.
    fn push_row(&mut self, row: (K, V))
        requires slotted { IsSlotted K.cmp MOST self.old.slots self.old.by_key.items (vec_capacity self.old.by_key) }
        requires marked { IsMarked N.number self.old.marks self.old.slots }
        requires room { length self.old.by_key.items < MOST }
        requires in_order { T (is_sorted K.cmp (rows_of self.old.slots self.old.by_key.items ++ row ∷ [])) }
        ensures slotted { IsSlotted K.cmp MOST self.new.slots self.new.by_key.items (vec_capacity self.new.by_key) }
        ensures marked { IsMarked N.number self.new.marks self.new.slots }
        ensures rows { rows_of self.new.slots self.new.by_key.items
            ≡ rows_of self.old.slots self.old.by_key.items ++ row ∷ [] }
    {
        let number = N::number(&row.0);
        let slot = self.slots.insert_reserved(row);
        self.by_key.push(slot as u16).unwrap();
        self.marks.come(number, slot);
    }
}

impl<K: Ord + Copy, V: TryCopy + Drop, N: Numbering<K>, const MOST: usize> OrderedSlots<
    K,
    V,
    N,
    MOST,
> {
    /// A copy comes of a row of other slots, whose key is above those of all rows. An empty slot adds none.
    fn push_copy_of(
        &mut self,
        alloc: Global,
        slots: &Slab<(K, V)>,
        slot: usize,
    ) -> Result<(), AllocError>
        requires slotted { IsSlotted K.cmp MOST self.old.slots self.old.by_key.items (vec_capacity self.old.by_key) }
        requires marked { IsMarked N.number self.old.marks self.old.slots }
        requires room { length self.old.by_key.items < MOST }
        requires in_order { T (is_sorted K.cmp
            (rows_of self.old.slots self.old.by_key.items ++ cons_option (get slots.now slot) [])) }
        ensures slotted { OnOk result
            (IsSlotted K.cmp MOST self.new.slots self.new.by_key.items (vec_capacity self.new.by_key)) }
        ensures marked { OnOk result (IsMarked N.number self.new.marks self.new.slots) }
        ensures rows { OnOk result (rows_of self.new.slots self.new.by_key.items
            ≡ rows_of self.old.slots self.old.by_key.items ++ cons_option (get slots.now slot) []) }
    {
        if let Some(row) = slots.get(slot) {
            let value = row.1.try_copy(alloc)?;
            self.push_row((row.0, value));
        }
        Ok(())
    }

    /// A copy with the same rows, in slots of its own, with memory for as many. The only error is out of memory.
    pub fn try_copy(&self, alloc: Global) -> Result<OrderedSlots<K, V, N, MOST>, AllocError>
        requires { IsSlotted K.cmp MOST self.now.slots self.now.by_key.items (vec_capacity self.now.by_key) }
        ensures slotted { IfOk result (λ s. IsSlotted K.cmp MOST s.slots s.by_key.items (vec_capacity s.by_key)) }
        ensures marked { IfOk result (λ s. IsMarked N.number s.marks s.slots) }
        ensures rows { IfOk result (λ s. rows_of s.slots s.by_key.items
            ≡ rows_of self.now.slots self.now.by_key.items) }
    {
        let mut copy = OrderedSlots::new(alloc)?;
        for slot in &self.by_key {
            copy.push_copy_of(alloc, &self.slots, usize::from(*slot))?;
        }
        Ok(copy)
    }
}
