// What becomes of all rows of a table in slots at once.
ghost use Rattle.std.specs.Prelude.{◌≡◌, ◌<◌, ◌∷◌, ◌++◌, Some, [], drop, filter, length, map, slice_index_or, suc, take, vec_capacity};
ghost use Rattle.slab.specs.Slab.{Updates, get, slab_len};
ghost use Rattle.slot_rows.specs.Marks.{IsMarked};
ghost use Rattle.slot_rows.specs.Slots.{IsSlotted, rows_of};

use crate::numbering::Numbering;
use crate::slots::OrderedSlots;
use slab::Slab;
use sorted_rows::Sweep;

/// Whether a slot's row stays.
fn stays_at<K, V, S: Sweep<K, V>>(slots: &Slab<(K, V)>, slot: usize, sweep: &S) -> bool
    ensures { (row : K × V) → get slots.now slot ≡ Some row → result ≡ S.stays sweep.now row }
{
    match slots.get(slot) {
        Some(row) => sweep.stays(row),
        None => false,
    }
}

/// The value of a slot's row becomes what is left of it, and no other slot changes.
fn leave_at<K, V, S: Sweep<K, V>>(slots: &mut Slab<(K, V)>, slot: usize, sweep: &S)
    ensures written { (row : K × V) → get slots.old slot ≡ Some row →
        Updates slots.old slots.new slot (Some (row.0, S.left sweep.now row.1)) }
    ensures len { slab_len slots.new ≡ slab_len slots.old }
    ensures capacity { slots.new.capacity ≡ slots.old.capacity }
{
    if let Some(row) = slots.get_mut(slot) {
        sweep.leave(&mut row.1);
    }
}

impl<K: Ord + Drop, V: Drop, N: Numbering<K>, const MOST: usize> OrderedSlots<K, V, N, MOST> {
    /// The row at a place goes, or its value becomes what is left of it.
    fn sweep_place<S: Sweep<K, V>>(&mut self, place: usize, sweep: &S)
        requires slotted { IsSlotted K.cmp MOST self.old.slots self.old.by_key.items (vec_capacity self.old.by_key) }
        requires marked { IsMarked N.number self.old.marks self.old.slots }
        requires within { place < length self.old.by_key.items }
        ensures slotted { IsSlotted K.cmp MOST self.new.slots self.new.by_key.items (vec_capacity self.new.by_key) }
        ensures marked { IsMarked N.number self.new.marks self.new.slots }
        ensures rows { (d : K × V) → rows_of self.new.slots self.new.by_key.items
            ≡ take place (rows_of self.old.slots self.old.by_key.items)
            ++ map (λ row. (row.0, S.left sweep.now row.1)) (filter (S.stays sweep.now)
            (slice_index_or (rows_of self.old.slots self.old.by_key.items) place d ∷ []))
            ++ drop (suc place) (rows_of self.old.slots self.old.by_key.items) }
        ensures capacity { self.new.slots.capacity ≡ self.old.slots.capacity }
    {
        let slot = usize::from(self.by_key[place]);
        if stays_at(&self.slots, slot, sweep) {
            leave_at(&mut self.slots, slot, sweep);
        } else {
            let emptied = usize::from(self.by_key.remove(place));
            let row = self.slots.remove(emptied);
            self.marks.go(N::number(&row.0), emptied);
        }
    }

    /// The rows that stay, each with what is left of its value. Takes no memory.
    pub fn sweep<S: Sweep<K, V>>(&mut self, sweep: &S)
        requires slotted { IsSlotted K.cmp MOST self.old.slots self.old.by_key.items (vec_capacity self.old.by_key) }
        requires marked { IsMarked N.number self.old.marks self.old.slots }
        ensures slotted { IsSlotted K.cmp MOST self.new.slots self.new.by_key.items (vec_capacity self.new.by_key) }
        ensures marked { IsMarked N.number self.new.marks self.new.slots }
        ensures rows { rows_of self.new.slots self.new.by_key.items
            ≡ map (λ row. (row.0, S.left sweep.now row.1))
            (filter (S.stays sweep.now) (rows_of self.old.slots self.old.by_key.items)) }
        ensures capacity { self.new.slots.capacity ≡ self.old.slots.capacity }
    {
        // From the last place down: then no place that is still to come changes.
        let mut left = self.by_key.len();
        while left > 0 {
            left -= 1;
            self.sweep_place(left, sweep);
        }
    }
}
