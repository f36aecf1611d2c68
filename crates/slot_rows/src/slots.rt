// Rows in slots, with the slots in the order of the keys.
ghost use Rattle.std.specs.FinMap.Entries.{find, put, where_key};
ghost use Rattle.std.specs.Option.{option_copied, option_map};
ghost use Rattle.std.specs.Ordering.{is_eq};
ghost use Rattle.std.specs.declared.cmp.Ordering.TheVariants.{Equal};
ghost use Rattle.std.specs.Prelude.{◌≡◌, ◌≢◌, ◌≤◌, ℕ, false, Some, None, [], IfNone, IfOk, IfSome, IsSome, IsSomeAnd, length, not, slice_get, vec_capacity};
ghost use Rattle.slab.specs.Slab.{Updates, get, slab_len};
ghost use Rattle.slot_rows.specs.Marks.{Admits, IsMarked, is_shared};
ghost use Rattle.slot_rows.specs.Slots.{AreFilled, IsSlotted, rows_of};

use crate::finding::{cmp_at, place};
use crate::marks::{Mark, Marks};
use crate::numbering::Numbering;
use slab::Slab;
use std::alloc::{AllocError, Global};
use std::marker::PhantomData;

/// There are no more slots: the number of each fits in two bytes.
const MOST_SLOTS: usize = 1 << 16;

/// Rows of a key and a value, each in a slot that it keeps, and the slots in the order of the keys. Its functions ask
/// that the parts belong together, and leave them so: at most `MOST` rows, in memory that `new` takes.
#[derive(Debug, Drop)]
pub struct OrderedSlots<K, V, N, const MOST: usize> {
    /// The rows, by slot.
    pub slots: Slab<(K, V)>,
    /// The slots that have a row, in the order of the keys.
    pub by_key: Vec<u16>,
    /// Marks of the slots that have a row, by the numbers of their keys.
    pub marks: Marks,
    /// Where a key came or went last: the next is looked for there first.
    last: usize,
    numbering: PhantomData<N>,
}

/// Sets the value of a slot's row, and changes no other slot.
pub fn write_value<K, V: Drop>(slots: &mut Slab<(K, V)>, slot: usize, value: V)
    ensures written { (row : K × V) → get slots.old slot ≡ Some row → Updates slots.old slots.new slot (Some (row.0, value)) }
    ensures len { slab_len slots.new ≡ slab_len slots.old }
    ensures capacity { slots.new.capacity ≡ slots.old.capacity }
{
    if let Some(row) = slots.get_mut(slot) {
        row.1 = value;
    }
}

impl<K: Ord, V, N: Numbering<K>, const MOST: usize> OrderedSlots<K, V, N, MOST> {
    /// The row at a place, in the order of the keys, from 0 on; `None` past the last.
    pub fn row(&self, place: usize) -> Option<&(K, V)>
        requires { AreFilled self.now.slots self.now.by_key.items }
        ensures { option_copied result ≡ slice_get (rows_of self.now.slots self.now.by_key.items) place }
    {
        if place < self.by_key.len() {
            self.slots.get(usize::from(self.by_key[place]))
        } else {
            None
        }
    }

    /// The slot that a mark names, if its row has the key.
    fn named(&self, mark: Mark, key: &K) -> Option<usize>
        ensures found { IfSome result (λ slot. IsSomeAnd (get self.now.slots slot) (λ row. K.cmp row.0 key.now ≡ Equal)) }
        // Where it names none, no slot that it admits has such a row, unless it is shared.
        ensures absent { IfNone result (is_shared mark ≡ false → (slot : ℕ) (row : K × V) →
            get self.now.slots slot ≡ Some row → K.cmp row.0 key.now ≡ Equal → Admits mark slot → ⊥) }
    {
        match mark {
            Mark::Free => None,
            Mark::Sole(slot) | Mark::Shared(slot) => {
                if cmp_at(&self.slots, slot, key).is_eq() {
                    Some(slot)
                } else {
                    None
                }
            }
        }
    }

    /// The slot of a key's row, or `None` where there is no such key. Where the mark doesn't say it, its place is looked for.
    fn slot_of(&self, key: &K) -> Option<usize>
        requires slotted { IsSlotted K.cmp MOST self.now.slots self.now.by_key.items (vec_capacity self.now.by_key) }
        requires marked { IsMarked N.number self.now.marks self.now.slots }
        ensures found { IfSome result (λ slot. option_map (λ row. row.1) (get self.now.slots slot)
            ≡ find K.cmp key.now (rows_of self.now.slots self.now.by_key.items)) }
        ensures absent { IfNone result (find K.cmp key.now (rows_of self.now.slots self.now.by_key.items) ≡ None) }
    {
        let mark = self.marks.mark(N::number(key));
        match self.named(mark, key) {
            Some(slot) => Some(slot),
            None => {
                if mark.is_shared() {
                    match place(&self.slots, &self.by_key, self.last, key) {
                        Ok(index) => Some(usize::from(self.by_key[index])),
                        Err(_) => None,
                    }
                } else {
                    None
                }
            }
        }
    }

    /// The value under a key, or `None` where there is no such key.
    pub fn get(&self, key: &K) -> Option<&V>
        requires slotted { IsSlotted K.cmp MOST self.now.slots self.now.by_key.items (vec_capacity self.now.by_key) }
        requires marked { IsMarked N.number self.now.marks self.now.slots }
        ensures { option_copied result ≡ find K.cmp key.now (rows_of self.now.slots self.now.by_key.items) }
    {
        match self.slot_of(key) {
            Some(slot) => match self.slots.get(slot) {
                Some(row) => Some(&row.1),
                None => None,
            },
            None => None,
        }
    }
}

impl<K: Ord + Drop, V: Drop, N: Numbering<K>, const MOST: usize> OrderedSlots<K, V, N, MOST> {
    /// No rows. Takes the memory of all rows that there may ever be; the only error is that there is too little. That is
    /// its answer for more than 65,536 rows too: then a slot's number wouldn't fit in two bytes.
    pub fn new(alloc: Global) -> Result<OrderedSlots<K, V, N, MOST>, AllocError>
        ensures slotted { IfOk result (λ s. IsSlotted K.cmp MOST s.slots s.by_key.items (vec_capacity s.by_key)) }
        ensures marked { IfOk result (λ s. IsMarked N.number s.marks s.slots) }
        ensures empty { IfOk result (λ s. s.by_key.items ≡ []) }
    {
        let slots = Slab::with_capacity(alloc, MOST)?;
        if slots.capacity() > MOST_SLOTS {
            return Err(AllocError);
        }
        Ok(OrderedSlots {
            slots,
            by_key: Vec::with_capacity(alloc, MOST)?,
            marks: Marks::new(alloc, MOST)?,
            last: 0,
            numbering: PhantomData,
        })
    }

    /// Sets the value under a key, whose place is looked for, and answers the slot of its row. It asks that there are
    /// at most `MOST` rows then.
    fn set_by_search(&mut self, key: K, value: V) -> usize
        requires slotted { IsSlotted K.cmp MOST self.old.slots self.old.by_key.items (vec_capacity self.old.by_key) }
        requires few { length (put K.cmp key value (rows_of self.old.slots self.old.by_key.items)) ≤ MOST }
        ensures slotted { IsSlotted K.cmp MOST self.new.slots self.new.by_key.items (vec_capacity self.new.by_key) }
        ensures rows { rows_of self.new.slots self.new.by_key.items
            ≡ put K.cmp key value (rows_of self.old.slots self.old.by_key.items) }
        // The slot has the value now, under this key or one that compares as equal, and no other slot changed.
        ensures slot { IsSomeAnd (get self.new.slots result) (λ row. (row.1 ≡ value) × (K.cmp row.0 key ≡ Equal)) }
        ensures others { (other : ℕ) → other ≢ result → get self.new.slots other ≡ get self.old.slots other }
        ensures capacity { self.new.slots.capacity ≡ self.old.slots.capacity }
        ensures marks { self.new.marks ≡ self.old.marks }
    {
        match place(&self.slots, &self.by_key, self.last, &key) {
            Ok(index) => {
                let slot = usize::from(self.by_key[index]);
                write_value(&mut self.slots, slot, value);
                slot
            }
            Err(index) => {
                let slot = self.slots.insert_reserved((key, value));
                self.by_key.insert(index, slot as u16).unwrap();
                self.last = index;
                slot
            }
        }
    }

    /// Sets the value under a key, and answers the slot of its row. It asks that there are at most `MOST` rows then.
    pub fn set(&mut self, key: K, value: V) -> usize
        requires slotted { IsSlotted K.cmp MOST self.old.slots self.old.by_key.items (vec_capacity self.old.by_key) }
        requires marked { IsMarked N.number self.old.marks self.old.slots }
        requires few { length (put K.cmp key value (rows_of self.old.slots self.old.by_key.items)) ≤ MOST }
        ensures slotted { IsSlotted K.cmp MOST self.new.slots self.new.by_key.items (vec_capacity self.new.by_key) }
        ensures marked { IsMarked N.number self.new.marks self.new.slots }
        ensures rows { rows_of self.new.slots self.new.by_key.items
            ≡ put K.cmp key value (rows_of self.old.slots self.old.by_key.items) }
        // The slot has the value now, under this key or one that compares as equal, and no other slot changed.
        ensures slot { IsSomeAnd (get self.new.slots result) (λ row. (row.1 ≡ value) × (K.cmp row.0 key ≡ Equal)) }
        ensures others { (other : ℕ) → other ≢ result → get self.new.slots other ≡ get self.old.slots other }
        ensures capacity { self.new.slots.capacity ≡ self.old.slots.capacity }
    {
        let number = N::number(&key);
        match self.named(self.marks.mark(number), &key) {
            Some(slot) => {
                write_value(&mut self.slots, slot, value);
                slot
            }
            None => {
                let slot = self.set_by_search(key, value);
                self.marks.come(number, slot);
                slot
            }
        }
    }

    /// Removes a key and its value, and answers the slot that is empty now; `None` where there is no such key.
    pub fn remove(&mut self, key: &K) -> Option<usize>
        requires slotted { IsSlotted K.cmp MOST self.old.slots self.old.by_key.items (vec_capacity self.old.by_key) }
        requires marked { IsMarked N.number self.old.marks self.old.slots }
        ensures slotted { IsSlotted K.cmp MOST self.new.slots self.new.by_key.items (vec_capacity self.new.by_key) }
        ensures marked { IsMarked N.number self.new.marks self.new.slots }
        ensures rows { rows_of self.new.slots self.new.by_key.items
            ≡ where_key K.cmp (λ k. not (is_eq (K.cmp key.now k))) (rows_of self.old.slots self.old.by_key.items) }
        ensures slot { IfSome result (λ slot. Updates self.old.slots self.new.slots slot None) }
        ensures was { IfSome result (λ slot. IsSome (get self.old.slots slot)) }
        ensures capacity { self.new.slots.capacity ≡ self.old.slots.capacity }
        ensures absent { IfNone result (self.new ≡ self.old) }
    {
        // Most keys that aren't there are known by the mark.
        self.slot_of(key)?;
        match place(&self.slots, &self.by_key, self.last, key) {
            Ok(index) => {
                let slot = usize::from(self.by_key.remove(index));
                self.slots.remove(slot);
                self.marks.go(N::number(key), slot);
                self.last = index;
                Some(slot)
            }
            Err(_) => None,
        }
    }

    /// Removes all rows. Takes no memory.
    pub fn clear(&mut self)
        requires slotted { IsSlotted K.cmp MOST self.old.slots self.old.by_key.items (vec_capacity self.old.by_key) }
        requires marked { IsMarked N.number self.old.marks self.old.slots }
        ensures slotted { IsSlotted K.cmp MOST self.new.slots self.new.by_key.items (vec_capacity self.new.by_key) }
        ensures marked { IsMarked N.number self.new.marks self.new.slots }
        ensures empty { self.new.by_key.items ≡ [] }
        ensures slots { self.new.slots.slots ≡ [] }
        ensures capacity { self.new.slots.capacity ≡ self.old.slots.capacity }
    {
        self.slots.clear();
        self.by_key.clear();
        self.marks.clear();
    }
}
