// A table in slots, as a value of its own.
ghost use Rattle.std.specs.FinMap.Entries.{find, is_sorted, put, where_key};
ghost use Rattle.std.specs.Option.{option_copied};
ghost use Rattle.std.specs.Ordering.{is_eq};
ghost use Rattle.std.specs.Prelude.{◌≡◌, ◌≤◌, T, [], filter, IfOk, length, map, not, slice_get};
ghost use Rattle.sorted_rows.specs.Rows.{keys_of};

use crate::numbering::Numbering;
use crate::searches::RowTest;
use crate::slots::OrderedSlots;
use sorted_rows::{Sweep, Table, TryCopy};
use std::alloc::{AllocError, Global};
use std::marker::Model;

/// Rows of a key and a value in the order of their keys, with no key twice: at most `MOST` of them. A row stays in its
/// slot while others come and go, and is looked for by the number of its key. The memory is taken when the table
/// is made, and no change takes more. Contracts see the list of rows.
#[derive(Debug)]
pub struct SlotTable<K: Ord, V, N: Numbering<K>, const MOST: usize> {
    rows: OrderedSlots<K, V, N, MOST>,
}

/// Written out, so that a crate above drops a table by one call, whatever it holds.
impl<K: Ord + Drop, V: Drop, N: Numbering<K>, const MOST: usize> Drop for SlotTable<K, V, N, MOST> {
    fn drop(self) {
        let SlotTable { rows: _rows } = self;
    }
}

impl<K: Ord, V, N: Numbering<K>, const MOST: usize> Model for SlotTable<K, V, N, MOST> {
    ghost use Rattle.std.specs.Prelude.{List, vec_capacity};
    ghost use Rattle.slot_rows.specs.Marks.{IsKept};
    ghost use Rattle.slot_rows.specs.Slots.{rows_of};

    ghost Value = { List (K × V) };

    ghost view = { λ t. rows_of t.rows.slots t.rows.by_key.items };

    ghost invariant = { λ t. IsKept K.cmp MOST N.number t.rows.slots t.rows.by_key.items (vec_capacity t.rows.by_key) t.rows.marks };
}

impl<K: Ord, V, N: Numbering<K>, const MOST: usize> SlotTable<K, V, N, MOST> {
    /// How many rows there are.
    pub fn len(&self) -> usize
        ensures { result ≡ length self.now }
    {
        self.rows.by_key.len()
    }

    /// The row at a place, in the order of the keys, from 0 on; `None` past the last.
    pub fn row(&self, place: usize) -> Option<&(K, V)>
        ensures { option_copied result ≡ slice_get self.now place }
    {
        self.rows.row(place)
    }

    /// The keys rise, and there are at most `MOST` rows. It does nothing when it runs.
    pub fn rows_are_in_order(&self)
        ensures sorted { T (is_sorted K.cmp self.now) }
        ensures few { length self.now ≤ MOST }
    {
        let _ = &self.rows;
    }

    /// The value under a key, or `None` where the table has no such key.
    pub fn get(&self, key: &K) -> Option<&V>
        ensures found { option_copied result ≡ find K.cmp key.now self.now }
    {
        // Many a table is empty most of the time: then no number is made.
        if self.rows.by_key.is_empty() {
            return None;
        }
        self.rows.get(key)
    }
}

impl<K: Ord + Drop, V: Drop, N: Numbering<K>, const MOST: usize> SlotTable<K, V, N, MOST> {
    /// No rows. Takes the memory of all rows that the table may ever hold; the only error is that there is too little.
    /// That is its answer for more than 65,536 rows too.
    pub fn new(alloc: Global) -> Result<SlotTable<K, V, N, MOST>, AllocError>
        ensures { IfOk result (λ table. table ≡ []) }
    {
        Ok(SlotTable {
            rows: OrderedSlots::new(alloc)?,
        })
    }

    /// Sets the value under a key. It asks that the table has at most `MOST` rows then.
    pub fn set(&mut self, key: K, value: V)
        requires { length (put K.cmp key value self.old) ≤ MOST }
        ensures { self.new ≡ put K.cmp key value self.old }
    {
        self.rows.set(key, value);
    }

    /// Removes a key and its value. A table that has no such key stays as it is.
    pub fn remove(&mut self, key: &K)
        ensures { self.new ≡ where_key K.cmp (λ k. not (is_eq (K.cmp key.now k))) self.old }
    {
        self.rows.remove(key);
    }

    /// Removes all rows.
    pub fn clear(&mut self)
        ensures { self.new ≡ [] }
    {
        self.rows.clear();
    }

    /// The rows that stay, each with what is left of its value.
    pub fn sweep<S: Sweep<K, V>>(&mut self, sweep: &S)
        ensures { self.new ≡ map (λ row. (row.0, S.left sweep.now row.1)) (filter (S.stays sweep.now) self.old) }
    {
        self.rows.sweep(sweep);
    }
}

impl<K: Ord + Copy, V, N: Numbering<K>, const MOST: usize> SlotTable<K, V, N, MOST> {
    /// The keys of the rows that pass a test, in their order. The only error is out of memory.
    pub fn keys_where<R: RowTest<K, V>>(
        &self,
        alloc: Global,
        test: &R,
    ) -> Result<Vec<K>, AllocError>
        ensures { IfOk result (λ keys. keys.items ≡ keys_of (filter (R.passes test.now) self.now)) }
    {
        self.rows.keys_where(alloc, test)
    }
}

impl<K: Ord + Copy, V: TryCopy + Drop, N: Numbering<K>, const MOST: usize> SlotTable<
    K,
    V,
    N,
    MOST,
> {
    /// The rows, as a table of their own: a copy. The only error is out of memory.
    pub fn copied(&self, alloc: Global) -> Result<Table<K, V>, AllocError>
        ensures { IfOk result (λ rows. rows ≡ self.now) }
    {
        Ok(Table::from_rows(self.rows.copied(alloc)?))
    }
}

impl<K: Ord + Copy, V: TryCopy + Drop, N: Numbering<K>, const MOST: usize> TryCopy
    for SlotTable<K, V, N, MOST> {
    fn try_copy(&self, alloc: Global) -> Result<SlotTable<K, V, N, MOST>, AllocError> {
        Ok(SlotTable {
            rows: self.rows.try_copy(alloc)?,
        })
    }
}
