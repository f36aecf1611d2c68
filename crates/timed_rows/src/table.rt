// A table whose rows are to be looked at in their time.
ghost use Rattle.std.specs.FinMap.Entries.{find, is_sorted, put, where_key};
ghost use Rattle.std.specs.Option.{option_copied};
ghost use Rattle.std.specs.Ordering.{is_eq};
ghost use Rattle.std.specs.Prelude.{◌≡◌, ◌≤◌, ◌&&◌, T, [], IfOk, filter, find as find_first, length, map, not, slice_get};
ghost use Rattle.std.specs.List.Sorted.{IsBinarySearchResult, IsSearchInRange};
ghost use Rattle.sorted_rows.specs.Edits.{edited};
ghost use Rattle.sorted_rows.specs.Rows.{keys_of};
ghost use Rattle.slot_rows.specs.Runs.{RisesBy};
ghost use Rattle.timer_wheel.specs.Due.{has_come};

use crate::edits::{give_values, take_keys};
use crate::gathered::{keys_at, places_of};
use crate::moments::{slots_are_in_reach, wheel_of, write_moment, write_moments};
use crate::timing::{HasCome, Timed};
use slot_rows::{Numbering, OrderedSlots, Probe, RowTest};
use sorted_rows::{Sweep, Table, TryCopy};
use std::alloc::{AllocError, Global};
use std::cmp::Ordering;
use std::marker::Model;
use timer_wheel::Wheel;

/// Where so many rows have come or fewer, each is sought by itself.
const FEW: usize = 64;

/// Rows of a key and a value in the order of their keys, with no key twice: at most `MOST` of them. Each value has a
/// moment at which it is to be looked at, or none. Their memory is taken when the table is made, and no change takes
/// more. Contracts see what gives the moments, and the list of rows.
#[derive(Debug)]
pub struct TimedTable<K: Ord, V, M: Timed<V>, N: Numbering<K>, const MOST: usize> {
    rows: OrderedSlots<K, V, N, MOST>,
    wheel: Wheel,
    timing: M,
}

/// Written out, so that a crate above drops a table by one call, whatever it holds.
impl<K: Ord + Drop, V: Drop, M: Timed<V> + Drop, N: Numbering<K>, const MOST: usize> Drop
    for TimedTable<K, V, M, N, MOST> {
    fn drop(self) {
        let TimedTable {
            rows: _rows,
            wheel: _wheel,
            timing: _timing,
        } = self;
    }
}

impl<K: Ord, V, M: Timed<V>, N: Numbering<K>, const MOST: usize> Model
    for TimedTable<K, V, M, N, MOST> {
    ghost use Rattle.std.specs.Prelude.{vec_capacity};
    ghost use Rattle.slot_rows.specs.Slots.{rows_of};
    ghost use Rattle.timed_rows.specs.Timed.{IsTimed, TimedRows};

    ghost Value = { TimedRows K V M };

    ghost view = { λ t. record { timing = t.timing; rows = rows_of t.rows.slots t.rows.by_key.items } };

    ghost invariant = { λ t. IsTimed K.cmp MOST N.number (M.at t.timing) t.rows.slots t.rows.by_key.items (vec_capacity t.rows.by_key) t.rows.marks t.wheel };
}

impl<K: Ord, V, M: Timed<V>, N: Numbering<K>, const MOST: usize> TimedTable<K, V, M, N, MOST> {
    /// How many rows there are.
    pub fn len(&self) -> usize
        ensures { result ≡ length self.now.rows }
    {
        self.rows.by_key.len()
    }

    /// The row at a place, in the order of the keys, from 0 on; `None` past the last.
    pub fn row(&self, place: usize) -> Option<&(K, V)>
        ensures { option_copied result ≡ slice_get self.now.rows place }
    {
        self.rows.row(place)
    }

    /// The keys rise, and there are at most `MOST` rows. It does nothing when it runs.
    pub fn rows_are_in_order(&self)
        ensures sorted { T (is_sorted K.cmp self.now.rows) }
        ensures few { length self.now.rows ≤ MOST }
    {
        let _ = &self.rows;
    }

    /// The value under a key, or `None` where the table has no such key.
    pub fn get(&self, key: &K) -> Option<&V>
        ensures found { option_copied result ≡ find K.cmp key.now self.now.rows }
    {
        self.rows.get(key)
    }

    /// The place of a row that compares as equal with what is sought, or the place where it would stand. A binary
    /// search: it finds what there is where keys that rise don't fall by the probe.
    pub fn search<P: Probe<K>>(&self, probe: &P) -> Result<usize, usize>
        ensures bound { IsSearchInRange result (length self.now.rows) }
        ensures position { IsBinarySearchResult (λ row. P.compares probe.now row.0) self.now.rows result }
    {
        self.rows.search(probe)
    }

    /// The first row that passes a test, of those that compare as equal with what is sought. It looks at these rows
    /// alone, and asks that keys that rise don't fall by the probe.
    pub fn find_in_run<P: Probe<K>, T: RowTest<K, V>>(&self, probe: &P, test: &T) -> Option<&(K, V)>
        requires { RisesBy K.cmp (P.compares probe.now) }
        ensures { option_copied result ≡
            find_first (λ row. is_eq (P.compares probe.now row.0) && T.passes test.now row) self.now.rows }
    {
        self.rows.find_in_run(probe, test)
    }

    /// Lets the wheel come as far as to `now`, in milliseconds, or to the first row before it whose moment has come:
    /// what `come` passes by then is passed by no more.
    pub fn advance(&mut self, now: u64)
        ensures { self.new ≡ self.old }
    {
        self.wheel.advance(now);
    }
}

impl<K: Ord + Copy, V, M: Timed<V> + Copy, N: Numbering<K>, const MOST: usize> TimedTable<
    K,
    V,
    M,
    N,
    MOST,
> {
    /// The keys of the rows whose moment isn't after `now`, in milliseconds, in the order of the keys. Where there are
    /// few, it looks at these rows alone. The only error is out of memory.
    pub fn come(&self, alloc: Global, now: u64) -> Result<Vec<K>, AllocError>
        ensures { IfOk result (λ keys. keys.items ≡
            keys_of (filter (λ row. has_come now (M.at self.now.timing row.1)) self.now.rows)) }
    {
        let due = self.wheel.up_to(alloc, now)?;
        let test = HasCome {
            timing: self.timing,
            now,
        };
        if due.len() > FEW {
            return self.rows.keys_where(alloc, &test);
        }
        let slots = &self.rows.slots;
        let by_key = &self.rows.by_key;
        let mut places = places_of(alloc, slots, by_key, &due)?;
        places.sort_unstable();
        keys_at(alloc, slots, by_key, &places, &test)
    }
}

impl<K: Ord + Drop, V: Drop, M: Timed<V> + Copy, N: Numbering<K>, const MOST: usize> TimedTable<
    K,
    V,
    M,
    N,
    MOST,
> {
    /// No rows. Takes the memory of all rows that the table may ever hold; the only error is that there is too little.
    /// That is its answer for more than 65,536 rows too.
    pub fn new(alloc: Global, timing: M) -> Result<TimedTable<K, V, M, N, MOST>, AllocError>
        ensures { IfOk result (λ table. table ≡ record { timing = timing; rows = [] }) }
    {
        let rows = OrderedSlots::new(alloc)?;
        let wheel = wheel_of(alloc, &rows.slots, &timing)?;
        Ok(TimedTable {
            rows,
            wheel,
            timing,
        })
    }

    /// Sets the value under a key. It asks that the table has at most `MOST` rows then.
    pub fn set(&mut self, key: K, value: V)
        requires { length (put K.cmp key value self.old.rows) ≤ MOST }
        ensures { self.new ≡ record self.old { rows = put K.cmp key value self.old.rows } }
    {
        let moment = self.timing.at(&value);
        let slot = self.rows.set(key, value);
        slots_are_in_reach(&self.rows.slots);
        write_moment(&mut self.wheel, slot, moment);
    }

    /// Removes a key and its value. A table that has no such key stays as it is.
    pub fn remove(&mut self, key: &K)
        ensures { self.new ≡ record self.old {
          rows = where_key K.cmp (λ k. not (is_eq (K.cmp key.now k))) self.old.rows;
        } }
    {
        slots_are_in_reach(&self.rows.slots);
        if let Some(slot) = self.rows.remove(key) {
            self.wheel.clear(slot);
        }
    }

    /// Removes all rows.
    pub fn clear(&mut self)
        ensures { self.new ≡ record self.old { rows = [] } }
    {
        self.rows.clear();
        self.wheel.clear_all();
    }

    /// The rows that stay, each with what is left of its value. It goes over all rows.
    pub fn sweep<S: Sweep<K, V>>(&mut self, sweep: &S)
        ensures { self.new ≡ record self.old {
          rows = map (λ row. (row.0, S.left sweep.now row.1)) (filter (S.stays sweep.now) self.old.rows);
        } }
    {
        self.rows.sweep(sweep);
        write_moments(&mut self.wheel, &self.rows.slots, &self.timing);
    }

    /// Makes edits: each gives its key another value, or takes it away. It asks that the table has room for the rows
    /// after them, and that keys that compare as equal are equal. Takes no memory.
    pub fn edit(&mut self, edits: Table<K, Option<V>>)
        requires exact { (a b : K) → K.cmp a b ≡ Ordering.Equal → a ≡ b }
        requires room { length (edited K.cmp edits self.old.rows) ≤ MOST }
        ensures { self.new ≡ record self.old { rows = edited K.cmp edits self.old.rows } }
    {
        // That the rows are in order: the two passes make the edits for this reason.
        self.rows_are_in_order();
        let mut edits = edits.into_rows();
        edits.reverse();
        take_keys(self, &edits);
        give_values(self, edits);
    }
}

impl<
    K: Ord + Copy,
    V: TryCopy + Drop,
    M: Timed<V> + Copy,
    N: Numbering<K>,
    const MOST: usize,
> TimedTable<K, V, M, N, MOST> {
    /// The rows as a table of their own: a copy. The only error is out of memory.
    pub fn copied(&self, alloc: Global) -> Result<Table<K, V>, AllocError>
        ensures { IfOk result (λ table. table ≡ self.now.rows) }
    {
        Ok(Table::from_rows(self.rows.copied(alloc)?))
    }
}

impl<
    K: Ord + Copy,
    V: TryCopy + Drop,
    M: Timed<V> + Copy,
    N: Numbering<K>,
    const MOST: usize,
> TryCopy for TimedTable<K, V, M, N, MOST> {
    fn try_copy(&self, alloc: Global) -> Result<TimedTable<K, V, M, N, MOST>, AllocError> {
        let rows = self.rows.try_copy(alloc)?;
        let wheel = wheel_of(alloc, &rows.slots, &self.timing)?;
        Ok(TimedTable {
            rows,
            wheel,
            timing: self.timing,
        })
    }
}
