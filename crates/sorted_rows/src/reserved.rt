// A table in memory that is taken when it is made.
ghost use Rattle.std.specs.FinMap.Entries.{find, is_sorted, put, where_key};
ghost use Rattle.std.specs.Option.{option_copied};
ghost use Rattle.std.specs.Ordering.{is_eq};
ghost use Rattle.std.specs.Prelude.{◌≡◌, ◌≤◌, Bool, T, [], filter, IfOk, is_some, length, map, not, slice_get, vec_capacity};

use crate::copies::TryCopy;
use std::alloc::{AllocError, Global};
use std::marker::Model;

/// Rows of a key and a value in the order of their keys, with no key twice: at most `MOST` of them. Their memory is
/// taken when the table is made, and no change takes more. Contracts see the list of rows.
#[derive(Debug, Drop)]
pub struct ReservedTable<K: Ord, V, const MOST: usize> {
    rows: Vec<(K, V)>,
}

impl<K: Ord, V, const MOST: usize> Model for ReservedTable<K, V, MOST> {
    ghost use Rattle.std.specs.Prelude.{List, vec_capacity};
    ghost use Rattle.sorted_rows.specs.Reserved.{IsReserved};

    ghost Value = { List (K × V) };

    ghost view = { λ t. t.rows.items };

    ghost invariant = { λ t. IsReserved K.cmp MOST t.rows.items (vec_capacity t.rows) };
}

/// What becomes of each row of a table: some go, and the others may get another value.
pub trait Sweep<K, V> {
    ghost stays: { Self → K × V → Bool };

    ghost left: { Self → V → V };

    /// Whether the row stays.
    fn stays(&self, row: &(K, V)) -> bool
        ensures { result ≡ stays self.now row.now };

    /// Makes the value what is left of it.
    fn leave(&self, value: &mut V)
        ensures { value.new ≡ left self.now value.old };
}

/// The rows go that don't stay.
fn keep_staying<K: Drop, V: Drop, S: Sweep<K, V>>(rows: &mut Vec<(K, V)>, sweep: &S)
    ensures rows { rows.new.items ≡ filter (S.stays sweep.now) rows.old.items }
    ensures capacity { vec_capacity rows.new ≡ vec_capacity rows.old }
{
    rows.retain(|row| sweep.stays(row));
}

/// Each value becomes what is left of it, and the keys stay.
fn leave_values<K, V, S: Sweep<K, V>>(rows: &mut Vec<(K, V)>, sweep: &S)
    ensures rows { rows.new.items ≡ map (λ row. (row.0, S.left sweep.now row.1)) rows.old.items }
    ensures capacity { vec_capacity rows.new ≡ vec_capacity rows.old }
{
    for row in rows.iter_mut() {
        sweep.leave(&mut row.1);
    }
}

impl<K: Ord, V, const MOST: usize> ReservedTable<K, V, MOST> {
    /// No rows. Takes the memory of all rows that the table may ever hold; the only error is that there is too little.
    pub fn new(alloc: Global) -> Result<ReservedTable<K, V, MOST>, AllocError>
        ensures { IfOk result (λ table. table ≡ []) }
    {
        Ok(ReservedTable {
            rows: Vec::with_capacity(alloc, MOST)?,
        })
    }

    /// The rows.
    pub fn as_slice(&self) -> &[(K, V)]
        ensures rows { result.now ≡ self.now }
        ensures sorted { T (is_sorted K.cmp self.now) }
        ensures few { length self.now ≤ MOST }
    {
        self.rows.as_slice()
    }

    /// How many rows there are.
    pub fn len(&self) -> usize
        ensures { result ≡ length self.now }
    {
        self.rows.len()
    }

    /// The row at a place, in the order of the keys, from 0 on; `None` past the last.
    pub fn row(&self, place: usize) -> Option<&(K, V)>
        ensures { option_copied result ≡ slice_get self.now place }
    {
        self.rows.get(place)
    }

    /// The keys rise, and there are at most `MOST` rows. It does nothing when it runs.
    pub fn rows_are_in_order(&self)
        ensures sorted { T (is_sorted K.cmp self.now) }
        ensures few { length self.now ≤ MOST }
    {
        let _ = self.as_slice();
    }

    /// The value under a key, or `None` where the table has no such key.
    pub fn get(&self, key: &K) -> Option<&V>
        ensures found { option_copied result ≡ find K.cmp key.now self.now }
    {
        crate::get_ref(self.rows.as_slice(), key)
    }
}

impl<K: Ord + Drop, V: Drop, const MOST: usize> ReservedTable<K, V, MOST> {
    /// Sets the value under a key. It asks that the table has at most `MOST` rows then.
    pub fn set(&mut self, key: K, value: V)
        requires { length (put K.cmp key value self.old) ≤ MOST }
        ensures { self.new ≡ put K.cmp key value self.old }
    {
        crate::set(&mut self.rows, key, value).unwrap();
    }

    /// Removes a key and its value. A table that has no such key stays as it is.
    pub fn remove(&mut self, key: &K)
        ensures { self.new ≡ where_key K.cmp (λ k. not (is_eq (K.cmp key.now k))) self.old }
    {
        crate::remove(&mut self.rows, key);
    }

    /// Removes all rows.
    pub fn clear(&mut self)
        ensures { self.new ≡ [] }
    {
        self.rows.clear();
    }

    /// The rows that stay, each with what is left of its value.
    pub fn sweep<S: Sweep<K, V>>(&mut self, sweep: &S)
        ensures { self.new ≡ map (λ row. (row.0, S.left sweep.now row.1)) (filter (S.stays sweep.now) self.old) }
    {
        keep_staying(&mut self.rows, sweep);
        leave_values(&mut self.rows, sweep);
    }
}

impl<K: Ord + Copy, V: TryCopy + Drop, const MOST: usize> TryCopy for ReservedTable<K, V, MOST> {
    fn try_copy(&self, alloc: Global) -> Result<ReservedTable<K, V, MOST>, AllocError> {
        let mut rows = Vec::with_capacity(alloc, MOST)?;
        for row in &self.rows {
            rows.push((row.0, row.1.try_copy(alloc)?))?;
        }
        Ok(ReservedTable { rows })
    }
}
