// Edits of tables: what becomes of some of their keys, as a table of its own.
ghost use Rattle.std.specs.FinMap.Entries.{is_sorted, put, where_key};
ghost use Rattle.std.specs.Ordering.{is_eq};
ghost use Rattle.std.specs.Prelude.{◌≡◌, ◌≤◌, ℕ, List, T, length, not, reverse};
ghost use Rattle.sorted_rows.specs.Edits.{edited};
ghost use Rattle.sorted_rows.specs.InTurn.{given, in_turn, taken};

use crate::numbering::Numbering;
use crate::slot_table::SlotTable;
use sorted_rows::{ReservedTable, Table};
use std::cmp::Ordering;

/// A table in the order of its keys, to which rows come and from which they go.
pub trait EditRows<K: Ord, V> {
    ghost rows: { Self → List (K × V) };

    ghost most: { ℕ };

    /// The keys rise. It does nothing when it runs.
    fn keys_rise(&self)
        ensures { T (is_sorted K.cmp (rows self.now)) };

    /// Gives a key a value. It asks that there are not too many rows then.
    fn give(&mut self, key: K, value: V)
        requires { length (put K.cmp key value (rows self.old)) ≤ most }
        ensures { rows self.new ≡ put K.cmp key value (rows self.old) };

    /// Takes a key and its value away.
    fn take(&mut self, key: &K)
        ensures { rows self.new ≡ where_key K.cmp (λ k. not (is_eq (K.cmp key.now k))) (rows self.old) };
}

impl<K: Ord + Drop, V: Drop, const MOST: usize> EditRows<K, V> for ReservedTable<K, V, MOST> {
    ghost rows = { λ table. table };

    ghost most = { MOST };

    fn keys_rise(&self) {
        self.rows_are_in_order();
    }

    fn give(&mut self, key: K, value: V) {
        self.set(key, value);
    }

    fn take(&mut self, key: &K) {
        self.remove(key);
    }
}

impl<K: Ord + Drop, V: Drop, N: Numbering<K>, const MOST: usize> EditRows<K, V>
    for SlotTable<K, V, N, MOST> {
    ghost rows = { λ table. table };

    ghost most = { MOST };

    fn keys_rise(&self) {
        self.rows_are_in_order();
    }

    fn give(&mut self, key: K, value: V) {
        self.set(key, value);
    }

    fn take(&mut self, key: &K) {
        self.remove(key);
    }
}

/// Makes those of the edits that take a key away.
fn take_keys<K: Ord + Drop, V: Drop, R: EditRows<K, V>>(table: &mut R, edits: &[(K, Option<V>)])
    ensures { R.rows table.new ≡ in_turn (taken K.cmp) edits.now (R.rows table.old) }
{
    for edit in edits {
        if edit.1.is_none() {
            table.take(&edit.0);
        }
    }
}

/// Makes those of the edits that give a key a value, from the last one on. There is room for the rows at the end.
fn give_values<K: Ord + Drop, V: Drop, R: EditRows<K, V>>(
    table: &mut R,
    mut edits: Vec<(K, Option<V>)>,
)
    requires { length (in_turn (given K.cmp) (reverse edits.items) (R.rows table.old)) ≤ R.most }
    ensures { R.rows table.new ≡ in_turn (given K.cmp) (reverse edits.items) (R.rows table.old) }
{
    while let Some((key, now)) = edits.pop() {
        if let Some(value) = now {
            table.give(key, value);
        }
    }
}

/// Makes edits of a table: each gives its key another value, or takes it away. It asks that the table has room for
/// the rows after them, and that keys that compare as equal are equal. Takes no memory.
pub fn make_edits<K: Ord + Drop, V: Drop, R: EditRows<K, V>>(
    table: &mut R,
    edits: Table<K, Option<V>>,
)
    requires exact { (a b : K) → K.cmp a b ≡ Ordering.Equal → a ≡ b }
    requires room { length (edited K.cmp edits (R.rows table.old)) ≤ R.most }
    ensures { R.rows table.new ≡ edited K.cmp edits (R.rows table.old) }
{
    // That the rows are in order: the two passes make the edits for this reason.
    table.keys_rise();
    let mut edits = edits.into_rows();

    // The greatest key is taken away first, and given last: then few rows move for each.
    edits.reverse();
    take_keys(table, &edits);
    give_values(table, edits);
}
