// Edits of tables whose rows are to be looked at in their time.
ghost use Rattle.std.specs.Prelude.{◌≡◌, ◌≤◌, length, reverse};
ghost use Rattle.sorted_rows.specs.InTurn.{given, in_turn, taken};

use crate::table::TimedTable;
use crate::timing::Timed;
use slot_rows::Numbering;

/// Makes those of the edits that take a key away.
pub(crate) fn take_keys<
    K: Ord + Drop,
    V: Drop,
    M: Timed<V> + Copy,
    N: Numbering<K>,
    const MOST: usize,
>(table: &mut TimedTable<K, V, M, N, MOST>, edits: &[(K, Option<V>)])
    ensures { table.new ≡ record table.old { rows = in_turn (taken K.cmp) edits.now table.old.rows } }
{
    for edit in edits {
        if edit.1.is_none() {
            table.remove(&edit.0);
        }
    }
}

/// Makes those of the edits that give a key a value, from the last one on. There is room for the rows at the end.
pub(crate) fn give_values<
    K: Ord + Drop,
    V: Drop,
    M: Timed<V> + Copy,
    N: Numbering<K>,
    const MOST: usize,
>(table: &mut TimedTable<K, V, M, N, MOST>, mut edits: Vec<(K, Option<V>)>)
    requires { length (in_turn (given K.cmp) (reverse edits.items) table.old.rows) ≤ MOST }
    ensures { table.new ≡ record table.old { rows = in_turn (given K.cmp) (reverse edits.items) table.old.rows } }
{
    while let Some((key, now)) = edits.pop() {
        if let Some(value) = now {
            table.set(key, value);
        }
    }
}
