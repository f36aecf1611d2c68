// Tables in the order of their keys: rows of a key and a value in a `Vec`, with no key twice.
#![tactic(auto)]

ghost use Rattle.std.specs.FinMap.Entries.{find, is_sorted, put, where_key};
ghost use Rattle.std.specs.List.{items_where_true};
ghost use Rattle.std.specs.Option.{option_copied};
ghost use Rattle.std.specs.Ordering.{is_eq};
ghost use Rattle.std.specs.Prelude.{◌≡◌, ◌<◌, ◌≤◌, ◌∷◌, ◌++◌, [], Bool, List, T, Some, None, not, true, filter, insert, length, remove, slice_index_or, slice_set, vec_capacity, IsOk, IfOk, is_some, IfErr, OnOk, OnErr};
ghost use Rattle.sorted_rows.specs.Closures.{ComputesTest};

use std::alloc::AllocError;

mod copies;
pub mod laws;
mod reserved;
mod table;

pub use copies::{TryCopy, copy_plain_rows, copy_rows};
pub use reserved::{ReservedTable, Sweep};
pub use table::Table;

/// The value under a key of rows in order, or `None` where they have no such key. A binary search.
pub fn get<K: Ord, V: Copy>(rows: &[(K, V)], key: &K) -> Option<V>
    requires { T (is_sorted K.cmp rows.now) }
    ensures found { result ≡ find K.cmp key.now rows.now }
{
    get_ref(rows, key).copied()
}

/// A reference to the value under a key of rows in order, or `None` where they have no such key. A binary search.
pub fn get_ref<'a, K: Ord, V>(rows: &'a [(K, V)], key: &K) -> Option<&'a V>
    requires { T (is_sorted K.cmp rows.now) }
    ensures found { option_copied result ≡ find K.cmp key.now rows.now }
{
    match place(rows, key) {
        Ok(index) => Some(&rows[index].1),
        Err(_) => None,
    }
}

/// Whether rows in order have a key. A binary search.
pub fn contains_key<K: Ord, V>(rows: &[(K, V)], key: &K) -> bool
    requires { T (is_sorted K.cmp rows.now) }
    ensures found { result ≡ is_some (find K.cmp key.now rows.now) }
{
    get_ref(rows, key).is_some()
}

// The index of a key's row, or the index where such a row belongs, and what an edit there does.
fn place<K: Ord, V>(rows: &[(K, V)], key: &K) -> Result<usize, usize>
    requires { T (is_sorted K.cmp rows.now) }
    ensures found { IfOk result (λ i. (i < length rows.now)
        × ((d : K × V) → find K.cmp key.now rows.now ≡ Some (slice_index_or rows.now i d).1)
        × ((v : V) (d : K × V) → put K.cmp key.now v rows.now ≡ slice_set rows.now i ((slice_index_or rows.now i d).0, v))
        × (where_key K.cmp (λ k. not (is_eq (K.cmp key.now k))) rows.now ≡ remove rows.now i)) }
    ensures absent { IfErr result (λ i. (i ≤ length rows.now)
        × (find K.cmp key.now rows.now ≡ None)
        × ((v : V) → put K.cmp key.now v rows.now ≡ insert rows.now i (key.now, v))
        × (where_key K.cmp (λ k. not (is_eq (K.cmp key.now k))) rows.now ≡ rows.now)) }
{
    rows.binary_search_by(|row| row.0.cmp(key))
}

// Whether a key comes after all rows in order. One comparison.
fn comes_last<K: Ord, V>(rows: &[(K, V)], key: &K) -> bool
    requires { T (is_sorted K.cmp rows.now) }
    ensures { result ≡ true → (v : V) → put K.cmp key.now v rows.now ≡ rows.now ++ (key.now, v) ∷ [] }
{
    let count = rows.len();
    count == 0 || rows[count - 1].0.cmp(key).is_lt()
}

/// Sets the value under a key of rows in order: in place where they have the key, and else as a new row where its
/// key belongs. Fails only when out of memory, and only where it needs a row more than there is room for.
pub fn set<K: Ord + Drop, V: Drop>(
    rows: &mut Vec<(K, V)>,
    key: K,
    value: V,
) -> Result<(), AllocError>
    requires { T (is_sorted K.cmp rows.old.items) }
    ensures ok { OnOk result (rows.new.items ≡ put K.cmp key value rows.old.items) }
    ensures err { OnErr result (rows.new.items ≡ rows.old.items) }
    ensures room { length (put K.cmp key value rows.old.items) ≤ vec_capacity rows.old → IsOk result }
    ensures capacity { vec_capacity rows.old ≤ vec_capacity rows.new }
{
    // Rows are often made in the order of their keys.
    if comes_last(rows, &key) {
        rows.push((key, value))?;
        return Ok(());
    }
    match place(rows, &key) {
        Ok(index) => {
            rows[index].1 = value;
        }
        Err(index) => {
            rows.insert(index, (key, value))?;
        }
    }
    Ok(())
}

/// Removes a key and its value from rows in order. Rows that have no such key stay as they are.
pub fn remove<K: Ord + Drop, V: Drop>(rows: &mut Vec<(K, V)>, key: &K)
    requires { T (is_sorted K.cmp rows.old.items) }
    ensures removed { rows.new.items ≡
        where_key K.cmp (λ k. not (is_eq (K.cmp key.now k))) rows.old.items }
    ensures capacity { vec_capacity rows.new ≡ vec_capacity rows.old }
{
    if let Ok(index) = place(rows, key) {
        rows.remove(index);
    }
}

/// Keeps the rows that pass a test of the key and the value, in their order.
pub fn retain<K: Drop, V: Drop, F: Fn(&K, &V) -> bool>(rows: &mut Vec<(K, V)>, test: F)
    requires { F.IsAlwaysCallable test }

    // For whichever test of a row gives the answers of the closure.
    ensures kept { (passes : K × V → Bool) → ComputesTest F.Fn test passes →
        rows.new.items ≡ filter passes rows.old.items }

    // Whatever the closure answers, some of the rows are picked and stand in their order.
    ensures picked { (picks : List Bool) × (rows.new.items ≡ items_where_true picks rows.old.items) }
    ensures capacity { vec_capacity rows.new ≡ vec_capacity rows.old }
{
    rows.retain(|row| test(&row.0, &row.1));
}
