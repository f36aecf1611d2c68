// What holds of rows in the order of their keys. Each function here does nothing: its contract is a law.
ghost use Rattle.std.specs.FinMap.Entries.{find, is_sorted, put, where_key};
ghost use Rattle.std.specs.Bool.{then_some};
ghost use Rattle.std.specs.List.{All};
ghost use Rattle.std.specs.Option.{option_and_then};
ghost use Rattle.std.specs.Ordering.{is_eq};
ghost use Rattle.std.specs.Prelude.{◌≡◌, ◌+◌, Bool, false, not, List, ◌∷◌, T, filter, if◌then◌else◌, is_some, length};

use std::cmp::Ordering;

/// Rows in order stay in order when a value is set.
pub fn set_keeps_order<K: Ord, V>()
    ensures { (key : K) (value : V) (rows : List (K × V)) → T (is_sorted K.cmp rows) →
        T (is_sorted K.cmp (put K.cmp key value rows)) }
{}

/// Rows in order stay in order when a key is removed.
pub fn remove_keeps_order<K: Ord, V>()
    ensures { (key : K) (rows : List (K × V)) → T (is_sorted K.cmp rows) →
        T (is_sorted K.cmp (where_key K.cmp (λ k. not (is_eq (K.cmp key k))) rows)) }
{}

/// Rows in order stay in order when those that fail a test go.
pub fn retain_keeps_order<K: Ord, V>()
    ensures { (passes : K × V → Bool) (rows : List (K × V)) → T (is_sorted K.cmp rows) →
        T (is_sorted K.cmp (filter passes rows)) }
{}

/// A value that was set is found under its key, and every other key is found as before.
pub fn finds_what_was_set<K: Ord, V>()
    ensures same { (key : K) (value : V) (rows : List (K × V)) →
        find K.cmp key (put K.cmp key value rows) ≡ Some value }
    ensures others { (key q : K) (value : V) (rows : List (K × V)) → is_eq (K.cmp q key) ≡ false →
        find K.cmp q (put K.cmp key value rows) ≡ find K.cmp q rows }
{}

/// A key that was removed is not found, and every other key is found as before.
pub fn finds_no_removed_key<K: Ord, V>()
    ensures same { (key : K) (rows : List (K × V)) →
        find K.cmp key (where_key K.cmp (λ k. not (is_eq (K.cmp key k))) rows) ≡ None }
    ensures others { (key q : K) (rows : List (K × V)) → is_eq (K.cmp key q) ≡ false →
        find K.cmp q (where_key K.cmp (λ k. not (is_eq (K.cmp key k))) rows) ≡ find K.cmp q rows }
{}

/// After rows in order were filtered, a key is found just where its value passes the test. A test of
/// the key answers alike at keys that compare as equal.
pub fn finds_what_was_kept<K: Ord, V>()
    ensures { (passes : K × V → Bool) (key : K) (rows : List (K × V)) →
        ((k : K) (v : V) → K.cmp key k ≡ Ordering.Equal → passes (k, v) ≡ passes (key, v)) →
        T (is_sorted K.cmp rows) →
        find K.cmp key (filter passes rows)
        ≡ option_and_then (λ v. then_some (passes (key, v)) v) (find K.cmp key rows) }
{}

/// Each of the rows in order is found under its key.
pub fn finds_each_row<K: Ord, V>()
    ensures { (rows : List (K × V)) → T (is_sorted K.cmp rows) →
        All (λ row. find K.cmp row.0 rows ≡ Some row.1) rows }
{}

/// A key below the first of the rows in order is not found.
pub fn finds_no_key_below_the_first<K: Ord, V>()
    ensures { (key : K) (first : K × V) (rest : List (K × V)) → T (is_sorted K.cmp (first ∷ rest)) →
        K.cmp key first.0 ≡ Ordering.Less → find K.cmp key (first ∷ rest) ≡ None }
{}

/// Rows in order that answer each look-up alike are the same rows, where keys that compare as equal
/// are equal.
pub fn same_answers_are_same_rows<K: Ord, V>()
    ensures { (rows others : List (K × V)) → ((k q : K) → K.cmp k q ≡ Ordering.Equal → k ≡ q) →
        T (is_sorted K.cmp rows) → T (is_sorted K.cmp others) →
        ((q : K) → find K.cmp q rows ≡ find K.cmp q others) → rows ≡ others }
{}

/// A value that is set at a new key adds a row, and at a key that the rows have adds none.
pub fn counts_rows_when_set<K: Ord, V>()
    ensures { (key : K) (value : V) (rows : List (K × V)) → T (is_sorted K.cmp rows) →
        length (put K.cmp key value rows)
        ≡ (if is_some (find K.cmp key rows) then length rows else length rows + 1) }
{}
