//! Rows that are looked up, mostly one after the other.

ghost use Rattle.std.specs.FinMap.Entries.{find, is_sorted};
ghost use Rattle.std.specs.Option.{option_copied};
ghost use Rattle.std.specs.Prelude.{◌≡◌, T};

use sorted_rows::get_ref;

/// The value under a key of rows in order, if they have it: it is looked for at a place first, where it mostly is.
pub(crate) fn get_near<'a, K: Ord, V>(rows: &'a [(K, V)], place: usize, key: &K) -> Option<&'a V>
    requires { T (is_sorted K.cmp rows.now) }
    ensures found { option_copied result ≡ find K.cmp key.now rows.now }
{
    if place < rows.len() && rows[place].0.cmp(key).is_eq() {
        return Some(&rows[place].1);
    }
    get_ref(rows, key)
}

/// The place to look at next, where this was found.
pub(crate) fn place_after<V>(place: usize, found: Option<&V>) -> usize {
    if found.is_some() {
        return place.saturating_add(1);
    }
    place
}
