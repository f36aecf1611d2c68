//! Look-ups in a table whose rows mostly stand where those of another one do.
ghost use Rattle.std.specs.FinMap.Entries.{find};
ghost use Rattle.std.specs.Option.{option_copied};
ghost use Rattle.std.specs.Prelude.{◌≡◌};

use sorted_rows::Table;

/// The value under a key, or `None` where the table has no such key. It is looked for at this place first, and then by a binary
/// search.
pub(crate) fn get_near<'a, K: Ord, V>(
    table: &'a Table<K, V>,
    place: usize,
    key: &K,
) -> Option<&'a V>
    ensures { option_copied result ≡ find K.cmp key.now table.now }
{
    let rows = table.as_slice();
    if place < rows.len() && rows[place].0.cmp(key).is_eq() {
        return Some(&rows[place].1);
    }
    table.get(key)
}
