//! The keys of rows.

ghost use Rattle.std.specs.List.{filter};
ghost use Rattle.std.specs.Prelude.{◌≡◌, ◌↔◌, Bool, IfOk, IsTrue};
ghost use Rattle.sorted_rows.specs.Rows.{keys_of};

use journal_bytes::Exact;
use std::alloc::{AllocError, Global};

/// A test of values.
pub(crate) trait Test<V> {
    /// Whether a value passes.
    ghost test: { Self → V → Bool };

    /// Whether it passes.
    fn passes(&self, value: &V) -> bool
        ensures { result ≡ test self.now value.now };
}

/// The keys of the rows whose values pass a test. The only error is out of memory.
pub(crate) fn keys_where<K: Copy, V, T: Test<V>>(
    alloc: Global,
    rows: &[(K, V)],
    test: &T,
) -> Result<Vec<K>, AllocError>
    ensures { IfOk result (λ keys. keys.items ≡ keys_of (filter (λ row. T.test test.now row.1) rows.now)) }
{
    rows.iter()
        .filter(|row| test.passes(&row.1))
        .map(|row| row.0)
        .collect(alloc)
}

/// Whether rows stand under the same keys, in the same order.
pub(crate) fn have_same_keys<K: Exact, V, W>(rows: &[(K, V)], others: &[(K, W)]) -> bool
    ensures { IsTrue result ↔ (keys_of rows.now ≡ keys_of others.now) }
{
    if rows.len() != others.len() {
        return false;
    }
    for i in 0..rows.len() {
        if !rows[i].0.is_same(&others[i].0) {
            return false;
        }
    }
    true
}
