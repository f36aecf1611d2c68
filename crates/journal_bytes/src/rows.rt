ghost use Rattle.std.specs.Prelude.{◌≡◌, ◌↔◌, IsTrue};

use crate::exact::Exact;
use sorted_rows::Table;

/// Whether these are the same items in the same order. Takes no memory.
pub fn are_same_items<T: Exact>(items: &[T], others: &[T]) -> bool
    ensures { IsTrue result ↔ (items.now ≡ others.now) }
{
    if items.len() != others.len() {
        return false;
    }
    for i in 0..items.len() {
        if !items[i].is_same(&others[i]) {
            return false;
        }
    }
    true
}

impl<K: Exact, V: Exact> Exact for (K, V) {
    fn is_same(&self, other: &(K, V)) -> bool {
        self.0.is_same(&other.0) && self.1.is_same(&other.1)
    }
}

impl<K: Exact + Ord, V: Exact> Exact for Table<K, V> {
    fn is_same(&self, other: &Table<K, V>) -> bool {
        are_same_items(self.as_slice(), other.as_slice())
    }
}
