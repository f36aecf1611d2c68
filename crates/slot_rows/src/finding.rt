// The places of keys among slots in their order.
ghost use Rattle.std.specs.FinMap.Entries.{find, is_sorted, put, where_key};
ghost use Rattle.std.specs.List.Sorted.{IsBinarySearchResult, IsSearchInRange};
ghost use Rattle.std.specs.Option.{option_map_or};
ghost use Rattle.std.specs.Ordering.{is_eq};
ghost use Rattle.std.specs.declared.cmp.Ordering.TheVariants.{Equal, Less};
ghost use Rattle.std.specs.Prelude.{◌≡◌, ◌<◌, ◌≤◌, ℕ, T, Some, None, IfErr, IfNone, IfOk, IfSome, insert, length, not, remove, slice_index_or, slice_set};
ghost use Rattle.slab.specs.Slab.{get};
ghost use Rattle.slot_rows.specs.Slots.{AreFilled, rows_of};

use slab::Slab;
use std::cmp::Ordering;

/// How a slot's row compares with a key: below it where the slot has none.
pub(crate) fn cmp_at<K: Ord, V>(slots: &Slab<(K, V)>, slot: usize, key: &K) -> Ordering
    ensures { result ≡ option_map_or (λ row. K.cmp row.0 key.now) (get slots.now slot) Less }
{
    match slots.get(slot) {
        Some(row) => row.0.cmp(key),
        None => Ordering::Less,
    }
}

/// How the slot at a place compares with a key; `None` past the last.
fn cmp_place<K: Ord, V>(
    slots: &Slab<(K, V)>,
    by_key: &[u16],
    place: usize,
    key: &K,
) -> Option<Ordering>
    ensures within { IfSome result (λ order. (place < length by_key.now)
        × ((d : ℕ) → option_map_or (λ row. K.cmp row.0 key.now) (get slots.now (slice_index_or by_key.now place d)) Less ≡ order)) }
    ensures past { IfNone result (length by_key.now ≤ place) }
{
    if place < by_key.len() {
        Some(cmp_at(slots, usize::from(by_key[place]), key))
    } else {
        None
    }
}

/// The place of a key's slot, or the place where it belongs, if it is this one or one beside it.
fn place_beside<K: Ord, V>(
    slots: &Slab<(K, V)>,
    by_key: &[u16],
    near: usize,
    key: &K,
) -> Option<Result<usize, usize>>
    ensures bound { IfSome result (λ place. IsSearchInRange place (length by_key.now)) }
    ensures position { IfSome result (IsBinarySearchResult
        (λ slot. option_map_or (λ row. K.cmp row.0 key.now) (get slots.now slot) Less) by_key.now) }
{
    match cmp_place(slots, by_key, near, key)? {
        Ordering::Equal => Some(Ok(near)),
        Ordering::Less => match cmp_place(slots, by_key, near + 1, key) {
            Some(Ordering::Less) => None,
            Some(Ordering::Equal) => Some(Ok(near + 1)),
            Some(Ordering::Greater) => Some(Err(near + 1)),
            None => Some(Err(near + 1)),
        },
        Ordering::Greater => {
            if near == 0 {
                return Some(Err(near));
            }
            match cmp_place(slots, by_key, near - 1, key)? {
                Ordering::Less => Some(Err(near)),
                Ordering::Equal => Some(Ok(near - 1)),
                Ordering::Greater => None,
            }
        }
    }
}

/// The place of a key's slot among the slots in the order of the keys, or the place where it belongs. Where that isn't
/// near this place, a binary search.
fn search_near<K: Ord, V>(
    slots: &Slab<(K, V)>,
    by_key: &[u16],
    near: usize,
    key: &K,
) -> Result<usize, usize>
    ensures bound { IsSearchInRange result (length by_key.now) }
    ensures position { IsBinarySearchResult
        (λ slot. option_map_or (λ row. K.cmp row.0 key.now) (get slots.now slot) Less) by_key.now result }
{
    match place_beside(slots, by_key, near, key) {
        Some(place) => place,
        None => by_key.binary_search_by(|slot| cmp_at(slots, usize::from(*slot), key)),
    }
}

/// The place of a key's slot among the slots in the order of the keys, or the place where it belongs, and what an edit
/// there does to the rows. It looks first at a place and beside it, where keys that come one after the other mostly are.
pub fn place<K: Ord, V>(
    slots: &Slab<(K, V)>,
    by_key: &[u16],
    near: usize,
    key: &K,
) -> Result<usize, usize>
    requires filled { AreFilled slots.now by_key.now }
    requires in_order { T (is_sorted K.cmp (rows_of slots.now by_key.now)) }
    ensures found { IfOk result (λ i. (i < length by_key.now)
        × ((d : K × V) → find K.cmp key.now (rows_of slots.now by_key.now)
        ≡ Some (slice_index_or (rows_of slots.now by_key.now) i d).1)
        × ((v : V) (d : K × V) → put K.cmp key.now v (rows_of slots.now by_key.now)
        ≡ slice_set (rows_of slots.now by_key.now) i ((slice_index_or (rows_of slots.now by_key.now) i d).0, v))
        × (where_key K.cmp (λ k. not (is_eq (K.cmp key.now k))) (rows_of slots.now by_key.now)
        ≡ remove (rows_of slots.now by_key.now) i)) }
    ensures ties { IfOk result (λ i. (d : K × V) →
        K.cmp (slice_index_or (rows_of slots.now by_key.now) i d).0 key.now ≡ Equal) }
    ensures absent { IfErr result (λ i. (i ≤ length by_key.now)
        × (find K.cmp key.now (rows_of slots.now by_key.now) ≡ None)
        × ((v : V) → put K.cmp key.now v (rows_of slots.now by_key.now)
        ≡ insert (rows_of slots.now by_key.now) i (key.now, v))
        × (where_key K.cmp (λ k. not (is_eq (K.cmp key.now k))) (rows_of slots.now by_key.now)
        ≡ rows_of slots.now by_key.now)) }
{
    search_near(slots, by_key, near, key)
}
