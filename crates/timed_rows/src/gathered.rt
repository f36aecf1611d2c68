// The keys of rows in some slots, in the order of the keys.
ghost use Rattle.std.specs.FinMap.Entries.{is_sorted};
ghost use Rattle.std.specs.Prelude.{◌≡◌, ◌<◌, ℕ, T, Some, IfOk, filter, length, slice_index_or};
ghost use Rattle.std.specs.List.Sorted.{IsNonDecreasingBy};
ghost use Rattle.slab.specs.Slab.{get};
ghost use Rattle.slot_rows.specs.Slots.{AreFilled, rows_of};
ghost use Rattle.sorted_rows.specs.Rows.{keys_of};
ghost use Rattle.timed_rows.specs.Gathered.{CoverRows, CoverSlots};

use slab::Slab;
use slot_rows::{RowTest, place, push_passing};
use std::alloc::{AllocError, Global};

/// The place of a slot among the slots in the order of the keys. It is looked for near a place first.
fn place_of<K: Ord, V>(
    slots: &Slab<(K, V)>,
    by_key: &[u16],
    near: usize,
    slot: usize,
) -> Option<usize>
    requires filled { AreFilled slots.now by_key.now }
    requires in_order { T (is_sorted K.cmp (rows_of slots.now by_key.now)) }
    ensures { (k : ℕ) → k < length by_key.now → slice_index_or by_key.now k 0 ≡ slot → result ≡ Some k }
{
    match slots.get(slot) {
        Some(row) => match place(slots, by_key, near, &row.0) {
            Ok(index) => Some(index),
            Err(_) => None,
        },
        None => None,
    }
}

/// The places of some slots, in the order in which the slots are named. Fails only when out of memory.
pub(crate) fn places_of<K: Ord, V>(
    alloc: Global,
    slots: &Slab<(K, V)>,
    by_key: &[u16],
    named: &[usize],
) -> Result<Vec<usize>, AllocError>
    requires filled { AreFilled slots.now by_key.now }
    requires in_order { T (is_sorted K.cmp (rows_of slots.now by_key.now)) }
    ensures { IfOk result (λ places. CoverSlots by_key.now named.now places.items) }
{
    let mut places = Vec::new(alloc);
    for slot in named {
        let near = places.last().copied().unwrap_or(0);
        if let Some(place) = place_of(slots, by_key, near, *slot) {
            places.push(place)?;
        }
    }
    Ok(places)
}

/// The keys of the rows that pass a test, in their order. It looks at some places alone, and asks that they rise, and
/// that each row that passes stands at one of them. Fails only when out of memory.
pub(crate) fn keys_at<K: Copy, V, R: RowTest<K, V>>(
    alloc: Global,
    slots: &Slab<(K, V)>,
    by_key: &[u16],
    places: &[usize],
    test: &R,
) -> Result<Vec<K>, AllocError>
    requires rise { IsNonDecreasingBy (λ place. place) places.now }
    requires covered { CoverRows (R.passes test.now) (get slots.now) by_key.now places.now }
    ensures { IfOk result (λ keys. keys.items ≡ keys_of (filter (R.passes test.now) (rows_of slots.now by_key.now))) }
{
    let mut keys = Vec::new(alloc);
    let mut next = 0;
    for place in places {
        // A place that is named twice was looked at before.
        if *place < next {
            continue;
        }
        if by_key.len() <= *place {
            continue;
        }
        push_passing(&mut keys, slots, usize::from(by_key[*place]), test)?;
        next = *place + 1;
    }
    Ok(keys)
}
