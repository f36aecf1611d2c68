// Searches of tables in slots.
ghost use Rattle.std.specs.List.{cons_option, filter, find};
ghost use Rattle.std.specs.List.Sorted.{IsBinarySearchResult, IsPartitionPoint, IsPartitionedBy, IsSearchInRange};
ghost use Rattle.std.specs.Ordering.{is_eq, is_lt};
ghost use Rattle.std.specs.Option.{option_copied, option_map_or};
ghost use Rattle.std.specs.declared.cmp.Ordering.TheVariants.{Less};
ghost use Rattle.std.specs.Prelude.{◌≡◌, ◌≤◌, ◌&&◌, ◌++◌, Bool, true, false, [], IfOk, OnOk, length, vec_capacity};
ghost use Rattle.slab.specs.Slab.{get};
ghost use Rattle.slot_rows.specs.Runs.{RisesBy};
ghost use Rattle.slot_rows.specs.Slots.{AreFilled, IsSlotted, rows_of};
ghost use Rattle.sorted_rows.specs.Rows.{keys_of};

use crate::numbering::Numbering;
use crate::slots::OrderedSlots;
use slab::Slab;
use std::alloc::{AllocError, Global};
use std::cmp::Ordering;

/// A test of rows.
pub trait RowTest<K, V> {
    ghost passes: { Self → K × V → Bool };

    /// Whether the row passes.
    fn passes(&self, row: &(K, V)) -> bool
        ensures { result ≡ passes self.now row.now };
}

/// How keys compare with what is sought.
pub trait Probe<K> {
    ghost use Rattle.std.specs.declared.cmp.Ordering.{Ordering};

    ghost compares: { Self → K → Ordering };

    /// How the key compares with it: `Less` where the key stands before it.
    fn compare(&self, key: &K) -> Ordering
        ensures { result ≡ compares self.now key.now };
}

/// The key of a slot's row goes to the end of keys, if the row passes a test. An empty slot adds none.
pub fn push_passing<K: Copy, V, T: RowTest<K, V>>(
    keys: &mut Vec<K>,
    slots: &Slab<(K, V)>,
    slot: usize,
    test: &T,
) -> Result<(), AllocError>
    ensures { OnOk result (keys.new.items ≡
        keys.old.items ++ keys_of (filter (T.passes test.now) (cons_option (get slots.now slot) []))) }
{
    if let Some(row) = slots.get(slot) {
        if test.passes(row) {
            keys.push(row.0)?;
        }
    }
    Ok(())
}

/// How a slot's row compares with what is sought: before it where the slot has none.
fn compare_at<K, V, P: Probe<K>>(slots: &Slab<(K, V)>, slot: usize, probe: &P) -> Ordering
    ensures { result ≡ option_map_or (λ row. P.compares probe.now row.0) (get slots.now slot) Less }
{
    match slots.get(slot) {
        Some(row) => probe.compare(&row.0),
        None => Ordering::Less,
    }
}

impl<K, V, N, const MOST: usize> OrderedSlots<K, V, N, MOST> {
    /// The place of a row that compares as equal with what is sought, or the place where it would stand. A binary search:
    /// it asks for nothing, and finds what there is where the keys that rise don't fall by the probe.
    pub fn search<P: Probe<K>>(&self, probe: &P) -> Result<usize, usize>
        requires { AreFilled self.now.slots self.now.by_key.items }
        ensures bound { IsSearchInRange result (length (rows_of self.now.slots self.now.by_key.items)) }
        ensures position { IsBinarySearchResult (λ row. P.compares probe.now row.0)
            (rows_of self.now.slots self.now.by_key.items) result }
    {
        let slots = &self.slots;
        self.by_key
            .binary_search_by(|slot| compare_at(slots, usize::from(*slot), probe))
    }

    /// The place of the first row that doesn't stand before what is sought, or how many rows there are. A binary
    /// search: so it is where no row that stands before it comes after one that doesn't.
    pub fn first_place<P: Probe<K>>(&self, probe: &P) -> usize
        requires { AreFilled self.now.slots self.now.by_key.items }
        ensures bound { result ≤ length (rows_of self.now.slots self.now.by_key.items) }
        ensures partitioned { IsPartitionedBy (λ row. is_lt (P.compares probe.now row.0))
            (rows_of self.now.slots self.now.by_key.items) →
            IsPartitionPoint (λ row. is_lt (P.compares probe.now row.0) ≡ true)
            (λ row. is_lt (P.compares probe.now row.0) ≡ false)
            (rows_of self.now.slots self.now.by_key.items) result }
    {
        let slots = &self.slots;
        self.by_key.partition_point(|slot| compare_at(slots, usize::from(*slot), probe).is_lt())
    }
}

impl<K: Ord, V, N: Numbering<K>, const MOST: usize> OrderedSlots<K, V, N, MOST> {
    /// The first row that passes a test, of those that compare as equal with what is sought. It looks at these rows
    /// alone.
    pub fn find_in_run<P: Probe<K>, T: RowTest<K, V>>(&self, probe: &P, test: &T) -> Option<&(K, V)>
        requires slotted { IsSlotted K.cmp MOST self.now.slots self.now.by_key.items (vec_capacity self.now.by_key) }
        requires rises { RisesBy K.cmp (P.compares probe.now) }
        ensures { option_copied result ≡ find (λ row. is_eq (P.compares probe.now row.0) && T.passes test.now row)
            (rows_of self.now.slots self.now.by_key.items) }
    {
        for place in self.first_place(probe)..self.by_key.len() {
            let Some(row) = self.row(place) else {
                return None;
            };
            if probe.compare(&row.0).is_ne() {
                return None;
            }
            if test.passes(row) {
                return Some(row);
            }
        }
        None
    }
}

impl<K: Copy, V, N, const MOST: usize> OrderedSlots<K, V, N, MOST> {
    /// The keys of the rows that pass a test, in their order. The only error is out of memory.
    pub fn keys_where<T: RowTest<K, V>>(
        &self,
        alloc: Global,
        test: &T,
    ) -> Result<Vec<K>, AllocError>
        ensures { IfOk result (λ keys. keys.items ≡
            keys_of (filter (T.passes test.now) (rows_of self.now.slots self.now.by_key.items))) }
    {
        let mut keys = Vec::new(alloc);
        for slot in &self.by_key {
            push_passing(&mut keys, &self.slots, usize::from(*slot), test)?;
        }
        Ok(keys)
    }
}
