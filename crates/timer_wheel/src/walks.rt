// Going over the slots of places.
ghost use Rattle.std.specs.Prelude.{◌≡◌, ◌+◌, ◌%◌, ◌^◌, ◌<◌, ◌≤◌, ℕ, List, ◌++◌, false, filter, length, slice_index, IfOk, OnOk};
ghost use Rattle.std.specs.List.{list_any};
ghost use Rattle.timer_wheel.specs.Due.{is_due};
ghost use Rattle.timer_wheel.specs.Rings.{IsRing};
ghost use Rattle.timer_wheel.specs.Wheels.{AreOfPlaces, from_tick};

use std::alloc::{AllocError, Global};

/// How many places a wheel has.
pub const PLACES: u64 = 256;

/// Whether a slot has a moment that is not after `now`.
fn is_due(moments: &[Option<u64>], slot: usize, now: u64) -> bool
    ensures { result ≡ is_due now moments.now slot }
{
    match moments.get(slot) {
        Some(Some(moment)) => *moment <= now,
        _ => false,
    }
}

/// Whether a slot in the ring of a head is due.
fn any_due(moments: &[Option<u64>], after: &[usize], head: usize, now: u64) -> bool
    requires within { (x : ℕ) → x < length after.now → slice_index after.now x < length after.now }
    requires head_within { head < length after.now }
    ensures { (slots : List ℕ) → IsRing after.now (length moments.now) head slots →
        result ≡ list_any (is_due now moments.now) slots }
{
    let mut at = after[head];
    for _passed in 0..moments.len() {
        if at == head {
            return false;
        }
        if is_due(moments, at, now) {
            return true;
        }
        at = after[at];
    }
    false
}

/// Adds the slots in the ring of a head that are due. Fails only when out of memory.
fn push_due(
    due: &mut Vec<usize>,
    moments: &[Option<u64>],
    after: &[usize],
    head: usize,
    now: u64,
) -> Result<(), AllocError>
    requires within { (x : ℕ) → x < length after.now → slice_index after.now x < length after.now }
    requires head_within { head < length after.now }
    ensures { (slots : List ℕ) → IsRing after.now (length moments.now) head slots →
        OnOk result (due.new.items ≡ due.old.items ++ filter (is_due now moments.now) slots) }
{
    let mut at = after[head];
    for _passed in 0..moments.len() {
        if at == head {
            return Ok(());
        }
        if is_due(moments, at, now) {
            due.push(at)?;
        }
        at = after[at];
    }
    Ok(())
}

/// The slots that are due in so many places, from that of a tick on. Fails only when out of memory.
pub fn due_from(
    alloc: Global,
    moments: &[Option<u64>],
    after: &[usize],
    base: u64,
    places: u64,
    now: u64,
) -> Result<Vec<usize>, AllocError>
    requires nodes { length after.now ≡ length moments.now + 256 }
    requires within { (x : ℕ) → x < length after.now → slice_index after.now x < length after.now }
    requires early { base ≤ 2 ^ 54 }
    requires few { places ≤ 256 }
    ensures { (slots_of : ℕ → List ℕ) → AreOfPlaces after.now (length moments.now) slots_of →
        IfOk result (λ due. due.items ≡ from_tick base (λ place. filter (is_due now moments.now) (slots_of place)) places) }
{
    let mut due = Vec::new(alloc);
    for offset in 0..places {
        let head = moments.len() + ((base + offset) % PLACES) as usize;
        push_due(&mut due, moments, after, head, now)?;
    }
    Ok(due)
}

/// In how many places, from that of a tick on, no slot is due: at most so many.
pub fn idle_from(moments: &[Option<u64>], after: &[usize], base: u64, most: u64, now: u64) -> u64
    requires nodes { length after.now ≡ length moments.now + 256 }
    requires within { (x : ℕ) → x < length after.now → slice_index after.now x < length after.now }
    requires early { base ≤ 2 ^ 54 }
    requires few { most ≤ 256 }
    ensures few { result ≤ most }
    ensures idle { (slots_of : ℕ → List ℕ) → AreOfPlaces after.now (length moments.now) slots_of →
        (offset : ℕ) → offset < result → list_any (is_due now moments.now) (slots_of ((base + offset) % 256)) ≡ false }
{
    for offset in 0..most {
        let head = moments.len() + ((base + offset) % PLACES) as usize;
        if any_due(moments, after, head, now) {
            return offset;
        }
    }
    most
}
