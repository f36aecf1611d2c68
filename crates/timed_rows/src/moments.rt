// The moments of rows in slots, in a wheel.
ghost use Rattle.std.specs.Prelude.{◌≡◌, ◌≤◌, ◌<◌, ℕ, IfOk, IsSome, length, slice_set};
ghost use Rattle.slab.specs.Slab.{get};
ghost use Rattle.timed_rows.specs.Timed.{AreMoments, moment_of};

use crate::timing::Timed;
use slab::Slab;
use std::alloc::{AllocError, Global};
use timer_wheel::Wheel;

/// Each slot that has a row is below the capacity. It does nothing when it runs.
pub(crate) fn slots_are_in_reach<R>(slots: &Slab<R>)
    ensures { (slot : ℕ) → IsSome (get slots.now slot) → slot < slots.now.capacity }
{
    let _ = slots.capacity();
}

/// The moment of a slot's row; `None` where the slot has none.
fn moment_at<K, V, M: Timed<V>>(slots: &Slab<(K, V)>, slot: usize, timing: &M) -> Option<u64>
    ensures { result ≡ moment_of (M.at timing.now) (get slots.now slot) }
{
    match slots.get(slot) {
        Some(row) => timing.at(&row.1),
        None => None,
    }
}

/// Sets the moment of a slot, or takes it away.
pub(crate) fn write_moment(wheel: &mut Wheel, slot: usize, moment: Option<u64>)
    requires { slot < length wheel.old }
    ensures { wheel.new ≡ slice_set wheel.old slot moment }
{
    match moment {
        Some(moment) => wheel.set(slot, moment),
        None => wheel.clear(slot),
    }
}

/// Gives each slot the moment of its row, and no other.
pub(crate) fn write_moments<K, V, M: Timed<V>>(wheel: &mut Wheel, slots: &Slab<(K, V)>, timing: &M)
    requires { slots.now.capacity ≤ length wheel.old }
    ensures len { length wheel.new ≡ length wheel.old }
    ensures moments { AreMoments (M.at timing.now) slots.now wheel.new }
{
    slots_are_in_reach(slots);
    for slot in 0..wheel.len() {
        let moment = moment_at(slots, slot, timing);
        write_moment(wheel, slot, moment);
    }
}

/// A wheel in which each slot has the moment of its row. The only error is out of memory.
pub(crate) fn wheel_of<K, V, M: Timed<V>>(
    alloc: Global,
    slots: &Slab<(K, V)>,
    timing: &M,
) -> Result<Wheel, AllocError>
    ensures room { IfOk result (λ wheel. slots.now.capacity ≤ length wheel) }
    ensures moments { IfOk result (λ wheel. AreMoments (M.at timing.now) slots.now wheel) }
{
    let mut wheel = Wheel::new(alloc, slots.capacity())?;
    write_moments(&mut wheel, slots, timing);
    Ok(wheel)
}
