//! Copies of tables and of a wheel, which no step makes.

use crate::bench::{Bench, again};
use forwarding_table::{Action, FIRST_LABEL, ForwardingTable};
use label_space::LabelBindings;
use lsr_facts::{Item, LabelRange};
use path_state::PathState;
use refresh_timers::RefreshTimers;
use sorted_rows::TryCopy;
use std::alloc::AllocError;
use timer_wheel::Wheel;

/// The slots of the wheel.
const SLOTS: usize = 2;
/// The one that has a moment.
const SLOT: usize = 1;
/// That moment, in milliseconds.
const MOMENT: u64 = 5_000;
/// The labels of the copied table.
const LABELS: LabelRange = LabelRange {
    first: 16,
    last: 17,
};
/// How many items the timers have room for.
const ITEMS: usize = 4;
/// How often items are refreshed, in milliseconds.
const REFRESH_MS: u32 = 30_000;

/// Tells of a copy of a label table with one row.
fn copy_table(bench: &Bench<'_>) -> Result<(), AllocError> {
    let mut table = ForwardingTable::new(bench.alloc)?;
    table.change(FIRST_LABEL, Some(Action::Pop));
    let copy = table.try_copy(bench.alloc)?;
    let count = copy.label_count() as u64;
    let template = match copy.look(FIRST_LABEL) {
        Some(Action::Pop) => "a copy of a label table: # labels, # is popped\n",
        _ => "a copy of a label table: # labels, # isn't popped\n",
    };
    bench.tell_filled(template, &[count, u64::from(FIRST_LABEL)]);
    Ok(())
}

/// Tells of a copy of a wheel with one moment.
fn copy_wheel(bench: &Bench<'_>) -> Result<(), AllocError> {
    let mut wheel = Wheel::new(bench.alloc, SLOTS)?;
    wheel.set(SLOT, MOMENT);
    let copy = wheel.copied(bench.alloc)?;
    let before = copy.up_to(bench.alloc, MOMENT - 1)?.len() as u64;
    let then = copy.up_to(bench.alloc, MOMENT)?.len() as u64;
    bench.tell_filled(
        "a copy of a wheel: # slots are due before #, # then\n",
        &[before, MOMENT, then],
    );
    Ok(())
}

/// Tells of copies of tables of LSPs, which are empty.
fn copy_rows(bench: &Bench<'_>) -> Result<(), AllocError> {
    let paths = PathState::new(bench.alloc)?.try_copy(bench.alloc)?;
    let labels = LabelBindings::new(bench.alloc, LABELS)?.try_copy(bench.alloc)?;
    let items = RefreshTimers::<Item, ITEMS>::new(bench.alloc, REFRESH_MS)?;
    let items = items.try_copy(bench.alloc)?;
    bench.tell_filled(
        "copies of empty tables: # paths, # labels, # items\n",
        &[paths.len() as u64, labels.len() as u64, items.len() as u64],
    );
    Ok(())
}

/// Makes the copies, and tells what they have. The only error is that memory ran out twice.
pub fn run(bench: &Bench<'_>) -> Result<(), AllocError> {
    bench.tell("== copies\n");
    again!(copy_table(bench), AllocError, {})?;
    again!(copy_wheel(bench), AllocError, {})?;
    again!(copy_rows(bench), AllocError, {})
}
