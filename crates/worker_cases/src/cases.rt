//! The worked cases.

use crate::fault::Fault;
use crate::{by_hand, calls, served, wired};
use std::alloc::Global;
use std::sync::Wait;
use std::thread::Threads;

/// Runs the worked cases, each of which prints what came, by threads that `waits` starts. The fault says what to do.
pub fn run_cases<R: Threads + Wait + Clone + Send + Sync + Drop>(
    rt: &HostRuntime,
    waits: &R,
    alloc: Global,
) -> Result<(), Fault> {
    calls::run(rt, alloc)?;
    by_hand::run(rt, waits, alloc, false)?;
    by_hand::run(rt, waits, alloc, true)?;
    wired::run(rt, waits, alloc)?;
    served::run(rt, waits, alloc)
}
