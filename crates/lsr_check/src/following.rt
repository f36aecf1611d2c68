//! Whether a recorded run is one, and begins where the one before it ended.

ghost use Rattle.std.specs.Prelude.{◌≡◌, ◌≢◌, ◌↔◌, Err, IfErr, IfOk, IsTrue, option_map};
ghost use Rattle.abstract_router.specs.States.{State};
ghost use Rattle.run_checker.specs.declared.fault.RunFault.TheVariants.{Memory};
ghost use Rattle.lsr_check.specs.Following.{BeginsAfter, IsFlawOf, LeadsTo};
ghost use Rattle.lsr_check.specs.declared.flaw.Flaw.TheVariants.{Fault};

use crate::flaw::Flaw;
use crate::recorded::{Recorded, RunEnd};
use journal_bytes::{is_same_router, is_same_state};
use lsr_facts::State;
use run_checker::check;
use std::alloc::Global;

/// Whether a recorded run begins where the one before it ended, if there is one: with the same router, which knew the same.
fn begins_after(before: Option<&RunEnd>, run: &Recorded) -> bool
    ensures { IsTrue result ↔ BeginsAfter (option_map (λ end. end.now) before.entry) run.now }
{
    match before {
        Some(end) => {
            is_same_router(&run.config.router, &end.config.router)
                && is_same_state(&run.base, &end.state)
        }
        None => true,
    }
}

/// What a router knew at the end of a recorded run, which has to begin where the one before it ended, if there is one. What is told is
/// right, whoever recorded the run; one that begins there, from a sound base, is never refused, but for want of memory.
pub fn check_after(alloc: Global, before: Option<&RunEnd>, run: &Recorded) -> Result<State, Flaw>
    ensures run { IfOk result (LeadsTo (option_map (λ end. end.now) before.entry) run.now) }
    ensures flaw { IfErr result (IsFlawOf (option_map (λ end. end.now) before.entry) run.now) }
    ensures accepted { (state : State) → LeadsTo (option_map (λ end. end.now) before.entry) run.now state →
        result ≢ Err (Fault Memory) → result ≡ Ok state }
{
    if !begins_after(before, run) {
        return Err(Flaw::Gap);
    }
    match check(alloc, &run.config, &run.base, run.entries.as_slice()) {
        Ok(state) => Ok(state),
        Err(fault) => Err(Flaw::Fault(fault)),
    }
}
