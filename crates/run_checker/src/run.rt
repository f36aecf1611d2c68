//! All entries.

ghost use Rattle.std.specs.Prelude.{◌≡◌, ◌≢◌, Err, IfErr, IfOk, Ok};
ghost use Rattle.lsr_facts.specs.Routers.{IsRouter};
ghost use Rattle.abstract_router.specs.Soundness.{IsSound};
ghost use Rattle.abstract_router.specs.States.{State};
ghost use Rattle.run_checker.specs.Faulty.{IsRunFault};
ghost use Rattle.run_checker.specs.Recorded.{AreRecorded};
ghost use Rattle.run_checker.specs.declared.fault.RunFault.TheVariants.{Memory};

use crate::fault::RunFault;
use crate::next::next;
use journal_bytes::Entry;
use lsr_config::Config;
use lsr_facts::{Router, State};
use plain_soundness::unsound;
use sorted_rows::TryCopy;
use std::alloc::Global;

/// What is known after entries, where they are a run from a sound base.
fn run_from(
    alloc: Global,
    router: &Router,
    base: State,
    entries: &[Entry],
) -> Result<State, RunFault>
    requires router { IsRouter router.now }
    requires sound { IsSound router.now base }
    ensures run { IfOk result (AreRecorded router.now base entries.now) }
    ensures fault { IfErr result (IsRunFault router.now base entries.now) }
    ensures accepted { (end : State) → AreRecorded router.now base entries.now end → result ≢ Err Memory → result ≡ Ok end }
{
    let mut state = base;
    for i in 0..entries.len() {
        match next(alloc, router, state, &entries[i]) {
            Ok(after) => state = after,
            Err(stop) => return Err(stop.at(i + 1)),
        }
    }
    Ok(state)
}

/// Whether recorded entries are a run of the router of a configuration from a base, each entry a step of it: what it knows at the
/// end. What is told is right, whoever recorded the entries. The fault is the first there is: that the base isn't sound, and then,
/// entry by entry, that its bytes spell no event or one that has no step, that the labels may not be chosen, that another reply is
/// given, or that other frames are sent; [`RunFault::Memory`] may come at any point. A run from a sound base is never refused, but for want of memory.
pub fn check(
    alloc: Global,
    config: &Config,
    base: &State,
    entries: &[Entry],
) -> Result<State, RunFault>
    ensures sound { IfOk result (λ end. IsSound config.now.router base.now) }
    ensures run { IfOk result (AreRecorded config.now.router base.now entries.now) }
    ensures fault { IfErr result (IsRunFault config.now.router base.now entries.now) }
    ensures accepted { (end : State) → IsSound config.now.router base.now → AreRecorded config.now.router base.now entries.now end →
        result ≢ Err Memory → result ≡ Ok end }
{
    config.opens();
    if let Some(clause) = unsound(alloc, &config.router, base)? {
        return Err(RunFault::Base(clause));
    }
    run_from(alloc, &config.router, base.try_copy(alloc)?, entries)
}
