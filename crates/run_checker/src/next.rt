//! One entry.

ghost use Rattle.std.specs.Prelude.{IfErr, IfOk};
ghost use Rattle.lsr_facts.specs.Routers.{IsRouter};
ghost use Rattle.lsr_facts.specs.declared.router.Router.{Router};
ghost use Rattle.abstract_router.specs.Soundness.{IsSound};
ghost use Rattle.abstract_router.specs.States.{State};
ghost use Rattle.event_fields.specs.Spelled.{SpellsEvent};
ghost use Rattle.run_checker.specs.Faulty.{StopsAt};
ghost use Rattle.run_checker.specs.Recorded.{IsRecorded};

use crate::change::changed;
use crate::comparing::compare;
use crate::fault::{EntryFault, Stop};
use crate::taken::take_step;
use abstract_paths::Event;
use event_fields::read_event;
use field_bytes::ReadFault;
use journal_bytes::Entry;
use lsr_facts::{Router, State};
use std::alloc::Global;

/// What happened, as an entry's bytes spell it.
fn event_of(alloc: Global, entry: &Entry) -> Result<Event, Stop>
    ensures event { IfOk result (SpellsEvent entry.now.event) }
    ensures unread { (r : Router) (s : State) → IfErr result (λ stop. StopsAt stop r s entry.now) }
{
    match read_event(alloc, entry.event.as_slice()) {
        Ok(event) => Ok(event),
        Err(ReadFault::Format) => Err(Stop::Wrong(EntryFault::Unread)),
        Err(ReadFault::Memory) => Err(Stop::Memory),
    }
}

/// What is known after the step that an entry records. It asks for a sound state.
pub(crate) fn next(
    alloc: Global,
    router: &Router,
    state: State,
    entry: &Entry,
) -> Result<State, Stop>
    requires router { IsRouter router.now }
    requires sound { IsSound router.now state }
    ensures recorded { IfOk result (IsRecorded router.now state entry.now) }
    ensures wrong { IfErr result (λ stop. StopsAt stop router.now state entry.now) }
{
    let event = event_of(alloc, entry)?;
    let taken = take_step(alloc, router, &state, &event, entry)?;
    let change = compare(alloc, taken, entry)?;
    Ok(changed(alloc, state, change)?)
}
