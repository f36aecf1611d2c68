//! The step that the router makes where an entry says what happened and which labels were chosen.

ghost use Rattle.std.specs.Option.{option_map_or};
ghost use Rattle.std.specs.Prelude.{◌≡◌, ◌≢◌, IfErr, IfOk, false};
ghost use Rattle.lsr_facts.specs.Routers.{IsRouter};
ghost use Rattle.lsr_facts.specs.declared.router.Router.{Router};
ghost use Rattle.abstract_paths.specs.Relays.{exceeds_hop_limit};
ghost use Rattle.abstract_paths.specs.declared.events.Event.{Event};
ghost use Rattle.abstract_paths.specs.declared.events.Event.TheVariants as events;
ghost use Rattle.abstract_router.specs.Soundness.{IsSound};
ghost use Rattle.abstract_router.specs.States.{State};
ghost use Rattle.abstract_router.specs.Steps.{Step};
ghost use Rattle.event_fields.specs.Spelled.{SpellsEvent};
ghost use Rattle.event_steps.specs.EventSteps.{after_edits, after_step};
ghost use Rattle.run_checker.specs.Faulty.{StopsAt};
ghost use Rattle.run_checker.specs.Taking.{IsTaken, changed, quiet};

use crate::change::Change;
use crate::fault::{EntryFault, Stop};
use crate::labels::labels_for;
use abstract_paths::{Event, Outputs, is_possible};
use event_steps::{EventStep, StepEdits, exceeds_hop_limit, step_by};
use journal_bytes::Entry;
use lsr_facts::{Refusal, Reply, Router, State};
use plain_views::{Known, SoundView};
use router_steps::draft_of;
use sorted_rows::Table;
use std::alloc::Global;

/// A step that the router makes.
#[derive(Debug, Drop)]
pub(crate) struct Taken {
    /// What it is answered.
    pub(crate) reply: Reply,
    /// What is sent.
    pub(crate) outputs: Outputs,
    /// What it makes of what is known.
    pub(crate) change: Change,
}

/// The step of an event that gives no label and for which nothing is sent. Takes no memory.
fn quiet_step(alloc: Global, reply: Reply, change: Change, entry: &Entry) -> Result<Taken, Stop>
    ensures taken { (r : Router) (s : State) (event : Event) → Step r s (quiet event reply) (changed change s) →
        IfOk result (IsTaken r s event entry.now.chosen) }
    ensures wrong { (r : Router) (s : State) (event : Event) → SpellsEvent entry.now.event event → Step r s (quiet event reply) (changed change s) →
        IfErr result (λ stop. StopsAt stop r s entry.now) }
{
    if !entry.chosen.as_slice().is_empty() {
        return Err(Stop::Wrong(EntryFault::Choice(Table::new(alloc))));
    }
    Ok(Taken {
        reply,
        outputs: Outputs::new(alloc),
        change,
    })
}

/// The change by edits, if there are any. Takes no memory.
fn change_by(edits: Option<StepEdits>) -> Change
    ensures { (s : State) → changed result s ≡ option_map_or (λ edits. after_edits edits s) edits s }
{
    match edits {
        Some(edits) => Change::Edited(edits),
        None => Change::Nothing,
    }
}

/// The same step. Takes no memory.
fn taken_by(step: EventStep) -> Taken
    ensures reply { result.reply ≡ step.reply }
    ensures outputs { result.outputs ≡ step.outputs }
    ensures change { (s : State) → changed result.change s ≡ after_step step s }
{
    Taken {
        reply: step.reply,
        outputs: step.outputs,
        change: change_by(step.edits),
    }
}

/// The step of an event that a running router meets, which is no restart. It asks for the plain state that the view is of.
fn step_over(
    alloc: Global,
    known: &Known<'_>,
    view: &SoundView<'_>,
    event: &Event,
    entry: &Entry,
) -> Result<Taken, Stop>
    requires view { view.now ≡ record { router = known.now.router.now; state = known.now.state.now } }
    requires router { IsRouter view.now.router }
    requires running { view.now.state.facts.cold ≡ false }
    requires event { event.now ≢ events.Restart }
    requires spelled { SpellsEvent entry.now.event event.now }
    ensures taken { IfOk result (IsTaken view.now.router view.now.state event.now entry.now.chosen) }
    ensures wrong { IfErr result (λ stop. StopsAt stop view.now.router view.now.state entry.now) }
{
    view.soundness();
    is_possible(event);
    if exceeds_hop_limit(view, event) {
        return Err(Stop::Wrong(EntryFault::Event(Refusal::HopLimit)));
    }
    let draft = draft_of(alloc, view, event)?;
    if draft.is_silent {
        return quiet_step(alloc, draft.reply, Change::Nothing, entry);
    }
    let paths = draft.edits.paths.as_slice();
    let labels = labels_for(alloc, known, view, paths, entry.chosen.as_slice())?;
    Ok(taken_by(step_by(alloc, view, draft, labels)?))
}

/// The step of an event that a running router meets, which is no restart.
fn running_step(
    alloc: Global,
    known: &Known<'_>,
    event: &Event,
    entry: &Entry,
) -> Result<Taken, Stop>
    requires router { IsRouter known.now.router.now }
    requires sound { IsSound known.now.router.now known.now.state.now }
    requires running { known.now.state.now.facts.cold ≡ false }
    requires event { event.now ≢ events.Restart }
    requires spelled { SpellsEvent entry.now.event event.now }
    ensures taken { IfOk result (IsTaken known.now.router.now known.now.state.now event.now entry.now.chosen) }
    ensures wrong { IfErr result (λ stop. StopsAt stop known.now.router.now known.now.state.now entry.now) }
{
    let view = SoundView::new(alloc, known.router, known.state)?;
    step_over(alloc, known, &view, event, entry)
}

/// The step of an event, by the labels of its entry. It asks for a sound state, and for the event that the entry's bytes spell.
/// What stops it is that the event has no step, that the labels may not be chosen, or that there is no memory.
pub(crate) fn take_step(
    alloc: Global,
    router: &Router,
    state: &State,
    event: &Event,
    entry: &Entry,
) -> Result<Taken, Stop>
    requires router { IsRouter router.now }
    requires sound { IsSound router.now state.now }
    requires spelled { SpellsEvent entry.now.event event.now }
    ensures taken { IfOk result (IsTaken router.now state.now event.now entry.now.chosen) }
    ensures wrong { IfErr result (λ stop. StopsAt stop router.now state.now entry.now) }
{
    if state.facts.cold {
        return match event {
            Event::Start => quiet_step(alloc, Reply::Done, Change::Started, entry),
            _ => Err(Stop::Wrong(EntryFault::Event(Refusal::IsCold))),
        };
    }
    match event {
        Event::Restart => quiet_step(alloc, Reply::Done, Change::Restarted, entry),
        _ => running_step(alloc, &Known { router, state }, event, entry),
    }
}
