//! The step of an event.

ghost use Rattle.std.specs.Prelude.{◌≡◌, ◌≢◌, IfOk, OnErr, false};
ghost use Rattle.lsr_facts.specs.Routers.{IsRouter};
ghost use Rattle.abstract_paths.specs.declared.events.Event.TheVariants as events;
ghost use Rattle.abstract_paths.specs.Relays.{exceeds_hop_limit};
ghost use Rattle.abstract_router.specs.Arrivals.{outcome};
ghost use Rattle.abstract_router.specs.Labels.{IsLabelling};
ghost use Rattle.abstract_router.specs.Soundness.{IsSound};
ghost use Rattle.router_soundness.specs.Drafted.{IsDrafted};
ghost use Rattle.state_views.specs.Edits.{edited};
ghost use Rattle.event_steps.specs.EventSteps.{IsSendingStep, IsStepOf, drafted};

use abstract_paths::{Event, Outputs, is_possible};
use lsr_facts::{Item, Key, Reply, Upstream};
use router_steps::draft_of;
use sorted_rows::Table;
use state_sends::{appended, sends_of};
use state_settling::{chosen_labels, settle_by};
use state_views::{Draft, Edits, WholeState};
use std::alloc::{AllocError, Global};

/// What a step changes of what is known.
#[derive(Debug, Drop)]
pub struct StepEdits {
    /// All but when messages were sent.
    pub edits: Edits,
    /// When Paths were sent last that are kept alive at a neighbour, in milliseconds: `None` for one that is wanted no more.
    pub moments: Table<Item, Option<u64>>,
    /// When Resvs were.
    pub upstream: Table<Upstream, Option<u64>>,
    /// The LSPs of which not the same is known after, but for when they expire, in the order of their keys.
    pub changed: Table<Key, ()>,
}

/// The step of an event.
#[derive(Debug, Drop)]
pub struct EventStep {
    /// What the event is answered.
    pub reply: Reply,
    /// What is sent.
    pub outputs: Outputs,
    /// The labels that were chosen: of each LSP that is new its own.
    pub chosen: Table<Key, u32>,
    /// What changes, where the event isn't silent.
    pub edits: Option<StepEdits>,
}

/// The step of a draft that isn't silent, by these labels: with all that follows from its own change, and with what is sent. It
/// asks for labels that may be chosen. The only error is out of memory.
pub fn step_by<V: WholeState>(
    alloc: Global,
    view: &V,
    draft: Draft,
    chosen: Table<Key, u32>,
) -> Result<EventStep, AllocError>
    requires sound { IsSound (V.router view.now) (V.state view.now) }
    requires draft { IsDrafted (V.router view.now) (V.state view.now) (edited draft.edits (V.state view.now)) }
    requires labels { IsLabelling (V.router view.now) (V.state view.now)
        (edited draft.edits (V.state view.now)).facts.paths chosen }
    ensures step { IfOk result (IsSendingStep (V.router view.now) (V.state view.now)
        (drafted draft (V.router view.now) (V.state view.now))) }
    ensures chosen { IfOk result (λ step. step.chosen ≡ chosen) }
{
    let settled = settle_by(alloc, view, chosen, draft.edits)?;
    let errors = appended(draft.errors, settled.told)?;
    let sends = sends_of(alloc, view, &settled.edits, draft.due, errors)?;
    Ok(EventStep {
        reply: draft.reply,
        outputs: sends.outputs,
        chosen: settled.chosen,
        edits: Some(StepEdits {
            edits: settled.edits,
            moments: sends.moments,
            upstream: sends.upstream,
            changed: sends.changed,
        }),
    })
}

/// The step of an event that a running router meets, which is no restart and no message whose hop limit ran out. The only error
/// is out of memory, and it comes for no event that is silent.
pub fn step_of<V: WholeState>(
    alloc: Global,
    view: &V,
    event: &Event,
) -> Result<EventStep, AllocError>
    requires router { IsRouter (V.router view.now) }
    requires sound { IsSound (V.router view.now) (V.state view.now) }
    requires running { (V.state view.now).facts.cold ≡ false }
    requires event { event.now ≢ events.Restart }
    requires passes { exceeds_hop_limit (V.router view.now) (V.state view.now).facts event.now ≡ false }
    ensures step { IfOk result (IsStepOf (V.router view.now) (V.state view.now) event.now) }
    ensures memory { OnErr result ((outcome (V.router view.now) (V.state view.now) event.now).is_silent ≡ false) }
{
    is_possible(event);
    let draft = draft_of(alloc, view, event)?;
    if draft.is_silent {
        return Ok(EventStep {
            reply: draft.reply,
            outputs: Outputs::new(alloc),
            chosen: Table::new(alloc),
            edits: None,
        });
    }
    let chosen = chosen_labels(alloc, view, draft.edits.paths.as_slice())?;
    step_by(alloc, view, draft, chosen)
}
