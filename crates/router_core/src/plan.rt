//! A step that is made ready.

ghost use Rattle.std.specs.Option.{option_map_or};
ghost use Rattle.std.specs.Prelude.{◌≡◌, ◌≢◌, Err, IfErr, IfOk, IfSome, MatchOption, OnErr, false, is_none, true};
ghost use Rattle.lsr_facts.specs.declared.refusal.Refusal.TheVariants.{HopLimit};
ghost use Rattle.abstract_paths.specs.declared.events.Event.{Event};
ghost use Rattle.abstract_paths.specs.declared.events.Event.TheVariants as events;
ghost use Rattle.abstract_paths.specs.Relays.{exceeds_hop_limit};
ghost use Rattle.abstract_router.specs.Arrivals.{outcome};
ghost use Rattle.abstract_router.specs.Soundness.{IsSound};
ghost use Rattle.abstract_router.specs.Tables.{TellsChange};
ghost use Rattle.event_steps.specs.EventSteps.{AreStepEdits, after_edits};
ghost use Rattle.router_tables.specs.Below.labels.Rows.{AreTableEdits};
ghost use Rattle.router_tables.specs.Below.labels.TunnelRows.{AreTunnelEdits};
ghost use Rattle.router_tables.specs.Changes.{IsChange, changed};
ghost use Rattle.router_core.specs.Plans.{IsOutFor, IsPlanOf, after_plan};
ghost use Rattle.router_core.specs.States.{RouterState};

use abstract_paths::{Event, Outputs};
use event_steps::{StepEdits, bandwidth_edits, exceeds_hop_limit, step_of};
use forwarding_table::Action;
use lsr_facts::{Key, Refusal, Reply};
use router_tables::{Change, Tables, table_edits, tunnel_edits};
use sorted_rows::Table;
use std::alloc::{AllocError, Global};
use std::mem;

/// A step that is made ready, with all the memory that it takes, and hasn't happened yet. It is of use once, on
/// the router that it was made for, as that stood then: [`crate::Running::commit`] takes it.
#[derive(Debug)]
pub struct Plan {
    /// What the event is answered.
    pub(crate) reply: Reply,
    /// What is sent.
    pub(crate) outputs: Outputs,
    /// The labels that were chosen: of each LSP that is new its own.
    pub(crate) chosen: Table<Key, u32>,
    /// What changes, where something does. It is large, and a plan is moved often.
    pub(crate) change: Option<Box<Change>>,
}

/// Written out, so that it is dropped by one call, whatever it holds.
impl Drop for Plan {
    fn drop(self) {
        let Plan {
            reply: _reply,
            outputs: _outputs,
            chosen: _chosen,
            change: _change,
        } = self;
    }
}

impl Plan {
    /// The labels that were chosen, what is sent, and what changes.
    pub(crate) fn into_parts(self) -> (Table<Key, u32>, Outputs, Option<Box<Change>>)
        ensures { result ≡ (self.chosen, self.outputs, self.change) }
    {
        let Plan {
            reply: _reply,
            outputs,
            chosen,
            change,
        } = self;
        (chosen, outputs, change)
    }

    /// What the event is answered.
    pub fn reply(&self) -> Reply
        ensures { result ≡ self.now.reply }
    {
        self.reply
    }

    /// What is sent.
    pub fn outputs(&self) -> &Outputs
        ensures { result.now ≡ self.now.outputs }
    {
        &self.outputs
    }

    /// The labels that were chosen: of each LSP that is new its own.
    pub fn chosen(&self) -> &Table<Key, u32>
        ensures { result.now ≡ self.now.chosen }
    {
        &self.chosen
    }

    /// What becomes of the actions of labels, and of those of tunnels: of each that has another action after it that one, or
    /// none. `None` where nothing that the router knows changes.
    pub fn table_edits(&self) -> Option<(&Table<u32, Option<Action>>, &Table<u16, Option<Action>>)>
        ensures edits { (s : RouterState) (event : Event) → IsPlanOf s event self.now → MatchOption result
            (after_plan self.now s.state ≡ s.state)
            (λ edits. AreTableEdits s.router s.state (after_plan self.now s.state) edits.0.now
            × AreTunnelEdits s.router s.state (after_plan self.now s.state) edits.1.now
            × IsSound s.router (after_plan self.now s.state)) }
    {
        match &self.change {
            Some(change) => Some((&change.table, &change.tunnel_table)),
            None => None,
        }
    }

    /// Whether it changes what is forwarded: the action of a label, or of a tunnel.
    pub fn changes_table(&self) -> bool
        ensures { (s : RouterState) (event : Event) → IsPlanOf s event self.now →
            TellsChange result s.router s.state (after_plan self.now s.state) }
    {
        match &self.change {
            Some(change) => change.changes_table(),
            None => false,
        }
    }
}

/// The change of a router's tables by the edits of a step. The only error is out of memory.
fn change_of(alloc: Global, tables: &Tables, step: StepEdits) -> Result<Change, AllocError>
    requires { AreStepEdits tables.now.router tables.now.state step }
    ensures is { IfOk result (IsChange tables.now.router tables.now.state) }
    ensures after { IfOk result (λ change. changed change tables.now.state ≡ after_edits step tables.now.state) }
{
    tables.soundness();
    let StepEdits {
        mut edits,
        moments,
        upstream,
        changed,
    } = step;
    let table = table_edits(alloc, tables, &edits, changed)?;
    let tunnel_table = tunnel_edits(alloc, tables, &edits)?;
    let resvs = mem::replace(&mut edits.resvs, Table::new(alloc));
    let bandwidth = bandwidth_edits(alloc, tables, &edits.paths, resvs)?;
    Ok(Change {
        edits,
        bandwidth,
        moments,
        upstream,
        table,
        tunnel_table,
    })
}

/// The change of a router's tables by the edits of a step, where there are any. It is boxed. The only error is out of memory, and
/// none comes where there are none.
fn change_by(
    alloc: Global,
    tables: &Tables,
    step: Option<StepEdits>,
) -> Result<Option<Box<Change>>, AllocError>
    requires { IfSome step (AreStepEdits tables.now.router tables.now.state) }
    ensures change { IfOk result (λ boxed. IfSome boxed (λ change. IsChange tables.now.router tables.now.state change.value)) }
    ensures after { IfOk result (λ boxed. option_map_or (λ change. changed change.value tables.now.state) boxed tables.now.state
        ≡ option_map_or (λ edits. after_edits edits tables.now.state) step tables.now.state) }
    ensures memory { OnErr result (is_none step ≡ false) }
{
    match step {
        Some(edits) => Ok(Some(Box::new(alloc, change_of(alloc, tables, edits)?)?)),
        None => Ok(None),
    }
}

/// The plan of the step of an event that has one. The only error is out of memory, and it comes for no event that is
/// silent.
fn plan_of_step(alloc: Global, tables: &Tables, event: &Event) -> Result<Plan, AllocError>
    requires event { event.now ≢ events.Restart }
    requires passes { exceeds_hop_limit tables.now.router tables.now.state.facts event.now ≡ false }
    ensures planned { IfOk result (IsPlanOf tables.now event.now) }
    ensures memory { OnErr result ((outcome tables.now.router tables.now.state event.now).is_silent ≡ false) }
{
    tables.soundness();
    let step = step_of(alloc, tables, event)?;
    Ok(Plan {
        reply: step.reply,
        outputs: step.outputs,
        chosen: step.chosen,
        change: change_by(alloc, tables, step.edits)?,
    })
}

/// The plan of an event's step. A message for another router whose limit ran out has none ([`Refusal::HopLimit`]); else
/// the only error is [`Refusal::NoMemory`], and it comes for no event that is silent.
pub(crate) fn plan_of(alloc: Global, tables: &Tables, event: &Event) -> Result<Plan, Refusal>
    requires { event.now ≢ events.Restart }
    ensures planned { IfOk result (IsPlanOf tables.now event.now) }
    ensures out { IfErr result (IsOutFor tables.now event.now) }
    ensures limit { exceeds_hop_limit tables.now.router tables.now.state.facts event.now ≡ true → result ≡ Err HopLimit }
{
    if exceeds_hop_limit(tables, event) {
        return Err(Refusal::HopLimit);
    }
    Ok(plan_of_step(alloc, tables, event)?)
}
