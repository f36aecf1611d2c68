//! What a step makes of what a router knows, as plain values.

ghost use Rattle.std.specs.Prelude.{◌≡◌, IfOk, OnOk};
ghost use Rattle.sorted_rows.specs.Edits as rows;
ghost use Rattle.lsr_facts.specs.Orders.{item_cmp};
ghost use Rattle.event_steps.specs.EventSteps.{after_edits};
ghost use Rattle.run_checker.specs.Taking.{changed};

use crate::restart::restarted;
use event_steps::StepEdits;
use lsr_facts::laws::items_are_in_order;
use lsr_facts::{Item, State};
use plain_views::{apply_edits, edit_rows};
use sorted_rows::Table;
use std::alloc::{AllocError, Global};

/// What a step makes of what a router knows.
#[derive(Debug, Drop)]
pub(crate) enum Change {
    /// Nothing else.
    Nothing,
    /// It runs from now on.
    Started,
    /// What messages set up is lost, and it is cold from now on.
    Restarted,
    /// These edits.
    Edited(StepEdits),
}

/// Makes edits of when Paths were sent last. The only error is out of memory; then some of them are made.
fn edit_moments(
    moments: &mut Table<Item, u64>,
    edits: Table<Item, Option<u64>>,
) -> Result<(), AllocError>
    ensures { OnOk result (moments.new ≡ rows.edited item_cmp edits moments.old) }
{
    // That items are compared by the order that their rows stand in.
    items_are_in_order();
    edit_rows(moments, edits)
}

/// What is known after the edits of a step. The only error is out of memory.
fn edited(state: State, edits: StepEdits) -> Result<State, AllocError>
    ensures { IfOk result (λ after. after ≡ after_edits edits state) }
{
    let StepEdits {
        edits,
        moments,
        upstream,
        changed: _changed,
    } = edits;
    let mut after = apply_edits(state, edits)?;
    edit_moments(&mut after.facts.sent, moments)?;
    edit_rows(&mut after.sent_upstream, upstream)?;
    Ok(after)
}

/// What is known after a step. The only error is out of memory.
pub(crate) fn changed(alloc: Global, state: State, change: Change) -> Result<State, AllocError>
    ensures { IfOk result (λ after. after ≡ changed change state) }
{
    match change {
        Change::Nothing => Ok(state),
        Change::Started => {
            let mut after = state;
            after.facts.cold = false;
            Ok(after)
        }
        Change::Restarted => Ok(restarted(alloc, state)),
        Change::Edited(edits) => edited(state, edits),
    }
}
