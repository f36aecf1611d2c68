//! A step of a router that is made ready, and hasn't happened yet.

ghost use Rattle.std.specs.Prelude.{◌≡◌};
ghost use Rattle.abstract_paths.specs.declared.events.Event.{Event};
ghost use Rattle.abstract_router.specs.Tables.{TellsChange};
ghost use Rattle.router_core.specs.States.{RouterState};
ghost use Rattle.router_core.specs.Readies.{IsReady, after_ready, made_of};

use crate::Plan;
use abstract_paths::Output;
use lsr_facts::{Key, Reply};

/// A step that is made ready, with all the memory that it takes. It is of use once, on the router that it was made for, as
/// that stood then: [`crate::Machine::make`] takes it.
#[derive(Debug, Drop)]
pub enum Ready {
    /// A step of a running router that isn't restarted.
    Plan(Plan),
    /// The start of a cold router.
    Start,
    /// The restart of a running router.
    Restart {
        /// Whether it changes what is forwarded.
        changes_table: bool,
    },
}

impl Ready {
    /// What the event is answered.
    pub fn reply(&self) -> Reply
        ensures { (event : Event) → result ≡ (made_of event self.now).reply }
    {
        match self {
            Ready::Plan(plan) => plan.reply(),
            Ready::Start | Ready::Restart { .. } => Reply::Done,
        }
    }

    /// What is sent.
    pub fn outputs(&self) -> &[Output]
        ensures { (event : Event) → result.now ≡ (made_of event self.now).outputs }
    {
        match self {
            Ready::Plan(plan) => plan.outputs().as_slice(),
            Ready::Start | Ready::Restart { .. } => &[],
        }
    }

    /// The labels that were chosen: of each LSP that is new its own.
    pub fn chosen(&self) -> &[(Key, u32)]
        ensures { (event : Event) → result.now ≡ (made_of event self.now).labels }
    {
        match self {
            Ready::Plan(plan) => plan.chosen().as_slice(),
            Ready::Start | Ready::Restart { .. } => &[],
        }
    }

    /// Whether it changes what is forwarded: the action of a label, or of a tunnel.
    pub fn changes_table(&self) -> bool
        ensures { (s : RouterState) (event : Event) → IsReady s event self.now →
            TellsChange result s.router s.state (after_ready self.now s.state) }
    {
        match self {
            Ready::Plan(plan) => plan.changes_table(),
            Ready::Start => false,
            Ready::Restart { changes_table } => *changes_table,
        }
    }
}
