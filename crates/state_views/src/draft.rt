//! A decision: the answer, the errors and the edits.

ghost use Rattle.abstract_router.specs.Outcomes.{refused};
ghost use Rattle.state_views.specs.Drafts.{IsDraft};

use crate::edits::Edits;
use crate::views::StateView;
use abstract_paths::Outputs;
use lsr_facts::{Refusal, Reply};
use std::alloc::Global;

/// What an event does of itself.
#[derive(Debug, Drop)]
pub struct Draft {
    /// What it is answered.
    pub reply: Reply,
    /// The errors that it calls for, in the order found, whether or not their links are up.
    pub errors: Outputs,
    /// The moment at which messages are due, in milliseconds, where one came.
    pub due: Option<u64>,
    /// Whether it sends nothing, whatever it changes.
    pub is_silent: bool,
    /// What changes, but for the moments at which messages were sent.
    pub edits: Edits,
}

/// Refused: nothing is sent, nothing changes. It takes the view for its contract alone, and no memory.
pub fn refused<V: StateView>(alloc: Global, _view: &V, refusal: Refusal) -> Draft
    ensures { IsDraft result (refused (V.state _view.now) refusal) (V.router _view.now) (V.state _view.now) }
{
    Draft {
        reply: Reply::Refused(refusal),
        errors: Outputs::new(alloc),
        due: None,
        is_silent: true,
        edits: Edits::none(alloc),
    }
}
