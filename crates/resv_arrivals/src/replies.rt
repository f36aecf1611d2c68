//! What is told of a Resv's flow descriptors, and what the Resv is answered (RFC 2205, 3.1.8).

ghost use Rattle.std.specs.Option.{option_to_list};
ghost use Rattle.std.specs.Prelude.{◌≡◌, ◌++◌, IfOk};
ghost use Rattle.abstract_router.specs.Reserving.{resv_replied};
ghost use Rattle.state_views.specs.Drafts.{IsDraft};
ghost use Rattle.state_views.specs.Edits.{edited};

use abstract_paths::{Output, Outputs};
use lsr_facts::{Refusal, Reply, RsvpError};
use state_views::{Draft, Edits, StateView, refused};
use std::alloc::{AllocError, Global};

/// Errors with one more, where it can be told. The only error is out of memory.
pub fn with_told(errors: Outputs, told: Option<Output>) -> Result<Outputs, AllocError>
    ensures { IfOk result (λ now. now ≡ errors ++ option_to_list told) }
{
    let mut now = errors;
    if let Some(output) = told {
        now.push(output)?;
    }
    Ok(now)
}

/// The reply to a Resv whose flow descriptors led to these edits and errors: the first error found; with none, done where one
/// was granted; else it matches nothing.
pub fn resv_replied<V: StateView>(
    alloc: Global,
    view: &V,
    edits: Edits,
    errors: Outputs,
    first: Option<RsvpError>,
    has_granted: bool,
) -> Draft
    ensures { let s = V.state view.now in
        IsDraft result (resv_replied s (record {
          state = edited edits s;
          errors = errors;
          first = first;
          has_granted = has_granted;
        }) first) (V.router view.now) s }
{
    let reply = match first {
        Some(error) => Reply::Error(error),
        None if has_granted => Reply::Done,
        None => return refused(alloc, view, Refusal::NoMatch),
    };
    Draft {
        reply,
        errors,
        due: None,
        is_silent: false,
        edits,
    }
}
