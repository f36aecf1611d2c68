//! What a PathErr does that came back from beyond a bypass.

ghost use Rattle.std.specs.Prelude.{◌≡◌, IfOk, OnErr, false};
ghost use Rattle.rsvp_contents.specs.Spelling.{IsMessage};
ghost use Rattle.rsvp_contents.specs.declared.messages.Content.TheVariants as contents;
ghost use Rattle.abstract_router.specs.Returning.{returned_err};
ghost use Rattle.state_views.specs.Drafts.{IsDraft};

use crate::matching::repair_known_as;
use lsr_facts::Refusal;
use message_rules::lsp;
use path_steps::err_of_path;
use rsvp_contents::PathErr;
use state_views::{Draft, WholeState, refused};
use std::alloc::{AllocError, Global};

/// What a PathErr does that came back from beyond a bypass: it is told to the origins of the LSP whose repair it is for. The only error is out of memory, and that never comes for one that is refused.
#[tactic(auto, unfolding(abstract_router::specs::Returning::returned_err))]
pub fn returned_err<V: WholeState>(
    alloc: Global,
    view: &V,
    error: &PathErr,
) -> Result<Draft, AllocError>
    requires { IsMessage (contents.PathErr error.now) }
    ensures draft { IfOk result (λ draft. IsDraft draft
        (returned_err (V.router view.now) (V.state view.now) error.now)
        (V.router view.now) (V.state view.now)) }
    ensures memory { OnErr result ((returned_err (V.router view.now) (V.state view.now)
        error.now).is_silent ≡ false) }
{
    let Some(repair) = repair_known_as(view, &lsp(error.session, error.sender)) else {
        return Ok(refused(alloc, view, Refusal::NoMatch));
    };
    match view.path(&repair.0) {
        Some(path) => err_of_path(alloc, view, &repair.0, error, path),
        None => Ok(refused(alloc, view, Refusal::NoMatch)),
    }
}
