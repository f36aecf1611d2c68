//! What a message does that came through a stack of labels, at the end of a bypass, or in a Routed frame, at its head (RFC
//! 4090, 7).

ghost use Rattle.std.specs.Prelude.{◌≡◌, IfOk, OnErr, false};
ghost use Rattle.rsvp_contents.specs.Spelling.{IsMessage};
ghost use Rattle.abstract_router.specs.Arrivals.{routed_arrival, stack_arrival, unknown_routed_arrival, unknown_stack_arrival};
ghost use Rattle.abstract_router.specs.Soundness.{IsSound};
ghost use Rattle.state_views.specs.Drafts.{IsDraft};

use crate::resv_err::stack_err_arrival;
use lsr_facts::Refusal;
use path_steps::{stack_path_arrival, stack_tear_arrival, unknown_stack_path_arrival};
use repair_arrivals::{returned_err, returned_resv, returned_tear, returned_unknown};
use rsvp_contents::Content;
use state_views::{Draft, WholeState, refused};
use std::alloc::{AllocError, Global};

/// What a message does that is read whole and came through a stack: it is about an LSP that another router repairs, over a
/// bypass that ends here.
pub(crate) fn stack_arrival<V: WholeState>(
    alloc: Global,
    view: &V,
    content: &Content,
) -> Result<Draft, AllocError>
    requires sound { IsSound (V.router view.now) (V.state view.now) }
    requires message { IsMessage content.now }
    ensures draft { IfOk result (λ draft. IsDraft draft
        (stack_arrival (V.router view.now) (V.state view.now) content.now)
        (V.router view.now) (V.state view.now)) }
    ensures memory { OnErr result ((stack_arrival (V.router view.now)
        (V.state view.now) content.now).is_silent ≡ false) }
{
    match content {
        Content::Path(path) => stack_path_arrival(alloc, view, path),
        Content::PathTear(tear) => stack_tear_arrival(alloc, view, tear),
        Content::ResvErr(error) => stack_err_arrival(alloc, view, error),
        Content::Resv(_) | Content::PathErr(_) | Content::ResvTear(_) => {
            Ok(refused(alloc, view, Refusal::NoMatch))
        }
    }
}

/// What a message does that came through a stack, and has an object that its type doesn't know (RFC 2205, 3.10).
pub(crate) fn unknown_stack_arrival<V: WholeState>(
    alloc: Global,
    view: &V,
    content: &Content,
    class: u8,
    ctype: u8,
) -> Result<Draft, AllocError>
    requires sound { IsSound (V.router view.now) (V.state view.now) }
    requires message { IsMessage content.now }
    ensures draft { IfOk result (λ draft. IsDraft draft
        (unknown_stack_arrival (V.router view.now) (V.state view.now) content.now class ctype)
        (V.router view.now) (V.state view.now)) }
    ensures memory { OnErr result ((unknown_stack_arrival (V.router view.now)
        (V.state view.now) content.now class ctype).is_silent ≡ false) }
{
    match content {
        Content::Path(path) => unknown_stack_path_arrival(alloc, view, path, class, ctype),
        content => stack_arrival(alloc, view, content),
    }
}

/// What a message does that is read whole and came in a Routed frame: it is about an LSP that this router repairs, from the
/// end of the bypass or beyond.
pub(crate) fn routed_arrival<V: WholeState>(
    alloc: Global,
    view: &V,
    content: &Content,
) -> Result<Draft, AllocError>
    requires sound { IsSound (V.router view.now) (V.state view.now) }
    requires message { IsMessage content.now }
    ensures draft { IfOk result (λ draft. IsDraft draft
        (routed_arrival (V.router view.now) (V.state view.now) content.now)
        (V.router view.now) (V.state view.now)) }
    ensures memory { OnErr result ((routed_arrival (V.router view.now)
        (V.state view.now) content.now).is_silent ≡ false) }
{
    match content {
        Content::Resv(resv) => returned_resv(alloc, view, resv),
        Content::ResvTear(tear) => returned_tear(alloc, view, tear),
        Content::PathErr(error) => returned_err(alloc, view, error),
        Content::Path(_) | Content::PathTear(_) | Content::ResvErr(_) => {
            Ok(refused(alloc, view, Refusal::NoMatch))
        }
    }
}

/// What a message does that came in a Routed frame, and has an object that its type doesn't know (RFC 2205, 3.10).
pub(crate) fn unknown_routed_arrival<V: WholeState>(
    alloc: Global,
    view: &V,
    content: &Content,
    class: u8,
    ctype: u8,
) -> Result<Draft, AllocError>
    requires sound { IsSound (V.router view.now) (V.state view.now) }
    requires message { IsMessage content.now }
    ensures draft { IfOk result (λ draft. IsDraft draft
        (unknown_routed_arrival (V.router view.now) (V.state view.now) content.now class ctype)
        (V.router view.now) (V.state view.now)) }
    ensures memory { OnErr result ((unknown_routed_arrival (V.router view.now)
        (V.state view.now) content.now class ctype).is_silent ≡ false) }
{
    match content {
        Content::Resv(resv) => returned_unknown(alloc, view, resv, class, ctype),
        content => routed_arrival(alloc, view, content),
    }
}
