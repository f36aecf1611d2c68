//! What becomes of a message for another router.

ghost use Rattle.std.specs.Prelude.{◌≡◌, ◌∷◌, [], IfOk, OnErr, false};
ghost use Rattle.abstract_paths.specs.Relays.{exceeds_hop_limit, is_limit_exceeded, relay, relayed_by};
ghost use Rattle.abstract_router.specs.Outcomes.{of_paths};
ghost use Rattle.state_views.specs.Drafts.{IsDraft};

use abstract_paths::{Event, Frame, Output, Outputs, Relay, Unread};
use lsr_facts::{Refusal, Reply};
use message_rules::{is_up, link_at, route_to};
use state_views::{Draft, Edits, StateView, node_of, refused};
use std::alloc::{AllocError, Global};

/// The limit of a message that this router is the last to get: it passes it on no more.
const LAST_LIMIT: u8 = 1;

/// Whether no further router may pass a message on that came over a link which is up: its limit ran out.
fn is_limit_exceeded<V: StateView>(view: &V, message: &Relay) -> bool
    ensures { result ≡ is_limit_exceeded (V.router view.now) (V.state view.now).facts message.now }
{
    let node = node_of(view);
    link_at(node.router, message.link).is_some()
        && is_up(node.up, message.link)
        && message.limit <= LAST_LIMIT
}

/// Whether the event is a message for another router whose limit ran out. Then it is dropped, and is no step.
pub fn exceeds_hop_limit<V: StateView>(view: &V, event: &Event) -> bool
    ensures { result ≡ exceeds_hop_limit (V.router view.now) (V.state view.now).facts event.now }
{
    match event {
        Event::Relay(message) => is_limit_exceeded(view, message),
        _ => false,
    }
}

/// The frame in which a message for another router goes on by a link, its limit one less.
fn relayed_by(alloc: Global, message: &Relay, link: u16) -> Result<Outputs, AllocError>
    ensures { IfOk result (λ outputs. outputs ≡ relayed_by message.now link ∷ []) }
{
    let frame = Frame::Relayed {
        to: message.to,
        limit: message.limit.saturating_sub(1),
        message: Unread::copy_of(alloc, message.message.as_slice())?,
    };
    let mut outputs = Outputs::new(alloc);
    outputs.push(Output { link, frame })?;
    Ok(outputs)
}

/// What becomes of a message for another router: it goes on over the link that leads to its address. The only error is
/// out of memory, and it comes for none that is refused.
#[tactic(auto, unfolding(abstract_paths::specs::Relays::relay))]
pub fn relay<V: StateView>(alloc: Global, view: &V, message: &Relay) -> Result<Draft, AllocError>
    ensures draft { IfOk result (λ draft. IsDraft draft (of_paths (V.state view.now)
        (relay (V.router view.now) (V.state view.now).facts message.now))
        (V.router view.now) (V.state view.now)) }
    ensures memory { OnErr result ((relay (V.router view.now) (V.state view.now).facts message.now).is_silent ≡ false) }
{
    let node = node_of(view);
    if link_at(node.router, message.link).is_none() {
        return Ok(refused(alloc, view, Refusal::UnknownLink));
    }
    if !is_up(node.up, message.link) {
        return Ok(refused(alloc, view, Refusal::LinkDown));
    }
    let Some(link) = route_to(&node, message.to) else {
        return Ok(refused(alloc, view, Refusal::NoMatch));
    };
    Ok(Draft {
        reply: Reply::Done,
        errors: relayed_by(alloc, message, link)?,
        due: None,
        is_silent: false,
        edits: Edits::none(alloc),
    })
}
