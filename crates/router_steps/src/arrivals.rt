//! What an event does: a message that comes, a moment, a link, a command.

ghost use Rattle.std.specs.Prelude.{◌≡◌, ◌≢◌, IfOk, OnErr, false};
ghost use Rattle.rsvp_contents.specs.Spelling.{IsMessage};
ghost use Rattle.abstract_router.specs.Arrivals.{arrival, arrival_by, message_arrival, outcome, reading_arrival, unknown_arrival};
ghost use Rattle.abstract_router.specs.Soundness.{IsSound};
ghost use Rattle.abstract_paths.specs.declared.events.Event.TheVariants as events;
ghost use Rattle.state_views.specs.Drafts.{IsDraft};

use crate::links::link_change;
use crate::resv_err::resv_err_arrival;
use crate::resv_tear::resv_tear_arrival;
use crate::ticks::tick;
use crate::ways::{routed_arrival, stack_arrival, unknown_routed_arrival, unknown_stack_arrival};
use abstract_paths::{ArrivalWay, Arrive, Event, Outputs};
use lsr_facts::{Refusal, Reply};
use message_rules::{is_up, link_at};
use path_steps::{
    labelled_path_arrival, path_err_arrival, path_tear_arrival, relay, unknown_path_arrival,
};
use resv_arrivals::{resv_arrival, unknown_resv};
use rsvp_contents::{Content, Reading};
use state_views::{Draft, Edits, WholeState, refused};
use std::alloc::{AllocError, Global};
use tunnel_commands::command;

/// What a message does that is read whole.
fn message_arrival<V: WholeState>(
    alloc: Global,
    view: &V,
    link: u16,
    content: &Content,
) -> Result<Draft, AllocError>
    requires sound { IsSound (V.router view.now) (V.state view.now) }
    requires message { IsMessage content.now }
    ensures draft { IfOk result (λ draft. IsDraft draft
        (message_arrival (V.router view.now) (V.state view.now) link content.now)
        (V.router view.now) (V.state view.now)) }
    ensures memory { OnErr result ((message_arrival (V.router view.now)
        (V.state view.now) link content.now).is_silent ≡ false) }
{
    match content {
        Content::Path(path) => labelled_path_arrival(alloc, view, link, path),
        Content::Resv(resv) => resv_arrival(alloc, view, link, resv),
        Content::PathErr(error) => path_err_arrival(alloc, view, link, error),
        Content::ResvErr(error) => resv_err_arrival(alloc, view, link, error),
        Content::PathTear(tear) => path_tear_arrival(alloc, view, link, tear),
        Content::ResvTear(tear) => resv_tear_arrival(alloc, view, link, tear),
    }
}

/// What a message does with an object that its type doesn't know.
fn unknown_arrival<V: WholeState>(
    alloc: Global,
    view: &V,
    link: u16,
    content: &Content,
    class: u8,
    ctype: u8,
) -> Result<Draft, AllocError>
    requires sound { IsSound (V.router view.now) (V.state view.now) }
    requires message { IsMessage content.now }
    ensures draft { IfOk result (λ draft. IsDraft draft
        (unknown_arrival (V.router view.now) (V.state view.now) link content.now class ctype)
        (V.router view.now) (V.state view.now)) }
    ensures memory { OnErr result ((unknown_arrival (V.router view.now)
        (V.state view.now) link content.now class ctype).is_silent ≡ false) }
{
    match content {
        Content::Path(path) => unknown_path_arrival(alloc, view, link, path, class, ctype),
        Content::Resv(resv) => unknown_resv(alloc, view, link, resv, class, ctype),
        content => message_arrival(alloc, view, link, content),
    }
}

/// What a message does.
fn reading_arrival<V: WholeState>(
    alloc: Global,
    view: &V,
    link: u16,
    reading: &Reading,
) -> Result<Draft, AllocError>
    requires { IsSound (V.router view.now) (V.state view.now) }
    ensures draft { IfOk result (λ draft. IsDraft draft
        (reading_arrival (V.router view.now) (V.state view.now) link reading.now)
        (V.router view.now) (V.state view.now)) }
    ensures memory { OnErr result ((reading_arrival (V.router view.now)
        (V.state view.now) link reading.now).is_silent ≡ false) }
{
    match reading {
        Reading::Whole(message) => message_arrival(alloc, view, link, message.content()),
        Reading::Unknown(message, class, ctype) => {
            unknown_arrival(alloc, view, link, message.content(), *class, *ctype)
        }
    }
}

/// What a message does that comes over a link which is up, by its way.
fn arrival_by<V: WholeState>(alloc: Global, view: &V, arrive: &Arrive) -> Result<Draft, AllocError>
    requires { IsSound (V.router view.now) (V.state view.now) }
    ensures draft { IfOk result (λ draft. IsDraft draft
        (arrival_by (V.router view.now) (V.state view.now)
        arrive.now.way arrive.now.link arrive.now.reading)
        (V.router view.now) (V.state view.now)) }
    ensures memory { OnErr result ((arrival_by (V.router view.now)
        (V.state view.now) arrive.now.way arrive.now.link arrive.now.reading).is_silent ≡ false) }
{
    match (arrive.way, &arrive.reading) {
        (ArrivalWay::Hop, reading) => reading_arrival(alloc, view, arrive.link, reading),
        (ArrivalWay::Stack, Reading::Whole(message)) => {
            stack_arrival(alloc, view, message.content())
        }
        (ArrivalWay::Stack, Reading::Unknown(message, class, ctype)) => {
            unknown_stack_arrival(alloc, view, message.content(), *class, *ctype)
        }
        (ArrivalWay::Routed, Reading::Whole(message)) => {
            routed_arrival(alloc, view, message.content())
        }
        (ArrivalWay::Routed, Reading::Unknown(message, class, ctype)) => {
            unknown_routed_arrival(alloc, view, message.content(), *class, *ctype)
        }
    }
}

/// What a message does that comes over a link.
#[tactic(auto, unfolding(abstract_router::specs::Arrivals::arrival))]
fn arrival<V: WholeState>(alloc: Global, view: &V, arrive: &Arrive) -> Result<Draft, AllocError>
    requires { IsSound (V.router view.now) (V.state view.now) }
    ensures draft { IfOk result (λ draft. IsDraft draft
        (arrival (V.router view.now) (V.state view.now) arrive.now)
        (V.router view.now) (V.state view.now)) }
    ensures memory { OnErr result ((arrival (V.router view.now)
        (V.state view.now) arrive.now).is_silent ≡ false) }
{
    let node = view.node();
    if link_at(node.router, arrive.link).is_none() {
        return Ok(refused(alloc, view, Refusal::UnknownLink));
    }
    if !is_up(node.up, arrive.link) {
        return Ok(refused(alloc, view, Refusal::LinkDown));
    }
    arrival_by(alloc, view, arrive)
}

/// What an event does of itself that a running router meets: it is started already, so a start changes nothing. What
/// it knows is sound, and the event is no restart. The only error is out of memory: a start and an event that is
/// refused take none.
pub fn draft_of<V: WholeState>(alloc: Global, view: &V, event: &Event) -> Result<Draft, AllocError>
    requires sound { IsSound (V.router view.now) (V.state view.now) }
    requires running { (V.state view.now).facts.cold ≡ false }
    requires event { event.now ≢ events.Restart }
    ensures draft { IfOk result (λ draft. IsDraft draft
        (outcome (V.router view.now) (V.state view.now) event.now)
        (V.router view.now) (V.state view.now)) }
    ensures memory { OnErr result ((outcome (V.router view.now)
        (V.state view.now) event.now).is_silent ≡ false) }
{
    match event {
        Event::Arrive(arrive) => arrival(alloc, view, arrive),
        Event::Relay(message) => relay(alloc, view, message),
        Event::Tick(moment) => tick(alloc, view, *moment),
        Event::LinkUp(number) => link_change(alloc, view, *number, true),
        Event::LinkDown(number) => link_change(alloc, view, *number, false),
        Event::Command(told) => command(alloc, view, told),
        Event::Restart => unreachable!(),
        Event::Start => Ok(Draft {
            reply: Reply::Done,
            errors: Outputs::new(alloc),
            due: None,
            is_silent: true,
            edits: Edits::none(alloc),
        }),
    }
}
