//! What a datagram is, by its frame: the frame is read, and what it carries goes by its kind.

ghost use Rattle.std.specs.Prelude.{◌≡◌};
ghost use Rattle.datagrams.specs.Datagrams.{IsCarried, IsDatagram, IsDelivered, IsFrame, IsMessage, IsReading, IsRelay, IsRouted, refusal_of};
ghost use Rattle.datagrams.specs.Parts.{OrNoMemory, refusal_for};

use crate::datagram::{Datagram, Forwards, Passed};
use abstract_paths::{ArrivalWay, Arrive, Event, Relay, takes};
use explicit_routes::is_own;
use forwarding_table::{Fault, Forwarding};
use link_frames::{
    Data, Frame, MAX_DATA_LEN, Payload, Reading, ReceivedFrame, ReceivedPayload, Unread,
};
use lsr_facts::{Refusal, Router};
use rsvp_contents::Dropped;
use rsvp_messages::{read_frame, read_message};
use std::alloc::Global;
use std::net::Ipv4Addr;

/// Why a frame is dropped whose stack has this fault (RFC 3031, 3.18; RFC 3032, 2.4.1).
fn refusal_of(fault: Fault) -> Refusal
    ensures { result ≡ refusal_of fault }
{
    match fault {
        Fault::NoLabel => Refusal::NoLabel,
        Fault::HopLimit => Refusal::HopLimit,
        Fault::TooLong => Refusal::Unread(Dropped::TooLong),
    }
}

/// Why a datagram is refused whose reader answers this. That memory ran out is no fault of the datagram.
fn refusal_for(fault: Dropped) -> Refusal
    ensures { result ≡ refusal_for fault }
{
    match fault {
        Dropped::NoMemory => Refusal::NoMemory,
        _ => Refusal::Unread(fault),
    }
}

/// What was read of a message for this router: the event that it came, where its way takes its type.
fn arrival(link: u16, way: ArrivalWay, reading: Reading) -> Result<Datagram, Refusal>
    ensures { IsReading link way reading result }
{
    if takes(way, &reading) {
        Ok(Datagram::Event(Event::Arrive(Arrive { link, way, reading })))
    } else {
        Err(Refusal::Unread(Dropped::KindUnsupported))
    }
}

/// Reads a message for this router. It is dropped for its first fault.
fn read_for_this(
    alloc: Global,
    link: u16,
    way: ArrivalWay,
    bytes: &[u8],
) -> Result<Datagram, Refusal>
    ensures { OrNoMemory (IsMessage link way bytes.now) result }
{
    match read_message(alloc, bytes) {
        Ok(reading) => arrival(link, way, reading),
        Err(fault) => Err(refusal_for(fault)),
    }
}

/// A message for another router. It isn't read, but one above 4,096 bytes is dropped.
fn relay(
    alloc: Global,
    link: u16,
    to: Ipv4Addr,
    limit: u8,
    message: &Unread,
) -> Result<Datagram, Refusal>
    ensures { OrNoMemory (IsRelay link to limit message.now) result }
{
    let bytes = message.as_slice();
    if bytes.len() > MAX_DATA_LEN {
        return Err(Refusal::Unread(Dropped::TooLong));
    }
    let message = Data::copy_of(alloc, bytes)?;
    Ok(Datagram::Event(Event::Relay(Relay {
        link,
        to,
        limit,
        message,
    })))
}

/// A message in a Routed frame: it is for this router where the address is the router's own.
fn routed(
    alloc: Global,
    router: &Router,
    link: u16,
    to: Ipv4Addr,
    limit: u8,
    message: &Unread,
) -> Result<Datagram, Refusal>
    ensures { OrNoMemory (IsRouted router.now link to limit message.now) result }
{
    if is_own(router, to) {
        read_for_this(alloc, link, ArrivalWay::Routed, message.as_slice())
    } else {
        relay(alloc, link, to, limit, message)
    }
}

/// A payload whose stack ends here: bytes have arrived, a message is one for this router that came through the stack.
fn deliver(alloc: Global, link: u16, payload: ReceivedPayload) -> Result<Datagram, Refusal>
    ensures { OrNoMemory (IsDelivered link payload) result }
{
    match payload {
        ReceivedPayload::Bytes(content) => Ok(Datagram::Passed(Passed::Delivered(content))),
        ReceivedPayload::Message(content) => {
            read_for_this(alloc, link, ArrivalWay::Stack, content.as_slice())
        }
    }
}

/// A payload, by what becomes of its stack of labels (RFC 3031, 3.10).
fn carry(
    alloc: Global,
    link: u16,
    forwarding: Forwarding,
    payload: ReceivedPayload,
) -> Result<Datagram, Refusal>
    ensures { OrNoMemory (IsCarried link forwarding payload) result }
{
    match forwarding {
        Forwarding::Send { link, stack } => Ok(Datagram::Passed(Passed::Sent {
            link,
            frame: Frame::Labelled(stack, Payload::Received(payload)),
        })),
        Forwarding::Deliver => deliver(alloc, link, payload),
        Forwarding::Drop(fault) => Err(refusal_of(fault)),
    }
}

/// What a frame is, by its kind.
fn by_frame<F: Forwards>(
    alloc: Global,
    router: &Router,
    labels: &F,
    link: u16,
    frame: ReceivedFrame,
) -> Result<Datagram, Refusal>
    ensures { OrNoMemory (IsFrame router.now (F.forwarded labels.now) link frame) result }
{
    match frame {
        ReceivedFrame::Hop(reading) => arrival(link, ArrivalWay::Hop, reading),
        ReceivedFrame::Labelled(stack, payload) => {
            carry(alloc, link, labels.forward(&stack), payload)
        }
        ReceivedFrame::Routed { to, limit, message } => {
            routed(alloc, router, link, to, limit, &message)
        }
    }
}

/// What a datagram is that came over a link, by the router's own addresses and by what becomes of stacks of labels. It
/// is refused for its first fault, in this order: the frame's ([`Refusal::Unread`]); while a stack is followed, a label
/// that nothing is done with ([`Refusal::NoLabel`]), a TTL that ran out ([`Refusal::HopLimit`]), a ninth label
/// ([`Dropped::TooLong`]); of a message for this router, also under labels that end here, its own, and then a type that
/// its frame doesn't take ([`Dropped::KindUnsupported`]); of one for another router, that it is above 4,096 bytes
/// ([`Dropped::TooLong`]). [`Refusal::NoMemory`] can come in place of any answer but a fault of the datagram's head.
pub fn read_datagram<F: Forwards>(
    alloc: Global,
    router: &Router,
    labels: &F,
    link: u16,
    bytes: &[u8],
) -> Result<Datagram, Refusal>
    ensures { IsDatagram router.now (F.forwarded labels.now) link bytes.now result }
{
    match read_frame(alloc, bytes) {
        Ok(frame) => by_frame(alloc, router, labels, link, frame),
        Err(fault) => Err(refusal_for(fault)),
    }
}
