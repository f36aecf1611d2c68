ghost use Rattle.std.specs.Prelude.{◌≡◌, ◌++◌, IfOk, OnOk, OnErr};
ghost use Rattle.journal_bytes.specs.Events.{IsWrittenAgain, event_bytes, event_fields, event_kind};

use crate::commands::put_command;
use crate::entry::Bytes;
use crate::messages::{MESSAGE_ROOM, put_arrive, put_relay};
use crate::numbers::*;
use abstract_paths::Event;
use rsvp_bodies::Kept;
use std::alloc::{AllocError, Global};

/// The kind of the event.
fn event_kind(event: &Event) -> u8
    ensures { result ≡ event_kind event.now }
{
    match event {
        Event::Arrive(_) => KIND_ARRIVE,
        Event::Relay(_) => KIND_RELAY,
        Event::Tick(_) => KIND_TICK,
        Event::LinkUp(_) => KIND_LINK_UP,
        Event::LinkDown(_) => KIND_LINK_DOWN,
        Event::Restart => KIND_RESTART,
        Event::Start => KIND_START,
        Event::Command(_) => KIND_COMMAND,
    }
}

/// Appends what stands after the event's kind.
fn put_fields(event: &Event, out: &mut Vec<u8>) -> Result<(), AllocError>
    ensures ok { OnOk result (out.new.items ≡ out.old.items ++ event_fields event.now) }
    ensures again { OnOk result (IsWrittenAgain event.now) }
{
    match event {
        Event::Arrive(arrive) => put_arrive(arrive, out),
        Event::Relay(relay) => put_relay(relay, out),
        Event::Tick(moment) => out.extend_from_slice(&moment.to_be_bytes()),
        Event::LinkUp(link) | Event::LinkDown(link) => out.extend_from_slice(&link.to_be_bytes()),
        Event::Restart | Event::Start => Ok(()),
        Event::Command(command) => put_command(command, out),
    }
}

/// Appends the event as a journal holds it. The only error is out of memory, which leaves `out` as it was.
pub fn write_event(event: &Event, out: &mut Vec<u8>) -> Result<(), AllocError>
    ensures ok { OnOk result (out.new.items ≡ out.old.items ++ event_bytes event.now) }

    // What is written of a message is read as the same message.
    ensures again { OnOk result (IsWrittenAgain event.now) }
    ensures err { OnErr result (out.new.items ≡ out.old.items) }
{
    let mut bytes = Vec::with_capacity(*out.allocator(), MESSAGE_ROOM)?;
    bytes.push(event_kind(event))?;
    put_fields(event, &mut bytes)?;
    out.extend_from_slice(bytes.as_slice())
}

/// What happened, as an entry keeps it. The only error is out of memory.
pub fn written_event(alloc: Global, event: &Event) -> Result<Bytes, AllocError>
    ensures bytes { IfOk result (λ bytes. bytes ≡ event_bytes event.now) }

    // What is written of a message is read as the same message.
    ensures again { OnOk result (IsWrittenAgain event.now) }
{
    let mut bytes = Vec::new(alloc);
    write_event(event, &mut bytes)?;
    Ok(Kept::from_vec(bytes))
}
