//! Events, read from their bytes.

ghost use Rattle.std.specs.Prelude.{◌≡◌, IfOk};
ghost use Rattle.rsvp_contents.specs.declared.message.Reading.{Reading};
ghost use Rattle.abstract_paths.specs.Events.{IsEvent};
ghost use Rattle.event_fields.specs.Spelled.{IsReadBy, ReadsEvent, ReadsWhole, fault_of, reading_of};

use crate::unread::{EventField, UnreadArrive, UnreadEvent, UnreadRelay};
use abstract_paths::{Arrive, Event, Relay, is_possible, takes};
use field_bytes::{Field, ReadFault};
use link_frames::{Data, MAX_DATA_LEN};
use rsvp_contents::{Dropped, Message, Reading};
use rsvp_messages::read_message;
use std::alloc::Global;

/// Why bytes that aren't read as a message spell none.
fn fault_of(dropped: Dropped) -> ReadFault
    ensures { result ≡ fault_of dropped }
{
    match dropped {
        Dropped::NoMemory => ReadFault::Memory,
        _ => ReadFault::Format,
    }
}

/// The message that the bytes spell whole.
fn read_whole(alloc: Global, bytes: &[u8]) -> Result<Message, ReadFault>
    ensures { ReadsWhole bytes.now result }
{
    match read_message(alloc, bytes) {
        Ok(Reading::Whole(message)) => Ok(message),
        Ok(Reading::Unknown(..)) => Err(ReadFault::Format),
        Err(dropped) => Err(fault_of(dropped)),
    }
}

/// What a message was read as, with an object that its type doesn't know or without.
fn reading_of(message: Message, unknown: Option<(u8, u8)>) -> Reading
    ensures { result ≡ reading_of message unknown }
{
    match unknown {
        Some((class, ctype)) => Reading::Unknown(message, class, ctype),
        None => Reading::Whole(message),
    }
}

/// The event, which can be.
fn possible(event: Event) -> Event
    ensures same { result ≡ event }
    ensures possible { IsEvent event }
{
    is_possible(&event);
    event
}

/// The message for this router that these fields tell.
fn read_arrive(alloc: Global, unread: &UnreadArrive) -> Result<Event, ReadFault>
    ensures { IsReadBy (UnreadEvent.Arrive unread.now) result }
{
    let whole = read_whole(alloc, unread.message.as_slice())?;
    let reading = reading_of(whole, unread.unknown);
    if !takes(unread.way, &reading) {
        return Err(ReadFault::Format);
    }
    Ok(possible(Event::Arrive(Arrive {
        link: unread.link,
        way: unread.way,
        reading,
    })))
}

/// The message for another router that these fields tell.
fn read_relay(unread: UnreadRelay) -> Result<Event, ReadFault>
    ensures { IsReadBy (UnreadEvent.Relay unread) result }
{
    let UnreadRelay {
        link,
        to,
        limit,
        message,
    } = unread;
    if message.as_slice().len() > MAX_DATA_LEN {
        return Err(ReadFault::Format);
    }
    let message = Data::from_vec(message.into_vec());
    Ok(possible(Event::Relay(Relay {
        link,
        to,
        limit,
        message,
    })))
}

/// The event that these fields tell.
fn event_of(alloc: Global, unread: UnreadEvent) -> Result<Event, ReadFault>
    ensures { IsReadBy unread result }
{
    match unread {
        UnreadEvent::Arrive(arrive) => read_arrive(alloc, &arrive),
        UnreadEvent::Relay(relay) => read_relay(relay),
        UnreadEvent::Tick(moment) => Ok(possible(Event::Tick(moment))),
        UnreadEvent::LinkUp(link) => Ok(possible(Event::LinkUp(link))),
        UnreadEvent::LinkDown(link) => Ok(possible(Event::LinkDown(link))),
        UnreadEvent::Restart => Ok(possible(Event::Restart)),
        UnreadEvent::Start => Ok(possible(Event::Start)),
        UnreadEvent::Command(command) => Ok(possible(Event::Command(command))),
    }
}

/// The event that the bytes spell, all of them. [`ReadFault::Format`] exactly where they spell none: another kind, a number that isn't
/// whole, bytes that are read as no message or as one that doesn't come this way, or bytes behind the event.
pub fn read_event(alloc: Global, bytes: &[u8]) -> Result<Event, ReadFault>
    ensures { ReadsEvent bytes.now result }
{
    let (unread, rest) = EventField::read(alloc, bytes)?;
    if !rest.is_empty() {
        return Err(ReadFault::Format);
    }
    event_of(alloc, unread)
}
