ghost use Rattle.std.specs.Prelude.{◌≡◌};
ghost use Rattle.event_fields.specs.Unread.{unread_parts};

use crate::arrivals::{ArriveField, RelayField};
use crate::commands::CommandField;
use abstract_paths::{ArrivalWay, Command};
use field_bytes::{Both, Choice, Field, Long, Nothing, Octets, OneOf, Only, ReadFault, Short};
use std::alloc::Global;
use std::net::Ipv4Addr;

/// A message for this router, which isn't read.
#[derive(Debug, Drop)]
pub struct UnreadArrive {
    /// The number of the link that it came over.
    pub link: u16,
    /// How it came.
    pub way: ArrivalWay,
    /// Its bytes.
    pub message: Octets,
    /// The class and the C-Type of an object that its type doesn't know.
    pub unknown: Option<(u8, u8)>,
}

/// A message for another router, however long.
#[derive(Debug, Drop)]
pub struct UnreadRelay {
    /// The number of the link that it came over.
    pub link: u16,
    /// The address that it is to go to.
    pub to: Ipv4Addr,
    /// How many routers may pass it on.
    pub limit: u8,
    /// Its bytes.
    pub message: Octets,
}

/// An event as its fields tell it: what is in it of a message isn't read.
#[derive(Debug, Drop)]
pub enum UnreadEvent {
    /// A message for this router came.
    Arrive(UnreadArrive),
    /// A message for another router came.
    Relay(UnreadRelay),
    /// This moment came, in milliseconds.
    Tick(u64),
    /// The link of this number came up.
    LinkUp(u16),
    /// The link of this number went down.
    LinkDown(u16),
    /// The router was restarted.
    Restart,
    /// It was started.
    Start,
    /// An operator told it this.
    Command(Command),
}

/// The first four kinds: messages, moments, links that come up.
type FirstKinds = Both<
    2,
    Both<1, Only<ArriveField>, Only<RelayField>>,
    Both<1, Only<Long>, Only<Short>>,
>;

/// The next four: links that go down, restarts, starts, commands.
type NextKinds = Both<
    2,
    Both<1, Only<Short>, Only<Nothing>>,
    Both<1, Only<Nothing>, Only<CommandField>>,
>;

/// What a kind says, by halves.
type Told = OneOf<
    OneOf<OneOf<UnreadArrive, UnreadRelay>, OneOf<u64, u16>>,
    OneOf<OneOf<u16, ()>, OneOf<(), Command>>,
>;

/// An event's kind, and what it says.
type EventParts = Choice<1, Both<4, FirstKinds, NextKinds>>;

/// What happened, its message unread: its kind, and what the kind says.
pub struct EventField;

/// The event of what its kind says.
fn unread_of(parts: Told) -> UnreadEvent
    ensures { unread_parts result ≡ parts }
{
    match parts {
        OneOf::This(OneOf::This(OneOf::This(arrive))) => UnreadEvent::Arrive(arrive),
        OneOf::This(OneOf::This(OneOf::Other(relay))) => UnreadEvent::Relay(relay),
        OneOf::This(OneOf::Other(OneOf::This(moment))) => UnreadEvent::Tick(moment),
        OneOf::This(OneOf::Other(OneOf::Other(link))) => UnreadEvent::LinkUp(link),
        OneOf::Other(OneOf::This(OneOf::This(link))) => UnreadEvent::LinkDown(link),
        OneOf::Other(OneOf::This(OneOf::Other(()))) => UnreadEvent::Restart,
        OneOf::Other(OneOf::Other(OneOf::This(()))) => UnreadEvent::Start,
        OneOf::Other(OneOf::Other(OneOf::Other(command))) => UnreadEvent::Command(command),
    }
}

impl Field for EventField {
    ghost use Rattle.event_fields.specs.EventLaws.{UnreadFits, one_unread};
    ghost use Rattle.event_fields.specs.Unread.{unread_bytes};

    type Value = UnreadEvent;

    ghost Fits = { UnreadFits };

    ghost spelling = { unread_bytes };

    ghost one = { one_unread };

    fn read(alloc: Global, bytes: &[u8]) -> Result<(UnreadEvent, &[u8]), ReadFault> {
        let (parts, rest) = <EventParts as Field>::read(alloc, bytes)?;
        Ok((unread_of(parts), rest))
    }
}
