//! Events that are read, and written as a journal holds them, before their turn, while nobody waits for the router.

ghost use Rattle.std.specs.Prelude.{◌≡◌, IfSome, Ok};
ghost use Rattle.datagrams.specs.declared.datagram.Datagram.TheVariants as datagrams;
ghost use Rattle.interface_workers.specs.Early.{IsAlways};

use crate::wire::Wire;
use abstract_paths::Event;
use datagrams::{Datagram, read_unlabelled};
use lsr_facts::Router;
use shared_core::{CoreName, SpelledEvent};
use std::alloc::Global;
use std::collections::VecDeque;
use std::marker::{Model, PhantomData};

/// The most datagrams that are read before their turn.
const MOST_EARLY: usize = 32;

/// An event that was read before its turn, and how a journal holds it. Contracts see the event.
#[derive(Drop)]
pub(crate) struct EarlyEvent {
    /// The event.
    pub(crate) event: Event,
    /// The event as a journal holds it.
    pub(crate) spelled: SpelledEvent,
}

impl Model for EarlyEvent {
    ghost use Rattle.abstract_paths.specs.declared.events.Event.{Event};
    ghost use Rattle.shared_core.specs.Below.journal.Spelled.{IsSpelled};

    ghost Value = { Event };

    ghost view = { λ e. e.event };

    ghost invariant = { λ e. IsSpelled e.event e.spelled };
}

/// A datagram that was read before its turn, as one that came over the link to the router of this name, and says an event.
#[derive(Drop)]
struct EarlyRead<L: CoreName> {
    link: u16,
    bytes: Vec<u8>,
    event: EarlyEvent,
    name: PhantomData<L>,
}

impl<L: CoreName> Model for EarlyRead<L> {
    ghost use Rattle.std.specs.Prelude.{ℕ, List, Ok};
    ghost use Rattle.datagrams.specs.declared.datagram.Datagram.TheVariants as datagrams;
    ghost use Rattle.interface_workers.specs.Early.{IsAlways};

    ghost Value = { ℕ × List ℕ };

    ghost view = { λ e. (e.link, e.bytes.items) };

    ghost invariant = { λ e. IsAlways L.config.router e.link e.bytes.items (Ok (datagrams.Event e.event)) };
}

impl<L: CoreName> EarlyRead<L> {
    /// The datagram, where it says an event: all else is read in its turn, as this is where there is no memory now.
    fn of(alloc: Global, router: &Router, link: u16, bytes: &[u8]) -> Option<EarlyRead<L>>
        requires { router.now ≡ L.config.router }
    {
        let Some(Ok(Datagram::Event(event))) = read_unlabelled(alloc, router, link, bytes) else {
            return None;
        };
        let Ok(spelled) = SpelledEvent::of(alloc, &event) else {
            return None;
        };
        let Ok(bytes) = Vec::from_slice(alloc, bytes) else {
            return None;
        };
        Some(EarlyRead {
            link,
            bytes,
            event: EarlyEvent { event, spelled },
            name: PhantomData,
        })
    }

    /// The event, where the datagram came over this link and has these bytes.
    fn into_event(self, link: u16, bytes: &[u8]) -> Option<EarlyEvent>
        ensures { IfSome result (λ event. IsAlways L.config.router link bytes.now (Ok (datagrams.Event event))) }
    {
        let EarlyRead {
            link: own_link,
            bytes: own_bytes,
            event,
            name: _,
        } = self;
        if own_link == link && own_bytes.as_slice() == bytes {
            Some(event)
        } else {
            None
        }
    }
}

/// What the next datagrams of a wire say, in their order, as far as they were read before their turn.
#[derive(Drop)]
pub(crate) struct EarlyReads<L: CoreName> {
    reads: VecDeque<Option<EarlyRead<L>>>,
    served: Vec<Event>,
}

impl<L: CoreName> EarlyReads<L> {
    /// None yet.
    pub(crate) fn new(alloc: Global) -> EarlyReads<L> {
        EarlyReads {
            reads: VecDeque::new(alloc),
            served: Vec::new(alloc),
        }
    }

    /// Keeps an event that was served until the next ones are read, so that its memory isn't given back while others wait for the router.
    pub(crate) fn retire(&mut self, event: Event) {
        let _full = self.served.push(event);
    }

    /// Reads what the wire has for the next turns, as it came over the link: [`MOST_EARLY`] datagrams at most, and none while some are left.
    pub(crate) fn fill<W: Wire>(&mut self, alloc: Global, router: &Router, link: u16, wire: &W)
        requires { router.now ≡ L.config.router }
    {
        if !self.reads.is_empty() {
            return;
        }
        self.served.clear();
        for index in 0..MOST_EARLY {
            let Some(bytes) = wire.ahead(index) else {
                return;
            };
            let read = EarlyRead::of(alloc, router, link, bytes);
            if self.reads.push_back(read).is_err() {
                return;
            }
        }
    }

    /// The event that the next datagram says, where that was read before and is the one that was expected: with these bytes, over this
    /// link.
    pub(crate) fn take(&mut self, link: u16, bytes: &[u8]) -> Option<EarlyEvent>
        ensures { IfSome result (λ event. IsAlways L.config.router link bytes.now (Ok (datagrams.Event event))) }
    {
        match self.reads.pop_front() {
            Some(Some(read)) => read.into_event(link, bytes),
            _ => None,
        }
    }
}
