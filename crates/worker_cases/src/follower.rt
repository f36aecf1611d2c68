//! A port of a router, and a reader of its label table that learns from it.

use crate::left::count_entries;
use abstract_paths::Event;
use datagrams::{Datagram, Passed};
use forwarding_table::Action;
use interface_workers::{Closed, Core, CoreName, CoreReader, Mark, Port, read_by};
use lsr_facts::{Refusal, Router};
use std::alloc::{AllocError, Global};
use std::sync::Wait;

/// What becomes of a frame.
#[derive(Clone, Copy, Debug)]
pub enum Fate {
    /// It goes on over the link of this number.
    Forwarded(u16),
    /// It is refused.
    Refused(Refusal),
    /// Neither.
    Other,
}

/// Feeds an event. What the router answers is let go; the error is its refusal.
pub(crate) fn feed_event<L: CoreName, R: Wait + Drop>(
    rt: &R,
    alloc: Global,
    core: &Core<L, R>,
    port: &mut Port<L>,
    event: &Event,
) -> Result<(), Refusal> {
    match core.feed(rt, alloc, port, event) {
        Ok(_receipt) => Ok(()),
        Err(refusal) => Err(refusal),
    }
}

/// Feeds an event, once more where the journal was full, whose entries are taken then; whether it was taken.
fn feed_rotating<L: CoreName, R: Wait + Drop>(
    rt: &R,
    alloc: Global,
    core: &Core<L, R>,
    port: &mut Port<L>,
    event: &Event,
) -> bool {
    match feed_event(rt, alloc, core, port, event) {
        Ok(()) => true,
        Err(Refusal::JournalFull) => {
            count_entries(rt, alloc, core, port).is_ok()
                && feed_event(rt, alloc, core, port, event).is_ok()
        }
        Err(_) => false,
    }
}

/// A port of a router, and a reader that learns of its entries. The reader is away only while it reads.
#[derive(Drop)]
pub struct Follower<L: CoreName> {
    port: Port<L>,
    reader: Option<CoreReader<L>>,
}

impl<L: CoreName> Follower<L> {
    /// A follower by this port and this reader.
    pub fn new(port: Port<L>, reader: CoreReader<L>) -> Follower<L> {
        Follower {
            port,
            reader: Some(reader),
        }
    }

    /// What comes over a link with this frame, by what the reader sees; none where it isn't shown the label table.
    fn read(
        &mut self,
        alloc: Global,
        router: &Router,
        link: u16,
        frame: &[u8],
    ) -> Option<Result<Datagram, Refusal>> {
        let (answer, reader) = read_by(alloc, router, self.reader.take()?, link, frame);
        self.reader = Some(reader);
        answer
    }

    /// The reader learns of the port's last entry.
    fn learn(&mut self) {
        if let Some(reader) = &mut self.reader {
            reader.learn(&self.port);
        }
    }

    /// Feeds what a frame says that comes over a link, where it is an event, and learns of it; whether it was taken.
    pub fn feed<R: Wait + Drop>(
        &mut self,
        rt: &R,
        alloc: Global,
        core: &Core<L, R>,
        link: u16,
        frame: &[u8],
    ) -> bool {
        let is_taken = match &self.read(alloc, core.router(), link, frame) {
            Some(Ok(Datagram::Event(event))) => {
                feed_rotating(rt, alloc, core, &mut self.port, event)
            }
            _ => false,
        };
        self.learn();
        is_taken
    }

    /// What becomes of a labelled frame that comes to this router over a link.
    pub fn forward(&mut self, alloc: Global, router: &Router, link: u16, frame: &[u8]) -> Fate {
        match &self.read(alloc, router, link, frame) {
            Some(Ok(Datagram::Passed(Passed::Sent { link, .. }))) => Fate::Forwarded(*link),
            Some(Err(refusal)) => Fate::Refused(*refusal),
            _ => Fate::Other,
        }
    }

    /// What is done with a label.
    pub fn look(&mut self, label: u32) -> Result<Option<Action>, Closed> {
        match &mut self.reader {
            Some(reader) => reader.look(label),
            None => Err(Closed::WriterGone),
        }
    }

    /// The numbers of the port's last entry.
    pub fn mark(&self) -> Mark {
        self.port.mark()
    }
}

/// A follower by each port of a router and the reader of its place. The only error is out of memory.
pub fn followers<L: CoreName>(
    alloc: Global,
    ports: Vec<Port<L>>,
    readers: Vec<CoreReader<L>>,
) -> Result<Vec<Follower<L>>, AllocError> {
    ports
        .into_iter()
        .zip(readers)
        .map(|(port, reader)| Follower::new(port, reader))
        .collect(alloc)
}
