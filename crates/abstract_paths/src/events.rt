//! The events of a router, the frames that it sends for them, and its steps as they were made.

ghost use Rattle.std.specs.Prelude.{◌≡◌, ◌∷◌, ◌++◌, [], IfOk, OnOk, OnErr, true};
ghost use Rattle.abstract_paths.specs.Arrivals.{takes_memory};

use crate::commands::Command;
use crate::ways::{Arrive, Relay};
use link_frames::Frame;
use lsr_facts::{Key, Reply};
use sorted_rows::{Table, TryCopy};
use std::alloc::{AllocError, Global};
use std::marker::Model;

/// What happens to a router.
#[derive(Debug)]
pub enum Event {
    /// A message for this router came.
    Arrive(Arrive),
    /// A message for another router came.
    Relay(Relay),
    /// This moment came, in milliseconds.
    Tick(u64),
    /// The link of this number came up.
    LinkUp(u16),
    /// The link of this number went down.
    LinkDown(u16),
    /// An operator told it this.
    Command(Command),
    /// The router lost what messages had set up in it, and is cold until it is started.
    Restart,
    /// A cold router is started. A running one goes on as it is.
    Start,
}

/// Written out, so that an event is dropped by one call, whatever happened.
impl Drop for Event {
    fn drop(self) {
        match self {
            Event::Arrive(_arrive) => {}
            Event::Relay(_relay) => {}
            Event::Command(_command) => {}
            Event::Tick(_)
            | Event::LinkUp(_)
            | Event::LinkDown(_)
            | Event::Restart
            | Event::Start => {}
        }
    }
}

/// A frame that the router sends.
#[derive(Debug)]
pub struct Output {
    /// The number of the link that it leaves by.
    pub link: u16,
    /// The frame.
    pub frame: Frame,
}

/// Written out, so that an output is dropped by one call, whatever it sends.
impl Drop for Output {
    fn drop(self) {
        let Output {
            link: _link,
            frame: _frame,
        } = self;
    }
}

/// Frames that the router sends, in their order. Contracts see the list.
#[derive(Debug, Drop)]
pub struct Outputs {
    items: Vec<Output>,
}

impl Model for Outputs {
    ghost use Rattle.std.specs.Prelude.{List};
    ghost use Rattle.abstract_paths.specs.declared.events.Output.{Output};

    ghost Value = { List Output };

    ghost view = { λ o. o.items.items };
}

impl Outputs {
    /// No frames. Takes no memory.
    pub fn new(alloc: Global) -> Outputs
        ensures { result ≡ [] }
    {
        Outputs {
            items: Vec::new(alloc),
        }
    }

    /// These frames. Takes no memory.
    pub fn from_vec(items: Vec<Output>) -> Outputs
        ensures { result ≡ items.items }
    {
        Outputs { items }
    }

    /// The frames, given back without taking memory.
    pub fn into_vec(self) -> Vec<Output>
        ensures { result.items ≡ self }
    {
        let Outputs { items } = self;
        items
    }

    /// Puts a frame after the others. The only error is out of memory, and then nothing changed.
    pub fn push(&mut self, output: Output) -> Result<(), AllocError>
        ensures ok { OnOk result (self.new ≡ self.old ++ output ∷ []) }
        ensures err { OnErr result (self.new ≡ self.old) }
    {
        // Most steps send one frame, if any.
        if self.items.is_empty() {
            self.items.reserve_exact(1)?;
        }
        self.items.push(output)?;
        Ok(())
    }

    /// The frames.
    pub fn as_slice(&self) -> &[Output]
        ensures { result.now ≡ self.now }
    {
        self.items.as_slice()
    }
}

/// One step of a router as it was made.
#[derive(Debug, Drop)]
pub struct Made {
    /// What happened.
    pub event: Event,
    /// The labels that were chosen: of each LSP that is new its own.
    pub labels: Table<Key, u32>,
    /// What was answered.
    pub reply: Reply,
    /// What was sent.
    pub outputs: Outputs,
}

impl Event {
    /// A copy of the event. The only error is out of memory, and it comes for messages and for commands with a route alone.
    pub fn copied(&self, alloc: Global) -> Result<Event, AllocError>
        ensures ok { IfOk result (λ copy. copy ≡ self.now) }
        ensures memory { OnErr result (takes_memory self.now ≡ true) }
    {
        match self {
            Event::Arrive(arrive) => Ok(Event::Arrive(arrive.try_copy(alloc)?)),
            Event::Relay(relay) => Ok(Event::Relay(relay.try_copy(alloc)?)),
            Event::Tick(moment) => Ok(Event::Tick(*moment)),
            Event::LinkUp(number) => Ok(Event::LinkUp(*number)),
            Event::LinkDown(number) => Ok(Event::LinkDown(*number)),
            Event::Command(command) => Ok(Event::Command(command.copied(alloc)?)),
            Event::Restart => Ok(Event::Restart),
            Event::Start => Ok(Event::Start),
        }
    }
}

impl TryCopy for Event {
    fn try_copy(&self, alloc: Global) -> Result<Event, AllocError> {
        self.copied(alloc)
    }
}

impl TryCopy for Output {
    fn try_copy(&self, _alloc: Global) -> Result<Output, AllocError> {
        Ok(Output {
            link: self.link,
            frame: self.frame.clone()?,
        })
    }
}

impl TryCopy for Outputs {
    fn try_copy(&self, alloc: Global) -> Result<Outputs, AllocError> {
        let mut items = Vec::with_capacity(alloc, self.items.len())?;
        for output in &self.items {
            items.push(output.try_copy(alloc)?)?;
        }
        Ok(Outputs { items })
    }
}

impl TryCopy for Made {
    fn try_copy(&self, alloc: Global) -> Result<Made, AllocError> {
        let labels = self.labels.try_copy(alloc)?;
        let outputs = self.outputs.try_copy(alloc)?;
        let event = self.event.try_copy(alloc)?;
        Ok(Made {
            event,
            labels,
            reply: self.reply,
            outputs,
        })
    }
}
