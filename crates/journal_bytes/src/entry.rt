//! Entries of a journal.

ghost use Rattle.std.specs.Prelude.{◌≡◌, ◌↔◌, IsTrue, []};

use lsr_facts::{Key, Reply};
use rsvp_bodies::{Kept, Rule};
use sorted_rows::TryCopy;
use std::alloc::{AllocError, Global};
use std::marker::Model;

/// The rule of bytes as they are written: any bytes.
#[derive(Debug, Drop)]
pub struct AnyRule;

impl Rule for AnyRule {
    ghost Allows = { λ bytes. Unit {0} };
}

/// Bytes as they are written.
pub type Bytes = Kept<AnyRule>;

/// A frame as it leaves by a link.
#[derive(Debug, Drop)]
pub struct WrittenFrame {
    /// The number of the link.
    pub link: u16,
    /// The frame's bytes.
    pub bytes: Bytes,
}

/// A list as an entry keeps it. Contracts see the list.
#[derive(Debug, Drop)]
pub struct Listed<T> {
    items: Vec<T>,
}

impl<T> Model for Listed<T> {
    ghost use Rattle.std.specs.Prelude.{List};

    ghost Value = { List T };

    ghost view = { λ l. l.items.items };
}

impl<T> Listed<T> {
    /// These. Takes no memory.
    pub fn from_vec(items: Vec<T>) -> Listed<T>
        ensures { result ≡ items.items }
    {
        Listed { items }
    }

    /// The list.
    pub fn as_slice(&self) -> &[T]
        ensures { result.now ≡ self.now }
    {
        self.items.as_slice()
    }
}

/// Frames as they leave, in their order.
pub type Frames = Listed<WrittenFrame>;

/// The labels that a step chose: of each LSP that is new its own, in the order of the LSPs.
pub type ChosenLabels = Listed<(Key, u32)>;

/// An entry of a journal: one event, and its step.
#[derive(Debug)]
pub struct Entry {
    /// The number of the port that it came from.
    pub port: u16,
    /// What happened, as a journal holds it.
    pub event: Bytes,
    /// The labels that were chosen: of each LSP that is new its own.
    pub chosen: ChosenLabels,
    /// What was answered.
    pub reply: Reply,
    /// What was sent.
    pub outputs: Frames,
}

/// Written out, so that it is dropped by one call, whatever it holds.
impl Drop for Entry {
    fn drop(self) {
        let Entry {
            port: _port,
            event: _event,
            chosen: _chosen,
            reply: _reply,
            outputs: _outputs,
        } = self;
    }
}

impl TryCopy for WrittenFrame {
    fn try_copy(&self, _alloc: Global) -> Result<WrittenFrame, AllocError> {
        Ok(WrittenFrame {
            link: self.link,
            bytes: self.bytes.clone()?,
        })
    }
}

impl TryCopy for Listed<WrittenFrame> {
    fn try_copy(&self, alloc: Global) -> Result<Listed<WrittenFrame>, AllocError> {
        let mut items = Vec::with_capacity(alloc, self.items.len())?;
        for frame in &self.items {
            items.push(frame.try_copy(alloc)?)?;
        }
        Ok(Listed { items })
    }
}
