//! What a datagram is, and what forwards by labels.

ghost use Rattle.std.specs.Prelude.{◌≡◌, List};
ghost use Rattle.forwarding_table.specs.declared.forwarding.Forwarding.{Forwarding};
ghost use Rattle.label_stacks.specs.declared.entry.StackEntry.{StackEntry};

use abstract_paths::Event;
use forwarding_table::Forwarding;
use label_stacks::Stack;
use link_frames::{Data, Frame};

/// Whatever says what becomes of a stack of labels (RFC 3031, 3.10).
pub trait Forwards {
    ghost forwarded: { Self → List StackEntry → Forwarding };

    /// What becomes of the stack.
    fn forward(&self, stack: &Stack) -> Forwarding
        ensures { result ≡ forwarded self.now stack.now };
}

/// What became of a labelled frame.
#[derive(Debug, Drop)]
pub enum Passed {
    /// It goes on.
    Sent {
        /// The number of the link that it leaves by.
        link: u16,
        /// The frame as it leaves.
        frame: Frame,
    },
    /// It has arrived: these bytes are for this router's user.
    Delivered(Data),
}

/// What a datagram is.
#[derive(Debug, Drop)]
pub enum Datagram {
    /// A message: for this router, or for another one.
    Event(Event),
    /// A labelled frame, and what becomes of it.
    Passed(Passed),
}
