//! What came, as a turn serves it: read in the turn, read before it, or rewritten where it came.

use crate::early::EarlyEvent;
use crate::worker::Taken;

/// What a turn serves.
#[derive(Drop)]
pub(crate) enum Next<'a> {
    /// What was taken from the wire.
    Taken(Taken),
    /// An event that was read before the turn.
    Early(EarlyEvent),
    /// A labelled frame that goes on, as it leaves.
    Rewritten {
        /// The number of the link that it leaves by.
        link: u16,
        /// Its bytes.
        bytes: &'a [u8],
    },
}

impl<'a> Next<'a> {
    /// Whether it is an event, which is fed.
    pub(crate) fn is_event(&self) -> bool {
        match self {
            Next::Taken(taken) => taken.is_event(),
            Next::Early(_) => true,
            Next::Rewritten { .. } => false,
        }
    }
}
