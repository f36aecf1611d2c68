//! What comes to a router, and what comes of it.

use abstract_paths::{Event, Made};
use datagrams::Passed;

/// What comes to a router.
#[derive(Debug, Drop)]
pub enum Input {
    /// A datagram: one frame.
    Datagram {
        /// The number of the link that it came over.
        link: u16,
        /// Its bytes.
        bytes: Vec<u8>,
    },
    /// An event.
    Event(Event),
}

/// What came of an input that wasn't refused.
#[derive(Debug, Drop)]
pub enum Served {
    /// It was an event, and this is its step.
    Made(Made),
    /// It was a labelled frame, and this became of it (RFC 3031, 3.10). The router is as it was.
    Passed(Passed),
}
