//! The workers of a router's links, which feed its core, and forward labelled frames: what each took, what became of it, and what it sent.
#![tactic(auto)]

mod early;
mod gate;
mod next;
mod reading;
mod wire;
mod worker;

pub use gate::{Gate, OpenGate};
pub use journal_bytes::is_same_state;
pub use lookup_plane::{Closed, OpenFault};
pub use reading::read_by;
pub use shared_core::{
    Core, CoreName, CoreReader, CoreReceipt, CoreSegment, CountedEntry, Entry, Finished,
    JournalCounts, KeepSegments, MAX_PORTS, Machine, Mark, NotKept, Opened, Port, Question,
    Receipt, Segment, SegmentCount, open,
};
pub use wire::{Wire, WireFault};
pub use worker::{Work, serve_event, serve_link};
pub use worker_tallies::{Handled, Tally};
