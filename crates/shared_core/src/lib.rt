//! A router that many threads feed: its core under a lock, the ports by which they feed it, readers of its label table, and who keeps its
//! journal.
#![tactic(auto)]

mod asking;
mod booked;
mod cores;
mod keeping;
mod names;
mod readers;

pub use asking::Question;
pub use booked::{CoreReceipt, CoreSegment, Port};
pub use cores::{Core, Finished, HeldCore, Opened, open};
pub use keeping::{KeepSegments, NotKept, SegmentCount};
pub use names::CoreName;
pub use readers::{CoreLookups, CoreReader};
pub use run_journal::{
    CountedEntry, Datagram, Entry, JournalCounts, MAX_PORTS, Machine, Mark, Passed, Receipt,
    Segment, SpelledEvent,
};
