//! The journal of a router's run: its entries, the numbers of entries and of ports, the receipts that ports have of them,
//! stretches of it, and the router with its journal as it stands under a lock.
#![tactic(auto)]

mod counts;
mod entry;
mod locked;
mod mark;
mod receipt;
mod segment;
mod spelled;

pub use counts::JournalCounts;
pub use entry::CountedEntry;
pub use journal_bytes::{Entry, Frames};
pub use locked::Locked;
pub use mark::Mark;
pub use receipt::Receipt;
pub use router_core::{Datagram, Machine, Passed};
pub use segment::Segment;
pub use spelled::SpelledEvent;

/// The most ports of a router.
pub const MAX_PORTS: u16 = 64;
/// The most entries of a segment.
pub const MAX_ENTRIES: usize = 4_096;
/// The most entries since a router was opened: 2^62.
pub const MAX_NUMBER: u64 = 1 << 62;
