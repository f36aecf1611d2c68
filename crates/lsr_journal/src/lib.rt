//! A session of `lsr step --journal`: a router whose journal is kept, what it answers to requests, and the file of its journal.
#![tactic(auto)]

mod entries;
pub mod laws;
mod recorded;
mod seen;
mod segments;

pub use lookup_plane::OpenFault;
pub use recorded::RecordedSession;
pub use run_journal::Segment;
pub use segments::write_segment;
