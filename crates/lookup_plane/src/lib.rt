//! The label table that readers see without waiting: one writer publishes changes of it, and each reader looks labels up
//! in what was published last, by one list of published changes at a time (RFC 3031, 3.10 to 3.13).
#![tactic(auto)]

mod change;
mod closed;
pub mod laws;
mod lookups;
mod plane;
mod reader;
mod rule;
mod slots;
mod tunnel_slots;

pub use change::TableChange;
pub use closed::Closed;
pub use lookups::{Inquiry, Lookups};
pub use plane::{MAX_LABELS, MAX_READERS, OpenFault, Plane};
pub use reader::LookupReader;
