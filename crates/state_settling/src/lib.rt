//! What follows from an event's own change, stage after stage, and what the keeper of the bandwidth of links has to be told
//! of it.
#![tactic(auto)]

mod claims;
mod labels;
mod promises;
mod repair;
mod settling;
mod standing;

pub use claims::bandwidth_edits;
pub use labels::chosen_labels;
pub use settling::{Settled, settle_by};
