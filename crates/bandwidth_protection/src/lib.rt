//! Protection of bandwidth (RFC 4090, 4.3): what LSPs ask for, and of which bypasses; what each is promised anew by that; and
//! when that is what it was.
#![tactic(auto)]

mod assigning;
mod candidates;
mod in_use;
mod keeping;
mod opening;
mod resting;
mod wishes;

pub use assigning::assign;
pub use resting::assignments_rest;
pub use state_views::{Edits, WholeState};
