//! Bandwidth of bypasses (RFC 4090, 4.3): which LSPs are assigned how much of which bypass.
#![tactic(auto)]

mod capacities;
mod left;
mod merging;
mod near;
mod passes;
mod turns;
mod wish;

pub use capacities::left_of;
pub use left::{is_left, left_at};
pub use merging::merge;
pub use near::find_near;
pub use passes::give_each;
pub use turns::{give, has_some};
pub use wish::{Candidates, Wish};
