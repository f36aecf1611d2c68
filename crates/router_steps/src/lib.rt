//! What an event does of itself to what a label switching router knows, whoever keeps it: each decision of a step,
//! once, as a draft that holds the answer, the errors, and the edits of what is known.
#![tactic(auto)]

mod arrivals;
mod links;
mod resv_err;
mod resv_tear;
mod ticks;
mod ways;

pub use arrivals::draft_of;
pub use path_steps::exceeds_hop_limit;
