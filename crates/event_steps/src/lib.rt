//! The step of an event over what a label switching router knows, whoever keeps it: its answer, what it sends, the labels that it
//! chooses, and the edits of what is known.
#![tactic(auto)]

mod step;

pub use router_steps::exceeds_hop_limit;
pub use state_settling::bandwidth_edits;
pub use step::{EventStep, StepEdits, step_by, step_of};
