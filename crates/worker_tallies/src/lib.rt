//! What became of what a worker took, and how it is counted.
#![tactic(auto)]

mod handled;

pub use handled::{Handled, Tally};
