//! Whether no more bandwidth is reserved on links than their limits, over plain facts.
#![tactic(auto)]

mod bandwidth;

pub use bandwidth::are_within;
