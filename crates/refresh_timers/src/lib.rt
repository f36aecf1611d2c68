//! When each message that a router keeps alive at a neighbour was last sent, and which are due again.
#![tactic(auto)]

mod refresh;
mod timers;

pub use timers::RefreshTimers;
