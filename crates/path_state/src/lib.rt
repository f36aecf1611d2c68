//! The paths that a router knows, by LSP, in memory that is taken when the table is made.
#![tactic(auto)]

mod expiry;
mod state;

pub use state::PathState;
