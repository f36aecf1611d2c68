//! The label table of a router (RFC 3031, 3.10 to 3.12), kept by edits from one state to the next: the actions of labels,
//! and those of the tunnels that begin here.
#![tactic(auto)]

mod bypassed;
mod edits;
pub mod laws;
mod tunnels;

pub use edits::table_edits;
pub use state_views::{Changed, Draft, Edits, StateView, WholeState};
pub use tunnels::tunnel_edits;
