//! What a running label switching router holds: its tables, which are a view of what it knows, and the change of a step,
//! made in them at once.
#![tactic(auto)]

mod change;
mod export;
mod repairs;
mod rows;
mod tables;
mod tunnels;
mod views;

pub use change::Change;
pub use label_table::{table_edits, tunnel_edits};
pub use state_views::{StateView, WholeState};
pub use tables::Tables;
