//! What an operator's commands do: tunnels that begin here are added, changed and dropped, and bypasses and static routes
//! added and dropped. Each command is refused without taking memory, or done: as a draft that holds the answer and the edits.
#![tactic(auto)]

mod bypasses;
mod commands;
mod protecting;
mod refusals;
mod requests;
mod routes;
mod tunnels;

pub use commands::command;
pub use requests::is_short_from;
