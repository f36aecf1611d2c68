//! What a journal holds and compares: its entries; events as bytes, from which the same event can be told; and whether two routers
//! know the same.
#![tactic(auto)]

mod commands;
mod counted;
mod entry;
mod exact;
mod frames;
mod keys;
mod messages;
mod numbers;
mod objects;
mod paths;
mod routers;
mod routes;
mod rows;
mod states;
mod tunnel_commands;
mod tunnels;
mod writing;

pub use entry::{AnyRule, Bytes, ChosenLabels, Entry, Frames, Listed, WrittenFrame};
pub use exact::Exact;
pub use frames::written_frames;
pub use routers::is_same_router;
pub use rows::are_same_items;
pub use states::is_same_state;
pub use writing::{write_event, written_event};
