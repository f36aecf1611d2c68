//! Events as a journal holds them, read from their bytes: which bytes spell an event, and the event that they spell. No bytes spell
//! two events, and what this router writes of an event spells it.
#![tactic(auto)]

mod arrivals;
mod commands;
pub mod laws;
mod reading;
mod tunnels;
mod unread;

pub use arrivals::{ArriveField, ArriveParts, RelayField, RelayParts, WayField, WayParts};
pub use commands::CommandField;
pub use reading::read_event;
pub use tunnels::{ChangeField, NewBypassField, NewBypassParts, NewTunnelField};
pub use unread::{EventField, UnreadArrive, UnreadEvent, UnreadRelay};
