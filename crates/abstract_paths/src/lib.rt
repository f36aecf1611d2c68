//! What happens to a router and what it sends, as events and outputs; and what messages, links and time do to its paths, as
//! outcomes: the definitions, and that paths stay as they should be. The router itself, of which these are a part, is the crate
//! `abstract_router`.
#![tactic(auto)]

mod commands;
mod events;
mod laws;
mod tunnels;
mod ways;

pub use commands::Command;
pub use events::{Event, Made, Output, Outputs};
pub use laws::is_possible;
pub use link_frames::{Data, Frame, KIND_HOP, Payload, Unread};
pub use tunnels::{NewBypass, NewTunnel, TunnelChange};
pub use ways::{ArrivalWay, Arrive, Relay, takes};
