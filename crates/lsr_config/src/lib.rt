//! What an operator configures.
#![tactic(auto)]

mod bypasses;
mod config;
mod document;
mod fault;
mod key;
mod known;
mod links;
mod reading;
mod routes;
mod sockets;
mod tunnel_values;
mod tunnels;
mod unknown_name;
mod values;

pub use config::{BUILT_IN, Config};
pub use document::table_of;
pub use fault::ConfigFault;
pub use key::Key;
pub use links::FIRST_LINK;
pub use reading::{number_at, records_at, socket_at};
pub use sockets::LinkSockets;
pub use unknown_name::UnknownName;
