//! What each object of a message says, for people: its class and its fields by their names (RFC 2205, A; RFC 2210, 3;
//! RFC 3209, 4; RFC 4090, 4).
#![tactic(auto)]

mod classes;
mod errors;
mod fields;
mod flags;
mod routes;
mod traffic;
mod values;
mod words;

pub use errors::error_name;
pub use fields::push_fields;
pub use traffic::rate_bytes;
