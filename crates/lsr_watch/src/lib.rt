//! What an operator reads in a log of a running router: what changed between two looks at what it knows.
#![tactic(auto)]

mod changes;
mod errors;
mod lsps;
mod near;
mod tunnels;

pub use changes::changes_text;
pub use errors::push_error_name;
pub use lsps::is_up;
