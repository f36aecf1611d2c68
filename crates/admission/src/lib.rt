//! The bandwidth of a router's links: what is reserved of it and by whom, which requests fit, and who gives way to them.
#![tactic(auto)]

mod claims;
pub mod laws;
mod reserved;
mod resv_state;
mod run;
mod running;
mod state;
mod sum;
mod victims;

pub use reserved::reserved_with;
pub use state::Admission;
pub use victims::victims_of;
