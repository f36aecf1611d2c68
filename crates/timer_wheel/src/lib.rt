//! The moments at which slots are to be looked at, in a wheel: what is due is found without going over all slots.
#![tactic(auto)]

mod rings;
mod walks;
mod wheel;

pub use wheel::Wheel;
