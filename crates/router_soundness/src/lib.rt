//! What holds of every state and every step of the abstract router, whatever comes: laws, each the contract of a function
//! that does nothing.
#![tactic(auto)]

pub mod laws;
pub mod soundness;
