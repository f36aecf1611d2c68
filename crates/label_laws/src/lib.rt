//! Laws of the abstract router on labels: where each label comes from that a router holds, sends frames under, or tells. Each
//! is the contract of a function that does nothing.
#![tactic(auto)]

pub mod ends;
pub mod held;
pub mod said;
