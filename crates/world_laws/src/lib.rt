//! Laws of a world of routers whose wires are as the routers take them to be: each label that a table sends frames under was
//! given by the router that takes it, whatever is lost, repeated, delayed or restarted. Each is the contract of a function
//! that does nothing.
#![tactic(auto)]

pub mod labels;
