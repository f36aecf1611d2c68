//! A world of up to sixteen routers in one process, joined by wires that lose, repeat and reorder as a list of moves says: what
//! moves make of it, and what is told of them. Each router by itself is a run of the abstract router, whatever moves come.
#![tactic(auto)]

mod closed;
mod delivery;
mod fault;
mod joints;
mod move_run;
mod parts;
mod steps;
mod world;

pub use abstract_world::{Answer, End, Given, Joint, Move, Sent, Told};
pub use fault::WorldFault;
pub use move_run::Report;
pub use router_core::{Command, Machine, Output, Refusal, Reply, State};
pub use world::{MAX_ROUTERS, World};
