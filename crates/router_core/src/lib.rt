//! The router itself: one event is one step of the abstract label switching router; and the router as a program serves it, cold or
//! running, whatever comes.
#![tactic(auto)]

mod forwarding;
mod inputs;
mod machine;
mod plan;
mod ready;
mod running;

pub use abstract_paths::{
    Command, Event, Made, NewBypass, NewTunnel, Output, Outputs, TunnelChange,
};
pub use datagrams::{Datagram, Passed};
pub use inputs::{Input, Served};
pub use lsr_facts::{Refusal, Reply, State};
pub use machine::Machine;
pub use plan::Plan;
pub use ready::Ready;
pub use router_tables::{StateView, Tables, WholeState};
pub use running::{Cold, Running};
