//! Whether recorded entries are a run of the router from a sound base, told without trust in who recorded them: for each entry the
//! router's own decisions are taken over plain values, with the labels that were recorded in place of a choice.
#![tactic(auto)]

mod change;
mod comparing;
mod fault;
mod labels;
pub mod laws;
mod naming;
mod next;
mod restart;
mod run;
mod taken;

pub use fault::{EntryFault, RunFault};
pub use run::check;
