//! Tables whose rows are to be looked at in their time: those whose moment has come are found without going over all.
#![tactic(auto)]

mod edits;
mod gathered;
mod moments;
mod table;
mod timing;

pub use table::TimedTable;
pub use timing::Timed;
