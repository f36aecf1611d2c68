//! `lsr check`: what is said of files of recorded runs, one after the other, each from where the one before it ended.
#![tactic(auto)]

mod checking;
mod flaw;
mod following;
mod names;
mod recorded;
mod telling;
mod verdict;

pub use checking::run_check;
pub use flaw::{Flaw, Stop};
pub use following::check_after;
pub use recorded::{Recorded, RunEnd, RunsByName, Unread};
