//! A router that runs until it is told to end, in rounds: what a round left is reconciled and given up, so that memory stays bounded.
#![tactic(auto)]

mod fault;
mod operator;
mod pace;
mod round;
mod round_keeper;
mod rounds;
mod serving;
mod so_far;

pub use fault::RunFault;
pub use operator::{Desk, Operator};
pub use pace::Pace;
pub use round_keeper::RoundKeeper;
pub use rounds::{ROUND_TURNS, RunEnd, serve_rounds};
pub use serving::{OpenLinks, open_links, serve_links_until, tell_reconciled};
pub use so_far::RunSoFar;
