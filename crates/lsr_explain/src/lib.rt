//! `lsr explain`: what each refusal, error and fault that an operator sees means, and what to do about it.
#![tactic(auto)]

mod asking;
mod errors;
mod explaining;
mod faults;
mod laws;
mod nearest;
mod refusals;
mod telling;
mod topics;

pub use explaining::{Answer, explain};
pub use laws::headings_are_told;
pub use nearest::Near;
pub use telling::run_explain;
pub use topics::{Kind, Topic, find_topic};
