//! What a step of a label switching router sends: what comes of the LSPs that it touches, Paths and Resvs, and when
//! each message was sent last. What is sent is found between what was wanted and what is.
#![tactic(auto)]

mod again;
mod between;
mod kept_alive;
mod rests;
mod rows;
mod same;
mod sends;
mod touched;

pub use again::sends_again;
pub use between::{Sends, errors_out, sends_between};
pub use sends::{StateSends, appended, sends_of};
