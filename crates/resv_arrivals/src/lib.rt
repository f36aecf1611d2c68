//! What a Resv does of itself to what a label switching router knows, whoever keeps it: descriptor by descriptor, as a
//! draft that holds the answer, the errors and the reservations that change.
#![tactic(auto)]

mod arrivals;
mod asked;
mod claims;
mod descriptors;
mod edits;
mod granting;
mod progress;
mod replies;
mod requests;
mod verdicts;

pub use arrivals::{resv_arrival, unknown_resv};
pub use asked::Asked;
pub use descriptors::{key_in, named, resv_by};
pub use message_rules::{resv_err_leaves_room, told_downstream};
pub use replies::{resv_replied, with_told};
pub use verdicts::{Judgement, judge_beside};
