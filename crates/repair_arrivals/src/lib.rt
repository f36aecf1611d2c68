//! What comes back to the point of local repair from the end of a bypass, or from beyond it, and what it does of itself to what
//! a label switching router knows, whoever keeps it. It comes in Routed frames, and goes by the repair that it
//! is for. Each decision is a draft that holds the answer, the errors and the edits.
#![tactic(auto)]

mod matching;
mod path_err;
mod progress;
mod renewing;
mod resv;
mod resv_tear;
mod telling;

pub use path_err::returned_err;
pub use resv::{returned_resv, returned_unknown};
pub use resv_tear::returned_tear;
pub use state_views::{Draft, WholeState};
pub use telling::told_through;
