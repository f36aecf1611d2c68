//! Worked cases of threads that feed a router: what they leave, what a reader of its label table finds, and what becomes of a wire that
//! fails. What came of each is printed; the program `lsr_cases` runs them. And what measures of threads share with them: routers that
//! are fed, what is left of that, and frames.
#![tactic(auto)]

mod by_hand;
mod calls;
mod cases;
mod fault;
mod feeding;
mod follower;
mod frames;
mod left;
mod scripted_wire;
mod served;
mod visits;
mod wired;

pub use cases::run_cases;
pub use fault::Fault;
pub use feeding::{open_router, read_config};
pub use follower::{Fate, Follower, followers};
pub use frames::{
    IN_LINK, LABELLED_FRAME, OUT_LINK, PATH_FRAME, RESV_FRAME, TEAR_FRAME, about_tunnel, put_bytes,
};
pub use interface_workers::{
    Core, CoreName, CoreReader, Gate, OpenGate, Opened, Port, Wire, WireFault, Work, serve_event,
    serve_link,
};
pub use left::{Left, count_entries};
pub use run_reconciler::reconcile;
