//! What messages do of themselves to the paths of a label switching router, whoever keeps what it knows, and the tunnels that
//! a moment tries: each decision of a step, once, as a draft that holds the answer, the errors and the edits.
#![tactic(auto)]

mod heads;
mod merging;
mod path;
mod path_err;
mod path_tear;
mod relays;
mod signals;
mod told;

pub use heads::{head_of, is_head};
pub use merging::{
    path_through, stack_path_arrival, stack_tear_arrival, unknown_stack_path_arrival,
};
pub use message_rules::leaves_by;
pub use path::{labelled_path_arrival, unknown_path_arrival};
pub use path_err::{err_of_path, path_err_arrival};
pub use path_tear::path_tear_arrival;
pub use relays::{exceeds_hop_limit, relay};
pub use signals::signalled;
