//! The label table of a label switching router, and how it forwards a stack of labels (RFC 3031, 3.10 to 3.13;
//! RFC 3032, 2.1 and 2.4), in memory that is taken when the table is made.
#![tactic(auto)]

mod action;
mod forwarding;
pub mod laws;
mod table;

pub use action::{Action, EXPLICIT_NULL, FIRST_LABEL, IMPLICIT_NULL, LAST_LABEL, is_label};
pub use forwarding::{Fault, Forwarding, LabelActions, forward};
pub use table::{ForwardingTable, MAX_LABEL_ROWS, MAX_TUNNEL_ROWS};
