//! What decisions ask of what a router knows, whoever keeps it; and what a decision answers: a reply, errors, and edits of
//! paths, reservations, repairs, labels and assignments.
#![tactic(auto)]

mod draft;
mod edits;
mod views;

pub use abstract_paths::{Output, Outputs};
pub use draft::{Draft, refused};
pub use edits::{Changed, EditParts, Edits, joined_rows, without_rows};
pub use views::{StateView, WholeState, node_of};
