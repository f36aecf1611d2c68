//! The lines of a world's file: what a line says of a world of routers, which files its routers have, and which form a line
//! should have that says nothing.
#![tactic(auto)]

mod forms;
mod lines;
mod named;

pub use forms::{expected_form, tell_bad_line};
pub use lines::{Act, Wire, WorldLine, read_line};
pub use named::next_file;
