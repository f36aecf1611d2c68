//! The entries of a journal as an operator reads them: each as the line that `lsr step` would have taken for it, and the answer that
//! it was given.
#![tactic(auto)]

mod breaks;
mod entries;
mod journals;
mod telling;
mod words;

pub use breaks::{Break, Part};
pub use entries::push_entry;
pub use journals::{run_show_journal, show_journal};
