//! The words of the command line: what they ask for, and what their help says.
#![tactic(auto)]

mod command;
mod help;
mod table;
mod words;

pub use words::{Asked, read_words};
