//! What a router knows as plain values, as a view: decisions that are asked over it trust no table. And edits that are made
//! in plain values.
#![tactic(auto)]

mod claimed;
mod edits;
mod known;
mod labels;
mod sound;

pub use edits::{apply_edits, edit_rows};
pub use known::Known;
pub use sound::SoundView;
