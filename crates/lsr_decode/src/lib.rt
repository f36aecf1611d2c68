//! `lsr decode`: messages as an operator reads them, their objects line by line.
#![tactic(auto)]

mod capture;
mod decoding;
mod files;

pub use capture::{Ending, run_decode_of};
pub use decoding::{Decoded, run_decode};
pub use files::{FileEnding, is_file_name, run_decode_file};
