//! Streams of bytes and the lines that come of them: an input read whole, as bytes or as text, or line by line, each as soon as
//! it has come, and why one isn't taken.
#![tactic(auto)]

mod input;
mod newline;
mod reader;
mod stream;

pub use input::{InputFault, MAX_INPUT_LEN, read_bytes, read_text, tell_input_fault};
pub use newline::next_line;
pub use reader::{Found, LineReader};
pub use stream::ByteStream;
