//! A labelled frame that is passed on (RFC 3031, 3.10; RFC 3032, 2.1 and 2.4.1) is rewritten in the buffer that it came in:
//! its stack is read from there, and the head that it leaves with is written there, in front of the payload, which stays
//! where it is. It takes no memory, and gives the very bytes that reading the frame, forwarding it and writing it give.
#![tactic(auto)]

mod head;
pub mod laws;
mod rewriting;

pub use head::ROOM;
pub use rewriting::{Rewritten, rewrite};
