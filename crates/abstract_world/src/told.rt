//! What is told of moves.

use link_frames::Data;
use lsr_facts::{Refusal, Reply};

/// What a router made of a move.
#[derive(Debug, Drop)]
pub enum Answer {
    /// It made a step, and this is what the event was answered. A restart is told by the reply to its start.
    Replied(Reply),
    /// It left the event or the frame out, and is as it was.
    Refused(Refusal),
    /// The frame had labels, and goes on by them (RFC 3031, 3.10): one frame was sent, and the router is as it was.
    PassedOn,
    /// The frame had labels, and its payload has arrived: these bytes are for the router's user. The router is as it was.
    Delivered(Data),
}

/// What is told of a move.
#[derive(Debug, Drop)]
pub struct Told {
    /// The place of the router that it happened at.
    pub router: usize,
    /// What that router made of it.
    pub answer: Answer,
    /// The number of the first frame that it sent, if it sent any: one more than there were frames before it.
    pub first: usize,
    /// One more than the number of the last frame that it sent: the numbers of its frames are `first..end`.
    pub end: usize,
}
