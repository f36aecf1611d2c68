use crate::errors::RsvpError;
use crate::refusal::Refusal;

/// What an event is answered.
#[derive(Clone, Copy, Debug, PartialEq, Eq)]
pub enum Reply {
    /// It was done.
    Done,
    /// It is an error of RSVP, which is told to the neighbour that it came from.
    Error(RsvpError),
    /// It was refused, and changed nothing.
    Refused(Refusal),
}
