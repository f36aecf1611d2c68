ghost use Rattle.std.specs.Prelude.{◌≡◌};

use rsvp_bodies::{Kept, Rule};
use rsvp_contents::Message;
use std::alloc::AllocError;

/// The most bytes that a payload has.
pub const MAX_DATA_LEN: usize = 4096;
/// The kind of a payload that is bytes.
pub const PAYLOAD_BYTES: u8 = 0;
/// The kind of a payload that is a message.
pub const PAYLOAD_MESSAGE: u8 = 1;

/// The rule of payloads: at most [`MAX_DATA_LEN`] bytes.
#[derive(Debug, Drop)]
pub struct DataRule;

impl Rule for DataRule {
    ghost use Rattle.link_frames.specs.Payloads.{IsData};

    ghost Allows = { IsData };
}

/// The bytes of a payload, and of a message that is passed on unread.
pub type Data = Kept<DataRule>;

/// The rule of a Routed frame's message: any bytes. Whoever it is for reads it, and finds its faults.
#[derive(Debug, Drop)]
pub struct UnreadRule;

impl Rule for UnreadRule {
    ghost Allows = { λ bytes. Unit {0} };
}

/// A message that isn't read.
pub type Unread = Kept<UnreadRule>;

/// What a Labelled frame carries that came.
#[derive(Debug, Drop)]
pub enum ReceivedPayload {
    /// Bytes of a user.
    Bytes(Data),
    /// A message that isn't read before it is where it is to go.
    Message(Data),
}

impl Clone for ReceivedPayload {
    ghost is_clone = { λ source copy. copy ≡ source };

    /// A copy of the payload. The only error is out of memory.
    fn clone(&self) -> Result<ReceivedPayload, AllocError> {
        match self {
            ReceivedPayload::Bytes(data) => Ok(ReceivedPayload::Bytes(data.clone()?)),
            ReceivedPayload::Message(data) => Ok(ReceivedPayload::Message(data.clone()?)),
        }
    }
}

/// What a Labelled frame carries that goes out.
#[derive(Debug, Drop)]
pub enum Payload {
    /// A payload as it came: it is passed on.
    Received(ReceivedPayload),
    /// A message as this router makes it.
    Message(Message),
}

impl Clone for Payload {
    ghost is_clone = { λ source copy. copy ≡ source };

    /// A copy of the payload. The only error is out of memory.
    fn clone(&self) -> Result<Payload, AllocError> {
        match self {
            Payload::Received(payload) => Ok(Payload::Received(payload.clone()?)),
            Payload::Message(message) => Ok(Payload::Message(message.clone()?)),
        }
    }
}
