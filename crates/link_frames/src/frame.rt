ghost use Rattle.std.specs.Prelude.{◌≡◌};

use crate::payload::{Payload, ReceivedPayload, Unread};
use label_stacks::Stack;
use rsvp_contents::{Message, Reading};
use std::alloc::AllocError;
use std::net::Ipv4Addr;

/// The kind of a Hop frame.
pub const KIND_HOP: u8 = 1;
/// The kind of a Labelled frame: the first byte of its datagram.
pub const KIND_LABELLED: u8 = 2;
/// The kind of a Routed frame.
pub const KIND_ROUTED: u8 = 3;

/// A frame that came. One datagram is one frame. A message in it that others may pass on isn't read.
#[derive(Debug, Drop)]
pub enum ReceivedFrame {
    /// Kind 1: a message from neighbour to neighbour.
    Hop(Reading),
    /// Kind 2: a payload under a stack of labels. Under no label it is for the receiver.
    Labelled(Stack, ReceivedPayload),
    /// Kind 3: a message for the router that has this address.
    Routed {
        /// The address.
        to: Ipv4Addr,
        /// How many routers may pass the message on.
        limit: u8,
        /// The message.
        message: Unread,
    },
}

/// A frame that goes out, as a datagram of its own.
#[derive(Debug, Drop)]
pub enum Frame {
    /// Kind 1: a message from neighbour to neighbour.
    Hop(Message),
    /// Kind 2: a payload under a stack of labels. Under no label it is for the receiver.
    Labelled(Stack, Payload),
    /// Kind 3: a message for the router that has this address, as this router makes it.
    Routed {
        /// The address.
        to: Ipv4Addr,
        /// How many routers may pass the message on.
        limit: u8,
        /// The message.
        message: Message,
    },
    /// Kind 3: a message for the router that has this address, passed on unread.
    Relayed {
        /// The address.
        to: Ipv4Addr,
        /// How many routers may pass the message on.
        limit: u8,
        /// The message.
        message: Unread,
    },
}

impl Clone for Frame {
    ghost is_clone = { λ source copy. copy ≡ source };

    /// A copy of the frame. The only error is out of memory.
    fn clone(&self) -> Result<Frame, AllocError> {
        match self {
            Frame::Hop(message) => Ok(Frame::Hop(message.clone()?)),
            Frame::Labelled(stack, payload) => {
                Ok(Frame::Labelled(stack.copied(), payload.clone()?))
            }
            Frame::Routed { to, limit, message } => Ok(Frame::Routed {
                to: *to,
                limit: *limit,
                message: message.clone()?,
            }),
            Frame::Relayed { to, limit, message } => Ok(Frame::Relayed {
                to: *to,
                limit: *limit,
                message: message.clone()?,
            }),
        }
    }
}
