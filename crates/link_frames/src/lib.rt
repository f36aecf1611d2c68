//! The frames that datagrams carry between routers, and which bytes spell them: one datagram is one frame. A Hop frame is
//! a message from neighbour to neighbour; a Labelled frame is a payload under a stack of MPLS labels (RFC 3032, 2.1); a
//! Routed frame is a message for a router that other routers may lie before. A [`ReceivedFrame`] is what came, a
//! [`Frame`] what goes out: what is written of one is read as the other.
#![tactic(auto)]

mod frame;
mod payload;

pub use frame::{Frame, KIND_HOP, KIND_LABELLED, KIND_ROUTED, ReceivedFrame};
pub use label_stacks::{Stack, StackEntry};
pub use payload::{
    Data, DataRule, MAX_DATA_LEN, PAYLOAD_BYTES, PAYLOAD_MESSAGE, Payload, ReceivedPayload, Unread,
    UnreadRule,
};
pub use rsvp_contents::Reading;
