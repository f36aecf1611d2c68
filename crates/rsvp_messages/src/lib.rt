//! Messages of RSVP and the frames of datagrams, for whoever embeds them: Path, Resv, PathErr, ResvErr, PathTear and ResvTear
//! (RFC 2205, 3.1; RFC 3209, 3) are read from bytes as values and written to bytes again, with their header, their
//! length and their checksum. What messages say is defined in `rsvp_contents`, what objects say in `rsvp_objects`: both are
//! passed on here.
//!
//! [`read_message`] reads what came, [`write_message`] appends what is to go out. A [`Message`] is
//! [`Content`] that can be written; what is read is one. The [`laws`] say what holds of all messages, and
//! the `specs` of this crate pass on the words that its contracts are made of.
//!
//! [`read_frame`] and [`write_frame`] do so with the frames of datagrams. A message in a Hop frame is read with its frame;
//! others may pass on a message in another, so that one is read where it is to go. So what comes is a
//! [`ReceivedFrame`], and what goes out a [`Frame`]; [`frame_bytes`] are the bytes of one.
//!
//! A router that passes a PathTear on, as a neighbour that `hop` names:
//!
//! ```text
//! use rsvp_messages::{Content, Hop, Message, PathTear, Reading, read_message, write_message};
//!
//! let Reading::Whole(message) = read_message(alloc, datagram)? else {
//!     return Ok(());
//! };
//! if let Content::PathTear(tear) = message.content() {
//!     let passed_on = PathTear { hop, ..*tear };
//!     let content = Box::new(alloc, Content::PathTear(passed_on))?;
//!     if let Ok(message) = Message::checked(content) {
//!         write_message(&message, &mut out)?;
//!     }
//! }
//! ```
#![tactic(auto)]

mod content_reading;
mod content_writing;
mod counts;
mod flows_writing;
mod frame_reading;
mod frame_writing;
mod header_reading;
mod header_writing;
mod look;
mod message_reading;
mod message_writing;
mod objects_writing;
mod parts_reading;
mod parts_writing;

pub use frame_reading::read_frame;
pub use frame_writing::{frame_bytes, write_frame};
pub use internet_checksum::{checksum, has_good_checksum};
pub use link_frames::{
    Frame, KIND_HOP, KIND_LABELLED, KIND_ROUTED, Payload, ReceivedFrame, ReceivedPayload,
};
pub use message_reading::read_message;
pub use message_writing::write_message;
pub use rsvp_contents::{
    Content, Dropped, ErrorDescriptor, ErrorDescriptors, Filters, FlowDescriptor, FlowDescriptors,
    Message, Passing, Path, PathErr, PathTear, Reading, Resv, ResvErr, ResvTear, is_fixed,
    is_other, is_shared, laws, limits, numbers,
};
pub use rsvp_objects::{
    Affinities, Attr, Body, ErrorSpec, FastReroute, Hop, Kind, LabelRequest, Name, Opaque,
    OtherStep, OtherTrace, Prefix, RateWord, Record, Route, Session, Step, Subobject, Subobjects,
    Template, TimeValues, Trace, TrafficFault, Treatment, Tspec, numbers as object_numbers,
};
