use crate::Sequence;
use rsvp_objects::Opaque;

/// Objects that a message passes on unread, in their order. Contracts see the list of them.
pub type Passing = Sequence<Opaque>;
