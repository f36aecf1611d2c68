//! Whether what is kept of an LSP is the same as what another message says of it.

ghost use Rattle.std.specs.Prelude.{◌≡◌, true};

use rsvp_bodies::{Description, equal_attributes_are_same};
use rsvp_contents::{Attr, FastReroute, LabelRequest, Passing};
use rsvp_objects::{Opaque, Subobject, Subobjects};

/// A value that can be compared with another.
pub trait Same {
    /// Whether it is the same as another value.
    fn is_same(&self, other: &Self) -> bool
        ensures { result ≡ true → self.now ≡ other.now };
}

impl<T: Same> Same for Option<T> {
    fn is_same(&self, other: &Option<T>) -> bool {
        match (self, other) {
            (Some(value), Some(other)) => value.is_same(other),
            (None, None) => true,
            _ => false,
        }
    }
}

impl<T: Subobject> Same for Subobjects<T> {
    fn is_same(&self, other: &Subobjects<T>) -> bool {
        self == other
    }
}

impl<Side> Same for Description<Side> {
    fn is_same(&self, other: &Description<Side>) -> bool {
        self == other
    }
}

impl Same for Passing {
    fn is_same(&self, other: &Passing) -> bool {
        self.as_slice() == other.as_slice()
    }
}

impl Same for Attr {
    fn is_same(&self, other: &Attr) -> bool {
        // That attributes which compare as equal are the same.
        equal_attributes_are_same();
        self == other
    }
}

impl Same for FastReroute {
    fn is_same(&self, other: &FastReroute) -> bool {
        self == other
    }
}

impl Same for LabelRequest {
    fn is_same(&self, other: &LabelRequest) -> bool {
        self == other
    }
}
