use crate::exact::Exact;
use crate::rows::are_same_items;
use rsvp_bodies::{Description, equal_attributes_are_same};
use rsvp_contents::{Attr, FastReroute, LabelRequest, Passing};
use rsvp_objects::{Opaque, Subobject, Subobjects};

impl<T: Subobject> Exact for Subobjects<T> {
    fn is_same(&self, other: &Subobjects<T>) -> bool {
        self == other
    }
}

impl<Side> Exact for Description<Side> {
    fn is_same(&self, other: &Description<Side>) -> bool {
        self == other
    }
}

impl Exact for Opaque {
    fn is_same(&self, other: &Opaque) -> bool {
        self == other
    }
}

impl Exact for Passing {
    fn is_same(&self, other: &Passing) -> bool {
        are_same_items(self.as_slice(), other.as_slice())
    }
}

impl Exact for Attr {
    fn is_same(&self, other: &Attr) -> bool {
        // That attributes compare as equal exactly where they are the same.
        equal_attributes_are_same();
        self == other
    }
}

impl Exact for FastReroute {
    fn is_same(&self, other: &FastReroute) -> bool {
        self == other
    }
}

impl Exact for LabelRequest {
    fn is_same(&self, other: &LabelRequest) -> bool {
        self == other
    }
}
