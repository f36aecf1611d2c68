use crate::exact::Exact;
use lsr_facts::{Item, Key, Upstream};
use rsvp_contents::Prefix;

impl Exact for Key {
    fn is_same(&self, other: &Key) -> bool {
        self == other
    }
}

impl Exact for Item {
    fn is_same(&self, other: &Item) -> bool {
        self == other
    }
}

impl Exact for Upstream {
    fn is_same(&self, other: &Upstream) -> bool {
        self == other
    }
}

impl Exact for Prefix {
    fn is_same(&self, other: &Prefix) -> bool {
        self == other
    }
}
