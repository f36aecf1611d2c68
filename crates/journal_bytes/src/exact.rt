ghost use Rattle.std.specs.Prelude.{◌≡◌, ◌↔◌, IsTrue};

use std::net::Ipv4Addr;

/// A value that can be told from every other.
pub trait Exact {
    /// Whether it is the same as another value.
    fn is_same(&self, other: &Self) -> bool
        ensures { IsTrue result ↔ (self.now ≡ other.now) };
}

impl Exact for bool {
    fn is_same(&self, other: &bool) -> bool {
        self == other
    }
}

impl Exact for u16 {
    fn is_same(&self, other: &u16) -> bool {
        self == other
    }
}

impl Exact for u32 {
    fn is_same(&self, other: &u32) -> bool {
        self == other
    }
}

impl Exact for u64 {
    fn is_same(&self, other: &u64) -> bool {
        self == other
    }
}

impl Exact for Ipv4Addr {
    fn is_same(&self, other: &Ipv4Addr) -> bool {
        self == other
    }
}

impl<T: Exact> Exact for Option<T> {
    fn is_same(&self, other: &Option<T>) -> bool {
        match (self, other) {
            (Some(value), Some(other)) => value.is_same(other),
            (None, None) => true,
            _ => false,
        }
    }
}
