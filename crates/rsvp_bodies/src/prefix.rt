ghost use Rattle.std.specs.Prelude.{◌≡◌, ◌≤◌, length};
ghost use Rattle.std.specs.Cmp.{decided, partial_equiv_from_equiv};
ghost use Rattle.rsvp_bodies.specs.PrefixLaws.{equal_is_same_lem, same_prefix};
ghost use Rattle.rsvp_bodies.specs.Prefixes.{prefix_at};

use crate::{address_of, is_same_address};
use std::net::Ipv4Addr;

/// A set of IPv4 addresses, as subobjects carry it (RFC 3209, 4.3.3.2).
#[derive(Clone, Copy, Debug, PartialOrd, Ord)]
pub struct Prefix {
    pub address: Ipv4Addr,
    /// How many of the address's first bits count. A number above 32 is kept as it came.
    pub length: u8,
}

impl PartialEq for Prefix {
    ghost eq = { same_prefix };

    ghost laws = { partial_equiv_from_equiv (decided same_prefix equal_is_same_lem) };

    /// Whether they are the same address and the same length.
    fn eq(&self, other: &Prefix) -> bool {
        is_same_address(self.address, other.address) && self.length == other.length
    }
}

impl Eq for Prefix {
    ghost laws = { decided same_prefix equal_is_same_lem };
}

/// The prefix in the first five bytes: four of address, the highest first, and one of length.
pub(crate) fn prefix_of(bytes: &[u8]) -> Prefix
    requires { 5 ≤ length bytes.now }
    ensures { result ≡ prefix_at bytes.now }
{
    Prefix {
        address: address_of(bytes),
        length: bytes[4],
    }
}
