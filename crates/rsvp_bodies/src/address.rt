ghost use Rattle.std.specs.Cmp.Lexicographic.{pointwise};
ghost use Rattle.std.specs.Net.Addr.{ipv4_octets};
ghost use Rattle.std.specs.Prelude.{◌≡◌, ◌≤◌, length, nat_eq};
ghost use Rattle.rsvp_bodies.specs.Addresses.{address_at};

use std::net::Ipv4Addr;

/// Whether two addresses are one. They are compared as numbers, which is quicker than octet by octet.
pub fn is_same_address(address: Ipv4Addr, other: Ipv4Addr) -> bool
    ensures { result ≡ pointwise nat_eq (ipv4_octets address) (ipv4_octets other) }
{
    address.to_bits() == other.to_bits()
}

/// The IPv4 address in the first four bytes, the highest first.
pub fn address_of(bytes: &[u8]) -> Ipv4Addr
    requires { 4 ≤ length bytes.now }
    ensures { result ≡ address_at bytes.now }
{
    Ipv4Addr::new(bytes[0], bytes[1], bytes[2], bytes[3])
}
