//! Sessions, told apart by numbers: many are compared when one reservation comes.

ghost use Rattle.std.specs.Ordering.{is_eq};
ghost use Rattle.std.specs.Prelude.{◌≡◌};
ghost use Rattle.lsr_facts.specs.Orders.{address_cmp};
ghost use Rattle.lsr_facts.specs.Claims.{is_same_session};

use rsvp_objects::{Session, is_same_address};
use std::net::Ipv4Addr;

/// Whether neither address stands before the other.
fn is_tied(address: Ipv4Addr, other: Ipv4Addr) -> bool
    ensures { result ≡ is_eq (address_cmp address other) }
{
    is_same_address(address, other)
}

/// Whether two sessions are one: the same endpoint, tunnel and extended tunnel ID (RFC 3209, 4.6.1.1).
pub fn is_same_session(session: &Session, other: &Session) -> bool
    ensures { result ≡ is_same_session session.now other.now }
{
    is_tied(session.endpoint, other.endpoint)
        && session.tunnel == other.tunnel
        && is_tied(session.extended, other.extended)
}
