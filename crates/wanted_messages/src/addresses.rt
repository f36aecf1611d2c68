//! Addresses in messages.

ghost use Rattle.rsvp_objects.specs.Ranges.{IsAddress};

use rsvp_contents::numbers::ADDRESS_LEN;
use std::net::Ipv4Addr;

/// That an address has four octets: so much room is there for it.
pub(crate) fn has_four_octets(address: Ipv4Addr)
    ensures { IsAddress address }
{
    prove!(address.octets().len() == ADDRESS_LEN);
}
