//! What a PathTear and a PathErr match (RFC 2205, 3.1.5 and 3.1.7).

ghost use Rattle.std.specs.Prelude.{◌≡◌, IfOk};
ghost use Rattle.explicit_routes.specs.Below.paths.Tears.{is_from, is_torn_by, leaves_by, origins_without};

use crate::wanted::goes_on;
use lsr_facts::{Origin, PathFact, Via};
use rsvp_contents::PathTear;
use sorted_rows::{Table, TryCopy};
use std::alloc::{AllocError, Global};
use std::net::Ipv4Addr;

/// Whether the origin is the neighbour of this address, over this link. Its interface handle doesn't count.
pub fn is_from(link: u16, neighbour: Ipv4Addr, origin: &Origin) -> bool
    ensures { result ≡ is_from link neighbour origin.now }
{
    match origin.via {
        Via::Link(number) => number == link && origin.hop.address == neighbour,
        Via::Stack => false,
    }
}

/// Whether the path has the origin that a PathTear over this link speaks of: that of its sender, over the same
/// link from the same neighbour address. The interface handle doesn't count.
pub fn is_torn_by(link: u16, tear: &PathTear, fact: &PathFact) -> bool
    ensures { result ≡ is_torn_by link tear.now fact.now }
{
    match fact.origins.get(&tear.sender.sender) {
        Some(origin) => is_from(link, tear.hop.address, origin),
        None => false,
    }
}

/// A copy of the path's origins but that of the sender. The only error is out of memory.
pub fn origins_without(
    alloc: Global,
    sender: Ipv4Addr,
    fact: &PathFact,
) -> Result<Table<Ipv4Addr, Origin>, AllocError>
    ensures { IfOk result (λ origins. origins ≡ origins_without sender fact.now) }
{
    let mut origins = fact.origins.try_copy(alloc)?;
    origins.remove(&sender);
    Ok(origins)
}

/// Whether the path leaves by this link: it goes on, and this is its link out.
#[tactic(auto, unfolding(explicit_routes::specs::Unfolded::leaves_by))]
pub fn leaves_by(link: u16, fact: &PathFact) -> bool
    ensures { result ≡ leaves_by link fact.now }
{
    goes_on(fact.role) && fact.out_link == link
}
