//! Where a router is: its own addresses, its links, and the neighbours over those that are up.

ghost use Rattle.std.specs.Option.{option_copied, option_map};
ghost use Rattle.std.specs.List.{list_any};
ghost use Rattle.std.specs.Prelude.{map, ◌≡◌, ◌/◌, ◌-◌, ◌^◌};
ghost use Rattle.std.specs.Net.Addr.{ipv4_bits};
ghost use Rattle.lsr_facts.specs.Routers.{is_same, link_at};
ghost use Rattle.abstract_paths.specs.Places.{contains, is_here, is_own, is_up, neighbour};
ghost use Rattle.abstract_paths.specs.Places.{place_at};

use lsr_facts::{Link, Node, Router, is_same_address};
use rsvp_bodies::Prefix;
use sorted_rows::Table;
use std::net::Ipv4Addr;

/// The bits of an address, and so the greatest length of a prefix.
pub(crate) const MAX_LENGTH: u8 = 32;

/// Whether an address is the router's own on one of its links.
fn is_link_address(router: &Router, address: Ipv4Addr) -> bool
    ensures { result ≡ list_any (is_same address) (map (λ l. l.1.address) router.now.links) }
{
    router
        .links
        .as_slice()
        .iter()
        .map(|row| row.1.address)
        .any(|own| is_same_address(address, own))
}

/// Whether an address is the router's own: its id, or its address on a link.
#[tactic(auto, unfolding(abstract_paths::specs::Places::is_own))]
pub fn is_own(router: &Router, address: Ipv4Addr) -> bool
    ensures { result ≡ is_own router.now address }
{
    is_same_address(address, router.id) || is_link_address(router, address)
}

/// The prefix of one node, by its address.
pub fn node_at(address: Ipv4Addr) -> Prefix
    ensures { result ≡ record { address = address; length = 32 } }
{
    Prefix {
        address,
        length: MAX_LENGTH,
    }
}

/// The first bits of an address, so many as are given.
fn first_bits(address: Ipv4Addr, count: u8) -> u64
    ensures { result ≡ ipv4_bits address / 2 ^ (32 - count) }
{
    u64::from(address.to_bits()) >> Ipv4Addr::BITS.saturating_sub(u32::from(count))
}

/// Whether a prefix contains an address (RFC 3209, 4.3.3.2).
#[tactic(auto, unfolding(abstract_paths::specs::Places::contains))]
pub fn contains(prefix: Prefix, address: Ipv4Addr) -> bool
    ensures { result ≡ contains prefix address }
{
    first_bits(address, prefix.length) == first_bits(prefix.address, prefix.length)
}

/// Whether one of the router's own addresses on its links is of a prefix.
fn has_link_address_in(router: &Router, nodes: Prefix) -> bool
    ensures { result ≡ list_any (contains nodes) (map (λ l. l.1.address) router.now.links) }
{
    router
        .links
        .as_slice()
        .iter()
        .map(|row| row.1.address)
        .any(|own| contains(nodes, own))
}

/// Whether the router is one of a prefix's nodes.
#[tactic(auto, unfolding(abstract_paths::specs::Places::is_here))]
pub(crate) fn is_here(router: &Router, nodes: Prefix) -> bool
    ensures { result ≡ is_here router.now nodes }
{
    contains(nodes, router.id) || has_link_address_in(router, nodes)
}

/// The router's link of this number, or `None` where it has no such link.
#[tactic(auto, unfolding(lsr_facts::specs::Routers::link_at))]
pub fn link_at(router: &Router, number: u16) -> Option<&Link>
    ensures found { option_copied result ≡ link_at router.now number }
{
    router.links.get(&number)
}

/// Whether the link of this number is up, by what is known of each link. An unknown link isn't.
#[tactic(auto, unfolding(abstract_paths::specs::Places::is_up))]
pub fn is_up(up: &Table<u16, bool>, number: u16) -> bool
    ensures up { result ≡ is_up up.now number }
{
    up.get(&number).copied().unwrap_or(false)
}

/// The least-numbered link that is up and leads to the neighbour of this address.
#[tactic(auto, unfolding(abstract_paths::specs::Places::neighbour))]
pub(crate) fn neighbour_at(node: &Node, address: Ipv4Addr) -> Option<u16>
    ensures { result ≡ option_map (λ l. l.0) (neighbour (is_same address) (place_at node.now)) }
{
    node.router
        .links
        .as_slice()
        .iter()
        .filter(|row| is_up(node.up, row.0))
        .find(|row| address == row.1.peer || address == row.1.peer_router)
        .map(|row| row.0)
}

/// The least-numbered link that is up and leads to a neighbour that is one of a prefix's nodes.
#[tactic(auto, unfolding(abstract_paths::specs::Places::neighbour))]
pub(crate) fn neighbour_in(node: &Node, nodes: Prefix) -> Option<u16>
    ensures { result ≡ option_map (λ l. l.0) (neighbour (contains nodes) (place_at node.now)) }
{
    node.router
        .links
        .as_slice()
        .iter()
        .filter(|row| is_up(node.up, row.0))
        .find(|row| contains(nodes, row.1.peer) || contains(nodes, row.1.peer_router))
        .map(|row| row.0)
}
