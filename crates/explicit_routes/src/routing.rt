//! The way to an address.

ghost use Rattle.std.specs.List.{reduce};
ghost use Rattle.std.specs.Option.{option_map};
ghost use Rattle.std.specs.Prelude.{◌≡◌};
ghost use Rattle.abstract_paths.specs.Routing.{longer, route_to, routes_to};
ghost use Rattle.abstract_paths.specs.Places.{place_at};

use crate::places::{contains, is_up, neighbour_at};
use lsr_facts::Node;
use rsvp_bodies::Prefix;
use std::net::Ipv4Addr;

/// The longer of two static routes.
fn longer(first: (Prefix, u16), second: (Prefix, u16)) -> (Prefix, u16)
    ensures { result ≡ longer first second }
{
    if first.0.length < second.0.length {
        second
    } else {
        first
    }
}

/// The link of the longest static route to an address, of those over links that are up.
fn longest_route(node: &Node, address: Ipv4Addr) -> Option<u16>
    ensures { result ≡ option_map (λ route. route.1) (reduce longer (routes_to (place_at node.now) address)) }
{
    node.routes
        .as_slice()
        .iter()
        .copied()
        .filter(|route| contains(route.0, address) && is_up(node.up, route.1))
        .reduce(|best, route| longer(best, route))
        .map(|route| route.1)
}

/// The link that leads to an address: to the neighbour of this address, and else by the longest static route.
#[tactic(auto, unfolding(abstract_paths::specs::Routing::route_to))]
pub fn route_to(node: &Node, address: Ipv4Addr) -> Option<u16>
    ensures way { result ≡ route_to (place_at node.now) address }
{
    match neighbour_at(node, address) {
        Some(link) => Some(link),
        None => longest_route(node, address),
    }
}
