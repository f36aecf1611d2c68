//! The next hop of a path (RFC 3209, 4.3.4).

ghost use Rattle.std.specs.List.{prefix_len};
ghost use Rattle.std.specs.Prelude.{◌≡◌, ◌+◌, ◌≤◌, Some, drop, length, option_copied};
ghost use Rattle.rsvp_bodies.specs.Steps.{route_bytes};
ghost use Rattle.lsr_facts.specs.Tunnels.{route_from};
ghost use Rattle.abstract_paths.specs.Routing.{hop_by_rest, hop_by_route, hop_to_endpoint, hop_to_step, is_loose, leads_here, next_hop, nodes_of, with_neighbour};
ghost use Rattle.explicit_routes.specs.Choosing.{IsChosen, IsWay};
ghost use Rattle.abstract_paths.specs.Places.{place_at};

use crate::fault::{RouteError, RouteFault};
use crate::lent::{Rest, Way};
use crate::places::{MAX_LENGTH, is_here, is_own, link_at, neighbour_in};
use crate::routing::route_to;
use lsr_facts::{Choice, Node, Router};
use rsvp_bodies::{Prefix, Route, Step};
use std::alloc::Global;
use std::net::Ipv4Addr;

/// The nodes that a step leads to, if it is of type IPv4 and its prefix is one.
pub fn nodes_of(step: &Step) -> Option<Prefix>
    ensures { result ≡ nodes_of step.now }
{
    match step {
        Step::Ipv4 { prefix, .. } if prefix.length <= MAX_LENGTH => Some(*prefix),
        _ => None,
    }
}

/// Whether other nodes may stand before the step's.
fn is_loose(step: &Step) -> bool
    ensures { result ≡ is_loose step.now }
{
    match step {
        Step::Ipv4 { loose, .. } => *loose,
        Step::Other(_) => false,
    }
}

/// Whether a step leads to this router.
fn leads_here(router: &Router, step: &Step) -> bool
    ensures { result ≡ leads_here router.now step.now }
{
    match nodes_of(step) {
        Some(nodes) => is_here(router, nodes),
        None => false,
    }
}

/// The steps after those that lead here.
fn steps_from_here<'a>(router: &Router, steps: &'a [Step]) -> &'a [Step]
    ensures { result.now ≡ drop (prefix_len (leads_here router.now) steps.now) steps.now }
{
    let here = steps
        .iter()
        .take_while(|step| leads_here(router, step))
        .count();
    &steps[here..]
}

/// The steps, with the neighbour over a link before them.
fn with_neighbour<'a>(router: &Router, steps: &'a [Step], number: u16) -> Rest<'a>
    requires { length (route_bytes steps.now) + 8 ≤ 65528 }
    ensures { result ≡ with_neighbour router.now steps.now number }
{
    match link_at(router, number) {
        Some(link) => Rest::behind(link.peer, steps),
        None => Rest::of(steps),
    }
}

/// The next hop where no steps are left: the path ends here, or goes on towards its endpoint.
#[tactic(auto, unfolding(abstract_paths::specs::Routing::hop_to_endpoint))]
fn hop_to_endpoint<'a>(node: &Node, endpoint: Ipv4Addr) -> Result<Way<'a>, RouteError>
    ensures { IsWay (hop_to_endpoint (place_at node.now) endpoint) result }
{
    if is_own(node.router, endpoint) {
        return Ok(Way::Tail);
    }
    let link = route_to(node, endpoint).ok_or(RouteError::NoRoute)?;
    Ok(Way::Link(link, None))
}

/// The next hop where the first of these steps leads to other nodes: to a neighbour, and if the step is loose
/// also on towards it.
#[tactic(auto, unfolding(abstract_paths::specs::Routing::hop_to_step))]
fn hop_to_step<'a>(
    node: &Node,
    loose: bool,
    nodes: Prefix,
    steps: &'a [Step],
) -> Result<Way<'a>, RouteError>
    requires { length (route_bytes steps.now) + 8 ≤ 65528 }
    ensures { IsWay (hop_to_step (place_at node.now) loose nodes steps.now) result }
{
    if let Some(link) = neighbour_in(node, nodes) {
        return Ok(Way::Link(link, Some(Rest::of(steps))));
    }
    if !loose {
        return Err(RouteError::BadStrictNode);
    }
    let link = route_to(node, nodes.address).ok_or(RouteError::BadLooseNode)?;
    Ok(Way::Link(link, Some(with_neighbour(node.router, steps, link))))
}

/// The next hop by the steps after those that lead here.
#[tactic(auto, unfolding(abstract_paths::specs::Routing::hop_by_rest))]
fn hop_by_rest<'a>(
    node: &Node,
    steps: &'a [Step],
    endpoint: Ipv4Addr,
) -> Result<Way<'a>, RouteError>
    requires { length (route_bytes steps.now) + 8 ≤ 65528 }
    ensures { IsWay (hop_by_rest (place_at node.now) steps.now endpoint) result }
{
    let Some(step) = steps.first() else {
        return hop_to_endpoint(node, endpoint);
    };
    let nodes = nodes_of(step).ok_or(RouteError::BadExplicitRoute)?;
    hop_to_step(node, is_loose(step), nodes, steps)
}

/// The next hop by an explicit route.
#[tactic(auto, unfolding(abstract_paths::specs::Routing::hop_by_route))]
fn hop_by_route<'a>(
    node: &Node,
    steps: &'a [Step],
    endpoint: Ipv4Addr,
) -> Result<Way<'a>, RouteError>
    requires { length (route_bytes steps.now) ≤ 65528 }
    ensures { IsWay (hop_by_route (place_at node.now) steps.now endpoint) result }
{
    let (first, others) = steps.split_first().ok_or(RouteError::BadExplicitRoute)?;
    let nodes = nodes_of(first).ok_or(RouteError::BadExplicitRoute)?;
    if !is_here(node.router, nodes) {
        return Err(RouteError::BadInitialSubobject);
    }
    hop_by_rest(node, steps_from_here(node.router, others), endpoint)
}

/// The way that a path takes by its explicit route, and without one towards its endpoint.
#[tactic(auto, unfolding(abstract_paths::specs::Routing::next_hop))]
fn way_on<'a>(
    node: &Node,
    route: Option<&'a Route>,
    endpoint: Ipv4Addr,
) -> Result<Way<'a>, RouteError>
    ensures { IsWay (next_hop (place_at node.now) (option_copied route.entry) endpoint) result }
{
    match route {
        Some(route) => hop_by_route(node, route.as_slice(), endpoint),
        None => hop_to_endpoint(node, endpoint),
    }
}

/// The way of a path that begins here, by the steps of its route after this router's own: what is left of them is lent.
/// The error is one of RFC 3209, 7.3. Takes no memory.
#[tactic(auto, unfolding(abstract_paths::specs::Routing::next_hop, abstract_paths::specs::Routing::hop_by_route))]
pub fn head_way<'a>(
    node: &Node,
    steps: &'a [Step],
    endpoint: Ipv4Addr,
) -> Result<Way<'a>, RouteError>
    requires { length (route_bytes steps.now) + 8 ≤ 65528 }
    ensures way { IsWay (next_hop (place_at node.now) (Some (route_from node.now.router.now steps.now)) endpoint) result }
{
    hop_by_rest(node, steps_from_here(node.router, steps), endpoint)
}

/// The next hop of a path: by its explicit route, and without one towards its endpoint (RFC 3209, 4.3.4). The
/// fault is an error of RFC 3209, 7.3, or out of memory for what is left of the route.
pub fn choose_hop(
    alloc: Global,
    node: &Node,
    route: Option<&Route>,
    endpoint: Ipv4Addr,
) -> Result<Choice, RouteFault>
    ensures chosen { IsChosen (next_hop (place_at node.now) (option_copied route.entry) endpoint) result }
{
    let way = way_on(node, route, endpoint)?;
    Ok(way.choice(alloc)?)
}
