//! Whether wires are as routers take them to be.

ghost use Rattle.std.specs.Prelude.{◌≡◌};
ghost use Rattle.std.specs.List.{list_all};
ghost use Rattle.abstract_world.specs.Wires.{are_apart, have_none_in_common, is_closed, is_neighbour, name_each_other, names};
ghost use Rattle.abstract_world.specs.Worlds.{routers_in};

use crate::joints::link_of;
use abstract_world::{End, Joint};
use explicit_routes::{is_own, link_at};
use lsr_facts::{Link, Router, is_same_address};
use router_core::Machine;

/// Whether a link's neighbour is that router, by its address on the other link and by its router id.
fn is_neighbour(link: &Link, router: &Router, its: &Link) -> bool
    ensures { result ≡ is_neighbour link.now router.now its.now }
{
    is_same_address(link.peer, its.address) && is_same_address(link.peer_router, router.id)
}

/// Whether the router and its link of one end name those of the other as their neighbour.
fn names(routers: &[Machine], one: &End, other: &End) -> bool
    ensures { result ≡ names (routers_in routers.now) one.now other.now }
{
    let Some(link) = link_of(routers, one) else {
        return false;
    };
    let Some(machine) = routers.get(other.router) else {
        return false;
    };
    match link_at(machine.router(), other.link) {
        Some(its) => is_neighbour(link, machine.router(), its),
        None => false,
    }
}

/// Whether no address is one of both routers.
fn have_none_in_common(router: &Router, other: &Router) -> bool
    ensures { result ≡ have_none_in_common router.now other.now }
{
    if is_own(other, router.id) {
        return false;
    }
    for row in router.links.as_slice() {
        if is_own(other, row.1.address) {
            return false;
        }
    }
    true
}

/// Whether no address of a router is one of these, too.
fn has_none_of(router: &Router, others: &[Machine]) -> bool
    ensures { result ≡ list_all (have_none_in_common router.now) (routers_in others.now) }
{
    for other in others {
        if !have_none_in_common(router, other.router()) {
            return false;
        }
    }
    true
}

/// Whether no address is one of two of the routers.
fn are_apart(routers: &[Machine]) -> bool
    ensures { result ≡ are_apart (routers_in routers.now) }
{
    for (place, machine) in routers.iter().enumerate() {
        if !has_none_of(machine.router(), &routers[place + 1..]) {
            return false;
        }
    }
    true
}

/// Whether each wire joins links that name each other.
fn are_named(routers: &[Machine], joints: &[Joint]) -> bool
    ensures { result ≡ list_all (name_each_other (routers_in routers.now)) joints.now }
{
    for joint in joints {
        if !names(routers, &joint.one, &joint.other) || !names(routers, &joint.other, &joint.one) {
            return false;
        }
    }
    true
}

/// Whether the wires are as the routers take them to be: each joins links that name each other's address and router id, and no
/// address is one of two routers. Takes no memory.
pub(crate) fn is_closed(routers: &[Machine], joints: &[Joint]) -> bool
    ensures { result ≡ is_closed (routers_in routers.now) joints.now }
{
    are_named(routers, joints) && are_apart(routers)
}
