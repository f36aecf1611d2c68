//! Which links wires join.

ghost use Rattle.std.specs.Prelude.{◌≡◌, MatchOption};
ghost use Rattle.std.specs.Option.{option_copied};
ghost use Rattle.std.specs.List.{list_any};
ghost use Rattle.abstract_world.specs.Wires.{AreJoined, can_join, is_same_end, joins, link_of, other_end};
ghost use Rattle.abstract_world.specs.Worlds.{routers_in};
ghost use Rattle.lab_world.specs.Opening.{IsFirstFault};

use abstract_world::{End, Joint};
use explicit_routes::link_at;
use lsr_facts::Link;
use router_core::Machine;

/// Whether they are one link of one router.
fn is_same_end(one: &End, other: &End) -> bool
    ensures { result ≡ is_same_end one.now other.now }
{
    one.router == other.router && one.link == other.link
}

/// Whether the joint joins the link.
fn joins(end: &End, joint: &Joint) -> bool
    ensures { result ≡ joins end.now joint.now }
{
    is_same_end(end, &joint.one) || is_same_end(end, &joint.other)
}

/// The link at the other end of the wire that joins this one, or `None` where no wire does.
pub(crate) fn other_end(joints: &[Joint], end: &End) -> Option<End>
    ensures { result ≡ other_end joints.now end.now }
{
    for joint in joints {
        if is_same_end(end, &joint.one) {
            return Some(joint.other);
        }
        if is_same_end(end, &joint.other) {
            return Some(joint.one);
        }
    }
    None
}

/// The link, as its router has it configured, or `None` where there is no such router or link.
pub(crate) fn link_of<'a>(routers: &'a [Machine], end: &End) -> Option<&'a Link>
    ensures { option_copied result ≡ link_of (routers_in routers.now) end.now }
{
    let machine = routers.get(end.router)?;
    link_at(machine.router(), end.link)
}

/// Whether one of the joints joins the link.
fn is_joined(joints: &[Joint], end: &End) -> bool
    ensures { result ≡ list_any (joins end.now) joints.now }
{
    joints.iter().any(|joint| joins(end, joint))
}

/// Whether the wire can be put up beside others: the links that it joins are there, they are two, and no other wire joins either.
fn can_join(routers: &[Machine], others: &[Joint], joint: &Joint) -> bool
    ensures { result ≡ can_join (routers_in routers.now) others.now joint.now }
{
    link_of(routers, &joint.one).is_some()
        && link_of(routers, &joint.other).is_some()
        && !is_same_end(&joint.one, &joint.other)
        && !is_joined(others, &joint.one)
        && !is_joined(others, &joint.other)
}

/// The number of the first joint that can't be put up beside those before it, counted from 1, or `None` where all can.
pub(crate) fn first_fault(routers: &[Machine], joints: &[Joint]) -> Option<usize>
    ensures { MatchOption result (AreJoined (routers_in routers.now) joints.now)
        (IsFirstFault (routers_in routers.now) joints.now) }
{
    for (place, joint) in joints.iter().enumerate() {
        if !can_join(routers, &joints[..place], joint) {
            return Some(place + 1);
        }
    }
    None
}
