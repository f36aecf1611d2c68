//! What a Path asks of a router (RFC 2205, 3.1.3 and 3.7; RFC 3209, 4.3 and 4.4).

ghost use Rattle.std.specs.Option.{option_map_or};
ghost use Rattle.std.specs.Prelude.{◌≡◌, ◌==◌, IfOk, false, is_none, option_copied};
ghost use Rattle.explicit_routes.specs.Below.paths.Paths.{drops_record, has_loop, is_same_record, lifetime, link_of, origins_of, rest_of, role_of, unknown_code, unknown_object, way_for, way_of};
ghost use Rattle.rsvp_bodies.specs.TokenBuckets.{token_rate};
ghost use Rattle.explicit_routes.specs.Choosing.{IsChosen};
ghost use Rattle.explicit_routes.specs.Below.paths.Places.{place_at};

use crate::spelling::is_same;
use crate::wanted::goes_on;
use explicit_routes::{RouteFault, choose_hop, has_loop, has_room};
use lsr_facts::{Choice, Node, Origin, PathFact, Role, RsvpError, UNKNOWN_CLASS, UNKNOWN_CTYPE};
use rsvp_bodies::{Record, Route, Tspec};
use rsvp_contents::Path;
use rsvp_objects::Kind;
use sorted_rows::{Table, TryCopy};
use std::alloc::{AllocError, Global};
use std::net::Ipv4Addr;

/// The EtherType of IPv4, which an LSP may carry.
pub const ETHERTYPE_IPV4: u16 = 0x0800;

/// K: so many refreshes come late or not at all before state is lost (RFC 2205, 3.7).
const LATE_REFRESHES: u64 = 3;

/// State lives for (K + 0.5) * 1.5 times as long as from one refresh to the next (RFC 2205, 3.7). So many
/// quarters is that.
const LIFETIME_QUARTERS: u64 = (2 * LATE_REFRESHES + 1) * 3;

/// The quarters of a whole.
const QUARTERS: u64 = 4;

/// An unknown object's class stands in the high byte of the error's value (RFC 2205, B, 13).
const CLASS_WEIGHT: u16 = 0x100;

/// How long state lives after a message that is refreshed so often, both in milliseconds: 5.25 times as long,
/// rounded up (RFC 2205, 3.7).
pub fn lifetime(refresh_ms: u32) -> u64
    ensures { result ≡ lifetime refresh_ms }
{
    (LIFETIME_QUARTERS * u64::from(refresh_ms)).div_ceil(QUARTERS)
}

/// Whether the LSP that the Path asks for is to carry IPv4 (RFC 3209, 4.2.4).
pub fn carries_ipv4(path: &Path) -> bool
    ensures { result ≡ (path.now.label_request.l3pid == 0x0800) }
{
    path.label_request.l3pid == ETHERTYPE_IPV4
}

/// Whether the Tspec has no rate: it is no token bucket of the general service, number 1, or its rate is no
/// number that stands for one (RFC 2210, 3.1).
pub fn has_no_rate(tspec: &Tspec) -> bool
    ensures { result ≡ is_none (token_rate 1 tspec.now) }
{
    tspec.rate().is_err()
}

/// Whether a path that recorded this, if it recorded anything, has been here before: an entry names this router
/// (RFC 3209, 4.4.4).
#[tactic(auto, unfolding(explicit_routes::specs::Unfolded::has_loop))]
pub fn has_been_here(node: &Node, recorded: &Option<Record>) -> bool
    ensures { result ≡ has_loop node.now.router.now recorded.now }
{
    match recorded {
        Some(record) => has_loop(node, record),
        None => false,
    }
}

/// The way of a path that is known.
fn way_of(fact: &PathFact) -> Result<Choice, AllocError>
    ensures { IfOk result (λ way. way ≡ way_of fact.now) }
{
    if goes_on(fact.role) {
        return Ok(Choice::Link(fact.out_link, fact.rest.clone()?));
    }
    Ok(Choice::Tail)
}

/// The way of a Path: that of the path which stands, where the explicit route is the same; else the next hop
/// (RFC 3209, 4.3.4). The fault is an error of RFC 3209, 7.3, or out of memory.
#[tactic(auto, unfolding(explicit_routes::specs::Unfolded::way_for))]
pub fn way_for(
    alloc: Global,
    node: &Node,
    known: Option<&PathFact>,
    path: &Path,
) -> Result<Choice, RouteFault>
    ensures { IsChosen (way_for (place_at node.now) (option_copied known.entry) path.now) result }
{
    let Some(fact) = known else {
        return choose_hop(alloc, node, path.route.as_ref(), path.session.endpoint);
    };
    if is_same(alloc, &fact.given, &path.route)? {
        return Ok(way_of(fact)?);
    }
    choose_hop(alloc, node, path.route.as_ref(), path.session.endpoint)
}

/// What a way makes of a path: it ends here, or passes through.
pub fn role_of(way: &Choice) -> Role
    ensures { result ≡ role_of way.now }
{
    match way {
        Choice::Tail => Role::Tail,
        Choice::Link(_, _) => Role::Transit,
    }
}

/// The number of the link that a way leads out by: 0 where the path ends here.
pub fn link_of(way: &Choice) -> u16
    ensures { result ≡ link_of way.now }
{
    match way {
        Choice::Tail => 0,
        Choice::Link(link, _) => *link,
    }
}

/// What a way leaves of the explicit route.
pub fn rest_of(way: Choice) -> Option<Route>
    ensures { result ≡ rest_of way }
{
    match way {
        Choice::Tail => None,
        Choice::Link(_, rest) => rest,
    }
}

/// A copy of the origins of a path that may be known. The only error is out of memory.
pub fn origins_of(
    alloc: Global,
    known: Option<&PathFact>,
) -> Result<Table<Ipv4Addr, Origin>, AllocError>
    ensures { IfOk result (λ origins. origins ≡ origins_of (option_copied known.entry)) }
{
    match known {
        Some(fact) => fact.origins.try_copy(alloc),
        None => Ok(Table::new(alloc)),
    }
}

/// Whether the path goes on, and its record can't grow: it is left out (RFC 3209, 4.4.3).
pub fn drops_record(node: &Node, fact: &PathFact) -> bool
    ensures { result ≡ drops_record node.now.router.now fact.now }
{
    if !goes_on(fact.role) {
        return false;
    }
    match &fact.recorded {
        Some(record) => !has_room(node, record),
        None => false,
    }
}

/// Whether the path was known before with the same record, byte for byte. The only error is out of memory.
pub fn knows_record(
    alloc: Global,
    known: Option<&PathFact>,
    fact: &PathFact,
) -> Result<bool, AllocError>
    ensures { IfOk result (λ knows. knows ≡ option_map_or
        (λ old. is_same_record old.recorded fact.now.recorded) (option_copied known.entry) false) }
{
    match known {
        Some(old) => is_same(alloc, &old.recorded, &fact.recorded),
        None => Ok(false),
    }
}

/// The code of the error of an object of this kind, which a Path doesn't know.
fn unknown_code(kind: Kind) -> u8
    ensures { result ≡ unknown_code kind }
{
    match kind {
        Kind::Unknown(_) => UNKNOWN_CLASS,
        _ => UNKNOWN_CTYPE,
    }
}

/// The error of an object that a Path doesn't know: 13 for an unknown class, 14 for an unknown C-Type of a known
/// one. Its value is 256 times the class and the C-Type (RFC 2205, B, 13 and 14).
pub fn unknown_object(class: u8, ctype: u8) -> RsvpError
    ensures { result ≡ unknown_object class ctype }
{
    RsvpError {
        code: unknown_code(Kind::of(class, ctype)),
        value: u16::from(class) * CLASS_WEIGHT + u16::from(ctype),
    }
}
