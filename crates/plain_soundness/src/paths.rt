//! The paths of LSPs, each by itself.

ghost use Rattle.std.specs.Option.{option_map_or};
ghost use Rattle.std.specs.Prelude.{◌≡◌, ◌≤◌, ◌↔◌, IsTrue, length, true};
ghost use Rattle.rsvp_contents.specs.Limits.{is_short_record, is_short_route};
ghost use Rattle.abstract_paths.specs.Merging.{stacks_in};
ghost use Rattle.abstract_paths.specs.Soundness.{AreOrigins, IsCountAs, IsVia, IsWay, IsWithinLimits, begins_with_ipv4};

use crate::checks::{Check, holds_of_all};
use crate::links::has_link;
use crate::tunnels::TSPEC_LEN;
use lsr_facts::limits::MAX_ORIGINS;
use lsr_facts::{Key, Origin, PathFact, Role, Router, Via};
use message_rules::is_stack;
use rsvp_bodies::Step;
use rsvp_contents::limits::{is_short_passing, is_short_record, is_short_route};
use rsvp_contents::numbers::TYPE_PATH;
use rsvp_contents::{Record, Route, are_passed_by, has_adspec_last, has_one_fast_reroute};
use sorted_rows::Table;
use std::net::Ipv4Addr;

/// Most origins of a path whose Paths come through stacks of labels.
const MAX_STACKS: usize = 3;

/// Whether the Paths of an origin come over a link of the router, or through stacks of labels.
fn is_via(router: &Router, via: Via) -> bool
    ensures { IsTrue result ↔ IsVia router.now via }
{
    match via {
        Via::Link(number) => has_link(router, number),
        Via::Stack => true,
    }
}

/// An origin under the sender that it is to have, which comes as it may and hasn't expired before a moment, in milliseconds.
#[derive(Drop)]
struct OriginCheck<'a> {
    router: &'a Router,
    moment: u64,
    key: &'a Key,
}

impl Check<(Ipv4Addr, Origin)> for OriginCheck<'_> {
    ghost use Rattle.abstract_paths.specs.Soundness.{IsOrigin, IsSenderAs};

    ghost Holds = { λ c origin. IsSenderAs c.key.now origin × IsOrigin c.router.now c.moment origin.1 };

    fn holds(&self, origin: &(Ipv4Addr, Origin)) -> bool {
        self.key.sender.sender.cmp(&origin.0).is_eq() != is_stack(origin.1.via)
            && is_via(self.router, origin.1.via)
            && self.moment <= origin.1.expiry
    }
}

/// Whether a path of this role may have so many origins.
fn is_count_as(role: Role, count: usize) -> bool
    ensures { IsTrue result ↔ IsCountAs role count }
{
    match role {
        Role::Head => count == 0,
        Role::Tail => count >= 1 && count <= MAX_ORIGINS,
        Role::Transit => count >= 1 && count <= MAX_ORIGINS,
    }
}

/// How many of these origins' Paths come through stacks of labels.
fn stack_count(origins: &[(Ipv4Addr, Origin)]) -> usize
    ensures { result ≡ length (stacks_in origins.now) }
{
    origins
        .iter()
        .filter(|origin| is_stack(origin.1.via))
        .count()
}

/// Whether these are origins of a path of the LSP at a moment, in milliseconds.
fn are_origins(
    router: &Router,
    moment: u64,
    key: &Key,
    role: Role,
    origins: &Table<Ipv4Addr, Origin>,
) -> bool
    ensures { IsTrue result ↔ AreOrigins router.now moment key.now role origins.now }
{
    let rows = origins.as_slice();
    is_count_as(role, rows.len())
        && stack_count(rows) <= MAX_STACKS
        && holds_of_all(
            &OriginCheck {
                router,
                moment,
                key,
            },
            rows,
        )
}

/// Whether a path leaves by a link of the router, or ends here.
fn is_way(router: &Router, path: &PathFact) -> bool
    ensures { IsTrue result ↔ IsWay router.now path.now }
{
    match path.role {
        Role::Tail => path.out_link == 0 && path.rest.is_none(),
        Role::Transit => has_link(router, path.out_link),
        Role::Head => has_link(router, path.out_link),
    }
}

/// Whether an explicit route, where there is one, is within its limits.
fn has_short_route(route: &Option<Route>) -> bool
    ensures { result ≡ option_map_or is_short_route route.now true }
{
    match route {
        Some(route) => is_short_route(route),
        None => true,
    }
}

/// Whether a recorded route, where there is one, is within its limits.
pub(crate) fn has_short_record(recorded: &Option<Record>) -> bool
    ensures { result ≡ option_map_or is_short_record recorded.now true }
{
    match recorded {
        Some(recorded) => is_short_record(recorded),
        None => true,
    }
}

/// Whether what is left of a route, if anything is, begins with a step of type IPv4 (RFC 3209, 4.3.3.2).
fn begins_with_ipv4(rest: &Option<Route>) -> bool
    ensures { result ≡ option_map_or begins_with_ipv4 rest.now true }
{
    match rest {
        Some(route) => matches!(route.as_slice(), [Step::Ipv4 { .. }, ..]),
        None => true,
    }
}

/// Whether what a path carries fits a message.
fn is_within_limits(path: &PathFact) -> bool
    ensures { IsTrue result ↔ IsWithinLimits path.now }
{
    let passing = path.passing.as_slice();
    has_short_route(&path.given)
        && has_short_route(&path.rest)
        && begins_with_ipv4(&path.rest)
        && has_short_record(&path.recorded)
        && is_short_passing(&path.passing)
        && are_passed_by(TYPE_PATH, passing)
        && has_adspec_last(passing)
        && has_one_fast_reroute(path.fast_reroute, passing)
}

/// A path as it should be at a moment, in milliseconds.
#[derive(Drop)]
pub(crate) struct PathCheck<'a> {
    pub(crate) router: &'a Router,
    pub(crate) moment: u64,
}

impl Check<(Key, PathFact)> for PathCheck<'_> {
    ghost use Rattle.abstract_paths.specs.Soundness.{IsPath};

    ghost Holds = { λ c path. IsPath c.router.now c.moment path };

    fn holds(&self, path: &(Key, PathFact)) -> bool {
        let fact = &path.1;
        are_origins(self.router, self.moment, &path.0, fact.role, &fact.origins)
            && is_way(self.router, fact)
            && fact.tspec.as_slice().len() == TSPEC_LEN
            && is_within_limits(fact)
    }
}
