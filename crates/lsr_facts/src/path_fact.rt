ghost use Rattle.std.specs.Prelude.{◌≡◌, map, true};
ghost use Rattle.lsr_facts.specs.Timeless.{timeless_origin, timeless_path};

use crate::same::Same;
use rsvp_contents::{Attr, FastReroute, Hop, LabelRequest, Passing, Record, Route, Tspec};
use rsvp_objects::is_same_address;
use sorted_rows::{Table, TryCopy};
use std::alloc::{AllocError, Global};
use std::net::Ipv4Addr;

/// What this router is on an LSP's way.
#[derive(Clone, Copy, Debug, PartialEq, Eq)]
pub enum Role {
    /// The LSP comes from a neighbour and goes on to one.
    Transit,
    /// The LSP ends here.
    Tail,
    /// The LSP begins here.
    Head,
}

/// How the Paths of an origin come.
#[derive(Clone, Copy, Debug, PartialEq, Eq)]
pub enum Via {
    /// From a neighbour, over the link of this number.
    Link(u16),
    /// Through stacks of labels that end here: over a bypass tunnel (RFC 4090, 6.4.3).
    Stack,
}

impl Via {
    ghost use Rattle.lsr_facts.specs.Origins.{number_of, via_link};

    /// The number of the link to the neighbour; `None` for Paths that come through stacks.
    pub fn link(self) -> Option<u16>
        ensures { result ≡ via_link self }
    {
        match self {
            Via::Link(number) => Some(number),
            Via::Stack => None,
        }
    }

    /// The number of that link, 0 where there is none: no link has this number.
    pub fn number(self) -> u16
        ensures { result ≡ number_of self }
    {
        match self {
            Via::Link(number) => number,
            Via::Stack => 0,
        }
    }
}

/// A previous hop (PHOP, RFC 2205, 3.1.2): who sent the path's Path, and until when that counts.
#[derive(Clone, Copy, Debug, PartialEq, Eq)]
pub struct Origin {
    /// How its Paths come.
    pub via: Via,
    /// The router that sent it, as it named itself.
    pub hop: Hop,
    /// The moment in milliseconds at which it counts no more, unless it is refreshed before.
    pub expiry: u64,
}

/// What the router knows of one LSP's path: path state (RFC 2205, 2.3; RFC 3209, 2).
#[derive(Debug)]
pub struct PathFact {
    /// What the router is on the way.
    pub role: Role,
    /// Where the path comes from, by the sender that the Path named. A Head's has none.
    pub origins: Table<Ipv4Addr, Origin>,
    /// The number of the link that it leaves by, 0 for a Tail.
    pub out_link: u16,
    /// The route that its Path came with.
    pub given: Option<Route>,
    /// What is left of that route for the next hop.
    pub rest: Option<Route>,
    /// The route that it took so far, where that is recorded.
    pub recorded: Option<Record>,
    /// What the LSP is to carry.
    pub label_request: LabelRequest,
    /// The traffic that it is to carry.
    pub tspec: Tspec,
    /// Priorities, flags and name.
    pub attr: Option<Attr>,
    /// The protection that is asked for.
    pub fast_reroute: Option<FastReroute>,
    /// Objects that are passed on unread.
    pub passing: Passing,
}

/// Written out, so that it is dropped by one call, whatever it holds.
impl Drop for PathFact {
    fn drop(self) {
        let PathFact {
            role: _role,
            origins: _origins,
            out_link: _out_link,
            given: _given,
            rest: _rest,
            recorded: _recorded,
            label_request: _label_request,
            tspec: _tspec,
            attr: _attr,
            fast_reroute: _fast_reroute,
            passing: _passing,
        } = self;
    }
}

/// Whether two hops are one.
fn is_same_hop(hop: &Hop, other: &Hop) -> bool
    ensures { result ≡ true → hop.now ≡ other.now }
{
    is_same_address(hop.address, other.address) && hop.interface == other.interface
}

/// Whether these are the same origins, but for when they expire.
fn is_same_origin(origin: &(Ipv4Addr, Origin), other: &(Ipv4Addr, Origin)) -> bool
    ensures { result ≡ true → timeless_origin origin.now ≡ timeless_origin other.now }
{
    is_same_address(origin.0, other.0)
        && origin.1.via == other.1.via
        && is_same_hop(&origin.1.hop, &other.1.hop)
}

/// Whether these are the same origins in the same order, but for when they expire.
fn are_same_origins(origins: &[(Ipv4Addr, Origin)], others: &[(Ipv4Addr, Origin)]) -> bool
    ensures { result ≡ true → map timeless_origin origins.now ≡ map timeless_origin others.now }
{
    if origins.len() != others.len() {
        return false;
    }
    for i in 0..origins.len() {
        if !is_same_origin(&origins[i], &others[i]) {
            return false;
        }
    }
    true
}

impl PathFact {
    /// Whether another path is the same, but for when its origins expire.
    pub fn is_same_but_expiry(&self, other: &PathFact) -> bool
        ensures { result ≡ true → timeless_path self.now ≡ timeless_path other.now }
    {
        self.role == other.role
            && self.out_link == other.out_link
            && self.label_request == other.label_request
            && self.fast_reroute == other.fast_reroute
            && are_same_origins(self.origins.as_slice(), other.origins.as_slice())
            && self.tspec.is_same(&other.tspec)
            && self.attr.is_same(&other.attr)
            && self.rest.is_same(&other.rest)
            && self.given.is_same(&other.given)
            && self.recorded.is_same(&other.recorded)
            && self.passing.is_same(&other.passing)
    }
}

impl TryCopy for PathFact {
    fn try_copy(&self, alloc: Global) -> Result<PathFact, AllocError> {
        Ok(PathFact {
            role: self.role,
            origins: self.origins.try_copy(alloc)?,
            out_link: self.out_link,
            given: self.given.clone()?,
            rest: self.rest.clone()?,
            recorded: self.recorded.clone()?,
            label_request: self.label_request,
            tspec: self.tspec.clone()?,
            attr: self.attr.clone()?,
            fast_reroute: self.fast_reroute,
            passing: self.passing.clone()?,
        })
    }
}

impl TryCopy for Origin {
    fn try_copy(&self, _alloc: Global) -> Result<Origin, AllocError> {
        Ok(*self)
    }
}
