//! Ways as they are lent: what is left of a route isn't copied.

ghost use Rattle.std.specs.Prelude.{◌≡◌, ◌+◌, ◌≤◌, ◌∷◌, IfOk, length};
ghost use Rattle.rsvp_bodies.specs.Steps.{route_bytes};
ghost use Rattle.abstract_paths.specs.Paths.{rest_of};
ghost use Rattle.abstract_paths.specs.Routing.{step_to};
ghost use Rattle.explicit_routes.specs.Choosing.{choice_of};

use crate::copies::{copy_behind, copy_of};
use crate::places::node_at;
use lsr_facts::Choice;
use rsvp_bodies::{Route, Step};
use std::alloc::{AllocError, Global};
use std::marker::Model;
use std::net::Ipv4Addr;

/// A step to this address alone.
pub fn step_to(address: Ipv4Addr) -> Step
    ensures { result ≡ step_to address }
{
    Step::Ipv4 {
        loose: false,
        prefix: node_at(address),
    }
}

/// What is left of a route, lent: steps of it, after the neighbour that a loose one leads on over. Contracts see the
/// steps.
#[derive(Debug, Drop)]
pub struct Rest<'a> {
    neighbour: Option<Ipv4Addr>,
    steps: &'a [Step],
}

impl<'a> Model for Rest<'a> {
    ghost use Rattle.std.specs.Option.{option_map_or};
    ghost use Rattle.std.specs.Prelude.{List, ◌≤◌, ◌∷◌, length};
    ghost use Rattle.rsvp_bodies.specs.Steps.{route_bytes};
    ghost use Rattle.rsvp_bodies.specs.declared.step.Step.{Step};
    ghost use Rattle.abstract_paths.specs.Routing.{step_to};

    ghost Value = { List Step };

    ghost view = { λ r. option_map_or (λ peer. step_to peer ∷ r.steps.now) r.neighbour r.steps.now };

    ghost invariant = { λ r. length (route_bytes (option_map_or (λ peer. step_to peer ∷ r.steps.now) r.neighbour r.steps.now)) ≤ 65528 };
}

impl<'a> Rest<'a> {
    /// These steps.
    pub(crate) fn of(steps: &'a [Step]) -> Rest<'a>
        requires { length (route_bytes steps.now) ≤ 65528 }
        ensures { result ≡ steps.now }
    {
        Rest {
            neighbour: None,
            steps,
        }
    }

    /// These steps, after one to a neighbour.
    pub(crate) fn behind(neighbour: Ipv4Addr, steps: &'a [Step]) -> Rest<'a>
        requires { length (route_bytes steps.now) + 8 ≤ 65528 }
        ensures { result ≡ step_to neighbour ∷ steps.now }
    {
        Rest {
            neighbour: Some(neighbour),
            steps,
        }
    }

    /// A copy of them. The only error is out of memory.
    pub fn copied(&self, alloc: Global) -> Result<Route, AllocError>
        ensures copy { IfOk result (λ route. route ≡ self.now) }
    {
        match self.neighbour {
            Some(peer) => copy_behind(alloc, step_to(peer), self.steps),
            None => copy_of(alloc, self.steps),
        }
    }
}

/// The way that a path takes from here, and what is left of its route, lent.
#[derive(Debug, Drop)]
pub enum Way<'a> {
    /// It ends here.
    Tail,
    /// It goes on by the link of this number, with what is left of its route.
    Link(u16, Option<Rest<'a>>),
}

impl Way<'_> {
    /// The way, with a copy of what is left of the route. The only error is out of memory.
    pub fn choice(&self, alloc: Global) -> Result<Choice, AllocError>
        ensures choice { IfOk result (λ choice. choice ≡ choice_of self.now) }
    {
        match self {
            Way::Tail => Ok(Choice::Tail),
            Way::Link(link, None) => Ok(Choice::Link(*link, None)),
            Way::Link(link, Some(rest)) => Ok(Choice::Link(*link, Some(rest.copied(alloc)?))),
        }
    }
}
