//! When a path is to be looked at, since the moment takes something away from it (RFC 2205, 2.3).

ghost use Rattle.std.specs.Prelude.{◌≡◌};
ghost use Rattle.path_state.specs.Expiries.{earliest, first_of};

use lsr_facts::{Origin, PathFact, Role, begins_here};
use std::net::Ipv4Addr;
use timed_rows::Timed;

/// The least of a moment and the expiries of origins, in milliseconds.
fn earliest(moment: u64, origins: &[(Ipv4Addr, Origin)]) -> u64
    ensures { result ≡ earliest moment origins.now }
{
    let mut least = moment;
    for origin in origins {
        least = least.min(origin.1.expiry);
    }
    least
}

/// When the first of a path's origins expires, in milliseconds. A path without origins goes at any moment, unless it
/// begins here: that stays.
fn first_of(role: Role, origins: &[(Ipv4Addr, Origin)]) -> Option<u64>
    ensures { result ≡ first_of role origins.now }
{
    match origins.split_first() {
        Some((origin, others)) => Some(earliest(origin.1.expiry, others)),
        None if begins_here(role) => None,
        None => Some(0),
    }
}

/// A path's moment is the first that takes something away from it.
#[derive(Clone, Copy, Debug, Drop)]
pub(crate) struct Expiry;

impl Timed<PathFact> for Expiry {
    ghost use Rattle.path_state.specs.Expiries.{first_expiry};

    ghost at = { λ e. first_expiry };

    fn at(&self, fact: &PathFact) -> Option<u64> {
        first_of(fact.role, fact.origins.as_slice())
    }
}
