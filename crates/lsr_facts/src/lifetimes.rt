//! How long what a router knows lives, and when a message is due again (RFC 2205, 2.3 and 3.7).

ghost use Rattle.std.specs.List.{list_any};
ghost use Rattle.std.specs.Prelude.{◌≡◌, nat_lt, not};
ghost use Rattle.lsr_facts.specs.Lifetimes.{begins_here, expires, has_waited, lives_on, lives_past, living};

use crate::key::Key;
use crate::path_fact::{Origin, PathFact, Role};
use std::net::Ipv4Addr;

/// Whether the origin's expiry is yet to come at a moment.
fn outlives(origin: &Origin, moment: u64) -> bool
    ensures { result ≡ nat_lt moment origin.now.expiry }
{
    moment < origin.expiry
}

/// Whether a path of this role begins here, so that it has no need of an origin.
pub fn begins_here(role: Role) -> bool
    ensures { result ≡ begins_here role }
{
    match role {
        Role::Tail => false,
        Role::Transit => false,
        Role::Head => true,
    }
}

/// Whether one of the origins lives past a moment.
fn has_living(moment: u64, origins: &[(Ipv4Addr, Origin)]) -> bool
    ensures { result ≡ list_any (lives_past moment) origins.now }
{
    for origin in origins {
        if outlives(&origin.1, moment) {
            return true;
        }
    }
    false
}

/// Whether the path lives on at a moment, in milliseconds: one of its origins does, or it begins here.
pub fn lives_on(moment: u64, path: &(Key, PathFact)) -> bool
    ensures { result ≡ lives_on moment path.now }
{
    begins_here(path.1.role) || has_living(moment, path.1.origins.as_slice())
}

/// Whether one of the origins has expired at a moment.
fn has_expired(moment: u64, origins: &[(Ipv4Addr, Origin)]) -> bool
    ensures { result ≡ list_any (λ origin. not (lives_past moment origin)) origins.now }
{
    for origin in origins {
        if !outlives(&origin.1, moment) {
            return true;
        }
    }
    false
}

/// Whether a moment, in milliseconds, takes something away from the path: it goes, or one of its origins does.
pub fn expires(moment: u64, path: &(Key, PathFact)) -> bool
    ensures { result ≡ expires moment path.now }
{
    !lives_on(moment, path) || has_expired(moment, path.1.origins.as_slice())
}

/// The path loses the origins that don't live past a moment, in milliseconds. Takes no memory.
pub fn keep_living(moment: u64, fact: &mut PathFact)
    ensures { fact.new ≡ living moment fact.old }
{
    fact.origins.retain(|_, origin| outlives(origin, moment));
}

/// Whether a message that was sent at a moment and is refreshed so often is due at another, all in milliseconds:
/// a refresh period lies between them, or more.
pub fn has_waited(refresh_ms: u32, at: u64, moment: u64) -> bool
    ensures { result ≡ has_waited refresh_ms at moment }
{
    match at.checked_add(u64::from(refresh_ms)) {
        Some(due) => due <= moment,
        None => false,
    }
}
