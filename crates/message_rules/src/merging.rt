//! What a router at the end of others' bypasses asks of a message that came through a stack of labels (RFC 4090, 7).

ghost use Rattle.std.specs.Prelude.{◌≡◌, ◌^◌, ◌≤◌, length, nat_le};
ghost use Rattle.explicit_routes.specs.Below.paths.Merging.{came_through, is_beside, is_stack, may_join, other_stacks, stack_origin, under};

use crate::paths::lifetime;
use lsr_facts::limits::MAX_ORIGINS;
use lsr_facts::{Key, Origin, PathFact, Via, begins_here};
use rsvp_contents::Path;
use std::net::Ipv4Addr;

/// The most origins of a path whose Paths come through stacks: beside these it has that of its neighbour.
const MAX_STACKS: usize = MAX_ORIGINS - 1;

/// Whether the Paths of an origin come through a stack of labels.
pub fn is_stack(via: Via) -> bool
    ensures { result ≡ is_stack via }
{
    match via {
        Via::Link(_) => false,
        Via::Stack => true,
    }
}

/// The LSP, under another sender.
pub fn under(sender: Ipv4Addr, key: Key) -> Key
    ensures { result ≡ under sender key }
{
    let mut named = key;
    named.sender.sender = sender;
    named
}

/// Whether two LSPs are of one session, with one LSP ID: they are one LSP, but for their senders (RFC 4090, 6.4.3).
pub fn is_beside(key: &Key, other: &Key) -> bool
    ensures { result ≡ is_beside key.now other.now }
{
    under(other.sender.sender, *key).cmp(other).is_eq()
}

/// Whether a Path of this LSP that comes through a stack may join the path: it is the path of the same LSP under another
/// sender, and doesn't begin here (RFC 4090, 7.1).
pub fn may_join(key: &Key, path: &(Key, PathFact)) -> bool
    ensures { result ≡ may_join key.now path.now }
{
    is_beside(key, &path.0) && key.cmp(&path.0).is_ne() && !begins_here(path.1.role)
}

/// How many origins of the path come through stacks, that of the sender aside.
fn other_stack_count(sender: Ipv4Addr, fact: &PathFact) -> usize
    ensures { result ≡ length (other_stacks sender fact.now) }
{
    fact.origins
        .as_slice()
        .iter()
        .filter(|origin| sender.cmp(&origin.0).is_ne())
        .filter(|origin| is_stack(origin.1.via))
        .count()
}

/// Whether the path has as many origins whose Paths come through stacks as it may have, that of the sender aside.
pub fn is_full_beside(sender: Ipv4Addr, fact: &PathFact) -> bool
    ensures { result ≡ nat_le 3 (length (other_stacks sender fact.now)) }
{
    other_stack_count(sender, fact) >= MAX_STACKS
}

/// Whether the path has an origin whose Paths come through a stack, under this LSP's sender: then a message of the LSP that
/// comes through a stack is about this path.
pub fn came_through(key: &Key, path: &(Key, PathFact)) -> bool
    ensures { result ≡ came_through key.now path.now }
{
    if !is_beside(key, &path.0) {
        return false;
    }
    match path.1.origins.get(&key.sender.sender) {
        Some(origin) => is_stack(origin.via),
        None => false,
    }
}

/// The origin that a Path is which comes through a stack at a moment, in milliseconds: the head of the bypass, and until
/// when that counts. It asks for a moment of at most 2^62.
pub fn stack_origin(moment: u64, path: &Path) -> Origin
    requires { moment ≤ 2 ^ 62 }
    ensures { result ≡ stack_origin moment path.now }
{
    Origin {
        via: Via::Stack,
        hop: path.hop,
        expiry: moment + lifetime(path.time.refresh_ms),
    }
}
