//! The route that a path records (RFC 3209, 4.4.3).

ghost use Rattle.std.specs.Prelude.{◌≡◌, ◌∷◌, Some, is_some, IfOk};
ghost use Rattle.rsvp_contents.specs.Limits.{is_short_record};
ghost use Rattle.abstract_paths.specs.Paths.{grown, has_loop, names_here, own_entry};

use crate::copies::copy_behind;
use crate::places::{is_own, node_at};
use lsr_facts::{Node, Router};
use rsvp_bodies::{Record, Subobject, Trace};
use rsvp_contents::numbers::{MAX_RECORD_LEN, MAX_TRACES};
use std::alloc::{AllocError, Global};

/// Whether an entry of a record names this router.
fn names_here(router: &Router, entry: &Trace) -> bool
    ensures { result ≡ names_here router.now entry.now }
{
    match entry {
        Trace::Ipv4 { prefix, .. } => is_own(router, prefix.address),
        Trace::Label { .. } | Trace::Other(_) => false,
    }
}

/// Whether a path that recorded this has been here before.
#[tactic(auto, unfolding(abstract_paths::specs::Paths::has_loop))]
pub fn has_loop(node: &Node, recorded: &Record) -> bool
    ensures loop_found { result ≡ has_loop node.now.router.now (Some recorded.now) }
{
    recorded
        .as_slice()
        .iter()
        .any(|entry| names_here(node.router, entry))
}

/// The entry of a record that names this router: its id alone, without flags (RFC 3209, 4.4.1.1).
pub fn own_entry(router: &Router) -> Trace
    ensures { result ≡ own_entry router.now }
{
    Trace::Ipv4 {
        prefix: node_at(router.id),
        flags: 0,
    }
}

/// Whether a record with this router before the others is within its limits.
fn is_short_behind(router: &Router, recorded: &Record) -> bool
    ensures { result ≡ is_short_record (own_entry router.now ∷ recorded.now) }
{
    recorded.as_slice().len() < MAX_TRACES
        && own_entry(router).byte_len() + recorded.byte_len() <= MAX_RECORD_LEN
}

/// Whether a record has room for this router before the others.
#[tactic(auto, unfolding(abstract_paths::specs::Paths::grown))]
pub fn has_room(node: &Node, recorded: &Record) -> bool
    ensures room { result ≡ is_some (grown node.now.router.now recorded.now) }
{
    is_short_behind(node.router, recorded)
}

/// The record that a path goes on with: this router before the others, or `None` where there is no room for it
/// ([`has_room`]). The only error is out of memory.
#[tactic(auto, unfolding(abstract_paths::specs::Paths::grown))]
pub fn push_hop(alloc: Global, node: &Node, recorded: &Record) -> Result<Option<Record>, AllocError>
    ensures grown { IfOk result (λ r. r ≡ grown node.now.router.now recorded.now) }
{
    if !is_short_behind(node.router, recorded) {
        return Ok(None);
    }
    let whole = copy_behind(alloc, own_entry(node.router), recorded.as_slice())?;
    Ok(Some(whole))
}
