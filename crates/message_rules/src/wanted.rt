//! The message that a path sends on to its next hop.

ghost use Rattle.std.specs.Option.{option_and_then};
ghost use Rattle.std.specs.Prelude.{◌≡◌, IfOk};
ghost use Rattle.explicit_routes.specs.Below.paths.Paths.{goes_on, grown};
ghost use Rattle.explicit_routes.specs.Below.paths.Onward.{path_onward};

use explicit_routes::push_hop;
use lsr_facts::{Key, Link, Node, PathFact, Role};
use rsvp_bodies::Record;
use rsvp_contents::Path;
use rsvp_objects::{Hop, TimeValues};
use std::alloc::{AllocError, Global};

/// Whether a path of this role doesn't end here.
pub fn goes_on(role: Role) -> bool
    ensures { result ≡ goes_on role }
{
    match role {
        Role::Tail => false,
        Role::Transit => true,
        Role::Head => true,
    }
}

/// The record that a path goes on with.
fn record_onward(
    alloc: Global,
    node: &Node,
    recorded: &Option<Record>,
) -> Result<Option<Record>, AllocError>
    ensures { IfOk result (λ onward. onward ≡ option_and_then (grown node.now.router.now) recorded.now) }
{
    match recorded {
        Some(record) => push_hop(alloc, node, record),
        None => Ok(None),
    }
}

/// The Path that goes on by the link: this router is its hop, its route is what is left, its record has grown;
/// all else is as it came (RFC 2205, 3.1.3; RFC 3209, 4.3.4 and 4.4.3). The only error is out of memory.
pub fn path_onward(
    alloc: Global,
    node: &Node,
    key: &Key,
    fact: &PathFact,
    link: &Link,
) -> Result<Path, AllocError>
    ensures { IfOk result (λ path. path ≡ path_onward node.now.router.now key.now fact.now link.now) }
{
    Ok(Path {
        session: key.session,
        hop: Hop {
            address: link.address,
            interface: u32::from(fact.out_link),
        },
        time: TimeValues {
            refresh_ms: node.router.refresh_ms,
        },
        route: fact.rest.clone()?,
        label_request: fact.label_request,
        attr: fact.attr.clone()?,
        fast_reroute: fact.fast_reroute,
        passing: fact.passing.clone()?,
        sender: key.sender,
        tspec: fact.tspec.clone()?,
        recorded: record_onward(alloc, node, &fact.recorded)?,
    })
}
