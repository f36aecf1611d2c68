//! Prefixes and explicit routes.

ghost use Rattle.std.specs.Prelude.{◌≡◌, ◌≤◌, ◌++◌, OnOk, length};
ghost use Rattle.rsvp_bodies.specs.Steps.{step_bytes as spelled};
ghost use Rattle.journal_bytes.specs.Events.{prefix_bytes, route_bytes, step_bytes};

use crate::counted::put_counted;
use crate::numbers::*;
use rsvp_bodies::{Prefix, Route, Step};
use std::alloc::AllocError;

/// Appends the prefix.
pub(crate) fn put_prefix(prefix: Prefix, out: &mut Vec<u8>) -> Result<(), AllocError>
    ensures ok { OnOk result (out.new.items ≡ out.old.items ++ prefix_bytes prefix) }
{
    out.extend_from_slice(&prefix.address.octets())?;
    out.extend_from_slice(&[prefix.length])
}

/// Appends the step, of a route that fits its object.
fn put_step(step: &Step, out: &mut Vec<u8>) -> Result<(), AllocError>
    requires { length (spelled step.now) ≤ 65528 }
    ensures ok { OnOk result (out.new.items ≡ out.old.items ++ step_bytes step.now) }

    // A step takes room in its route, so a route has few.
    ensures spelled { OnOk result (1 ≤ length (spelled step.now)) }
{
    match step {
        Step::Ipv4 { loose, prefix } => {
            let looseness = if *loose { LOOSE } else { STRICT };
            out.extend_from_slice(&[STEP_IPV4, looseness])?;
            put_prefix(*prefix, out)
        }
        Step::Other(other) => {
            out.extend_from_slice(&[STEP_OTHER])?;
            put_counted(other.as_slice(), out)
        }
    }
}

/// Appends the steps of the route, and before them how many they are.
pub(crate) fn put_route(route: &Route, out: &mut Vec<u8>) -> Result<(), AllocError>
    ensures ok { OnOk result (out.new.items ≡ out.old.items ++ route_bytes route.now) }
{
    let mut count: u32 = 0;
    let mut bytes = Vec::new(*out.allocator());
    for step in route.as_slice() {
        put_step(step, &mut bytes)?;
        count += 1;
    }
    out.extend_from_slice(&count.to_be_bytes())?;
    out.extend_from_slice(bytes.as_slice())
}
