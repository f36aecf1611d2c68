//! The route of an LSP that goes on over a bypass (RFC 4090, 6.4.3 and 6.4.4).

ghost use Rattle.std.specs.Option.{option_copied, option_map_or};
ghost use Rattle.std.specs.Prelude.{◌≡◌, IfOk, IsTrue, drop, false};
ghost use Rattle.rsvp_contents.specs.Limits.{is_short_route};
ghost use Rattle.abstract_paths.specs.BackupRoutes.{route_after, steps_after};
ghost use Rattle.abstract_paths.specs.Places.{contains};
ghost use Rattle.abstract_paths.specs.Routing.{nodes_of};

use explicit_routes::{contains, copy_behind, node_at, nodes_of, step_to};
use rsvp_bodies::{Route, Step};
use std::alloc::{AllocError, Global};
use std::net::Ipv4Addr;

/// Whether a step leads to an address.
fn leads_to(address: Ipv4Addr, step: &Step) -> bool
    ensures { result ≡ option_map_or (λ nodes. contains nodes address) (nodes_of step.now) false }
{
    match nodes_of(step) {
        Some(nodes) => contains(nodes, address),
        None => false,
    }
}

/// What follows the last step that leads to an address; `None` where none leads there.
fn steps_after(address: Ipv4Addr, steps: &[Step]) -> Option<&[Step]>
    ensures { option_copied result ≡ steps_after address steps.now }
{
    let mut found = None;
    for place in 0..steps.len() {
        if leads_to(address, &steps[place]) {
            found = Some(&steps[place + 1..]);
        }
    }
    found
}

/// What follows the first step.
fn steps_after_first(steps: &[Step]) -> &[Step]
    ensures { result.now ≡ drop 1 steps.now }
{
    match steps {
        [_, others @ ..] => others,
        [] => steps,
    }
}

/// The route from a bypass's far end on, which the step to it begins. A bypass that ends at the next hop: the first step
/// was that hop's, and falls away. One that ends later: what follows the last step that leads to its end; where none does,
/// the LSP goes loosely towards its endpoint. It asks that this route is within the limits. The only error is out of memory.
pub(crate) fn route_after(
    alloc: Global,
    endpoint: Ipv4Addr,
    far: Ipv4Addr,
    is_nnhop: bool,
    steps: &[Step],
) -> Result<Route, AllocError>
    requires { IsTrue (is_short_route (route_after endpoint far is_nnhop steps.now)) }
    ensures { IfOk result (λ route. route ≡ route_after endpoint far is_nnhop steps.now) }
{
    if !is_nnhop {
        return copy_behind(alloc, step_to(far), steps_after_first(steps));
    }
    if let Some(others) = steps_after(far, steps) {
        return copy_behind(alloc, step_to(far), others);
    }
    let towards = Step::Ipv4 {
        loose: true,
        prefix: node_at(endpoint),
    };
    copy_behind(alloc, step_to(far), &[towards])
}
