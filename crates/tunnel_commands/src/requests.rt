//! What is asked of the LSPs of tunnels that begin here.

ghost use Rattle.std.specs.Prelude.{◌≡◌, IfSome, Ok, false, is_none, length};
ghost use Rattle.rsvp_contents.specs.Limits.{is_short_route};
ghost use Rattle.rsvp_bodies.specs.declared.step.Step.TheVariants.{Ipv4};
ghost use Rattle.lsr_facts.specs.Tunnels.{route_from};
ghost use Rattle.abstract_paths.specs.Commands.{has_rate, is_bad_request, is_bad_tunnel};
ghost use Rattle.abstract_paths.specs.Heads.{head_hop};
ghost use Rattle.abstract_paths.specs.Places.{place_of};
ghost use Rattle.explicit_routes.specs.Choosing.{choice_of};

use crate::routes::MAX_LENGTH;
use abstract_paths::NewTunnel;
use explicit_routes::{Way, head_way, is_own};
use lsr_facts::Router;
use rsvp_bodies::{Step, Subobject};
use rsvp_contents::limits::is_short_route;
use rsvp_contents::numbers::{MAX_ROUTE_LEN, MAX_STEPS};
use rsvp_contents::{Prefix, Route, Tspec};
use state_views::{StateView, node_of};
use std::net::Ipv4Addr;

/// The least priority has the greatest number: 0 is the best one (RFC 3209, 4.7.1).
const LEAST_PRIORITY: u8 = 7;

/// The step to this router, by which a tunnel's route begins.
fn own_step(router: &Router) -> Step
    ensures { result ≡ Ipv4 false (record { address = router.now.id; length = 32 }) }
{
    Step::Ipv4 {
        loose: false,
        prefix: Prefix {
            address: router.id,
            length: MAX_LENGTH,
        },
    }
}

/// Whether a tunnel's route is within the limits of an explicit route, with this router's own step before it.
pub fn is_short_from(router: &Router, route: &Route) -> bool
    ensures { result ≡ is_short_route (route_from router.now route.now) }
{
    is_short_route(route)
        && route.as_slice().len() < MAX_STEPS
        && own_step(router).byte_len() + route.byte_len() <= MAX_ROUTE_LEN
}

/// Whether the rate of a traffic descriptor of 32 bytes is defined, by its word (RFC 2215, 3.6).
fn has_rate(tspec: &Tspec) -> bool
    requires { length tspec.now ≡ 32 }
    ensures { result ≡ has_rate tspec.now }
{
    tspec.rate_word().whole().is_some()
}

/// The way that an LSP to the endpoint takes, which can be asked for; `None` where it can't: its route is too long, the
/// rate isn't defined, or no way leads on.
#[tactic(auto, unfolding(abstract_paths::specs::Commands::is_bad_request))]
pub(crate) fn requested_way<'a, V: StateView>(
    view: &V,
    endpoint: Ipv4Addr,
    route: &'a Route,
    tspec: &Tspec,
) -> Option<Way<'a>>
    requires { length tspec.now ≡ 32 }
    ensures none { is_none result
        ≡ is_bad_request (V.router view.now) (V.state view.now).facts endpoint route.now tspec.now }
    ensures way { IfSome result (λ way. Ok (choice_of way)
        ≡ head_hop (place_of (V.router view.now) (V.state view.now).facts) route.now endpoint) }
{
    let node = node_of(view);
    if !is_short_from(node.router, route) || !has_rate(tspec) {
        return None;
    }
    head_way(&node, route.as_slice(), endpoint).ok()
}

/// Whether a tunnel can't be asked for: it ends here, a priority's number is too great, or its LSP can't be asked for.
pub(crate) fn is_bad_tunnel<V: StateView>(view: &V, asked: &NewTunnel) -> bool
    ensures { result ≡ is_bad_tunnel (V.router view.now) (V.state view.now).facts asked.now }
{
    is_own(view.node().router, asked.endpoint)
        || asked.attr.setup > LEAST_PRIORITY
        || asked.attr.hold > LEAST_PRIORITY
        || requested_way(view, asked.endpoint, &asked.route, &asked.tspec).is_none()
}
