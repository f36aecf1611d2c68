//! Tunnels that begin at the router, and bypasses in them.

ghost use Rattle.std.specs.Prelude.{◌≡◌, ◌≢◌, ◌≤◌, ◌↔◌, map, false, IsTrue, length, true};
ghost use Rattle.std.specs.List.{AllByRecursion, list_any};
ghost use Rattle.rsvp_bodies.specs.declared.step.Step.TheVariants.{Ipv4};
ghost use Rattle.rsvp_contents.specs.Limits.{is_short_route};
ghost use Rattle.rsvp_objects.specs.Ranges.{IsAddress};
ghost use Rattle.lsr_facts.specs.Bypasses.{AreBypasses, IsBypass};
ghost use Rattle.lsr_facts.specs.Routers.{is_same, own_addresses};
ghost use Rattle.lsr_facts.specs.Tunnels.{AreTunnels, IsPendingAs, IsTunnel, IsTunnelLsp, route_from};

use crate::checks::{Check, holds_of_all};
use crate::links::{ADDRESS_BITS, has_link};
use lsr_facts::limits::{MAX_BYPASSES, MAX_TUNNELS};
use lsr_facts::{Bypass, Router, Tunnel, TunnelLsp, is_same_address};
use rsvp_bodies::{Step, Subobject};
use rsvp_contents::limits::is_short_route;
use rsvp_contents::numbers::{ADDRESS_LEN, MAX_ROUTE_LEN, MAX_STEPS};
use rsvp_contents::{Prefix, Route};
use sorted_rows::Table;
use std::net::Ipv4Addr;

/// The bytes of a whole traffic descriptor: that of a token bucket (RFC 2210, 3.1).
pub(crate) const TSPEC_LEN: usize = 32;

/// The step to this router, by which a tunnel's route begins.
fn own_step(router: &Router) -> Step
    ensures { result ≡ Ipv4 false (record { address = router.now.id; length = 32 }) }
{
    Step::Ipv4 {
        loose: false,
        prefix: Prefix {
            address: router.id,
            length: ADDRESS_BITS,
        },
    }
}

/// Whether a tunnel's route is within the limits of an explicit route, with this router's own step before it.
fn is_short_from(router: &Router, route: &Route) -> bool
    ensures { result ≡ is_short_route (route_from router.now route.now) }
{
    is_short_route(route)
        && route.as_slice().len() < MAX_STEPS
        && own_step(router).byte_len() + route.byte_len() <= MAX_ROUTE_LEN
}

/// Whether what a tunnel's LSP is asked to be fits a message, and its ID was given.
fn is_tunnel_lsp(router: &Router, last: u16, lsp: &TunnelLsp) -> bool
    ensures { IsTrue result ↔ IsTunnelLsp router.now last lsp.now }
{
    is_short_from(router, &lsp.route)
        && lsp.tspec.as_slice().len() == TSPEC_LEN
        && lsp.id >= 1
        && lsp.id <= last
}

/// Whether the LSP that is to take the place of the tunnel's current one, if there is one, is another.
fn is_pending_as(router: &Router, tunnel: &Tunnel) -> bool
    ensures { IsTrue result ↔ IsPendingAs router.now tunnel.now tunnel.now.pending }
{
    match &tunnel.pending {
        Some(lsp) => is_tunnel_lsp(router, tunnel.last, lsp) && lsp.id != tunnel.current.id,
        None => true,
    }
}

/// That an address has four octets: so much room is there for it.
fn has_four_octets(address: Ipv4Addr)
    ensures { IsAddress address }
{
    prove!(address.octets().len() == ADDRESS_LEN);
}

/// Whether an address is the router's own on one of its links.
fn is_link_address(router: &Router, address: Ipv4Addr) -> bool
    ensures { result ≡ list_any (is_same address) (map (λ l. l.1.address) router.now.links) }
{
    router
        .links
        .as_slice()
        .iter()
        .map(|row| row.1.address)
        .any(|own| is_same_address(address, own))
}

/// A tunnel that ends at another router, whose LSPs are as they should be.
#[derive(Drop)]
struct TunnelCheck<'a> {
    router: &'a Router,
}

impl Check<(u16, Tunnel)> for TunnelCheck<'_> {
    ghost use Rattle.lsr_facts.specs.Tunnels.{IsTunnel};

    ghost Holds = { λ c tunnel. IsTunnel c.router.now tunnel };

    fn holds(&self, tunnel: &(u16, Tunnel)) -> bool {
        let endpoint = tunnel.1.endpoint;
        has_four_octets(endpoint);
        !is_same_address(endpoint, self.router.id)
            && !is_link_address(self.router, endpoint)
            && is_tunnel_lsp(self.router, tunnel.1.last, &tunnel.1.current)
            && is_pending_as(self.router, &tunnel.1)
    }
}

/// Whether these are tunnels that begin at the router: at most 256.
pub(crate) fn are_tunnels(router: &Router, tunnels: &Table<u16, Tunnel>) -> bool
    ensures { IsTrue result ↔ AreTunnels router.now tunnels.now }
{
    let rows = tunnels.as_slice();
    rows.len() <= MAX_TUNNELS && holds_of_all(&TunnelCheck { router }, rows)
}

/// Whether a bypass protects a link of the router, and runs in a tunnel which carries its capacity.
fn is_bypass(router: &Router, tunnels: &Table<u16, Tunnel>, bypass: &(u16, Bypass)) -> bool
    requires { AreTunnels router.now tunnels.now }
    ensures { IsTrue result ↔ IsBypass router.now tunnels.now bypass.now }
{
    let Some(tunnel) = tunnels.get(&bypass.1.tunnel) else {
        return false;
    };
    has_link(router, bypass.1.link) && tunnel.carries(bypass.1.capacity)
}

/// Whether each of these is such a bypass.
fn are_each_bypasses(
    router: &Router,
    tunnels: &Table<u16, Tunnel>,
    bypasses: &[(u16, Bypass)],
) -> bool
    requires { AreTunnels router.now tunnels.now }
    ensures { IsTrue result ↔ AllByRecursion (IsBypass router.now tunnels.now) bypasses.now }
{
    for bypass in bypasses {
        if !is_bypass(router, tunnels, bypass) {
            return false;
        }
    }
    true
}

/// Whether these are bypasses of the router in tunnels that begin there: at most 64.
pub(crate) fn are_bypasses(
    router: &Router,
    tunnels: &Table<u16, Tunnel>,
    bypasses: &Table<u16, Bypass>,
) -> bool
    requires { AreTunnels router.now tunnels.now }
    ensures { IsTrue result ↔ AreBypasses router.now tunnels.now bypasses.now }
{
    let rows = bypasses.as_slice();
    rows.len() <= MAX_BYPASSES && are_each_bypasses(router, tunnels, rows)
}
