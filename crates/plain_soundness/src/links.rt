//! Links and static routes.

ghost use Rattle.std.specs.Net.Addr.{ipv4_bits};
ghost use Rattle.std.specs.Prelude.{◌≡◌, ◌≤◌, ◌-◌, ◌%◌, ◌^◌, ◌↔◌, IsTrue};
ghost use Rattle.lsr_facts.specs.Routers.{AreRoutes, HasLink};

use crate::checks::{Check, holds_of_all};
use lsr_facts::Router;
use lsr_facts::limits::MAX_ROUTES;
use rsvp_contents::Prefix;
use sorted_rows::Table;

/// The bits of an address, and so the greatest length of a prefix.
pub(crate) const ADDRESS_BITS: u8 = 32;

/// Whether the router has a link of this number.
#[tactic(auto, unfolding(lsr_facts::specs::Routers::link_at))]
pub(crate) fn has_link(router: &Router, number: u16) -> bool
    ensures { IsTrue result ↔ HasLink router.now number }
{
    router.links.contains_key(&number)
}

/// Whether an address has no bit set past a length.
fn is_masked(prefix: &Prefix) -> bool
    requires { prefix.now.length ≤ 32 }
    ensures { IsTrue result ↔ (ipv4_bits prefix.now.address % 2 ^ (32 - prefix.now.length) ≡ 0) }
{
    let size = 1u64 << (ADDRESS_BITS - prefix.length);
    u64::from(prefix.address.to_bits()) % size == 0
}

/// A static route over a link of the router, to a prefix with no bits past its length.
#[derive(Drop)]
struct RouteCheck<'a> {
    router: &'a Router,
}

impl Check<(Prefix, u16)> for RouteCheck<'_> {
    ghost use Rattle.std.specs.Net.Addr.{ipv4_bits};
    ghost use Rattle.std.specs.Prelude.{◌≡◌, ◌≤◌, ◌-◌, ◌%◌, ◌^◌};
    ghost use Rattle.lsr_facts.specs.Routers.{HasLink};

    ghost Holds = { λ c route. (route.0.length ≤ 32)
        × (ipv4_bits route.0.address % 2 ^ (32 - route.0.length) ≡ 0)
        × HasLink c.router.now route.1 };

    fn holds(&self, route: &(Prefix, u16)) -> bool {
        route.0.length <= ADDRESS_BITS && is_masked(&route.0) && has_link(self.router, route.1)
    }
}

/// Whether these are static routes of the router: at most 256.
pub(crate) fn are_routes(router: &Router, routes: &Table<Prefix, u16>) -> bool
    ensures { IsTrue result ↔ AreRoutes router.now routes.now }
{
    let rows = routes.as_slice();
    rows.len() <= MAX_ROUTES && holds_of_all(&RouteCheck { router }, rows)
}
