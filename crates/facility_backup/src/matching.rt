//! Whether a message is for a repair: the LSP is named as the bypass's end knows it (RFC 4090, 6.4.3).

ghost use Rattle.std.specs.Prelude.{◌≡◌};
ghost use Rattle.abstract_router.specs.Returning.{ends_at, is_known_as};
ghost use Rattle.facility_backup.specs.Matching.{is_for};

use crate::bypass_tunnels::bypass_tunnel_at;
use lsr_facts::{Key, Repair, Router};
use message_rules::{head_through, link_at};
use state_views::StateView;
use std::net::Ipv4Addr;

/// Whether the repair is of an LSP that the bypass's end knows as this one: its sender is this router's address on the link
/// that is protected (RFC 4090, 6.4.3).
fn is_known_as(router: &Router, key: &Key, repair: &(Key, Repair)) -> bool
    ensures { result ≡ is_known_as router.now key.now repair.now }
{
    let Some(link) = link_at(router, repair.1.resv.link) else {
        return false;
    };
    let known = Key {
        session: repair.0.session,
        sender: head_through(repair.0.sender, link),
    };
    known.cmp(key).is_eq()
}

/// Whether its bypass ends at the router of this address.
fn ends_at<V: StateView>(view: &V, hop: Ipv4Addr, repair: &(Key, Repair)) -> bool
    ensures { result ≡ ends_at (V.router view.now) (V.state view.now) hop repair.now }
{
    match bypass_tunnel_at(view, repair.1.bypass) {
        Some(bypass_tunnel) => bypass_tunnel.ends_at == hop,
        None => false,
    }
}

/// Whether a message is for the repair that names this LSP, and comes from the router of this address, if it says which
/// (RFC 4090, 6.4.3). Takes no memory.
pub fn is_for<V: StateView>(
    view: &V,
    hop: Option<Ipv4Addr>,
    key: &Key,
    repair: &(Key, Repair),
) -> bool
    ensures { result ≡ is_for (V.router view.now) (V.state view.now) hop key.now repair.now }
{
    if !is_known_as(view.node().router, key, repair) {
        return false;
    }
    match hop {
        Some(hop) => ends_at(view, hop, repair),
        None => true,
    }
}
