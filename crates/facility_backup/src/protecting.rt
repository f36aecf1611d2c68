//! Which LSPs are protected, and by which bypasses they may be (RFC 4090, 4.1, 4.3 and 6).

ghost use Rattle.std.specs.List.{list_any};
ghost use Rattle.std.specs.Option.{unwrap_or};
ghost use Rattle.std.specs.Prelude.{◌≡◌, ◌==◌, []};
ghost use Rattle.abstract_router.specs.BypassTunnels.{bypass_tunnels_of};
ghost use Rattle.abstract_router.specs.Lsps.{around_of};
ghost use Rattle.abstract_router.specs.Protecting.{carries_bypass, ends_at_peer, has_flag, is_preferred, is_protected, label_after, leads_around, selected_by, wants_node_protection, wants_protection};
ghost use Rattle.facility_backup.specs.Carrying.{names_tunnel};

use crate::labels::label_after;
use lsr_facts::{Bypass, BypassTunnel, Key, PathFact, ResvFact, Router, Selected, begins_here};
use message_rules::link_at;
use rsvp_bodies::Record;
use state_views::StateView;
use std::net::Ipv4Addr;

/// The flag of SESSION_ATTRIBUTE that local protection is desired (RFC 3209, 4.7.1).
const LOCAL_PROTECTION: u8 = 0x01;
/// The flag of SESSION_ATTRIBUTE that node protection is desired (RFC 4090, 4.3).
const NODE_PROTECTION: u8 = 0x10;
/// The flag of FAST_REROUTE that facility backup is desired (RFC 4090, 4.1).
const FACILITY_BACKUP: u8 = 0x02;

/// Whether the Path asks for local protection, by its SESSION_ATTRIBUTE.
#[tactic(auto, using(crate::proofs::Flags::protection_flag))]
fn asks_for_protection(path: &PathFact) -> bool
    ensures { result ≡ has_flag 0x01 path.now }
{
    match &path.attr {
        Some(attr) => attr.flags & LOCAL_PROTECTION != 0,
        None => false,
    }
}

/// Whether the head wants the LSP protected: it asks for local protection, or for facility backup.
#[tactic(auto, using(crate::proofs::Flags::facility_flag))]
fn wants_protection(path: &PathFact) -> bool
    ensures { result ≡ wants_protection path.now }
{
    if asks_for_protection(path) {
        return true;
    }
    match path.fast_reroute {
        Some(wanted) => wanted.flags & FACILITY_BACKUP != 0,
        None => false,
    }
}

/// Whether it wants the next router protected too.
#[tactic(auto, using(crate::proofs::Flags::node_flag))]
fn wants_node_protection(path: &PathFact) -> bool
    ensures { result ≡ wants_node_protection path.now }
{
    match &path.attr {
        Some(attr) => attr.flags & NODE_PROTECTION != 0,
        None => false,
    }
}

/// Whether one of these bypasses names the tunnel of this number.
pub(crate) fn names_tunnel(bypasses: &[(u16, Bypass)], number: u16) -> bool
    ensures { result ≡ names_tunnel bypasses.now number }
{
    bypasses.iter().any(|bypass| bypass.1.tunnel == number)
}

/// Whether a bypass runs in the tunnel of this number.
fn is_bypass_tunnel<V: StateView>(view: &V, number: u16) -> bool
    ensures { result ≡ list_any (λ bypass_tunnel. bypass_tunnel.1.tunnel == number)
        (bypass_tunnels_of (V.router view.now) (V.state view.now)) }
{
    match view.tunnel(number) {
        Some(_) => names_tunnel(view.bypasses().as_slice(), number),
        None => false,
    }
}

/// Whether the LSP begins here, and is one of a tunnel that a bypass runs in.
fn carries_bypass<V: StateView>(view: &V, key: &Key, path: &PathFact) -> bool
    ensures { result ≡ carries_bypass (around_of (V.router view.now) (V.state view.now)) key.now path.now }
{
    begins_here(path.role) && is_bypass_tunnel(view, key.session.tunnel)
}

/// Whether the LSP is protected: its head wants that, and it carries no bypass of this router. Takes no memory.
pub fn is_protected<V: StateView>(view: &V, key: &Key, path: &PathFact) -> bool
    ensures { result ≡ is_protected (around_of (V.router view.now) (V.state view.now)) key.now path.now }
{
    wants_protection(path) && !carries_bypass(view, key, path)
}

/// Whether a bypass protects the link of a reservation, and is up over another link.
fn leads_around(resv: &ResvFact, bypass_tunnel: &BypassTunnel) -> bool
    ensures { result ≡ leads_around resv.now bypass_tunnel.now }
{
    if bypass_tunnel.protects != resv.link {
        return false;
    }
    match bypass_tunnel.over {
        Some(over) => over.link != resv.link,
        None => false,
    }
}

/// Whether it ends at the router at the other end of that link.
fn ends_at_peer(router: &Router, resv: &ResvFact, bypass_tunnel: &BypassTunnel) -> bool
    ensures { result ≡ ends_at_peer router.now resv.now bypass_tunnel.now }
{
    match link_at(router, resv.link) {
        Some(link) => link.peer_router == bypass_tunnel.ends_at,
        None => false,
    }
}

/// The label under which the router of this address takes an LSP, by the record of its Resv, if it has one.
#[tactic(auto, unfolding(abstract_router::specs::Protecting::label_after))]
fn recorded_label(address: Ipv4Addr, recorded: &Option<Record>) -> Option<u32>
    ensures { result ≡ label_after address (unwrap_or recorded.now []) }
{
    match recorded {
        Some(record) => label_after(address, record.as_slice()),
        None => None,
    }
}

/// How an LSP with this reservation would be repaired over the bypass of this number, if it may be: that ends at the next
/// router, or at a later one whose label the record says (RFC 4090, 6.4.1). Takes no memory.
pub fn selected_by(
    router: &Router,
    resv: &ResvFact,
    number: u16,
    bypass_tunnel: &BypassTunnel,
) -> Option<Selected>
    ensures { result ≡ selected_by router.now resv.now (number, bypass_tunnel.now) }
{
    if !leads_around(resv, bypass_tunnel) {
        return None;
    }
    if ends_at_peer(router, resv, bypass_tunnel) {
        return Some(Selected {
            bypass: number,
            is_nnhop: false,
            label: resv.label,
            capacity: bypass_tunnel.capacity,
        });
    }
    let label = recorded_label(bypass_tunnel.ends_at, &resv.recorded)?;
    Some(Selected {
        bypass: number,
        is_nnhop: true,
        label,
        capacity: bypass_tunnel.capacity,
    })
}

/// Whether a bypass ends where the head would have it: later where it wants the next router protected, else at that
/// router (RFC 4090, 4.3).
pub fn is_preferred(path: &PathFact, choice: Selected) -> bool
    ensures { result ≡ is_preferred path.now choice }
{
    if wants_node_protection(path) {
        choice.is_nnhop
    } else {
        !choice.is_nnhop
    }
}
