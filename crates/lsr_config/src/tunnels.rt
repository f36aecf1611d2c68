// The tunnels of a document.
ghost use Rattle.std.specs.Prelude.{◌≡◌, List, [], ◌∷◌, IfOk};
ghost use Rattle.toml.specs.Data.{Data};
ghost use Rattle.toml.specs.View.{view};
ghost use Rattle.rsvp_bodies.specs.RateWords.{tspec_with};
ghost use Rattle.lsr_config.specs.Rules.{HasAddress, elsewhere};
ghost use Rattle.lsr_config.specs.Values.{SaysEach};
ghost use Rattle.lsr_config.specs.Documents.{new_tunnel, table_rules, records, attribute_rules, tunnel_rules, SaysAttributes, SaysLink, SaysTunnel};
ghost use Rattle.lsr_config.specs.Reading.{Judges};

use crate::fault::ConfigFault;
use crate::key::Key;
use crate::links::{check_number, is_free};
use crate::reading::{
    address_at, byte_at, check_count, name_at, number_at, rate_at, records_of, steps_at,
};
use lsr_facts::limits::MAX_TUNNELS;
use lsr_facts::{Link, Tunnel, TunnelLsp};
use rsvp_bodies::{Attr, RateWord, Route, tspec_of};
use std::alloc::{AllocError, Global};
use std::net::Ipv4Addr;
use toml::Value;

/// The least number of a tunnel.
pub(crate) const FIRST_TUNNEL: u64 = 0;

/// The ID of a tunnel's first LSP.
const FIRST_LSP: u16 = 1;

/// The worst priority (RFC 3209, 4.7.1).
const WORST_PRIORITY: u8 = 7;

/// The tunnels of a document that begin at its router, with their numbers, in the order of their records.
pub(crate) fn read_tunnels(
    alloc: Global,
    document: &Value,
    router: Ipv4Addr,
    links: &[(u16, Link)],
) -> Result<Vec<(u16, Tunnel)>, ConfigFault>
    requires router { HasAddress Key.Router (view document.now) router }
    requires links { SaysEach SaysLink (records Key.Link (view document.now)) links.now }
    ensures { Judges (table_rules Key.Tunnel (tunnel_rules (view document.now)) (view document.now))
        (λ tunnels. SaysEach SaysTunnel (records Key.Tunnel (view document.now)) tunnels.items) result }
{
    let records = records_of(document, Key::Tunnel)?;
    let mut tunnels = Vec::new(alloc);
    for table in records {
        let tunnel = read_tunnel(alloc, table, router, links, tunnels.as_slice())?;
        let Ok(()) = tunnels.push(tunnel) else {
            return Err(ConfigFault::Memory);
        };
    }
    Ok(tunnels)
}

/// The tunnel that a record says, with its number, after the tunnels before it.
fn read_tunnel(
    alloc: Global,
    table: &Value,
    router: Ipv4Addr,
    links: &[(u16, Link)],
    before: &[(u16, Tunnel)],
) -> Result<(u16, Tunnel), ConfigFault>
    ensures { (document : Data) (earlier : List Data) → HasAddress Key.Router document router →
        SaysEach SaysLink (records Key.Link document) links.now → SaysEach SaysTunnel earlier before.now →
        Judges (tunnel_rules document earlier (view table.now)) (SaysTunnel (view table.now)) result }
{
    let number = number_at(table, Key::Number, FIRST_TUNNEL)?;
    check_number(number, before)?;
    let endpoint = address_at(table, Key::Endpoint)?;
    check_endpoint(endpoint, router, links)?;
    let route = steps_at(alloc, table, Key::Route)?;
    let rate = rate_at(table, Key::Rate)?;
    let attr = read_attributes(alloc, table)?;
    check_count(Key::Tunnel, MAX_TUNNELS, before.len())?;
    let tunnel = new_tunnel(alloc, endpoint, attr, route, rate)?;
    Ok((number, tunnel))
}

/// A tunnel for traffic of this rate, with its first LSP. The only error is out of memory.
fn new_tunnel(
    alloc: Global,
    endpoint: Ipv4Addr,
    attr: Attr,
    route: Route,
    rate: RateWord,
) -> Result<Tunnel, AllocError>
    ensures { IfOk result (λ tunnel. tunnel ≡ new_tunnel endpoint attr route (tspec_with rate)) }
{
    let tspec = tspec_of(alloc, rate)?;
    Ok(Tunnel {
        endpoint,
        attr,
        fast_reroute: None,
        current: TunnelLsp {
            id: FIRST_LSP,
            route,
            tspec,
        },
        pending: None,
        last: FIRST_LSP,
        noted: None,
    })
}

/// Refuses the end of a tunnel that is the router itself.
fn check_endpoint(
    endpoint: Ipv4Addr,
    router: Ipv4Addr,
    links: &[(u16, Link)],
) -> Result<(), ConfigFault>
    ensures { (document tunnel : Data) (link_records : List Data) → HasAddress Key.Router document router →
        HasAddress Key.Endpoint tunnel endpoint → SaysEach SaysLink link_records links.now →
        Judges (elsewhere document link_records tunnel ∷ []) (λ _. Unit {0}) result }
{
    if !is_free(endpoint, router, links) {
        return Err(ConfigFault::BadValue(Key::Endpoint));
    }
    Ok(())
}

/// The priorities, the flags and the name that a tunnel's record says.
fn read_attributes(alloc: Global, table: &Value) -> Result<Attr, ConfigFault>
    ensures { Judges (attribute_rules (view table.now)) (SaysAttributes (view table.now)) result }
{
    let setup = byte_at(table, Key::Setup, WORST_PRIORITY)?;
    let hold = byte_at(table, Key::Hold, WORST_PRIORITY)?;
    let flags = byte_at(table, Key::Flags, u8::MAX)?;
    let name = name_at(alloc, table, Key::Name)?;
    Ok(Attr {
        affinities: None,
        setup,
        hold,
        flags,
        name,
    })
}
