// The static routes of a document.
ghost use Rattle.std.specs.List.{list_any};
ghost use Rattle.std.specs.Net.Addr.{ipv4_octets};
ghost use Rattle.std.specs.Prelude.{◌≡◌, ◌==◌, ◌&&◌, List, [], ◌∷◌, bytes_eq};
ghost use Rattle.toml.specs.Data.{Data};
ghost use Rattle.toml.specs.View.{view};
ghost use Rattle.lsr_config.specs.Rules.{HasPrefix, new_prefix};
ghost use Rattle.lsr_config.specs.Documents.{table_rules, records, route_rules, SaysLink, SaysRoute};
ghost use Rattle.lsr_config.specs.Values.{SaysEach};
ghost use Rattle.lsr_config.specs.Reading.{Judges};

use crate::fault::ConfigFault;
use crate::key::Key;
use crate::links::{FIRST_LINK, check_named};
use crate::reading::{check_count, number_at, prefix_at, records_of};
use lsr_facts::Link;
use lsr_facts::limits::MAX_ROUTES;
use rsvp_bodies::Prefix;
use std::alloc::Global;
use toml::Value;

/// The routes of a document over its links, in the order of their records.
pub(crate) fn read_routes(
    alloc: Global,
    document: &Value,
    links: &[(u16, Link)],
) -> Result<Vec<(Prefix, u16)>, ConfigFault>
    requires { SaysEach SaysLink (records Key.Link (view document.now)) links.now }
    ensures { Judges (table_rules Key.Route (route_rules (records Key.Link (view document.now))) (view document.now))
        (λ routes. SaysEach SaysRoute (records Key.Route (view document.now)) routes.items) result }
{
    let records = records_of(document, Key::Route)?;
    let mut routes = Vec::new(alloc);
    for table in records {
        let route = read_route(table, links, routes.as_slice())?;
        let Ok(()) = routes.push(route) else {
            return Err(ConfigFault::Memory);
        };
    }
    Ok(routes)
}

/// The route that a record says, after the routes before it.
fn read_route(
    table: &Value,
    links: &[(u16, Link)],
    before: &[(Prefix, u16)],
) -> Result<(Prefix, u16), ConfigFault>
    ensures { (link_records earlier : List Data) → SaysEach SaysLink link_records links.now →
        SaysEach SaysRoute earlier before.now →
        Judges (route_rules link_records earlier (view table.now)) (SaysRoute (view table.now)) result }
{
    let prefix = prefix_at(table, Key::Prefix)?;
    check_prefix(prefix, before)?;
    let link = number_at(table, Key::Link, FIRST_LINK)?;
    check_named(link, Key::Link, links)?;
    check_count(Key::Route, MAX_ROUTES, before.len())?;
    Ok((prefix, link))
}

/// Whether one of the routes has this prefix.
fn has_prefix(prefix: Prefix, routes: &[(Prefix, u16)]) -> bool
    ensures { result ≡ list_any
        (λ row. bytes_eq (ipv4_octets row.0.address) (ipv4_octets prefix.address) && row.0.length == prefix.length) routes.now }
{
    routes.iter().any(|row| row.0 == prefix)
}

/// Refuses a prefix that a route before has.
fn check_prefix(prefix: Prefix, before: &[(Prefix, u16)]) -> Result<(), ConfigFault>
    ensures { (route : Data) (earlier : List Data) → HasPrefix Key.Prefix route prefix →
        SaysEach SaysRoute earlier before.now → Judges (new_prefix earlier route ∷ []) (λ _. Unit {0}) result }
{
    if has_prefix(prefix, before) {
        return Err(ConfigFault::Repeated(Key::Prefix));
    }
    Ok(())
}
