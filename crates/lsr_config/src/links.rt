// The links of a document.
ghost use Rattle.std.specs.List.{list_any};
ghost use Rattle.std.specs.Net.Addr.{ipv4_octets};
ghost use Rattle.std.specs.Prelude.{◌≡◌, ◌==◌, ◌↔◌, ℕ, List, [], ◌∷◌, IsTrue, bytes_eq};
ghost use Rattle.toml.specs.Data.{Data};
ghost use Rattle.toml.specs.View.{view};
ghost use Rattle.lsr_config.specs.Rules.{HasAddress, HasNumber, IsFree, known_number, new_number, new_address};
ghost use Rattle.lsr_config.specs.Documents.{table_rules, records, link_rules, SaysLink};
ghost use Rattle.lsr_config.specs.Values.{SaysEach};
ghost use Rattle.lsr_config.specs.Reading.{Judges};

use crate::fault::ConfigFault;
use crate::key::Key;
use crate::reading::{
    address_at, check_count, check_socket, flag_or, number_at, records_of, whole_at,
};
use lsr_facts::Link;
use lsr_facts::limits::{MAX_LIMIT, MAX_LINKS};
use std::alloc::Global;
use std::net::Ipv4Addr;
use toml::Value;

/// The least number of a link.
pub const FIRST_LINK: u64 = 1;

/// The least limit of a link, in bytes per second.
const NO_BANDWIDTH: u64 = 0;

/// The links of a document, with their numbers, in the order of their records.
pub(crate) fn read_links(
    alloc: Global,
    document: &Value,
    router: Ipv4Addr,
) -> Result<Vec<(u16, Link)>, ConfigFault>
    requires { HasAddress Key.Router (view document.now) router }
    ensures { Judges (table_rules Key.Link (link_rules (view document.now)) (view document.now))
        (λ links. SaysEach SaysLink (records Key.Link (view document.now)) links.items) result }
{
    let records = records_of(document, Key::Link)?;
    let mut links = Vec::new(alloc);
    for table in records {
        let link = read_link(table, router, links.as_slice())?;
        let Ok(()) = links.push(link) else {
            return Err(ConfigFault::Memory);
        };
    }
    Ok(links)
}

/// The link that a record says, with its number, after the links before it.
fn read_link(
    table: &Value,
    router: Ipv4Addr,
    before: &[(u16, Link)],
) -> Result<(u16, Link), ConfigFault>
    ensures { (document : Data) (earlier : List Data) → HasAddress Key.Router document router →
        SaysEach SaysLink earlier before.now →
        Judges (link_rules document earlier (view table.now)) (SaysLink (view table.now)) result }
{
    let number = number_at(table, Key::Number, FIRST_LINK)?;
    check_number(number, before)?;
    let address = address_at(table, Key::Address)?;
    check_address(address, router, before)?;
    let peer = address_at(table, Key::Peer)?;
    let peer_router = address_at(table, Key::PeerRouter)?;
    let limit = whole_at(table, Key::Limit, NO_BANDWIDTH, MAX_LIMIT)?;
    let up = flag_or(table, Key::Up, true)?;
    check_socket(table, Key::Listen)?;
    check_socket(table, Key::Send)?;
    check_count(Key::Link, MAX_LINKS, before.len())?;
    let link = Link {
        address,
        peer,
        peer_router,
        limit,
        up,
    };
    Ok((number, link))
}

/// Whether one of the rows has this number.
pub(crate) fn has_number<V>(number: u16, rows: &[(u16, V)]) -> bool
    ensures { result ≡ list_any (λ row. row.0 == number) rows.now }
{
    rows.iter().any(|row| row.0 == number)
}

/// Refuses a number that a row before has.
pub(crate) fn check_number<V>(number: u16, before: &[(u16, V)]) -> Result<(), ConfigFault>
    ensures { (first : ℕ) (d : Data) (earlier : List Data) → HasNumber first Key.Number d number →
        SaysEach (λ other row. HasNumber first Key.Number other row.0) earlier before.now →
        Judges (new_number first earlier d ∷ []) (λ _. Unit {0}) result }
{
    if has_number(number, before) {
        return Err(ConfigFault::Repeated(Key::Number));
    }
    Ok(())
}

/// Refuses a number, which a record gives the key, that none of the rows has.
pub(crate) fn check_named<V>(number: u16, key: Key, rows: &[(u16, V)]) -> Result<(), ConfigFault>
    ensures { (first : ℕ) (d : Data) (others : List Data) → HasNumber first key d number →
        SaysEach (λ other row. HasNumber first Key.Number other row.0) others rows.now →
        Judges (known_number first key others d ∷ []) (λ _. Unit {0}) result }
{
    if has_number(number, rows) {
        return Ok(());
    }
    Err(ConfigFault::UnknownName(key))
}

/// Whether one of the links has this address.
fn has_address(address: Ipv4Addr, links: &[(u16, Link)]) -> bool
    ensures { result ≡ list_any (λ row. bytes_eq (ipv4_octets row.1.address) (ipv4_octets address)) links.now }
{
    links.iter().any(|row| row.1.address == address)
}

/// Whether the address is neither that of the router nor that of one of the links.
pub(crate) fn is_free(address: Ipv4Addr, router: Ipv4Addr, links: &[(u16, Link)]) -> bool
    ensures { (document : Data) (records : List Data) → HasAddress Key.Router document router →
        SaysEach SaysLink records links.now → (IsTrue result ↔ IsFree document records address) }
{
    if address == router {
        return false;
    }
    !has_address(address, links)
}

/// Refuses an address that the router or a link before has.
fn check_address(
    address: Ipv4Addr,
    router: Ipv4Addr,
    before: &[(u16, Link)],
) -> Result<(), ConfigFault>
    ensures { (document link : Data) (earlier : List Data) → HasAddress Key.Router document router →
        HasAddress Key.Address link address → SaysEach SaysLink earlier before.now →
        Judges (new_address document earlier link ∷ []) (λ _. Unit {0}) result }
{
    if !is_free(address, router, before) {
        return Err(ConfigFault::Repeated(Key::Address));
    }
    Ok(())
}
