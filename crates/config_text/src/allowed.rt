// What a key, or a table of records, may have.
ghost use Rattle.std.specs.Prelude.{◌≡◌};
ghost use Rattle.config_text.specs.Allowed as spec;
ghost use Rattle.config_text.specs.Allowed.{address_allowed, count_allowed, keys_allowed, link_allowed, name_allowed, number_allowed, own_allowed, priority_allowed, route_allowed, socket_allowed, toml_allowed, tunnel_allowed, values_allowed};

use crate::section::{Section, Spot};
use lsr_config::{ConfigFault, Key};

/// An address.
const ADDRESS: &str =
    "four numbers from 0 to 255 without leading zeros, with dots between them, in quotes, as \"10.0.0.2\"";
/// The end of a tunnel.
const ENDPOINT: &str =
    "four numbers from 0 to 255 without leading zeros, with dots between them, in quotes, as \"10.0.0.4\", neither router nor the address of a link";
/// The labels that the router gives out.
const LABELS: &str =
    "[first, last], two whole numbers from 16 to 1048575, the first not above the last, at most 4096 labels";
/// A prefix.
const PREFIX: &str = "an address, a slash and a length from 0 to 32, in quotes, as \"10.0.0.4/32\"";
/// A priority.
const PRIORITY: &str = "a whole number from 0 to 7";
/// A rate.
const RATE: &str =
    "the eight hexadecimal digits of an IEEE 754 word, in quotes, as \"47f42400\", in bytes per second, not negative and below 2^50";
/// A socket address.
const SOCKET: &str =
    "an IPv4 or [IPv6] address, no name, a colon and a port from 0 to 65535, in quotes, as \"127.0.0.1:5002\"";
/// The route of a tunnel.
const STEPS: &str =
    "at most 31 steps in brackets, as [\"10.1.0.2/32\", \"~10.0.0.4/32\"], each an address, a slash and a length from 0 to 32, after ~ where it is loose";
/// TOML.
pub(crate) const TOML: &str =
    "TOML: each line has KEY = VALUE, or begins a record, as [[link]]; each key stands once in its record";

/// The number of a record.
fn number_allowed(spot: Spot) -> &'static str
    ensures { result.now ≡ number_allowed spot }
{
    match spot {
        Spot::Record(Section::Links, _) => "a whole number from 1 to 65535",
        _ => "a whole number from 0 to 65535",
    }
}

/// A table of links, or the number of one.
fn link_allowed(spot: Spot) -> &'static str
    ensures { result.now ≡ link_allowed spot }
{
    match spot {
        Spot::Top => "records, each after a line [[link]]",
        Spot::Record(_, _) => "the number of a link, a whole number from 1 to 65535",
    }
}

/// A table of routes, or the route of a tunnel.
fn route_allowed(spot: Spot) -> &'static str
    ensures { result.now ≡ route_allowed spot }
{
    match spot {
        Spot::Top => "records, each after a line [[route]]",
        Spot::Record(_, _) => STEPS,
    }
}

/// A table of tunnels, or the number of one.
fn tunnel_allowed(spot: Spot) -> &'static str
    ensures { result.now ≡ tunnel_allowed spot }
{
    match spot {
        Spot::Top => "records, each after a line [[tunnel]]",
        Spot::Record(_, _) => "the number of a tunnel, a whole number from 0 to 65535",
    }
}

/// The values of a key.
#[tactic(auto, unfolding(crate::specs::Allowed::values_allowed))]
fn values_allowed(key: Key, spot: Spot) -> &'static str
    ensures { result.now ≡ values_allowed key spot }
{
    match key {
        Key::Router | Key::Address | Key::Peer | Key::PeerRouter => ADDRESS,
        Key::RefreshMs => "a whole number from 1 to 4294967295, in milliseconds",
        Key::Labels => LABELS,
        Key::LabelRestMs => "a whole number from 0 to 4294967295, in milliseconds",
        Key::Link => link_allowed(spot),
        Key::Number => number_allowed(spot),
        Key::Limit => "a whole number from 0 to 1125899906842624, in bytes per second",
        Key::Up => "true or false",
        Key::Listen | Key::Send => SOCKET,
        Key::Route => route_allowed(spot),
        Key::Prefix => PREFIX,
        Key::Tunnel => tunnel_allowed(spot),
        Key::Endpoint => ENDPOINT,
        Key::Rate => RATE,
        Key::Setup | Key::Hold => PRIORITY,
        Key::Flags => "a whole number from 0 to 255",
        Key::Name => "a text of at most 255 bytes, in quotes",
        Key::Bypass => "records, each after a line [[bypass]]",
        Key::Capacity => {
            "a whole number from 0 to the rate of the bypass's tunnel, in bytes per second"
        }
    }
}

/// A value that each record has for itself.
#[tactic(auto, unfolding(crate::specs::Allowed::own_allowed))]
fn own_allowed(key: Key) -> &'static str
    ensures { result.now ≡ own_allowed key }
{
    match key {
        Key::Address => "an address that neither router nor another link has",
        Key::Prefix => "a prefix that no other route has, once bits past its length are 0",
        _ => "a number that no other record of this table has",
    }
}

/// A number that names a record.
#[tactic(auto, unfolding(crate::specs::Allowed::name_allowed))]
fn name_allowed(key: Key) -> &'static str
    ensures { result.now ≡ name_allowed key }
{
    match key {
        Key::Tunnel => "the number of a record of [[tunnel]]",
        _ => "the number of a record of [[link]]",
    }
}

/// How many records a table has.
#[tactic(auto, unfolding(crate::specs::Allowed::count_allowed))]
fn count_allowed(key: Key) -> &'static str
    ensures { result.now ≡ count_allowed key }
{
    match key {
        Key::Link => "at most 16 records",
        Key::Bypass => "at most 64 records",
        _ => "at most 256 records",
    }
}

/// The keys that stand at the spot.
#[tactic(auto, unfolding(crate::specs::Allowed::keys_allowed))]
fn keys_allowed(spot: Spot) -> &'static str
    ensures { result.now ≡ keys_allowed spot }
{
    match spot {
        Spot::Top => "router, refresh_ms, labels, label_rest_ms, link, route, tunnel, bypass",
        Spot::Record(Section::Links, _) => {
            "number, address, peer, peer_router, limit, up, listen, send"
        }
        Spot::Record(Section::Routes, _) => "prefix, link",
        Spot::Record(Section::Tunnels, _) => {
            "number, endpoint, route, rate, setup, hold, flags, name"
        }
        Spot::Record(Section::Bypasses, _) => "number, tunnel, link, capacity",
    }
}

/// What is allowed where this fault is.
#[tactic(auto, unfolding(crate::specs::Allowed::allowed))]
pub(crate) fn allowed(fault: &ConfigFault, spot: Spot) -> &'static str
    ensures { result.now ≡ spec.allowed fault.now spot }
{
    match fault {
        ConfigFault::Missing(key) => values_allowed(*key, spot),
        ConfigFault::BadValue(key) => values_allowed(*key, spot),
        ConfigFault::Repeated(key) => own_allowed(*key),
        ConfigFault::UnknownName(key) => name_allowed(*key),
        ConfigFault::TooMany(key) => count_allowed(*key),
        ConfigFault::UnknownKey(_) => keys_allowed(spot),
        ConfigFault::Text | ConfigFault::Memory => TOML,
    }
}
