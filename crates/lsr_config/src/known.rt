// Keys that no configuration has.
ghost use Rattle.std.specs.List.{list_any};
ghost use Rattle.std.specs.Prelude.{◌≡◌, ◌⊎◌, map, bytes_eq};
ghost use Rattle.toml.specs.View.{view, table_view};
ghost use Rattle.lsr_config.specs.Keys.{key_name};
ghost use Rattle.lsr_config.specs.Rules.{known};
ghost use Rattle.lsr_config.specs.Documents.{names, known_rules, known_record_rules, all_known_rules};
ghost use Rattle.lsr_config.specs.Reading.{Judges};
ghost use Rattle.lsr_config.specs.declared.fault.ConfigFault.TheVariants as fault;

use crate::fault::ConfigFault;
use crate::key::Key;
use crate::reading::records_at;
use crate::unknown_name::UnknownName;
use std::alloc::Global;
use toml::{Table, Value};

/// The keys of a document outside its records.
const TOP_KEYS: [Key; 8] = [
    Key::Router,
    Key::RefreshMs,
    Key::Labels,
    Key::LabelRestMs,
    Key::Link,
    Key::Route,
    Key::Tunnel,
    Key::Bypass,
];

/// The keys of a link's record.
const LINK_KEYS: [Key; 8] = [
    Key::Number,
    Key::Address,
    Key::Peer,
    Key::PeerRouter,
    Key::Limit,
    Key::Up,
    Key::Listen,
    Key::Send,
];

/// The keys of a route's record.
const ROUTE_KEYS: [Key; 2] = [Key::Prefix, Key::Link];

/// The keys of a tunnel's record.
const TUNNEL_KEYS: [Key; 8] = [
    Key::Number,
    Key::Endpoint,
    Key::Route,
    Key::Rate,
    Key::Setup,
    Key::Hold,
    Key::Flags,
    Key::Name,
];

/// The keys of a bypass's record.
const BYPASS_KEYS: [Key; 4] = [Key::Number, Key::Tunnel, Key::Link, Key::Capacity];

/// Refuses the first unknown key: of the document, then of its links, of its routes, of its tunnels and of its
/// bypasses.
pub(crate) fn check_keys(alloc: Global, document: &Value) -> Result<(), ConfigFault>
    ensures { Judges (all_known_rules (view document.now)) (λ _. Unit {0}) result }
{
    check_table(alloc, document, &TOP_KEYS)?;
    check_records(alloc, document, Key::Link, &LINK_KEYS)?;
    check_records(alloc, document, Key::Route, &ROUTE_KEYS)?;
    check_records(alloc, document, Key::Tunnel, &TUNNEL_KEYS)?;
    check_records(alloc, document, Key::Bypass, &BYPASS_KEYS)?;
    Ok(())
}

/// Refuses the first unknown key of the records of a table of the document.
fn check_records(
    alloc: Global,
    document: &Value,
    table: Key,
    keys: &[Key],
) -> Result<(), ConfigFault>
    ensures { Judges (known_record_rules table keys.now (view document.now)) (λ _. Unit {0}) result }
{
    for record in records_at(document, table) {
        check_table(alloc, record, keys)?;
    }
    Ok(())
}

/// Refuses the first unknown key of the value, where it is a table.
fn check_table(alloc: Global, value: &Value, keys: &[Key]) -> Result<(), ConfigFault>
    ensures { Judges (known_rules keys.now (view value.now)) (λ _. Unit {0}) result }
{
    match value.as_table() {
        Some(table) => check_names(alloc, table, keys),
        None => Ok(()),
    }
}

/// Refuses the first unknown key of the table.
fn check_names(alloc: Global, table: &Table, keys: &[Key]) -> Result<(), ConfigFault>
    ensures { Judges (map (known keys.now) (names (table_view table.now))) (λ _. Unit {0}) result }
{
    for name in table.keys() {
        if !is_known(name.as_str(), keys) {
            return Err(unknown_key(alloc, name.as_str()));
        }
    }
    Ok(())
}

/// Whether the name is that of one of the keys.
fn is_known(name: &str, keys: &[Key]) -> bool
    ensures { result ≡ list_any (λ key. bytes_eq (key_name key) name.now) keys.now }
{
    keys.iter().any(|key| key.name() == name)
}

/// The fault of a name that is no key's.
fn unknown_key(alloc: Global, name: &str) -> ConfigFault
    ensures { (result ≡ fault.UnknownKey name.now) ⊎ (result ≡ fault.Memory) }
{
    match UnknownName::copied(alloc, name) {
        Ok(name) => ConfigFault::UnknownKey(name),
        Err(_) => ConfigFault::Memory,
    }
}
