// The bypasses of a document.
ghost use Rattle.std.specs.Prelude.{List, [], ◌∷◌};
ghost use Rattle.toml.specs.Data.{Data};
ghost use Rattle.toml.specs.View.{view};
ghost use Rattle.lsr_config.specs.Rules.{HasCapacity, HasNumber, carried};
ghost use Rattle.lsr_config.specs.Values.{SaysEach};
ghost use Rattle.lsr_config.specs.Documents.{table_rules, records, bypass_rules, SaysBypass, SaysLink, SaysTunnel};
ghost use Rattle.lsr_config.specs.Reading.{Judges};

use crate::fault::ConfigFault;
use crate::key::Key;
use crate::links::{FIRST_LINK, check_named, check_number};
use crate::reading::{check_count, number_at, records_of, whole_or};
use crate::tunnels::FIRST_TUNNEL;
use lsr_facts::limits::{MAX_BYPASSES, MAX_LIMIT};
use lsr_facts::{Bypass, Link, Tunnel};
use std::alloc::Global;
use toml::Value;

/// The least number of a bypass.
const FIRST_BYPASS: u64 = 0;

/// The capacity of a bypass that has no bandwidth of its own for repairs, in bytes per second.
const NO_CAPACITY: u64 = 0;

/// The bypasses of a document in its tunnels and for its links, with their numbers, in the order of their records.
pub(crate) fn read_bypasses(
    alloc: Global,
    document: &Value,
    links: &[(u16, Link)],
    tunnels: &[(u16, Tunnel)],
) -> Result<Vec<(u16, Bypass)>, ConfigFault>
    requires links { SaysEach SaysLink (records Key.Link (view document.now)) links.now }
    requires tunnels { SaysEach SaysTunnel (records Key.Tunnel (view document.now)) tunnels.now }
    ensures { Judges (table_rules Key.Bypass (bypass_rules (view document.now)) (view document.now))
        (λ bypasses. SaysEach SaysBypass (records Key.Bypass (view document.now)) bypasses.items) result }
{
    let records = records_of(document, Key::Bypass)?;
    let mut bypasses = Vec::new(alloc);
    for table in records {
        let bypass = read_bypass(table, links, tunnels, bypasses.as_slice())?;
        let Ok(()) = bypasses.push(bypass) else {
            return Err(ConfigFault::Memory);
        };
    }
    Ok(bypasses)
}

/// The bypass that a record says, with its number, after the bypasses before it.
fn read_bypass(
    table: &Value,
    links: &[(u16, Link)],
    tunnels: &[(u16, Tunnel)],
    before: &[(u16, Bypass)],
) -> Result<(u16, Bypass), ConfigFault>
    requires { (records : List Data) × SaysEach SaysTunnel records tunnels.now }
    ensures { (document : Data) (earlier : List Data) →
        SaysEach SaysLink (records Key.Link document) links.now →
        SaysEach SaysTunnel (records Key.Tunnel document) tunnels.now → SaysEach SaysBypass earlier before.now →
        Judges (bypass_rules document earlier (view table.now)) (SaysBypass (view table.now)) result }
{
    let number = number_at(table, Key::Number, FIRST_BYPASS)?;
    check_number(number, before)?;
    let tunnel = number_at(table, Key::Tunnel, FIRST_TUNNEL)?;
    check_named(tunnel, Key::Tunnel, tunnels)?;
    let link = number_at(table, Key::Link, FIRST_LINK)?;
    check_named(link, Key::Link, links)?;
    let capacity = whole_or(table, Key::Capacity, NO_CAPACITY, MAX_LIMIT, NO_CAPACITY)?;
    check_capacity(capacity, tunnel, tunnels)?;
    check_count(Key::Bypass, MAX_BYPASSES, before.len())?;
    let bypass = Bypass {
        tunnel,
        link,
        capacity,
    };
    Ok((number, bypass))
}

/// Refuses a capacity, in bytes per second, that the tunnel of this number doesn't carry.
fn check_capacity(capacity: u64, tunnel: u16, tunnels: &[(u16, Tunnel)]) -> Result<(), ConfigFault>
    requires { (records : List Data) × SaysEach SaysTunnel records tunnels.now }
    ensures { (bypass : Data) (others : List Data) → HasNumber 0 Key.Tunnel bypass tunnel → HasCapacity bypass capacity →
        SaysEach SaysTunnel others tunnels.now → Judges (carried others bypass ∷ []) (λ _. Unit {0}) result }
{
    for row in tunnels {
        if row.0 == tunnel && !row.1.carries(capacity) {
            return Err(ConfigFault::BadValue(Key::Capacity));
        }
    }
    Ok(())
}
