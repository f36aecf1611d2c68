//! The text of a configuration in a file, and what the formats allow in it.

ghost use Rattle.std.specs.Prelude.{◌≡◌};
ghost use Rattle.std.specs.List.{list_any};
ghost use Rattle.toml.specs.View.{view};
ghost use Rattle.journal_files.specs.Texts.{Answers, NamesNoCapacity, ReadsConfig, fault_of, names_capacity, names_some_capacity};

use field_bytes::ReadFault;
use lsr_config::{Config, ConfigFault, Key, records_at};
use std::alloc::Global;
use toml::Value;

/// Why a text that isn't read says no configuration.
fn fault_of(fault: &ConfigFault) -> ReadFault
    ensures { result ≡ fault_of fault.now }
{
    match fault {
        ConfigFault::Memory => ReadFault::Memory,
        _ => ReadFault::Format,
    }
}

/// The configuration that a text says.
#[tactic(auto, using(crate::proofs::ConfigLaws::refused_says))]
pub(crate) fn read_config(alloc: Global, text: &str) -> Result<Config, ReadFault>
    ensures { ReadsConfig text.now result }
{
    match Config::read(alloc, text) {
        Ok(config) => Ok(config),
        Err(fault) => Err(fault_of(&fault)),
    }
}

/// Whether the record of a bypass has the key of a capacity.
fn names_capacity(table: &Value) -> bool
    ensures { result ≡ names_capacity (view table.now) }
{
    table.get(Key::Capacity.name()).is_some()
}

/// Whether one of the records has the key of a capacity.
fn name_some_capacity(records: &[Value]) -> bool
    ensures { result ≡ list_any (λ value. names_capacity (view value)) records.now }
{
    records.iter().any(|record| names_capacity(record))
}

/// Whether one of a document's records of bypasses has the key of a capacity.
fn names_some_capacity(document: &Value) -> bool
    ensures { result ≡ names_some_capacity (view document.now) }
{
    name_some_capacity(records_at(document, Key::Bypass))
}

/// Whether no record of a bypass in the text has the key of a capacity.
pub(crate) fn names_no_capacity(alloc: Global, text: &str) -> Result<bool, ReadFault>
    ensures { Answers (NamesNoCapacity text.now) result }
{
    match toml::table_from_str(alloc, text) {
        Ok(table) => Ok(!names_some_capacity(&Value::Table(table))),
        Err(error) if error.is_memory() => Err(ReadFault::Memory),
        Err(_) => Ok(true),
    }
}
