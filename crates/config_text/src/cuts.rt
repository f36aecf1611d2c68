// The records of a document, and the document of which only the first are left.
ghost use Rattle.std.specs.List.{list_all};
ghost use Rattle.std.specs.Prelude.{◌≡◌, ◌-◌, ◌≤◌, false, is_some, length, map, option_map, string_bytes, Some, IfSome};
ghost use Rattle.toml.specs.Data.{as_table, get_member};
ghost use Rattle.toml.specs.Text.{IsDocumentText};
ghost use Rattle.toml.specs.View.{view, array_view, table_view};
ghost use Rattle.lsr_config.specs.Documents.{array_elements};
ghost use Rattle.config_text.specs.Cuts as spec;
ghost use Rattle.config_text.specs.Cuts.{IsWithin, beyond, count_to, cut_items, only_tables, tables};
ghost use Rattle.config_text.specs.Places.{IsFirstWithout, OfText};

use crate::section::{Section, Spot};
use lsr_config::Key;
use std::alloc::Global;
use std::mem;
use toml::value::Array;
use toml::{Table, Value};

/// Whether the values are all tables.
fn are_tables(values: &[Value]) -> bool
    ensures { result ≡ list_all (λ value. is_some (as_table (view value))) values.now }
{
    values.iter().all(|value| value.is_table())
}

/// The values where they are all tables, else none.
fn only_tables(values: &[Value]) -> &[Value]
    ensures { map view result.now ≡ only_tables (map view values.now) }
{
    if are_tables(values) { values } else { &[] }
}

/// The tables that a value lists; none of a value that lists anything else.
fn listed_tables(value: &Value) -> &[Value]
    ensures { map view result.now ≡ only_tables (array_elements (Some (view value.now))) }
{
    match value.as_array() {
        Some(values) => only_tables(values.as_slice()),
        None => &[],
    }
}

/// The value under a key.
pub(crate) fn value_under<'a>(table: &'a Table, name: &str) -> Option<&'a Value>
    ensures { option_map (λ value. view value.now) result ≡ get_member name.now (table_view table.now) }
{
    table.get(name)
}

/// The records of the table of this name.
pub(crate) fn tables(document: &Table, key: Key) -> &[Value]
    ensures { map view result.now ≡ tables key (table_view document.now) }
{
    match value_under(document, key.name()) {
        Some(value) => listed_tables(value),
        None => &[],
    }
}

/// How many records the table of this name has.
fn count_of(document: &Table, key: Key) -> usize
    ensures { result ≡ length (tables key (table_view document.now)) }
{
    tables(document, key).len()
}

/// How many records there are, or the most that a number says.
pub(crate) fn count_all(document: &Table) -> usize
    ensures { result ≤ spec.count_all (table_view document.now) }
{
    let links = count_of(document, Key::Link);
    let routes = count_of(document, Key::Route);
    let tunnels = count_of(document, Key::Tunnel);
    let bypasses = count_of(document, Key::Bypass);
    links
        .saturating_add(routes)
        .saturating_add(tunnels)
        .saturating_add(bypasses)
}

/// The spot of the record up to which there are so many.
pub(crate) fn spot_of(document: &Table, count: usize) -> Spot
    requires { count ≤ spec.count_all (table_view document.now) }
    ensures within { IsWithin result (table_view document.now) }
    ensures count { count_to result (table_view document.now) ≡ count }
{
    if count == 0 {
        return Spot::Top;
    }
    let links = count_of(document, Key::Link);
    if count <= links {
        return Spot::Record(Section::Links, count);
    }
    let routes = count_of(document, Key::Route);
    let after_links = count - links;
    if after_links <= routes {
        return Spot::Record(Section::Routes, after_links);
    }
    let tunnels = count_of(document, Key::Tunnel);
    let after_routes = after_links - routes;
    if after_routes <= tunnels {
        return Spot::Record(Section::Tunnels, after_routes);
    }
    Spot::Record(Section::Bypasses, after_routes - tunnels)
}

/// The record of this number, counted from 1, in a table of records.
fn record_of(document: &Table, section: Section, number: usize) -> Option<&Value>
    ensures { option_map (λ value. view value.now) result ≡ spec.record_of section number (table_view document.now) }
{
    tables(document, section.key()).get(number.saturating_sub(1))
}

/// What stands at the spot under a key.
pub(crate) fn value_at<'a>(document: &'a Table, spot: Spot, name: &str) -> Option<&'a Value>
    ensures { option_map (λ value. view value.now) result ≡ spec.value_at spot name.now (table_view document.now) }
{
    match spot {
        Spot::Top => value_under(document, name),
        Spot::Record(section, number) => {
            let record = record_of(document, section, number)?;
            record.get(name)
        }
    }
}

/// The number of the first link that has no value under the key, counted from 1.
pub(crate) fn first_without(document: &Table, name: &str) -> Option<usize>
    ensures { IfSome result (λ number. IsFirstWithout name.now number (table_view document.now)) }
{
    let links = count_of(document, Key::Link);
    for number in 1..=links {
        if value_at(document, Spot::Record(Section::Links, number), name).is_none() {
            return Some(number);
        }
    }
    None
}

/// The values, where they are tables only so many of them.
fn cut_array(values: Array, count: usize) -> Array
    ensures { array_view result ≡ cut_items count (array_view values) }
{
    let mut values = values;
    if are_tables(values.as_slice()) {
        values.truncate(count);
    }
    values
}

/// The value, where it lists tables with only so many of them.
fn cut_value(value: Value, count: usize) -> Value
    ensures { view result ≡ spec.cut_value count (view value) }
{
    match value {
        Value::Array(values) => Value::Array(cut_array(values, count)),
        other => other,
    }
}

/// Cuts the value under the key.
fn cut_at(table: &mut Table, name: &str, count: usize)
    ensures { table_view table.new ≡ spec.cut_at name.now count (table_view table.old) }
{
    if let Some(value) = table.get_mut(name) {
        let whole = mem::replace(value, Value::Boolean(false));
        *value = cut_value(whole, count);
    }
}

/// How many of so many records stand after those of this table.
fn beyond(document: &Table, key: Key, count: usize) -> usize
    ensures { result ≡ beyond key (table_view document.now) count }
{
    count.saturating_sub(count_of(document, key))
}

/// Leaves only so many records.
#[tactic(auto, unfolding(crate::specs::Cuts::cut))]
fn cut(document: &mut Table, count: usize)
    ensures { table_view document.new ≡ spec.cut count (table_view document.old) }
{
    let routes = beyond(document, Key::Link, count);
    let tunnels = beyond(document, Key::Route, routes);
    let bypasses = beyond(document, Key::Tunnel, tunnels);
    cut_at(document, Key::Link.name(), count);
    cut_at(document, Key::Route.name(), routes);
    cut_at(document, Key::Tunnel.name(), tunnels);
    cut_at(document, Key::Bypass.name(), bypasses);
}

/// A text of the document with only so many records; nothing where memory runs out.
pub(crate) fn cut_text(alloc: Global, text: &str, count: usize) -> Option<String>
    ensures { IfSome result (λ left. OfText text.now (λ ms. IsDocumentText false (spec.cut count ms) (string_bytes left))) }
{
    let Ok(document) = toml::table_from_str(alloc, text) else {
        return None;
    };
    let mut document = document;
    cut(&mut document, count);
    toml::table_to_string(alloc, &document).ok()
}
