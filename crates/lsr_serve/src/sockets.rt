//! The socket addresses of a configuration's links.
ghost use Rattle.std.specs.Ordering.{nat_cmp};
ghost use Rattle.std.specs.Prelude.{◌≡◌, ◌<◌, ◌≤◌, [], List, map, length, IfErr, IfOk, OnOk};
ghost use Rattle.toml.specs.Data.{Data};
ghost use Rattle.toml.specs.View.{view};
ghost use Rattle.lsr_config.specs.Documents.{SaysTable, each_record, records};
ghost use Rattle.lsr_config.specs.Reading.{Judges};
ghost use Rattle.lsr_config.specs.Values.{SaysEach};
ghost use Rattle.lsr_serve.specs.Sockets.{GivesSockets, LacksSockets, SaysSockets, all_socket_rules, socket_rules};

use lsr_config::{
    ConfigFault, FIRST_LINK, Key, LinkSockets, number_at, records_at, socket_at, table_of,
};
use lsr_facts::limits::MAX_LINKS;
use sorted_rows::Table;
use std::alloc::Global;
use toml::Value;

/// The socket addresses that a configuration's text gives its links, by their numbers and in the order of the numbers. The
/// fault is that of the first link, in the order of the text, that has no `listen`, or has one and no `send`; out of memory may
/// come at any point. The text is taken as one that [`lsr_config::Config::read`] accepts; of another the first thing that
/// can't be read is the fault, and after that a link past the 16th.
pub fn read_sockets(alloc: Global, text: &str) -> Result<Table<u16, LinkSockets>, ConfigFault>
    ensures said { IfOk result (GivesSockets text.now) }
    ensures refused { IfErr result (LacksSockets text.now) }
    ensures few { IfOk result (λ sockets. length sockets ≤ MAX_LINKS) }
{
    match toml::table_from_str(alloc, text) {
        Ok(table) => {
            let document = Value::Table(table);
            read_document(alloc, &document)
        }
        Err(error) if error.is_memory() => Err(ConfigFault::Memory),
        Err(_) => Err(ConfigFault::Text),
    }
}

/// The socket addresses of the links of a document.
fn read_document(alloc: Global, document: &Value) -> Result<Table<u16, LinkSockets>, ConfigFault>
    ensures judged { Judges (all_socket_rules (view document.now))
        (SaysTable nat_cmp SaysSockets (records Key.Link (view document.now))) result }
    ensures few { IfOk result (λ sockets. length sockets ≤ MAX_LINKS) }
{
    let rows = read_rows(alloc, records_at(document, Key::Link))?;
    Ok(table_of(alloc, rows)?)
}

/// The socket addresses of each record, with its number, in the order of the records.
fn read_rows(alloc: Global, links: &[Value]) -> Result<Vec<(u16, LinkSockets)>, ConfigFault>
    ensures judged { Judges (each_record socket_rules [] (map view links.now))
        (λ rows. SaysEach SaysSockets (map view links.now) rows.items) result }
    ensures few { IfOk result (λ rows. length rows.items ≤ MAX_LINKS) }
{
    let mut rows = Vec::new(alloc);
    for link in links {
        let row = read_row(link, rows.len())?;
        let Ok(()) = rows.push(row) else {
            return Err(ConfigFault::Memory);
        };
    }
    Ok(rows)
}

/// The socket addresses of a link's record, with its number, after so many records.
fn read_row(link: &Value, before: usize) -> Result<(u16, LinkSockets), ConfigFault>
    ensures judged { (earlier : List Data) → length earlier ≡ before →
        Judges (socket_rules earlier (view link.now)) (SaysSockets (view link.now)) result }
    ensures few { OnOk result (before < MAX_LINKS) }
{
    let number = number_at(link, Key::Number, FIRST_LINK)?;
    let listen = socket_at(link, Key::Listen)?;
    let send = socket_at(link, Key::Send)?;
    if before >= MAX_LINKS {
        return Err(ConfigFault::TooMany(Key::Link));
    }
    Ok((number, LinkSockets { listen, send }))
}
