// A whole document.
ghost use Rattle.std.specs.Prelude.{◌≡◌, IfOk};
ghost use Rattle.toml.specs.View.{view};
ghost use Rattle.lsr_config.specs.Values.{SaysWhole, SaysLabels};
ghost use Rattle.lsr_config.specs.Rules.{Has, HasAddress, HasOr};
ghost use Rattle.lsr_config.specs.Documents.{router_rules, rules_of, Says, in_order};
ghost use Rattle.lsr_config.specs.Reading.{Judges};

use crate::bypasses::read_bypasses;
use crate::config::Config;
use crate::fault::ConfigFault;
use crate::key::Key;
use crate::known::check_keys;
use crate::links::read_links;
use crate::reading::{address_at, labels_at, whole_or};
use crate::routes::read_routes;
use crate::tunnels::read_tunnels;
use lsr_facts::{LabelRange, Router};
use sorted_rows::Table;
use std::alloc::{AllocError, Global};
use std::net::Ipv4Addr;
use toml::Value;

/// The least and the greatest time between two refreshes, in milliseconds, and the one that a document need not
/// give.
const LEAST_REFRESH_MS: u64 = 1;

const GREATEST_REFRESH_MS: u64 = 4_294_967_295;

const DEFAULT_REFRESH_MS: u64 = 30_000;

/// The rest of a label, in milliseconds, where labels don't rest, and the greatest one.
const NO_REST_MS: u64 = 0;

const GREATEST_REST_MS: u64 = 4_294_967_295;

/// What a document says outside its records.
#[derive(Clone, Copy)]
struct Top {
    id: Ipv4Addr,
    refresh_ms: u32,
    labels: LabelRange,
    label_rest_ms: u32,
}

/// The configuration that a document says.
pub(crate) fn read_document(alloc: Global, document: &Value) -> Result<Config, ConfigFault>
    ensures { Judges (rules_of (view document.now)) (Says (view document.now)) result }
{
    let top = read_top(document)?;
    let links = read_links(alloc, document, top.id)?;
    let routes = read_routes(alloc, document, links.as_slice())?;
    let tunnels = read_tunnels(alloc, document, top.id, links.as_slice())?;
    let bypasses = read_bypasses(alloc, document, links.as_slice(), tunnels.as_slice())?;
    check_keys(alloc, document)?;
    let link_table = table_of(alloc, links)?;
    let route_table = table_of(alloc, routes)?;
    let tunnel_table = table_of(alloc, tunnels)?;
    let bypass_table = table_of(alloc, bypasses)?;
    Ok(Config {
        router: Router {
            id: top.id,
            refresh_ms: top.refresh_ms,
            labels: top.labels,
            label_rest_ms: top.label_rest_ms,
            links: link_table,
        },
        routes: route_table,
        tunnels: tunnel_table,
        bypasses: bypass_table,
    })
}

/// What the document says outside its records.
fn read_top(document: &Value) -> Result<Top, ConfigFault>
    ensures { Judges (router_rules (view document.now))
        (λ top. HasAddress Key.Router (view document.now) top.id
        × HasOr Key.RefreshMs (view document.now) (top.refresh_ms ≡ 30000) (λ v. SaysWhole 1 4294967295 v top.refresh_ms)
        × Has Key.Labels (view document.now) (λ v. SaysLabels v top.labels)
        × HasOr Key.LabelRestMs (view document.now) (top.label_rest_ms ≡ 0) (λ v. SaysWhole 0 4294967295 v top.label_rest_ms)) result }
{
    let id = address_at(document, Key::Router)?;
    let refresh_ms = whole_or(
        document,
        Key::RefreshMs,
        LEAST_REFRESH_MS,
        GREATEST_REFRESH_MS,
        DEFAULT_REFRESH_MS,
    )?;
    let labels = labels_at(document, Key::Labels)?;
    let label_rest_ms = whole_or(
        document,
        Key::LabelRestMs,
        NO_REST_MS,
        GREATEST_REST_MS,
        NO_REST_MS,
    )?;
    Ok(Top {
        id,
        refresh_ms: refresh_ms as u32,
        labels,
        label_rest_ms: label_rest_ms as u32,
    })
}

/// The rows, each put in its place in the order of the keys.
pub fn table_of<K: Ord + Drop, V: Drop>(
    alloc: Global,
    rows: Vec<(K, V)>,
) -> Result<Table<K, V>, AllocError>
    ensures { IfOk result (λ table. table ≡ in_order K.cmp rows.items) }
{
    let mut table = Table::new(alloc);
    for (key, value) in rows {
        table.set(key, value)?;
    }
    Ok(table)
}
