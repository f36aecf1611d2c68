//! The Paths that LSPs want downstream: at their next hops, and through bypasses (RFC 2205, 3.7; RFC 3209, 4.3.4 and 4.4.3;
//! RFC 4090, 6.4.3).

ghost use Rattle.std.specs.FinMap.Entries.{is_sorted};
ghost use Rattle.std.specs.List.{AllByRecursion};
ghost use Rattle.std.specs.Option.{option_to_list};
ghost use Rattle.std.specs.Prelude.{◌≡◌, ◌++◌, IfOk, T, filter_map};
ghost use Rattle.lsr_facts.specs.Orders.{key_cmp};
ghost use Rattle.abstract_paths.specs.Soundness.{ArePaths};
ghost use Rattle.abstract_paths.specs.Touched.{is_among};
ghost use Rattle.abstract_router.specs.Lsps.{around_of, lsp_of};
ghost use Rattle.abstract_router.specs.Soundness.{IsResv};
ghost use Rattle.abstract_router.specs.Wanted.{backup_at, downstream_at, downstream_row, items_at};
ghost use Rattle.wanted_messages.specs.Fitting.{CanGoOn};

use crate::backups::backup_row;
use abstract_paths::Output;
use lsr_facts::{Item, Key, PathFact};
use message_rules::{goes_on, is_up, link_at, path_onward, sent_by};
use rsvp_contents::{Content, Message};
use state_views::{StateView, node_of};
use std::alloc::{AllocError, Global};

/// An item that the state wants kept alive, beside what is sent for it.
pub type Wanted = (Item, Output);

/// What an LSP wants at its next hop, whose path this is: its Path goes on by its link, where the path doesn't end here, the
/// LSP isn't repaired, and the link is up. The only error is out of memory.
fn downstream_row<V: StateView>(
    alloc: Global,
    view: &V,
    key: &Key,
    path: &PathFact,
) -> Result<Option<Wanted>, AllocError>
    requires { CanGoOn (V.router view.now) key.now path.now }
    ensures { IfOk result (λ row. row ≡ downstream_row (around_of (V.router view.now) (V.state view.now))
        (key.now, lsp_of (V.state view.now) key.now path.now)) }
{
    let node = node_of(view);
    if !goes_on(path.role) || view.repair(key).is_some() || !is_up(node.up, path.out_link) {
        return Ok(None);
    }
    let Some(link) = link_at(node.router, path.out_link) else {
        return Ok(None);
    };
    let onward = path_onward(alloc, &node, key, path, link)?;
    let content = Box::new(alloc, Content::Path(onward))?;
    let message = Message::checked(content).unwrap();
    Ok(Some((
        Item::Down(*key, path.out_link),
        sent_by(path.out_link, message),
    )))
}

/// What is wanted of an LSP at its next hop. The only error is out of memory.
fn downstream_at<V: StateView>(
    alloc: Global,
    view: &V,
    key: &Key,
) -> Result<Option<Wanted>, AllocError>
    requires { ArePaths (V.router view.now) (V.state view.now).facts.moment (V.state view.now).facts.paths }
    ensures { IfOk result (λ row. row ≡ downstream_at (V.router view.now) (V.state view.now) key.now) }
{
    match view.path(key) {
        Some(path) => downstream_row(alloc, view, key, path),
        None => Ok(None),
    }
}

/// What is wanted of an LSP through a bypass, at the bypass's end. The only error is out of memory.
fn backup_at<V: StateView>(alloc: Global, view: &V, key: &Key) -> Result<Option<Wanted>, AllocError>
    requires paths { ArePaths (V.router view.now) (V.state view.now).facts.moment (V.state view.now).facts.paths }
    requires resvs { AllByRecursion (IsResv (V.state view.now).facts.moment) (V.state view.now).resvs }
    ensures row { IfOk result (λ row. row ≡ backup_at (V.router view.now) (V.state view.now) key.now) }
{
    match view.path(key) {
        Some(path) => backup_row(alloc, view, key, path),
        None => Ok(None),
    }
}

/// A row after others, if there is one. The only error is out of memory.
fn with_row(rows: Vec<Wanted>, row: Option<Wanted>) -> Result<Vec<Wanted>, AllocError>
    ensures { IfOk result (λ all. all.items ≡ rows.items ++ option_to_list row) }
{
    let mut all = rows;
    if let Some(row) = row {
        all.push(row)?;
    }
    Ok(all)
}

/// What each LSP of these rows wants, one after the other: at next hops, then through bypasses. The only error is out of
/// memory.
fn asked_in_turn<V: StateView, E>(
    alloc: Global,
    view: &V,
    touched: &[(Key, E)],
) -> Result<Vec<Wanted>, AllocError>
    requires paths { ArePaths (V.router view.now) (V.state view.now).facts.moment (V.state view.now).facts.paths }
    requires resvs { AllByRecursion (IsResv (V.state view.now).facts.moment) (V.state view.now).resvs }
    ensures rows { IfOk result (λ rows. rows.items
        ≡ filter_map (λ e. downstream_at (V.router view.now) (V.state view.now) e.0) touched.now
        ++ filter_map (λ e. backup_at (V.router view.now) (V.state view.now) e.0) touched.now) }
{
    let room = Vec::with_capacity(alloc, touched.len())?;
    let mut rows = room;
    let mut backups = Vec::new(alloc);
    for row in touched {
        rows = with_row(rows, downstream_at(alloc, view, &row.0)?)?;
        backups = with_row(backups, backup_at(alloc, view, &row.0)?)?;
    }
    rows.append(&mut backups)?;
    Ok(rows)
}

/// All that is wanted downstream of the LSPs of these rows: at next hops, then through bypasses, each in their order. The
/// paths are those of a router: one of each LSP, in order, each within the limits; and each reservation is as it should be.
/// The only error is out of memory.
pub fn items_at_keys<V: StateView, E>(
    alloc: Global,
    view: &V,
    touched: &[(Key, E)],
) -> Result<Vec<Wanted>, AllocError>
    requires paths { ArePaths (V.router view.now) (V.state view.now).facts.moment (V.state view.now).facts.paths }
    requires resvs { AllByRecursion (IsResv (V.state view.now).facts.moment) (V.state view.now).resvs }
    requires order { T (is_sorted key_cmp touched.now) }
    ensures rows { IfOk result (λ rows. rows.items
        ≡ items_at (V.router view.now) (V.state view.now) (is_among key_cmp touched.now)) }
{
    asked_in_turn(alloc, view, touched)
}
