//! The Resvs that LSPs want upstream: at their neighbours, and at the heads of bypasses that end here (RFC 2205, 3.1.4 and
//! 3.7).

ghost use Rattle.std.specs.FinMap.Entries.{is_sorted};
ghost use Rattle.std.specs.List.{AllByRecursion, flat_map};
ghost use Rattle.std.specs.Prelude.{◌≡◌, IfOk, T, filter_map, length};
ghost use Rattle.lsr_facts.specs.Orders.{key_cmp};
ghost use Rattle.abstract_paths.specs.Touched.{is_among};
ghost use Rattle.abstract_router.specs.Lsps.{around_of, lsp_of};
ghost use Rattle.abstract_router.specs.Soundness.{IsResv};
ghost use Rattle.abstract_router.specs.Upstreams.{upstream_at, upstream_at_key, upstream_row, upstream_rows};
ghost use Rattle.state_views.specs.KnownLsps.{AreLsps};
ghost use Rattle.wanted_messages.specs.Fitting.{IsFitting};
ghost use Rattle.wanted_messages.specs.Telling.{said};

use crate::reserved::reserved_for;
use crate::resv::{ToldLsp, upstream_row};
use abstract_paths::Output;
use lsr_facts::{Key, Origin, PathFact, Upstream};
use state_views::StateView;
use std::alloc::{AllocError, Global};
use std::net::Ipv4Addr;

/// A Resv that the state wants kept alive, beside what is sent for it.
pub type WantedUpstream = (Upstream, Output);

/// What these origins of an LSP are sent, in their order. The only error is out of memory.
fn told_each<V: StateView>(
    alloc: Global,
    view: &V,
    lsp: &ToldLsp,
    origins: &[(Ipv4Addr, Origin)],
) -> Result<Vec<WantedUpstream>, AllocError>
    requires { IsFitting (said lsp.now.reserved) }
    ensures { IfOk result (λ rows. rows.items ≡ filter_map (upstream_row
        (around_of (V.router view.now) (V.state view.now))
        (lsp.now.key.now, lsp_of (V.state view.now) lsp.now.key.now lsp.now.path.now)
        lsp.now.label (said lsp.now.reserved)) origins.now) }
{
    let mut rows = Vec::with_capacity(alloc, origins.len())?;
    for origin in origins {
        if let Some(row) = upstream_row(alloc, view, lsp, origin)? {
            rows.push(row)?;
        }
    }
    Ok(rows)
}

/// What the origins of an LSP are sent, whose path this is. Its Tspec is a whole token bucket, and each reservation is as
/// it should be, also one that a repair keeps. The only error is out of memory.
fn upstream_rows<V: StateView>(
    alloc: Global,
    view: &V,
    key: &Key,
    path: &PathFact,
) -> Result<Vec<WantedUpstream>, AllocError>
    requires tspec { length path.now.tspec ≡ 32 }
    requires resvs { AllByRecursion (IsResv (V.state view.now).facts.moment) (V.state view.now).resvs }
    requires repairs { AllByRecursion (λ repair. IsResv (V.state view.now).facts.moment (repair.0, repair.1.resv))
        (V.state view.now).repairs }
    ensures rows { IfOk result (λ rows. rows.items ≡ upstream_rows
        (around_of (V.router view.now) (V.state view.now))
        (key.now, lsp_of (V.state view.now) key.now path.now)) }
{
    let Some(label) = view.label(key) else {
        return Ok(Vec::new(alloc));
    };
    let Some(reserved) = reserved_for(alloc, view, key, path)? else {
        return Ok(Vec::new(alloc));
    };
    let lsp = ToldLsp {
        key,
        path,
        label,
        reserved,
    };
    told_each(alloc, view, &lsp, path.origins.as_slice())
}

/// What is wanted upstream of an LSP. The only error is out of memory.
fn upstream_at_key<V: StateView>(
    alloc: Global,
    view: &V,
    key: &Key,
) -> Result<Vec<WantedUpstream>, AllocError>
    requires lsps { AreLsps (V.router view.now) (V.state view.now) }
    ensures rows { IfOk result (λ rows. rows.items
        ≡ upstream_at_key (V.router view.now) (V.state view.now) key.now) }
{
    match view.path(key) {
        Some(path) => upstream_rows(alloc, view, key, path),
        None => Ok(Vec::new(alloc)),
    }
}

/// What each LSP of these rows wants, one after the other. The only error is out of memory.
fn asked_in_turn<V: StateView, E>(
    alloc: Global,
    view: &V,
    touched: &[(Key, E)],
) -> Result<Vec<WantedUpstream>, AllocError>
    requires lsps { AreLsps (V.router view.now) (V.state view.now) }
    ensures rows { IfOk result (λ rows. rows.items ≡ flat_map
        (λ e. upstream_at_key (V.router view.now) (V.state view.now) e.0) touched.now) }
{
    let room = Vec::with_capacity(alloc, touched.len())?;
    let mut rows = room;
    for row in touched {
        let mut more = upstream_at_key(alloc, view, &row.0)?;
        rows.append(&mut more)?;
    }
    Ok(rows)
}

/// All Resvs that are wanted of the LSPs of these rows, in their order. The paths are those of a router: one of each
/// LSP, in order, each within the limits; and each reservation is as it should be, also one that a repair keeps. The only
/// error is out of memory.
pub fn upstream_at_keys<V: StateView, E>(
    alloc: Global,
    view: &V,
    touched: &[(Key, E)],
) -> Result<Vec<WantedUpstream>, AllocError>
    requires lsps { AreLsps (V.router view.now) (V.state view.now) }
    requires order { T (is_sorted key_cmp touched.now) }
    ensures rows { IfOk result (λ rows. rows.items
        ≡ upstream_at (V.router view.now) (V.state view.now) (is_among key_cmp touched.now)) }
{
    asked_in_turn(alloc, view, touched)
}
