//! The route that a Resv records on its way upstream (RFC 3209, 4.4.3).

ghost use Rattle.std.specs.Option.{option_and_then};
ghost use Rattle.std.specs.Prelude.{◌≡◌, ◌++◌, IfOk};
ghost use Rattle.rsvp_contents.specs.Limits.{is_short_record};
ghost use Rattle.lsr_facts.specs.Timeless.{timeless_path};
ghost use Rattle.abstract_router.specs.Upstreams.{flagged_entry, label_entry, own_entries, record_upstream};
ghost use Rattle.abstract_paths.specs.Paths.{short_only};

use crate::reserved::records_labels;
use explicit_routes::node_at;
use lsr_facts::{PathFact, Router};
use rsvp_bodies::{Record, Trace};
use rsvp_contents::limits::is_short_record;
use std::alloc::{AllocError, Global};

/// The flag of a label that holds on every link of its node (RFC 3209, 4.4.1.3).
const GLOBAL_LABEL: u8 = 0x01;

/// How many entries a router puts before the others at most: its id, and its label.
const OWN_ENTRIES: usize = 2;

/// The entry of this router's label.
fn label_entry(label: u32) -> Trace
    ensures { result ≡ label_entry label }
{
    Trace::Label {
        flags: GLOBAL_LABEL,
        label,
    }
}

/// The entry of this router: its id, with how it protects the LSP (RFC 4090, 4.4).
fn flagged_entry(router: &Router, flags: u8) -> Trace
    ensures { result ≡ flagged_entry router.now flags }
{
    Trace::Ipv4 {
        prefix: node_at(router.id),
        flags,
    }
}

/// The entries of a record after those of this router. The only error is out of memory.
fn after_own(
    alloc: Global,
    router: &Router,
    flags: u8,
    path: &PathFact,
    label: u32,
    recorded: &Record,
) -> Result<Vec<Trace>, AllocError>
    ensures { IfOk result (λ entries. entries.items ≡ own_entries router.now flags path.now label ++ recorded.now) }
{
    let recorded = recorded.as_slice();
    let mut entries = Vec::with_capacity(alloc, recorded.len().saturating_add(OWN_ENTRIES))?;
    entries.push(flagged_entry(router, flags))?;
    if records_labels(&path.attr) {
        entries.push(label_entry(label))?;
    }
    entries.extend_from_slice(recorded)?;
    Ok(entries)
}

/// The record of these entries, or `None` where they are above the router's limits.
fn short_record(entries: Vec<Trace>) -> Option<Record>
    ensures { result ≡ short_only entries.items }
{
    if !Record::fits(&entries) {
        return None;
    }
    let whole = Record::from_vec(entries);
    if is_short_record(&whole) {
        Some(whole)
    } else {
        None
    }
}

/// The record of a Resv that goes upstream, which begins with this router: its id with these flags, and its label where
/// the Path asks for that. `None` where the Path has no record, or where it would be above the router's limits. The only
/// error is out of memory.
#[tactic(auto, unfolding(abstract_router::specs::Upstreams::record_upstream))]
pub(crate) fn record_upstream(
    alloc: Global,
    router: &Router,
    flags: u8,
    path: &PathFact,
    label: u32,
    recorded: &Record,
) -> Result<Option<Record>, AllocError>
    ensures { IfOk result (λ whole. whole
        ≡ record_upstream router.now flags (timeless_path path.now) label recorded.now) }
{
    if path.recorded.is_none() {
        return Ok(None);
    }
    let entries = after_own(alloc, router, flags, path, label, recorded)?;
    Ok(short_record(entries))
}
