//! Files of journals, written: always in the newest format.

ghost use Rattle.std.specs.Prelude.{◌≡◌, ◌++◌, map, OnErr, OnOk};
ghost use Rattle.std.specs.List.{AllByRecursion, flat_map};
ghost use Rattle.field_bytes.specs.Spelling.{ListFits, list_bytes};
ghost use Rattle.fact_fields.specs.Fitting.{BypassFits};
ghost use Rattle.fact_fields.specs.Tunnels.{bypass_bytes};
ghost use Rattle.journal_files.specs.Entries.{entry_bytes};
ghost use Rattle.journal_files.specs.Fitting.{EntryFits, EventTextFits, FormatFits, LabelStateFits, LinkStateFits, LspStateFits, NodeStateFits, PromisesFit, RestingFit, StateFits, TunnelRowFits, TunnelsFit};
ghost use Rattle.journal_files.specs.Formats.{format_bytes, same_text};
ghost use Rattle.journal_files.specs.Pending.{untold_row, untold_state};
ghost use Rattle.journal_files.specs.Recordings.{file_bytes};
ghost use Rattle.journal_files.specs.Rows.{promise_row_bytes, resting_row_bytes, tunnel_row_bytes};
ghost use Rattle.journal_files.specs.States.{label_state, label_state_bytes, link_state, link_state_bytes, lsp_state, lsp_state_bytes, node_state, node_state_bytes, state_bytes};
ghost use Rattle.journal_files.specs.declared.formats.FileFormat.TheVariants as formats;

use crate::entries::{EntryField, EventText};
use crate::tables::{
    BypassTable, LabelTable, PathTable, PromiseTable, RepairTable, RestingTable, ResvTable,
    RouteTable, UpTable,
};
use fact_fields::{BypassField, put_sent, put_tunnel};
use field_bytes::{Flag, Long, Put, Short, put_counted};
use journal_bytes::Entry;
use lsr_facts::{State, Tunnel};
use sorted_rows::Table;
use std::alloc::AllocError;

/// What a file of the newest format begins with: `LSRJ`, and the format's number.
const HEAD: [u8; 6] = [b'L', b'S', b'R', b'J', 0, 3];

/// What holds an entry of a journal.
pub trait AsEntry {
    ghost use Rattle.journal_bytes.specs.declared.entry.Entry.{Entry};

    // its entry
    ghost entry_of: { Self → Entry };

    /// Its entry.
    fn as_entry(&self) -> &Entry
        ensures { result.now ≡ entry_of self.now };
}

impl AsEntry for Entry {
    ghost entry_of = { λ entry. entry };

    fn as_entry(&self) -> &Entry {
        self
    }
}

/// Appends what a router knows of itself and of its links.
fn put_link_state(state: &State, out: &mut Vec<u8>) -> Result<(), AllocError>
    ensures ok { OnOk result (out.new.items ≡ out.old.items ++ link_state_bytes (link_state state.now)) }
    ensures fits { OnOk result (LinkStateFits (link_state state.now)) }
{
    Flag::put(&state.facts.cold, out)?;
    Long::put(&state.facts.moment, out)?;
    UpTable::put(&state.facts.up, out)
}

/// Appends a tunnel and its number, and of an LSP that is to take the current one's place the ID alone.
fn put_tunnel_row(row: &(u16, Tunnel), out: &mut Vec<u8>) -> Result<(), AllocError>
    ensures ok { OnOk result (out.new.items ≡ out.old.items ++ tunnel_row_bytes (untold_row row.now)) }
    ensures fits { OnOk result (TunnelRowFits (untold_row row.now)) }
{
    Short::put(&row.0, out)?;
    put_tunnel(&row.1, out)
}

/// Appends tunnels and their numbers.
fn put_tunnel_rows(rows: &[(u16, Tunnel)], out: &mut Vec<u8>) -> Result<(), AllocError>
    ensures ok { OnOk result (out.new.items ≡ out.old.items ++ flat_map tunnel_row_bytes (map untold_row rows.now)) }
    ensures fits { OnOk result (AllByRecursion TunnelRowFits (map untold_row rows.now)) }
{
    for row in rows {
        put_tunnel_row(row, out)?;
    }
    Ok(())
}

/// Appends how many tunnels there are, and the tunnels, of each as a file says it.
fn put_tunnels(tunnels: &Table<u16, Tunnel>, out: &mut Vec<u8>) -> Result<(), AllocError>
    ensures ok { OnOk result (out.new.items ≡ out.old.items ++ list_bytes tunnel_row_bytes (map untold_row tunnels.now)) }
    ensures fits { OnOk result (TunnelsFit (map untold_row tunnels.now)) }
{
    let rows = tunnels.as_slice();
    let Ok(count) = u32::try_from(rows.len()) else {
        return Err(AllocError);
    };
    out.extend_from_slice(&count.to_be_bytes())?;
    put_tunnel_rows(rows, out)
}

/// Appends static routes, tunnels and bypasses.
fn put_node_state(state: &State, out: &mut Vec<u8>) -> Result<(), AllocError>
    ensures ok { OnOk result (out.new.items ≡ out.old.items ++ node_state_bytes bypass_bytes (node_state (untold_state state.now))) }
    ensures fits { OnOk result (NodeStateFits BypassFits (node_state (untold_state state.now))) }
{
    RouteTable::put(&state.facts.routes, out)?;
    put_tunnels(&state.facts.tunnels, out)?;
    BypassTable::<BypassField>::put(&state.facts.bypasses, out)
}

/// Appends paths, reservations, repairs and promises.
fn put_lsp_state(state: &State, out: &mut Vec<u8>) -> Result<(), AllocError>
    ensures ok { OnOk result (out.new.items ≡ out.old.items ++ lsp_state_bytes (list_bytes promise_row_bytes) (lsp_state state.now)) }
    ensures fits { OnOk result (LspStateFits PromisesFit (lsp_state state.now)) }
{
    PathTable::put(&state.facts.paths, out)?;
    ResvTable::put(&state.resvs, out)?;
    RepairTable::put(&state.repairs, out)?;
    PromiseTable::put(&state.assignments, out)
}

/// Appends labels, labels that rest, and what is kept alive.
fn put_label_state(state: &State, out: &mut Vec<u8>) -> Result<(), AllocError>
    ensures ok { OnOk result (out.new.items ≡ out.old.items ++ label_state_bytes (list_bytes resting_row_bytes) (label_state state.now)) }
    ensures fits { OnOk result (LabelStateFits RestingFit (label_state state.now)) }
{
    LabelTable::put(&state.labels, out)?;
    RestingTable::put(&state.resting, out)?;
    put_sent(&state.facts.sent, &state.sent_upstream, out)
}

/// Appends what a router knows.
fn put_state(state: &State, out: &mut Vec<u8>) -> Result<(), AllocError>
    ensures ok { OnOk result (out.new.items ≡ out.old.items
        ++ state_bytes bypass_bytes (list_bytes promise_row_bytes) (list_bytes resting_row_bytes) (untold_state state.now)) }
    ensures fits { OnOk result (StateFits BypassFits PromisesFit RestingFit (untold_state state.now)) }
{
    put_link_state(state, out)?;
    put_node_state(state, out)?;
    put_lsp_state(state, out)?;
    put_label_state(state, out)
}

/// Appends entries, one after the other.
fn put_each<E: AsEntry>(entries: &[E], out: &mut Vec<u8>) -> Result<(), AllocError>
    ensures ok { OnOk result (out.new.items ≡ out.old.items ++ flat_map (entry_bytes same_text) (map E.entry_of entries.now)) }
    ensures fits { OnOk result (AllByRecursion (EntryFits EventTextFits) (map E.entry_of entries.now)) }
{
    for entry in entries {
        EntryField::<EventText>::put(entry.as_entry(), out)?;
    }
    Ok(())
}

/// Appends how many entries there are, and the entries.
fn put_entries<E: AsEntry>(entries: &[E], out: &mut Vec<u8>) -> Result<(), AllocError>
    ensures ok { OnOk result (out.new.items ≡ out.old.items ++ list_bytes (entry_bytes same_text) (map E.entry_of entries.now)) }
    ensures fits { OnOk result (ListFits (EntryFits EventTextFits) (map E.entry_of entries.now)) }
{
    let Ok(count) = u32::try_from(entries.len()) else {
        return Err(AllocError);
    };
    out.extend_from_slice(&count.to_be_bytes())?;
    put_each(entries, out)
}

/// Appends what follows the format's number.
fn put_body<E: AsEntry>(
    text: &[u8],
    base: &State,
    entries: &[E],
    out: &mut Vec<u8>,
) -> Result<(), AllocError>
    ensures ok { OnOk result (out.new.items ≡ out.old.items
        ++ format_bytes formats.Third (text.now, (untold_state base.now, map E.entry_of entries.now))) }
    ensures fits { OnOk result (FormatFits formats.Third (text.now, (untold_state base.now, map E.entry_of entries.now))) }
{
    put_counted(text, out)?;
    put_state(base, out)?;
    put_entries(entries, out)
}

/// Appends bytes, which are taken as they are where nothing stands before them. The only error is out of memory, and then nothing changed.
fn append(bytes: Vec<u8>, out: &mut Vec<u8>) -> Result<(), AllocError>
    ensures ok { OnOk result (out.new.items ≡ out.old.items ++ bytes.items) }
    ensures err { OnErr result (out.new.items ≡ out.old.items) }
{
    if out.is_empty() {
        *out = bytes;
        return Ok(());
    }
    out.extend_from_slice(bytes.as_slice())
}

/// Appends the file of a configuration's text, what a router knew, and entries. The only errors are out of memory, and what no file holds;
/// then nothing changed.
pub fn write_file<E: AsEntry>(
    text: &[u8],
    base: &State,
    entries: &[E],
    out: &mut Vec<u8>,
) -> Result<(), AllocError>
    ensures ok { OnOk result (out.new.items ≡ out.old.items
        ++ file_bytes formats.Third (format_bytes formats.Third (text.now, (untold_state base.now, map E.entry_of entries.now)))) }
    ensures fits { OnOk result (FormatFits formats.Third (text.now, (untold_state base.now, map E.entry_of entries.now))) }
    ensures err { OnErr result (out.new.items ≡ out.old.items) }
{
    let mut file = Vec::from_slice(*out.allocator(), &HEAD)?;
    put_body(text, base, entries, &mut file)?;
    append(file, out)
}
