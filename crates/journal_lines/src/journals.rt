//! What is shown of the bytes of a journal, part by part, up to where they break.
ghost use Rattle.std.specs.Prelude.{◌≡◌, [], IfOk, List, Option, OnOk, length, string_bytes, ℕ};
ghost use Rattle.std.specs.Io.KnownBytes.{Appends};
ghost use Rattle.std.specs.Option.{MatchOption};
ghost use Rattle.journal_bytes.specs.declared.entry.Entry.{Entry};
ghost use Rattle.journal_files.specs.Recordings.{format_number};
ghost use Rattle.journal_lines.specs.Entries.{ShowsEntry};
ghost use Rattle.journal_lines.specs.declared.breaks.Break.{Break};
ghost use Rattle.journal_lines.specs.Journals.{EntryAt, NoEntryAt, ShowsBase, ShowsBody, ShowsCount, ShowsJournal, base_lines, break_status, break_text};

use crate::breaks::{Break, Part, breaks, found, tell_break};
use crate::entries::push_entry;
use field_bytes::{Counted, Field, Word};
use journal_files::{FileFormat, config_of, format_of, read_base, read_entry};
use lsr_facts::{Router, State};
use lsr_text::push_counts;
use std::alloc::{AllocError, Global};
use std::fmt::Write as _;
use std::io;
use std::io::Write;

/// The status of a journal whose bytes break.
const FAILED: u8 = 1;

/// The number of a format.
fn format_number(format: FileFormat) -> u8
    ensures { result ≡ format_number format }
{
    match format {
        FileFormat::First => 1,
        FileFormat::Second => 2,
        FileFormat::Third => 3,
    }
}

/// Shows the entry of this number, at the head of the bytes, and gives the bytes after it; none where no entry stands there.
fn show_next<'a, W: Write>(
    alloc: Global,
    router: &Router,
    format: FileFormat,
    number: usize,
    bytes: &'a [u8],
    output: &mut W,
) -> io::Result<Option<&'a [u8]>>
    ensures { IfOk result (λ rest. MatchOption rest
        (NoEntryAt format bytes.entry.now × Appends (W.contents output.old) (W.contents output.new) [])
        (λ rest. (entry : Entry) × (shown : List ℕ) × EntryAt format bytes.entry.now entry rest.now × ShowsEntry router.now number entry shown
        × Appends (W.contents output.old) (W.contents output.new) shown)) }
{
    let Some((entry, rest)) = found(read_entry(alloc, format, bytes))? else {
        return Ok(None);
    };
    let mut text = String::new(alloc);
    push_entry(alloc, &mut text, router, number, &entry)?;
    output.write_all(text.as_bytes())?;
    Ok(Some(rest))
}

/// Shows how many entries there are, and the entries, and gives where the bytes break.
fn show_entries<W: Write>(
    alloc: Global,
    router: &Router,
    format: FileFormat,
    bytes: &[u8],
    output: &mut W,
) -> io::Result<Option<Break>>
    ensures { IfOk result (λ broken. (text : List ℕ) × ShowsCount router.now format bytes.now text broken
        × Appends (W.contents output.old) (W.contents output.new) text) }
{
    let Some((count, first)) = found(Word::read(alloc, bytes))? else {
        return Ok(breaks(Part::Count, bytes));
    };
    write!(output, "entries {count}\n")?;
    let mut rest = first;
    for passed in 0..count {
        let number = passed as usize + 1;
        match show_next(alloc, router, format, number, rest, output)? {
            Some(after) => rest = after,
            None => return Ok(breaks(Part::Entry, rest)),
        }
    }
    match rest {
        [] => Ok(None),
        _ => Ok(breaks(Part::End, rest)),
    }
}

/// The lines of what the router knew. The only error is out of memory.
fn base_lines(alloc: Global, router: &Router, base: &State) -> Result<String, AllocError>
    ensures { IfOk result (λ text. string_bytes text ≡ base_lines router.now base.now) }
{
    let word = if base.facts.cold { "cold" } else { "running" };
    let moment = base.facts.moment;
    let mut text = format!(in alloc; "base {word} at {moment}\n")?;
    push_counts(&mut text, router, base)?;
    Ok(text)
}

/// Shows what the router knew and what follows, and gives where the bytes break.
fn show_base<W: Write>(
    alloc: Global,
    router: &Router,
    format: FileFormat,
    bytes: &[u8],
    output: &mut W,
) -> io::Result<Option<Break>>
    ensures { IfOk result (λ broken. (text : List ℕ) × ShowsBase router.now format bytes.now text broken
        × Appends (W.contents output.old) (W.contents output.new) text) }
{
    let Some((base, rest)) = found(read_base(alloc, format, bytes))? else {
        return Ok(breaks(Part::Base, bytes));
    };
    let lines = base_lines(alloc, router, &base)?;
    output.write_all(lines.as_bytes())?;
    show_entries(alloc, router, format, rest, output)
}

/// Shows what stands after the number of the format, and gives where the bytes break.
fn show_body<W: Write>(
    alloc: Global,
    format: FileFormat,
    bytes: &[u8],
    output: &mut W,
) -> io::Result<Option<Break>>
    ensures { IfOk result (λ broken. (text : List ℕ) × ShowsBody format bytes.now text broken
        × Appends (W.contents output.old) (W.contents output.new) text) }
{
    let Some((text, rest)) = found(Counted::read(alloc, bytes))? else {
        return Ok(breaks(Part::Text, bytes));
    };
    let Some(config) = found(config_of(alloc, format, text.as_slice()))? else {
        return Ok(breaks(Part::Text, bytes));
    };
    let id = config.router.id;
    write!(output, "router {id}\n")?;
    show_base(alloc, &config.router, format, rest, output)
}

/// Shows the journal that the bytes are, up to where they break: its format, the router's id, whether the router was cold before the first
/// entry and the moment that it was told last, how much there was of everything, and each entry. Gives where the bytes break, if they do. The
/// error is the stream's, or that memory ran out.
pub fn show_journal<W: Write>(
    alloc: Global,
    bytes: &[u8],
    output: &mut W,
) -> io::Result<Option<Break>>
    ensures { IfOk result (λ broken. (text : List ℕ) × ShowsJournal bytes.now text broken
        × Appends (W.contents output.old) (W.contents output.new) text) }
{
    let Some((format, body)) = format_of(bytes) else {
        return Ok(breaks(Part::Format, bytes));
    };
    let number = format_number(format);
    write!(output, "journal of format {number}\n")?;
    show_body(alloc, format, body, output)
}

/// `lsr show-journal FILE`, over the bytes of the file: shows the journal, tells on the error stream at which byte it breaks, if it does, and
/// gives the status: 0, or 1 for one that breaks. The error is that a stream could not be written, or that memory ran out.
pub fn run_show_journal<W: Write, E: Write>(
    alloc: Global,
    bytes: &[u8],
    output: &mut W,
    error: &mut E,
) -> io::Result<u8>
    ensures { IfOk result (λ status. (text : List ℕ) × (broken : Option Break) × ShowsJournal bytes.now text broken × (status ≡ break_status broken)
        × Appends (W.contents output.old) (W.contents output.new) text
        × Appends (E.contents error.old) (E.contents error.new) (break_text (length bytes.now) broken)) }
{
    match show_journal(alloc, bytes, output)? {
        None => Ok(0),
        Some(broken) => {
            tell_break(bytes.len(), broken, error)?;
            Ok(FAILED)
        }
    }
}
