//! Segments of a journal, as files.
ghost use Rattle.std.specs.Prelude.{◌≡◌, ◌++◌, ℕ, List, Ok, IfOk, OnErr, OnOk, map};
ghost use Rattle.lsr_config.specs.Configs.{Setup};
ghost use Rattle.lsr_config.specs.Reading.{IsRead};
ghost use Rattle.run_journal.specs.Journals.{IsSegment, Stretch};
ghost use Rattle.lsr_journal.specs.Segments.{SpellsSegment};

use journal_files::laws::{files_spell_recordings, standing_routers_are_told};
use journal_files::{AsEntry, write_file};
use lsr_facts::State;
use run_journal::{CountedEntry, Entry, Segment};
use std::alloc::{AllocError, Global};

/// An entry, without what is counted of it.
#[derive(Drop)]
struct Plain<'a> {
    entry: &'a CountedEntry,
}

impl<'a> AsEntry for Plain<'a> {
    ghost entry_of = { λ p. p.entry.now.entry };

    fn as_entry(&self) -> &Entry {
        &self.entry.entry
    }
}

/// Entries, without what is counted of them. The only error is out of memory.
fn plain_entries<'a>(
    alloc: Global,
    entries: &'a [CountedEntry],
) -> Result<Vec<Plain<'a>>, AllocError>
    ensures { IfOk result (λ plain. map (λ p. p.entry.now.entry) plain.items ≡ map (λ e. e.entry) entries.now) }
{
    let mut plain = Vec::with_capacity(alloc, entries.len())?;
    for entry in entries {
        plain.push(Plain { entry })?;
    }
    Ok(plain)
}

/// Appends the file of a stretch that begins with what a router knew, and has these entries, in the newest format. The only errors are
/// out of memory, and more than a file can hold; then nothing changed.
pub(crate) fn write_stretch(
    text: &str,
    base: &State,
    entries: &[CountedEntry],
    out: &mut Vec<u8>,
) -> Result<(), AllocError>
    ensures ok { OnOk result ((bytes : List ℕ) × (out.new.items ≡ out.old.items ++ bytes)
        × ((config : Setup) (stretch : Stretch) → IsRead text.now (Ok config) → stretch.router ≡ config.router → IsSegment stretch
        → stretch.base ≡ base.now → stretch.entries ≡ entries.now → SpellsSegment bytes text.now config stretch)) }
    ensures err { OnErr result (out.new.items ≡ out.old.items) }
{
    files_spell_recordings();
    standing_routers_are_told();
    let entries = plain_entries(*out.allocator(), entries)?;
    write_file(text.as_bytes(), base, entries.as_slice(), out)
}

/// Appends the file of a segment, in the newest format: the text of the configuration, what the router knew before the first entry, and
/// the entries. The text has to say the configuration of the segment's router: else what is appended spells nothing. The only errors are
/// out of memory, and more than a file can hold; then nothing changed.
pub fn write_segment(text: &str, segment: &Segment, out: &mut Vec<u8>) -> Result<(), AllocError>
    ensures ok { OnOk result ((bytes : List ℕ) × (out.new.items ≡ out.old.items ++ bytes)
        × ((config : Setup) → IsRead text.now (Ok config) → segment.now.router ≡ config.router → SpellsSegment bytes text.now config segment.now)) }
    ensures err { OnErr result (out.new.items ≡ out.old.items) }
{
    segment.is_run();
    write_stretch(text, segment.base(), segment.entries(), out)
}
