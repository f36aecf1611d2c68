//! Parts of files, each by itself: what a router knew, and one entry after another. So a damaged file is read as far as it goes.

ghost use Rattle.field_bytes.specs.Spelling.{Answers};
ghost use Rattle.journal_files.specs.Entries.{entry_bytes};
ghost use Rattle.journal_files.specs.Fitting.{BaseFits, EntryFits, TextFits};
ghost use Rattle.journal_files.specs.Formats.{base_bytes, text_bytes};

use crate::entries::{EntryField, EventText};
use crate::first_format::FirstText;
use crate::formats::{FileFormat, FirstBase, SecondBase, ThirdBase};
use field_bytes::{Field, ReadFault};
use journal_bytes::Entry;
use lsr_facts::State;
use std::alloc::Global;

/// What a router knew, at the head of the bytes, as this format has it, and the bytes after it. Of an LSP that is to take the place of a
/// tunnel's current one the ID alone is there. [`ReadFault::Format`] exactly where none stands there; out of memory can come in place of
/// any answer.
pub fn read_base(
    alloc: Global,
    format: FileFormat,
    bytes: &[u8],
) -> Result<(State, &[u8]), ReadFault>
    ensures { Answers (BaseFits format) (base_bytes format) bytes.now result }
{
    match format {
        FileFormat::First => <FirstBase as Field>::read(alloc, bytes),
        FileFormat::Second => <SecondBase as Field>::read(alloc, bytes),
        FileFormat::Third => <ThirdBase as Field>::read(alloc, bytes),
    }
}

/// The entry at the head of the bytes, as this format has it, and the bytes after it. [`ReadFault::Format`] exactly where none stands there;
/// out of memory can come in place of any answer.
pub fn read_entry(
    alloc: Global,
    format: FileFormat,
    bytes: &[u8],
) -> Result<(Entry, &[u8]), ReadFault>
    ensures { Answers (EntryFits (TextFits format)) (entry_bytes (text_bytes format)) bytes.now result }
{
    match format {
        FileFormat::First => <EntryField<FirstText<EventText>> as Field>::read(alloc, bytes),
        FileFormat::Second => <EntryField<EventText> as Field>::read(alloc, bytes),
        FileFormat::Third => <EntryField<EventText> as Field>::read(alloc, bytes),
    }
}
