//! Where the bytes of a journal break.
ghost use Rattle.std.specs.Prelude.{◌≡◌, IfOk, OnOk};
ghost use Rattle.std.specs.Io.KnownBytes.{Appends};
ghost use Rattle.std.specs.Option.{MatchOption};
ghost use Rattle.journal_lines.specs.Journals.{break_line, breaks, part_words};

use field_bytes::ReadFault;
use std::alloc::AllocError;
use std::io;
use std::io::Write;

/// The parts of a journal, in their order.
#[derive(Clone, Copy)]
pub enum Part {
    /// `LSRJ` and the number of a format.
    Format,
    /// The text of a configuration.
    Text,
    /// What the router knew before the first entry.
    Base,
    /// How many entries there are.
    Count,
    /// An entry.
    Entry,
    /// The end, after the last entry.
    End,
}

/// Where the bytes of a journal break.
#[derive(Clone, Copy)]
pub struct Break {
    /// What is to stand there.
    pub part: Part,
    /// How many bytes there are from there on.
    pub left: usize,
}

/// The bytes break here: they aren't this part.
pub(crate) fn breaks(part: Part, bytes: &[u8]) -> Option<Break>
    ensures { result ≡ breaks part bytes.now }
{
    Some(Break {
        part,
        left: bytes.len(),
    })
}

/// What was read; none where the bytes are of another form. The error is out of memory.
pub(crate) fn found<T>(read: Result<T, ReadFault>) -> io::Result<Option<T>>
    ensures { IfOk result (λ found. MatchOption found (read ≡ Err ReadFault.Format) (λ value. read ≡ Ok value)) }
{
    match read {
        Ok(value) => Ok(Some(value)),
        Err(ReadFault::Format) => Ok(None),
        Err(ReadFault::Memory) => Err(AllocError)?,
    }
}

/// What bytes aren't.
fn part_words(part: Part) -> &'static str
    ensures { result.now ≡ part_words part }
{
    match part {
        Part::Format => "these bytes are no journal of a format that is known",
        Part::Text => "these bytes are no configuration that the format allows",
        Part::Base => "these bytes are nothing that a router knows",
        Part::Count => "these bytes are no number of entries",
        Part::Entry => "these bytes are no entry",
        Part::End => "these bytes stand after the last entry",
    }
}

/// Tells at which byte, counted from 0, so many bytes break. The error is the stream's.
pub(crate) fn tell_break<E: Write>(all: usize, broken: Break, error: &mut E) -> io::Result<()>
    ensures { OnOk result (Appends (E.contents error.old) (E.contents error.new) (break_line all broken)) }
{
    let at = all.saturating_sub(broken.left);
    let words = part_words(broken.part);
    write!(error, "byte {at}: {words}\n")
}
