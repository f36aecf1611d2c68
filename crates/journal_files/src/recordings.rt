//! Recordings: what a router knew, and the entries of its journal from there on, with the configuration that it ran with.

ghost use Rattle.journal_files.specs.Pending.{AreUntold};
ghost use Rattle.journal_files.specs.Texts.{ReadsText};
ghost use Rattle.journal_files.specs.Fitting.{FormatFits};
ghost use Rattle.journal_files.specs.Formats.{format_bytes};
ghost use Rattle.journal_files.specs.Recordings.{IsFormat, IsRecorded, IsToldBase, ReadsBody, ReadsFile};
ghost use Rattle.field_bytes.specs.Wholes.{ReadsWhole};

use crate::formats::{FileFormat, FirstBody, SecondBody, Stored, ThirdBody};
use crate::pending::told_state;
use crate::texts::read_config;
use field_bytes::{Items, Octets, ReadFault, read_whole};
use journal_bytes::Entry;
use lsr_config::Config;
use lsr_facts::State;
use std::alloc::Global;

/// A recorded run: the configuration that a router ran with, what it knew, and the entries of its journal from there on.
#[derive(Debug, Drop)]
pub struct Recording {
    /// The text of the configuration.
    pub text: Octets,
    /// The configuration.
    pub config: Config,
    /// What the router knew before the first entry.
    pub base: State,
    /// The entries.
    pub entries: Items<Entry>,
}

/// The configuration that the bytes say as a text. [`ReadFault::Format`] where they say none, or one that the format doesn't allow.
pub fn config_of(alloc: Global, format: FileFormat, bytes: &[u8]) -> Result<Config, ReadFault>
    ensures { ReadsText format bytes.now result }
{
    let Ok(text) = str::from_utf8(bytes) else {
        return Err(ReadFault::Format);
    };
    let config = read_config(alloc, text)?;
    if format.allows(alloc, text, &config)? {
        Ok(config)
    } else {
        Err(ReadFault::Format)
    }
}

/// The configuration that a text says, and a base of which a file with this text has this, with what paths say of LSPs that are to take
/// the place of others. [`ReadFault::Format`] where the text says no configuration, or one that the format doesn't allow.
fn told_base(
    alloc: Global,
    format: FileFormat,
    text: &[u8],
    base: State,
) -> Result<(Config, State), ReadFault>
    requires { AreUntold base.facts.tunnels }
    ensures { IsToldBase format text.now base result }
{
    let config = config_of(alloc, format, text)?;
    let base = told_state(alloc, &config.router, base)?;
    Ok((config, base))
}

/// The recording whose text, base and entries these are. [`ReadFault::Format`] where the text says no configuration, or one that the
/// format doesn't allow.
fn recording_of(alloc: Global, format: FileFormat, stored: Stored) -> Result<Recording, ReadFault>
    requires { AreUntold stored.1.0.facts.tunnels }
    ensures { IsRecorded format stored result }
{
    let (text, (base, entries)) = stored;
    let (config, base) = told_base(alloc, format, text.as_slice(), base)?;
    Ok(Recording {
        text,
        config,
        base,
        entries,
    })
}

/// What a file has after its format's number.
fn read_stored(alloc: Global, format: FileFormat, body: &[u8]) -> Result<Stored, ReadFault>
    ensures { ReadsWhole (FormatFits format) (format_bytes format) body.now result }
{
    match format {
        FileFormat::First => read_whole::<FirstBody>(alloc, body),
        FileFormat::Second => read_whole::<SecondBody>(alloc, body),
        FileFormat::Third => read_whole::<ThirdBody>(alloc, body),
    }
}

/// The recording that the bytes after the format's number spell.
fn read_body(alloc: Global, format: FileFormat, body: &[u8]) -> Result<Recording, ReadFault>
    ensures { ReadsBody format body.now result }
{
    let stored = read_stored(alloc, format, body)?;
    recording_of(alloc, format, stored)
}

/// The format of a file, and what follows its number. None exactly where the bytes are a file of no format.
pub fn format_of(bytes: &[u8]) -> Option<(FileFormat, &[u8])>
    ensures { IsFormat bytes.now result }
{
    match bytes {
        [b'L', b'S', b'R', b'J', 0, 1, body @ ..] => Some((FileFormat::First, body)),
        [b'L', b'S', b'R', b'J', 0, 2, body @ ..] => Some((FileFormat::Second, body)),
        [b'L', b'S', b'R', b'J', 0, 3, body @ ..] => Some((FileFormat::Third, body)),
        _ => None,
    }
}

/// The recording that the bytes of a file spell, in whichever format. [`ReadFault::Format`] exactly where they spell none; out of memory
/// can come in place of any answer. No room is made by a count that is only claimed: lists grow as their items come.
pub fn read_segment(alloc: Global, bytes: &[u8]) -> Result<Recording, ReadFault>
    ensures { ReadsFile bytes.now result }
{
    let Some((format, body)) = format_of(bytes) else {
        return Err(ReadFault::Format);
    };
    read_body(alloc, format, body)
}
