//! Entries of a journal, in a file.

ghost use Rattle.std.specs.Prelude.{◌≡◌, ◌++◌, OnOk};
ghost use Rattle.field_bytes.specs.Spelling.{ListFits, list_bytes};
ghost use Rattle.journal_files.specs.Entries.{entry_parts, frame_parts, outcome_bytes, outcome_parts};
ghost use Rattle.journal_files.specs.Fitting.{OutcomeFits};

use crate::replies::ReplyField;
use event_fields::EventField;
use fact_fields::KeyField;
use field_bytes::{
    Counted, Field, Items, Many, Octets, Pair, Put, ReadFault, Short, TextOf, Word, put_counted,
    put_list, read_whole,
};
use journal_bytes::{Entry, Listed, WrittenFrame};
use lsr_facts::{Key, Reply};
use rsvp_bodies::Kept;
use std::alloc::{AllocError, Global};
use std::marker::PhantomData;

/// A frame that left: its link and its bytes.
pub struct FrameField;

/// The parts of a frame.
type FrameParts = Pair<Short, Counted>;

/// The frame of these.
fn frame_of(parts: (u16, Octets)) -> WrittenFrame
    ensures { frame_parts result ≡ parts }
{
    let (link, bytes) = parts;
    WrittenFrame {
        link,
        bytes: Kept::from_vec(bytes.into_vec()),
    }
}

impl Field for FrameField {
    ghost use Rattle.field_bytes.specs.Spelling.{ListFits, list_bytes};
    ghost use Rattle.journal_files.specs.Entries.{frame_bytes};
    ghost use Rattle.journal_files.specs.FileLaws.{one_frame};
    ghost use Rattle.journal_files.specs.Fitting.{FrameFits};

    type Value = WrittenFrame;

    ghost Fits = { FrameFits };

    ghost spelling = { frame_bytes };

    ghost one = { one_frame };

    fn read(alloc: Global, bytes: &[u8]) -> Result<(WrittenFrame, &[u8]), ReadFault> {
        let (parts, rest) = <FrameParts as Field>::read(alloc, bytes)?;
        Ok((frame_of(parts), rest))
    }
}

impl Put for FrameField {
    fn put(frame: &WrittenFrame, out: &mut Vec<u8>) -> Result<(), AllocError> {
        Short::put(&frame.link, out)?;
        put_counted(frame.bytes.as_slice(), out)
    }
}

/// The label of an LSP.
pub type LabelField = Pair<KeyField, Word>;

/// The bytes of an event, as they stand.
pub struct EventText;

impl Field for EventText {
    ghost use Rattle.journal_files.specs.FileLaws.{one_event_text};
    ghost use Rattle.journal_files.specs.Fitting.{EventTextFits};
    ghost use Rattle.journal_files.specs.Formats.{same_text};

    type Value = Octets;

    ghost Fits = { EventTextFits };

    ghost spelling = { same_text };

    ghost one = { one_event_text };

    fn read(alloc: Global, bytes: &[u8]) -> Result<(Octets, &[u8]), ReadFault> {
        <TextOf<EventField> as Field>::read(alloc, bytes)
    }
}

/// Texts of events that are written.
pub trait PutEvent: Field<Value = Octets> {
    /// Appends the bytes of an event. The only errors are out of memory, and bytes that aren't an event's.
    fn put_event(bytes: &[u8], out: &mut Vec<u8>) -> Result<(), AllocError>
        ensures ok { OnOk result (out.new.items ≡ out.old.items ++ Self.spelling bytes.now) }
        ensures fits { OnOk result (Self.Fits bytes.now) };
}

impl PutEvent for EventText {
    fn put_event(bytes: &[u8], out: &mut Vec<u8>) -> Result<(), AllocError> {
        match read_whole::<EventField>(*out.allocator(), bytes) {
            Ok(_event) => out.extend_from_slice(bytes),
            Err(_fault) => Err(AllocError),
        }
    }
}

/// An entry: its port, its event, the labels that were chosen, what was answered and what was sent; by how its event is spelled.
pub struct EntryField<E> {
    event: PhantomData<E>,
}

/// The parts of an entry.
type EntryParts<E> = Pair<Short, Pair<E, OutcomeParts>>;

/// What became of an event: the labels that were chosen, what was answered and what was sent.
type OutcomeParts = Pair<Many<LabelField>, Pair<ReplyField, Many<FrameField>>>;

/// The parts of an entry.
type EntryValue = (
    u16,
    (Octets, (Items<(Key, u32)>, (Reply, Items<WrittenFrame>))),
);

/// The entry of these.
fn entry_of(parts: EntryValue) -> Entry
    ensures { entry_parts result ≡ parts }
{
    let (port, (event, (chosen, (reply, outputs)))) = parts;
    Entry {
        port,
        event: Kept::from_vec(event.into_vec()),
        chosen: Listed::from_vec(chosen.into_vec()),
        reply,
        outputs: Listed::from_vec(outputs.into_vec()),
    }
}

impl<E: Field<Value = Octets>> Field for EntryField<E> {
    ghost use Rattle.field_bytes.specs.Spelling.{ListFits, list_bytes};
    ghost use Rattle.journal_files.specs.Entries.{entry_bytes};
    ghost use Rattle.journal_files.specs.FileLaws.{one_entry};
    ghost use Rattle.journal_files.specs.Fitting.{EntryFits};

    type Value = Entry;

    ghost Fits = { EntryFits E.Fits };

    ghost spelling = { entry_bytes E.spelling };

    ghost one = { one_entry E.Fits E.spelling E.one };

    fn read(alloc: Global, bytes: &[u8]) -> Result<(Entry, &[u8]), ReadFault> {
        let (parts, rest) = <EntryParts<E> as Field>::read(alloc, bytes)?;
        Ok((entry_of(parts), rest))
    }
}

/// Appends how many items a list has, and the items. The only errors are out of memory, an item without a spelling, and more items than 4
/// bytes count.
fn put_listed<A: Put>(items: &Listed<A::Value>, out: &mut Vec<u8>) -> Result<(), AllocError>
    ensures ok { OnOk result (out.new.items ≡ out.old.items ++ list_bytes A.spelling items.now) }
    ensures fits { OnOk result (ListFits A.Fits items.now) }
{
    put_list::<A>(items.as_slice(), out)
}

/// Appends what became of an event: the labels that were chosen, what was answered and what was sent.
fn put_outcome(entry: &Entry, out: &mut Vec<u8>) -> Result<(), AllocError>
    ensures ok { OnOk result (out.new.items ≡ out.old.items ++ outcome_bytes entry.now) }
    ensures fits { OnOk result (OutcomeFits (outcome_parts entry.now)) }
{
    put_listed::<LabelField>(&entry.chosen, out)?;
    ReplyField::put(&entry.reply, out)?;
    put_listed::<FrameField>(&entry.outputs, out)
}

impl<E: PutEvent> Put for EntryField<E> {
    fn put(entry: &Entry, out: &mut Vec<u8>) -> Result<(), AllocError> {
        Short::put(&entry.port, out)?;
        E::put_event(entry.event.as_slice(), out)?;
        put_outcome(entry, out)
    }
}
