//! What is shown of the entries of a journal.
ghost use Rattle.std.specs.Prelude.{◌≡◌, ◌++◌, List, OnOk, flat_map, string_bytes, ℕ};
ghost use Rattle.journal_lines.specs.Entries.{ShowsEntry, ShowsEvent, chosen_line, event_line, frame_line, no_event_words};

use crate::telling::tells_event;
use crate::words::push_words;
use event_fields::{EventField, UnreadEvent};
use field_bytes::{Field, ReadFault};
use journal_bytes::{Entry, WrittenFrame};
use lsr_facts::{Key, Router};
use lsr_text::{push_key, push_reply, push_written};
use std::alloc::{AllocError, Global};
use std::fmt::Write;

/// Appends the event whose bytes these are: its words, in a remark with the bytes where no line tells it.
fn push_told(
    alloc: Global,
    text: &mut String,
    router: &Router,
    bytes: &[u8],
    event: &UnreadEvent,
) -> Result<(), AllocError>
    ensures { OnOk result (string_bytes text.new ≡ string_bytes text.old ++ event_line router.now bytes.now event.now) }
{
    if tells_event(alloc, router, event)? {
        return push_words(alloc, text, router, event);
    }
    let digits = hex::encode(alloc, bytes)?;
    write!(text, "# in bytes {digits}, nearly ")?;
    push_words(alloc, text, router, event)
}

/// Appends a remark with bytes that are no event's.
fn push_no_event(alloc: Global, text: &mut String, bytes: &[u8]) -> Result<(), AllocError>
    ensures { OnOk result (string_bytes text.new ≡ string_bytes text.old ++ no_event_words bytes.now) }
{
    let digits = hex::encode(alloc, bytes)?;
    write!(text, "# in bytes {digits}, no event")
}

/// Appends what the bytes of an event say.
fn push_event(
    alloc: Global,
    text: &mut String,
    router: &Router,
    bytes: &[u8],
) -> Result<(), AllocError>
    ensures { OnOk result ((line : List ℕ) × ShowsEvent router.now bytes.now line × (string_bytes text.new ≡ string_bytes text.old ++ line)) }
{
    match EventField::read(alloc, bytes) {
        Ok((event, rest)) => {
            if rest.is_empty() {
                push_told(alloc, text, router, bytes, &event)
            } else {
                push_no_event(alloc, text, bytes)
            }
        }
        Err(ReadFault::Format) => push_no_event(alloc, text, bytes),
        Err(ReadFault::Memory) => Err(AllocError),
    }
}

/// Appends the lines of frames that were sent, in their order.
fn push_frames(alloc: Global, text: &mut String, frames: &[WrittenFrame]) -> Result<(), AllocError>
    ensures { OnOk result (string_bytes text.new ≡ string_bytes text.old ++ flat_map frame_line frames.now) }
{
    for frame in frames {
        push_written(alloc, text, frame.link, frame.bytes.as_slice())?;
    }
    Ok(())
}

/// Appends the line of a label that was chosen: `chosen KEY label L`.
#[tactic(auto, unfolding(crate::specs::Entries::chosen_line))]
fn push_label(text: &mut String, row: &(Key, u32)) -> Result<(), AllocError>
    ensures { OnOk result (string_bytes text.new ≡ string_bytes text.old ++ chosen_line row.now) }
{
    let label = row.1;
    text.push_str("chosen ")?;
    push_key(text, &row.0)?;
    write!(text, " label {label}\n")
}

/// Appends the lines of the labels that were chosen, in their order.
fn push_chosen(text: &mut String, chosen: &[(Key, u32)]) -> Result<(), AllocError>
    ensures { OnOk result (string_bytes text.new ≡ string_bytes text.old ++ flat_map chosen_line chosen.now) }
{
    for row in chosen {
        push_label(text, row)?;
    }
    Ok(())
}

/// Appends the entry of this number in the journal of the router: `entry N port P: ` and its event, as the line that asks `lsr step` for
/// it, or in a remark where none of this form does; then the lines of its answer, `done`, `error CODE VALUE` or `refused N NAME`, and of what
/// was sent, as `lsr step` printed them; then `chosen KEY label L` for each label that was chosen. A message that came through labels or in a
/// Routed frame is shown in a frame that brings it, since a journal has no labels and no limit of it. The only error is out of memory.
pub fn push_entry(
    alloc: Global,
    text: &mut String,
    router: &Router,
    number: usize,
    entry: &Entry,
) -> Result<(), AllocError>
    ensures { OnOk result ((shown : List ℕ) × ShowsEntry router.now number entry.now shown × (string_bytes text.new ≡ string_bytes text.old ++ shown)) }
{
    let port = entry.port;
    write!(text, "entry {number} port {port}: ")?;
    push_event(alloc, text, router, entry.event.as_slice())?;
    text.push_str("\n")?;
    push_reply(text, entry.reply)?;
    push_frames(alloc, text, entry.outputs.as_slice())?;
    push_chosen(text, entry.chosen.as_slice())
}
