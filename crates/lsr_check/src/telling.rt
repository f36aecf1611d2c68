//! What was found in a recorded run, and what was expected in its place.

ghost use Rattle.std.specs.List.{flat_map, slice_get};
ghost use Rattle.std.specs.Option.{option_map_or};
ghost use Rattle.std.specs.Prelude.{◌≡◌, ◌++◌, ◌-◌, ◌∷◌, [], OnOk, codes, string_bytes};
ghost use Rattle.lsr_text.specs.Answers.{replies_text};
ghost use Rattle.lsr_check.specs.Telling.{entry_text, event_line, fault_text, flaw_text, frame_line, frame_lines, label_line, label_lines};

use crate::flaw::Flaw;
use crate::names::clause_name;
use crate::recorded::Recorded;
use journal_bytes::{Entry, WrittenFrame};
use lsr_facts::{Key, Reply};
use lsr_text::{push_refusal, push_replies};
use run_checker::{EntryFault, RunFault};
use std::alloc::{AllocError, Global};
use std::fmt::Write;

/// What stands before what is in a file.
const FOUND: &str = "found";
/// What stands before what should be there.
const EXPECTED: &str = "expected";
/// What is told of a gap.
const GAP: &str =
    "  it doesn't begin where the file before it ended: one is missing, or they stand in another order: give all, by their numbers\n";

/// Appends a label.
fn push_label(text: &mut String, word: &str, row: &(Key, u32)) -> Result<(), AllocError>
    ensures { OnOk result (string_bytes text.new ≡ string_bytes text.old ++ label_line word.now row.now) }
{
    let label = row.1;
    write!(text, "  {word} label {label}\n")
}

/// Appends a line for each of some labels.
fn push_each_label(text: &mut String, word: &str, labels: &[(Key, u32)]) -> Result<(), AllocError>
    ensures { OnOk result (string_bytes text.new ≡ string_bytes text.old ++ flat_map (label_line word.now) labels.now) }
{
    for row in labels {
        push_label(text, word, row)?;
    }
    Ok(())
}

/// Appends labels: a line for each, or that there is none.
fn push_labels(text: &mut String, word: &str, labels: &[(Key, u32)]) -> Result<(), AllocError>
    ensures { OnOk result (string_bytes text.new ≡ string_bytes text.old ++ label_lines word.now labels.now) }
{
    if labels.is_empty() {
        return write!(text, "  {word} no label\n");
    }
    push_each_label(text, word, labels)
}

/// Appends a frame: its link and its bytes.
fn push_frame(
    alloc: Global,
    text: &mut String,
    word: &str,
    frame: &WrittenFrame,
) -> Result<(), AllocError>
    ensures { OnOk result (string_bytes text.new ≡ string_bytes text.old ++ frame_line word.now frame.now) }
{
    let link = frame.link;
    let digits = hex::encode(alloc, frame.bytes.as_slice())?;
    write!(text, "  {word} frame {link} {digits}\n")
}

/// Appends a line for each of some frames.
fn push_each_frame(
    alloc: Global,
    text: &mut String,
    word: &str,
    frames: &[WrittenFrame],
) -> Result<(), AllocError>
    ensures { OnOk result (string_bytes text.new ≡ string_bytes text.old ++ flat_map (frame_line word.now) frames.now) }
{
    for frame in frames {
        push_frame(alloc, text, word, frame)?;
    }
    Ok(())
}

/// Appends frames: a line for each, or that there is none.
fn push_frames(
    alloc: Global,
    text: &mut String,
    word: &str,
    frames: &[WrittenFrame],
) -> Result<(), AllocError>
    ensures { OnOk result (string_bytes text.new ≡ string_bytes text.old ++ frame_lines word.now frames.now) }
{
    if frames.is_empty() {
        return write!(text, "  {word} no frame\n");
    }
    push_each_frame(alloc, text, word, frames)
}

/// Appends what happened, by its bytes.
fn push_event(alloc: Global, text: &mut String, entry: &Entry) -> Result<(), AllocError>
    ensures { OnOk result (string_bytes text.new ≡ string_bytes text.old ++ event_line entry.now) }
{
    let digits = hex::encode(alloc, entry.event.as_slice())?;
    write!(text, "  found event {digits}\n")
}

/// Appends the reply that was found, and the one that was expected.
fn push_reply(text: &mut String, found: Reply, expected: Reply) -> Result<(), AllocError>
    ensures { OnOk result (string_bytes text.new ≡ string_bytes text.old
        ++ (codes "  found " ++ (replies_text (found ∷ []) ++ (codes "  expected " ++ replies_text (expected ∷ []))))) }
{
    text.push_str("  found ")?;
    push_replies(text, &[found])?;
    text.push_str("  expected ")?;
    push_replies(text, &[expected])
}

/// Appends what is wrong with an entry.
fn push_entry(
    alloc: Global,
    text: &mut String,
    fault: &EntryFault,
    entry: &Entry,
) -> Result<(), AllocError>
    ensures { OnOk result (string_bytes text.new ≡ string_bytes text.old ++ entry_text fault.now entry.now) }
{
    match fault {
        EntryFault::Unread => {
            push_event(alloc, text, entry)?;
            text.push_str("  expected the bytes of an event\n")
        }
        EntryFault::Event(refusal) => {
            push_event(alloc, text, entry)?;
            text.push_str("  expected no entry: ")?;
            push_refusal(text, *refusal)
        }
        EntryFault::Choice(labels) => {
            push_labels(text, FOUND, entry.chosen.as_slice())?;
            push_labels(text, EXPECTED, labels.as_slice())
        }
        EntryFault::Reply(reply) => push_reply(text, entry.reply, *reply),
        EntryFault::Output(frames) => {
            push_frames(alloc, text, FOUND, entry.outputs.as_slice())?;
            push_frames(alloc, text, EXPECTED, frames.as_slice())
        }
    }
}

/// Appends what is wrong with the entry of a number, from 1.
fn push_entry_at(
    alloc: Global,
    text: &mut String,
    number: usize,
    fault: &EntryFault,
    entries: &[Entry],
) -> Result<(), AllocError>
    ensures { OnOk result (string_bytes text.new ≡ string_bytes text.old
        ++ option_map_or (entry_text fault.now) (slice_get entries.now (number - 1)) []) }
{
    match entries.get(number.saturating_sub(1)) {
        Some(entry) => push_entry(alloc, text, fault, entry),
        None => Ok(()),
    }
}

/// Appends what is wrong with a run.
fn push_fault(
    alloc: Global,
    text: &mut String,
    fault: &RunFault,
    entries: &[Entry],
) -> Result<(), AllocError>
    ensures { OnOk result (string_bytes text.new ≡ string_bytes text.old ++ fault_text fault.now entries.now) }
{
    match fault {
        RunFault::Memory => Ok(()),
        RunFault::Base(clause) => {
            let name = clause_name(*clause);
            write!(
                text,
                "  what the router knew before the first entry breaks the clause {name}\n"
            )
        }
        RunFault::Entry(number, fault) => push_entry_at(alloc, text, *number, fault, entries),
    }
}

/// Appends what is wrong with a recorded run that stands after others. The only error is that memory ran out.
pub(crate) fn push_flaw(
    alloc: Global,
    text: &mut String,
    flaw: &Flaw,
    run: &Recorded,
) -> Result<(), AllocError>
    ensures { OnOk result (string_bytes text.new ≡ string_bytes text.old ++ flaw_text flaw.now run.now) }
{
    match flaw {
        Flaw::Gap => text.push_str(GAP),
        Flaw::Fault(fault) => push_fault(alloc, text, fault, run.entries.as_slice()),
    }
}
