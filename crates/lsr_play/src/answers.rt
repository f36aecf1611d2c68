//! What is printed of a move.
ghost use Rattle.std.specs.Prelude.{◌≡◌, ◌++◌, OnOk, IfOk, string_bytes};
ghost use Rattle.lsr_text.specs.Answers.{refusal_line};
ghost use Rattle.lsr_play.specs.Answers.{answer_text, frame_text, moved_text, report_text, sent_text, told_in, told_text};

use crate::declared::Declared;
use abstract_world::{Answer, Told};
use lab_world::{Output, Report, World};
use lsr_facts::Refusal;
use lsr_text::{push_delivery, push_refusal, push_replies, push_sent};
use std::alloc::{AllocError, Global};
use std::fmt::Write;

/// Appends the line of what the router of this name answered: `NAME` and what `lsr step` prints of it; nothing where a labelled frame
/// goes on. The only error is that memory ran out.
fn push_answer(
    alloc: Global,
    text: &mut String,
    name: &str,
    answer: &Answer,
) -> Result<(), AllocError>
    ensures { OnOk result (string_bytes text.new ≡ string_bytes text.old ++ answer_text name.now answer.now) }
{
    match answer {
        Answer::Replied(reply) => {
            write!(text, "{name} ")?;
            push_replies(text, &[*reply])
        }
        Answer::Refused(refusal) => {
            write!(text, "{name} ")?;
            push_refusal(text, *refusal)
        }
        Answer::PassedOn => Ok(()),
        Answer::Delivered(payload) => {
            write!(text, "{name} ")?;
            push_delivery(alloc, text, payload)
        }
    }
}

/// Appends the line of a frame of this number, which the router of this name sent: `NAME #I`, and what `lsr step` prints of it. The
/// only error is that memory ran out.
fn push_output(
    alloc: Global,
    text: &mut String,
    name: &str,
    number: usize,
    output: &Output,
) -> Result<(), AllocError>
    ensures { OnOk result (string_bytes text.new ≡ string_bytes text.old ++ sent_text name.now number output.now) }
{
    write!(text, "{name} #{number} ")?;
    push_sent(alloc, text, output.link, &output.frame)
}

/// Appends the line of the frame of this number, which the router of this name sent; nothing where there is no such frame. The only
/// error is that memory ran out.
fn push_frame(
    alloc: Global,
    text: &mut String,
    name: &str,
    world: &World,
    number: usize,
) -> Result<(), AllocError>
    ensures { OnOk result (string_bytes text.new ≡ string_bytes text.old ++ frame_text name.now world.now.frames number) }
{
    match world.frame(number) {
        Some(output) => push_output(alloc, text, name, number, output),
        None => Ok(()),
    }
}

/// Appends the lines of a move: what its router answered, and after it the frames that it sent, in order. The only error is that
/// memory ran out.
fn push_told(
    alloc: Global,
    text: &mut String,
    declared: &Declared<'_>,
    world: &World,
    told: &Told,
) -> Result<(), AllocError>
    ensures { OnOk result (string_bytes text.new ≡ string_bytes text.old ++ told_text declared.now.names world.now.frames told.now) }
{
    let name = declared.name_at(told.router);
    push_answer(alloc, text, name, &told.answer)?;
    for count in 0..told.end.saturating_sub(told.first) {
        push_frame(alloc, text, name, world, told.first + count)?;
    }
    Ok(())
}

/// The lines of all that is told, in order. The only error is that memory ran out.
fn report_text(
    alloc: Global,
    declared: &Declared<'_>,
    world: &World,
    all: &[Told],
) -> Result<String, AllocError>
    ensures { IfOk result (λ text. string_bytes text ≡ report_text declared.now.names world.now.frames all.now) }
{
    let mut text = String::new(alloc);
    for told in all {
        push_told(alloc, &mut text, declared, world, told)?;
    }
    Ok(text)
}

/// The line of a refusal. The only error is that memory ran out.
pub(crate) fn refusal_text(alloc: Global, refusal: Refusal) -> Result<String, AllocError>
    ensures { IfOk result (λ text. string_bytes text ≡ refusal_line refusal) }
{
    let mut text = String::new(alloc);
    push_refusal(&mut text, refusal)?;
    Ok(text)
}

/// The lines of what moves were answered in the world as it is after them: what is told of each; or the refusal of one that isn't
/// made. The only error is that memory ran out.
pub(crate) fn moved_text(
    alloc: Global,
    declared: &Declared<'_>,
    world: &World,
    moved: &Result<Report, Refusal>,
) -> Result<String, AllocError>
    ensures { IfOk result (λ text. string_bytes text ≡ moved_text declared.now.names world.now.frames (told_in moved.now)) }
{
    match moved {
        Ok(report) => report_text(alloc, declared, world, report.moves.as_slice()),
        Err(refusal) => refusal_text(alloc, *refusal),
    }
}
