//! What is printed for the answer to an event or a datagram.
ghost use Rattle.std.specs.Prelude.{◌≡◌, ◌++◌, OnOk, IfOk, string_bytes};
ghost use Rattle.lsr_text.specs.Answers.{answer_text, refusal_line, replies_text, reply_line};

use crate::frames::push_sent;
use crate::names::refusal_name;
use abstract_paths::Made;
use lsr_facts::{Refusal, Reply};
use std::alloc::{AllocError, Global};
use std::fmt::Write;

/// Appends the line of a refusal: `refused N NAME`. The only error is that memory ran out.
pub fn push_refusal(text: &mut String, refusal: Refusal) -> Result<(), AllocError>
    ensures { OnOk result (string_bytes text.new ≡ string_bytes text.old ++ refusal_line refusal) }
{
    let number = refusal.number();
    let name = refusal_name(refusal);
    write!(text, "refused {number} {name}\n")
}

/// Appends the line of a reply: `done`, `error CODE VALUE` or `refused N NAME`. The only error is that memory ran out.
pub fn push_reply(text: &mut String, reply: Reply) -> Result<(), AllocError>
    ensures { OnOk result (string_bytes text.new ≡ string_bytes text.old ++ reply_line reply) }
{
    match reply {
        Reply::Done => text.push_str("done\n"),
        Reply::Error(error) => {
            let code = error.code;
            let value = error.value;
            write!(text, "error {code} {value}\n")
        }
        Reply::Refused(refusal) => push_refusal(text, refusal),
    }
}

/// Appends the lines of the replies, in order. The only error is that memory ran out.
pub fn push_replies(text: &mut String, replies: &[Reply]) -> Result<(), AllocError>
    ensures { OnOk result (string_bytes text.new ≡ string_bytes text.old ++ replies_text replies.now) }
{
    for reply in replies {
        push_reply(text, *reply)?;
    }
    Ok(())
}

/// The lines of a step: its reply, and after it what is sent, in order.
fn made_text(alloc: Global, made: &Made) -> Result<String, AllocError>
    ensures { IfOk result (λ text. string_bytes text ≡ answer_text (Ok made.now)) }
{
    let mut text = String::new(alloc);
    push_reply(&mut text, made.reply)?;
    for output in made.outputs.as_slice() {
        push_sent(alloc, &mut text, output.link, &output.frame)?;
    }
    Ok(text)
}

/// The lines of an answer: its reply, and after it what is sent, in order. The only error is that memory ran out.
pub fn answer_text(alloc: Global, answer: &Result<Made, Refusal>) -> Result<String, AllocError>
    ensures { IfOk result (λ text. string_bytes text ≡ answer_text answer.now) }
{
    match answer {
        Ok(made) => made_text(alloc, made),
        Err(refusal) => {
            let mut text = String::new(alloc);
            push_refusal(&mut text, *refusal)?;
            Ok(text)
        }
    }
}
