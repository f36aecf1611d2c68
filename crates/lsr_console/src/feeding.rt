//! The events that an operator feeds, and their answers.
ghost use Rattle.std.specs.Prelude.{◌≡◌, ◌≤◌, ◌-◌, ◌∷◌, ◌++◌, ℕ, List, [], IfOk, OnErr, OnOk, Some, flat_map, length, slice_get, string_bytes};
ghost use Rattle.std.specs.Option.{MatchOption};
ghost use Rattle.lsr_facts.specs.declared.reply.Reply.TheVariants as replies;
ghost use Rattle.lsr_session.specs.Requests.{latest};
ghost use Rattle.lsr_text.specs.Answers.{refusal_line};
ghost use Rattle.run_journal.specs.declared.receipt.Receipt.{Receipt};
ghost use Rattle.interface_workers.specs.Chains.{HasRoom};
ghost use Rattle.lsr_rounds.specs.Attending.{IsAttended};
ghost use Rattle.lsr_console.specs.Answers.{AnswersEvent, IsFedAs, IsRefusedFor, frame_line, receipt_text, refusal_of};

use abstract_paths::Event;
use interface_workers::{
    CoreName, Gate, Handled, KeepSegments, Port, Receipt, Wire, Work, serve_event,
};
use journal_bytes::WrittenFrame;
use lsr_facts::{Refusal, Reply};
use lsr_rounds::Desk;
use lsr_session::Recent;
use lsr_text::{push_refusal, push_reply, push_written};
use std::alloc::{AllocError, Global};
use std::sync::Wait;
use std::time::Clock;

/// Why an event wasn't fed of which this became; none where it was.
fn refusal_of(handled: Handled) -> Option<Refusal>
    ensures { result ≡ refusal_of handled }
{
    match handled {
        Handled::Dropped(refusal) | Handled::Refused(refusal) => Some(refusal),
        _ => None,
    }
}

/// Feeds an event by the operator's port, and sends what the router answers: why it is refused; or none where it is fed, and its receipt is
/// the newest one of the work.
fn feed<L: CoreName, R: Wait + Drop, K: KeepSegments + Drop, T: Wait + Clock, W: Wire, G: Gate>(
    desk: &Desk<'_, L, R, K, T, G>,
    port: &mut Port<L>,
    wire: &mut W,
    work: &mut Work,
    event: &Event,
) -> Option<Refusal>
    requires { HasRoom work.old }
    ensures attended { IsAttended L.config work.old port.old.mark port.old.taken work.new port.new.mark port.new.taken }
    ensures answered { MatchOption result
        ((receipt : Receipt) × IsFedAs L.config event.now work.old work.new receipt)
        (IsRefusedFor L.config event.now work.old work.new) }
{
    let handled = serve_event(
        desk.rt, desk.alloc, desk.core, port, wire, desk.gate, work, event,
    );
    refusal_of(handled)
}

/// The newest receipt of work that has one.
fn newest(work: &Work) -> &Receipt
    requires { 1 ≤ length work.now.receipts.items }
    ensures { slice_get work.now.receipts.items (length work.now.receipts.items - 1) ≡ Some result.now }
{
    let Some(receipt) = work.receipts.as_slice().last() else {
        unreachable!()
    };
    receipt
}

/// The lines of a receipt: its reply, and with `echo` what was sent after it, in order. The only error is that memory ran out.
fn receipt_text(alloc: Global, echo: bool, receipt: &Receipt) -> Result<String, AllocError>
    ensures { IfOk result (λ text. string_bytes text ≡ receipt_text echo receipt.now) }
{
    let mut text = String::new(alloc);
    push_reply(&mut text, receipt.reply())?;
    if echo {
        push_frames(alloc, &mut text, receipt.outputs().as_slice())?;
    }
    Ok(text)
}

/// Appends the lines of frames that were sent, in order. The only error is that memory ran out.
fn push_frames(alloc: Global, text: &mut String, frames: &[WrittenFrame]) -> Result<(), AllocError>
    ensures { OnOk result (string_bytes text.new ≡ string_bytes text.old ++ flat_map frame_line frames.now) }
{
    for frame in frames {
        push_written(alloc, text, frame.link, frame.bytes.as_slice())?;
    }
    Ok(())
}

/// Remembers the reply of a receipt: its lines. The only error is that memory ran out for these.
fn tell_receipt(
    alloc: Global,
    recent: &mut Recent,
    echo: bool,
    receipt: &Receipt,
) -> Result<String, AllocError>
    ensures text { IfOk result (λ text. string_bytes text ≡ receipt_text echo receipt.now) }
    ensures recent { recent.new ≡ latest (recent.old ++ receipt.now.reply ∷ []) }
{
    recent.push(receipt.reply());
    receipt_text(alloc, echo, receipt)
}

/// Remembers a refusal: its line. The only error is that memory ran out for this.
fn tell_refusal(alloc: Global, recent: &mut Recent, refusal: Refusal) -> Result<String, AllocError>
    ensures text { IfOk result (λ text. string_bytes text ≡ refusal_line refusal) }
    ensures recent { recent.new ≡ latest (recent.old ++ replies.Refused refusal ∷ []) }
{
    recent.push(Reply::Refused(refusal));
    let mut text = String::new(alloc);
    push_refusal(&mut text, refusal)?;
    Ok(text)
}

/// Feeds an event by the operator's port, sends what the router answers, and remembers its reply: the lines of the answer. The only error is
/// that memory ran out for them: then the event was answered, too.
pub(crate) fn answer_event<
    L: CoreName,
    R: Wait + Drop,
    K: KeepSegments + Drop,
    T: Wait + Clock,
    W: Wire,
    G: Gate,
>(
    desk: &Desk<'_, L, R, K, T, G>,
    port: &mut Port<L>,
    wire: &mut W,
    work: &mut Work,
    recent: &mut Recent,
    echo: bool,
    event: &Event,
) -> Result<String, AllocError>
    requires { HasRoom work.old }
    ensures attended { IsAttended L.config work.old port.old.mark port.old.taken work.new port.new.mark port.new.taken }
    ensures told { IfOk result (λ text. AnswersEvent L.config echo event.now (record { work = work.old; recent = recent.old })
        (string_bytes text) (record { work = work.new; recent = recent.new })) }
    ensures untold { OnErr result ((text : List ℕ) × AnswersEvent L.config echo event.now (record { work = work.old; recent = recent.old })
        text (record { work = work.new; recent = recent.new })) }
{
    match feed(desk, port, wire, work, event) {
        Some(refusal) => tell_refusal(desk.alloc, recent, refusal),
        None => tell_receipt(desk.alloc, recent, echo, newest(work)),
    }
}
