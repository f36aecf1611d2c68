//! What a console answers to a line.
ghost use Rattle.std.specs.Prelude.{◌≡◌, IfErr, IfOk, string_bytes};
ghost use Rattle.interface_workers.specs.Chains.{HasRoom};
ghost use Rattle.lsr_rounds.specs.Attending.{IsAttended};
ghost use Rattle.lsr_console.specs.declared.answering.Lack.TheVariants.{Undone};
ghost use Rattle.lsr_console.specs.Answers.{AnswersAsked, AnswersLine, AnswersRequest, Lacks, lack_text};

use crate::asking::shown_text;
use crate::attending::fed_nothing;
use crate::counters::Counters;
use crate::feeding::answer_event;
use crate::forms::{FROM_CLOCK, FROM_LINKS, HELP, bad_line_text, elsewhere_text};
use crate::manner::Manner;
use crate::said::{Said, asked_event, read_said};
use interface_workers::{CoreName, Gate, KeepSegments, Port, Wire, Work};
use lsr_lines::Request;
use lsr_rounds::Desk;
use lsr_session::Recent;
use std::alloc::{AllocError, Global};
use std::sync::Wait;
use std::time::Clock;

/// What is answered to `quit`.
const QUITS: &str = "the run ends\n";

/// Memory ran out for a line.
#[derive(Clone, Copy, PartialEq, Eq)]
pub(crate) enum Lack {
    /// Nothing was done for it.
    Undone,
    /// It was answered, and there is no memory for the answer's lines.
    Untold,
}

impl From<AllocError> for Lack {
    ghost from_gives = { λ _ lack. lack ≡ Undone };

    fn from(_error: AllocError) -> Lack {
        Lack::Undone
    }
}

impl Lack {
    /// What is told of it. Takes no memory.
    pub(crate) fn text(self) -> &'static str
        ensures { result.now ≡ lack_text self }
    {
        match self {
            Lack::Undone => "memory\n  nothing was done: write the line again\n",
            Lack::Untold => "memory\n  it was answered: show recent has the reply\n",
        }
    }
}

/// A text of these bytes. The only error is that memory ran out.
fn text_of(alloc: Global, said: &str) -> Result<String, AllocError>
    ensures { IfOk result (λ text. string_bytes text ≡ said.now) }
{
    let mut text = String::new(alloc);
    text.push_str(said)?;
    Ok(text)
}

/// The lines that are answered to a request of the line of this number, for which no event is fed: what is shown, or why it isn't taken; none
/// to a request for which one is. The only error is that memory ran out.
fn asked_text<L: CoreName, R: Wait + Drop, K: KeepSegments + Drop, T: Wait + Clock, G: Gate>(
    desk: &Desk<'_, L, R, K, T, G>,
    recent: &Recent,
    manner: &Manner,
    number: usize,
    line: &str,
    request: &Request,
) -> Result<String, AllocError>
    ensures { IfOk result (λ text. AnswersAsked L.config manner.now number line.now recent.now request.now (string_bytes text)) }
{
    match request {
        Request::Receive(_) | Request::Frame(_) => {
            elsewhere_text(desk.alloc, number, line, FROM_LINKS)
        }
        Request::Tick(_) => elsewhere_text(desk.alloc, number, line, FROM_CLOCK),
        Request::Show(shown) => shown_text(desk, &manner.sockets, shown),
        Request::Recent => recent.text(desk.alloc),
        Request::LinkUp(_)
        | Request::LinkDown(_)
        | Request::Restart
        | Request::Start
        | Request::Command(_) => Ok(String::new(desk.alloc)),
    }
}

/// Answers a request of the line of this number.
fn answer_request<
    L: CoreName,
    R: Wait + Drop,
    K: KeepSegments + Drop,
    T: Wait + Clock,
    W: Wire,
    G: Gate,
>(
    desk: &Desk<'_, L, R, K, T, G>,
    port: &mut Port<L>,
    wire: &mut W,
    work: &mut Work,
    recent: &mut Recent,
    manner: &Manner,
    number: usize,
    line: &str,
    request: Request,
) -> Result<String, Lack>
    requires { HasRoom work.old }
    ensures attended { IsAttended L.config work.old port.old.mark port.old.taken work.new port.new.mark port.new.taken }
    ensures told { IfOk result (λ text. AnswersRequest L.config manner.now number line.now (record { work = work.old; recent = recent.old }) request
        (string_bytes text) (record { work = work.new; recent = recent.new })) }
    ensures lack { IfErr result (λ lack. Lacks
        (AnswersRequest L.config manner.now number line.now (record { work = work.old; recent = recent.old }) request)
        (record { work = work.old; recent = recent.old }) lack (record { work = work.new; recent = recent.new })) }
{
    match asked_event(request) {
        Ok(event) => match answer_event(desk, port, wire, work, recent, manner.echo, &event) {
            Ok(text) => Ok(text),
            Err(_) => Err(Lack::Untold),
        },
        Err(request) => {
            fed_nothing(port, work);
            Ok(asked_text(desk, recent, manner, number, line, &request)?)
        }
    }
}

/// Answers the line of this number, while the ports counted so much: the lines of the answer. What it asks to be fed is fed by the
/// operator's port, what the router sends for it goes to the wire, and its reply is remembered.
pub(crate) fn answer_line<
    L: CoreName,
    R: Wait + Drop,
    K: KeepSegments + Drop,
    T: Wait + Clock,
    W: Wire,
    G: Gate,
>(
    desk: &Desk<'_, L, R, K, T, G>,
    port: &mut Port<L>,
    wire: &mut W,
    work: &mut Work,
    recent: &mut Recent,
    manner: &Manner,
    counters: &Counters,
    number: usize,
    line: &str,
) -> Result<String, Lack>
    requires { HasRoom work.old }
    ensures attended { IsAttended L.config work.old port.old.mark port.old.taken work.new port.new.mark port.new.taken }
    ensures told { IfOk result (λ text. AnswersLine L.config manner.now counters.now.ports.items number line.now (record { work = work.old; recent = recent.old })
        (string_bytes text) (record { work = work.new; recent = recent.new })) }
    ensures lack { IfErr result (λ lack. Lacks
        (AnswersLine L.config manner.now counters.now.ports.items number line.now (record { work = work.old; recent = recent.old }))
        (record { work = work.old; recent = recent.old }) lack (record { work = work.new; recent = recent.new })) }
{
    fed_nothing(port, work);
    match read_said(desk.alloc, line)? {
        Said::Remark => Ok(String::new(desk.alloc)),
        Said::Help => Ok(text_of(desk.alloc, HELP)?),
        Said::Quit => Ok(text_of(desk.alloc, QUITS)?),
        Said::Counters => Ok(counters.text(
            desk.alloc,
            &manner.sockets,
            manner.unwritten.as_str(),
        )?),
        Said::Asks(request) => answer_request(
            desk, port, wire, work, recent, manner, number, line, request,
        ),
        Said::Nothing => Ok(bad_line_text(desk.alloc, number, line)?),
    }
}
