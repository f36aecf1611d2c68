//! What a session answers to a request.
ghost use Rattle.std.specs.Prelude.{◌≡◌, ◌∷◌, [], IfOk, Ok, OnErr, string_bytes};
ghost use Rattle.lsr_lines.specs.Steps.{IsUntold};
ghost use Rattle.lsr_text.specs.Answers.{answer_text, refusal_line};
ghost use Rattle.abstract_paths.specs.declared.events.Event.TheVariants as events;
ghost use Rattle.lsr_session.specs.Requests.{IsAnswered, IsServed, PrintsAnswer, ServesArrival, ServesDatagram, ServesEvent, answered_text, remembered, served_of, served_text};

use crate::passing::passed_text;
use crate::recent::Recent;
use crate::shown::show;
use abstract_paths::{Command, Event, KIND_HOP, Made};
use lsr_facts::{Refusal, Reply};
use lsr_lines::{Answers, Arrival, Request};
use lsr_text::answer_text;
use router_core::{Machine, Served};
use std::alloc::{AllocError, Global};
use std::marker::Model;

/// What came of a request, before it is text.
#[derive(Drop)]
enum Answered {
    /// Something happened to the router, and this came of it.
    Served(Result<Served, Refusal>),
    /// The session was asked what it knows: these lines.
    Shown(String),
}

/// A session of `lsr step`: its router, and the last replies. Contracts see what the router is and knows, and the list
/// of these replies.
#[derive(Drop)]
pub struct Session {
    router: Machine,
    recent: Recent,
}

impl Model for Session {
    ghost use Rattle.lsr_session.specs.Requests.{SessionState};

    ghost Value = { SessionState };

    ghost view = { λ s. record { router = s.router; recent = s.recent } };
}

impl Session {
    /// A session that begins with the router, and has replied to nothing. The only error is that memory ran out.
    pub fn new(alloc: Global, router: Machine) -> Result<Session, AllocError>
        ensures { IfOk result (λ session. session ≡ record { router = router; recent = [] }) }
    {
        Ok(Session {
            router,
            recent: Recent::new(alloc)?,
        })
    }

    /// The session's router.
    pub fn router(&self) -> &Machine
        ensures { result.now ≡ self.now.router }
    {
        &self.router
    }

    /// Serves a request, and gives what came of it. The only error is that memory ran out; then the session is as it was.
    fn serve(&mut self, alloc: Global, request: &Request) -> Result<Answered, AllocError>
        ensures served { IfOk result (λ answered. IsAnswered self.old request.now answered self.new) }
        ensures left { OnErr result (self.new ≡ self.old) }
    {
        match request {
            Request::Receive(arrival) => {
                Ok(Answered::Served(serve_arrival(alloc, self, arrival)?))
            }
            Request::Frame(arrival) => Ok(answer_frame(alloc, self, arrival)),
            Request::Tick(moment) => Ok(answer_event(alloc, self, Event::Tick(*moment))),
            Request::LinkUp(link) => Ok(answer_event(alloc, self, Event::LinkUp(*link))),
            Request::LinkDown(link) => Ok(answer_event(alloc, self, Event::LinkDown(*link))),
            Request::Restart => Ok(answer_event(alloc, self, Event::Restart)),
            Request::Start => Ok(answer_event(alloc, self, Event::Start)),
            Request::Command(command) => {
                Ok(Answered::Served(serve_command(alloc, self, command)?))
            }
            Request::Recent => Ok(Answered::Shown(self.recent.text(alloc)?)),
            Request::Show(shown) => Ok(Answered::Shown(show(alloc, &self.router, &[], shown)?)),
        }
    }
}

impl Answered {
    /// The lines that are printed of it. The only error is that memory ran out.
    fn into_text(self, alloc: Global) -> Result<String, AllocError>
        ensures { IfOk result (λ text. string_bytes text ≡ answered_text self) }
    {
        match self {
            Answered::Served(answer) => served_text(alloc, answer),
            Answered::Shown(text) => Ok(text),
        }
    }
}

impl Answers for Session {
    ghost answers = { PrintsAnswer };

    fn answer(mut self, alloc: Global, request: &Request) -> (Session, Result<String, AllocError>) {
        let text = answer(alloc, &mut self, request);
        (self, text)
    }
}

/// Answers a request. The only error is that memory ran out: then the session is as it was, or as it is after the answer
/// for whose lines there was no memory.
fn answer(alloc: Global, session: &mut Session, request: &Request) -> Result<String, AllocError>
    ensures told { IfOk result (λ text. PrintsAnswer session.old request.now (string_bytes text) session.new) }
    ensures untold { OnErr result (IsUntold (PrintsAnswer session.old request.now) session.old session.new) }
{
    let answered = session.serve(alloc, request)?;
    answered.into_text(alloc)
}

/// The lines of a step that was made.
fn made_text(alloc: Global, made: Made) -> Result<String, AllocError>
    ensures { IfOk result (λ text. string_bytes text ≡ answer_text (Ok made)) }
{
    answer_text(alloc, &Ok(made))
}

/// The line of a refusal.
fn refusal_text(alloc: Global, refusal: Refusal) -> Result<String, AllocError>
    ensures { IfOk result (λ text. string_bytes text ≡ refusal_line refusal) }
{
    answer_text(alloc, &Err(refusal))
}

/// The lines of what was served: of a step, or of a labelled frame that was passed on.
fn lines_of(alloc: Global, served: Served) -> Result<String, AllocError>
    ensures { IfOk result (λ text. string_bytes text ≡ served_text (Ok served)) }
{
    match served {
        Served::Made(made) => made_text(alloc, made),
        Served::Passed(passed) => passed_text(alloc, &passed),
    }
}

/// The lines of what came of an event or a datagram. The only error is that memory ran out.
fn served_text(alloc: Global, answer: Result<Served, Refusal>) -> Result<String, AllocError>
    ensures { IfOk result (λ text. string_bytes text ≡ served_text answer) }
{
    match answer {
        Ok(served) => lines_of(alloc, served),
        Err(refusal) => refusal_text(alloc, refusal),
    }
}

/// What came of an event, as of anything that comes.
fn served_of(answer: Result<Made, Refusal>) -> Result<Served, Refusal>
    ensures { result ≡ served_of answer }
{
    match answer {
        Ok(made) => Ok(Served::Made(made)),
        Err(refusal) => Err(refusal),
    }
}

/// Remembers what was answered, if something was: nothing is where a labelled frame is passed on or delivered.
fn remember(recent: &mut Recent, answer: &Result<Served, Refusal>)
    ensures { recent.new ≡ remembered recent.old answer.now }
{
    match answer {
        Ok(Served::Made(made)) => recent.push(made.reply),
        Ok(Served::Passed(_)) => {}
        Err(refusal) => recent.push(Reply::Refused(*refusal)),
    }
}

/// The Hop frame that holds the message. The only error is that memory ran out.
pub fn hop_frame(alloc: Global, message: &[u8]) -> Result<Vec<u8>, AllocError>
    ensures { IfOk result (λ frame. frame.items ≡ KIND_HOP ∷ message.now) }
{
    let mut frame = vec![in alloc; KIND_HOP]?;
    frame.extend_from_slice(message)?;
    Ok(frame)
}

/// Serves a datagram that came.
fn serve_datagram(
    alloc: Global,
    session: &mut Session,
    link: u16,
    datagram: &[u8],
) -> Result<Served, Refusal>
    ensures { ServesDatagram session.old link datagram.now result session.new }
{
    let answer = session.router.serve_datagram(alloc, link, datagram);
    remember(&mut session.recent, &answer);
    answer
}

/// Serves the message that came, in its frame. The only error is that memory ran out for the frame; then the session is as
/// it was.
fn serve_arrival(
    alloc: Global,
    session: &mut Session,
    arrival: &Arrival,
) -> Result<Result<Served, Refusal>, AllocError>
    ensures served { IfOk result (λ answer. ServesArrival session.old arrival.now.link arrival.now.bytes.items answer session.new) }
    ensures left { OnErr result (session.new ≡ session.old) }
{
    let frame = hop_frame(alloc, arrival.bytes.as_slice())?;
    Ok(serve_datagram(alloc, session, arrival.link, frame.as_slice()))
}

/// Makes the step of an event.
fn serve_event(alloc: Global, session: &mut Session, event: Event) -> Result<Served, Refusal>
    ensures { ServesEvent session.old event result session.new }
{
    let answer = served_of(session.router.serve_event(alloc, event));
    remember(&mut session.recent, &answer);
    answer
}

/// Serves the frame that came, and gives that as what came of a request.
fn answer_frame(alloc: Global, session: &mut Session, arrival: &Arrival) -> Answered
    ensures { IsServed result (λ answer. ServesDatagram session.old arrival.now.link arrival.now.bytes.items answer session.new) }
{
    Answered::Served(serve_datagram(alloc, session, arrival.link, arrival.bytes.as_slice()))
}

/// Makes the step of an event, and gives that as what came of a request.
fn answer_event(alloc: Global, session: &mut Session, event: Event) -> Answered
    ensures { IsServed result (λ answer. ServesEvent session.old event answer session.new) }
{
    Answered::Served(serve_event(alloc, session, event))
}

/// Makes the step of a command. The only error is that memory ran out for a copy of the command; then the session is as it
/// was.
fn serve_command(
    alloc: Global,
    session: &mut Session,
    command: &Command,
) -> Result<Result<Served, Refusal>, AllocError>
    ensures served { IfOk result (λ answer. ServesEvent session.old (events.Command command.now) answer session.new) }
    ensures left { OnErr result (session.new ≡ session.old) }
{
    let command = command.copied(alloc)?;
    Ok(serve_event(alloc, session, Event::Command(command)))
}
