//! A session whose router's journal is kept, and what it answers to requests.
ghost use Rattle.std.specs.Prelude.{◌≡◌, ◌<◌, ◌∷◌, [], ◌++◌, ℕ, List, IfOk, Ok, Err, OnErr, OnOk, length, string_bytes};
ghost use Rattle.std.specs.Option.{option_map};
ghost use Rattle.abstract_paths.specs.declared.events.Event.TheVariants as events;
ghost use Rattle.lsr_lines.specs.Runs.{answers_of};
ghost use Rattle.lsr_lines.specs.Steps.{IsUntold};
ghost use Rattle.lsr_session.specs.Requests.{latest};
ghost use Rattle.lsr_text.specs.Answers.{refusal_line};
ghost use Rattle.lsr_config.specs.Configs.{Setup};
ghost use Rattle.lsr_config.specs.Reading.{IsRead};
ghost use Rattle.run_journal.specs.Journals.{stretch_of};
ghost use Rattle.run_journal.specs.declared.entry.CountedEntry.{CountedEntry};
ghost use Rattle.lsr_journal.specs.Entries.{IsLast, entry_text};
ghost use Rattle.lsr_journal.specs.Recorded.{PrintsDatagram, PrintsEvent, PrintsRead, Records, begun, is_full_reply};
ghost use Rattle.lsr_journal.specs.Segments.{SpellsSegment};

use crate::entries::entry_text;
use crate::seen::read_seen;
use crate::segments::write_stretch;
use abstract_paths::{Command, Event};
use datagrams::Datagram;
use lookup_plane::{LookupReader, OpenFault};
use lsr_config::Config;
use lsr_facts::{Refusal, Reply};
use lsr_lines::{Arrival, Request, Serves};
use lsr_session::{Recent, hop_frame, passed_text};
use lsr_text::push_refusal;
use run_journal::{Locked, Mark};
use std::alloc::{AllocError, Global};
use std::marker::Model;
use std::sync::Wait;

/// A session's router has one port, and one reader of its label table.
const PORTS: u16 = 1;

const READERS: usize = 1;

/// A session of `lsr step --journal`: its router with the journal, the mark of its port, a reader of the label table, by which labelled
/// frames go, and the last replies. Contracts see these. It is over once an event was refused since the journal is full.
pub struct RecordedSession<R: Wait + Drop> {
    /// In a box, since a session is handed on with each line.
    locked: Box<Locked<R>>,
    mark: Mark,
    reader: LookupReader,
    recent: Recent,
}

/// Written out, so that it is dropped by one call, whatever it holds.
impl<R: Wait + Drop> Drop for RecordedSession<R> {
    fn drop(self) {
        let RecordedSession {
            locked: _locked,
            mark: _mark,
            reader: _reader,
            recent: _recent,
        } = self;
    }
}

impl<R: Wait + Drop> Model for RecordedSession<R> {
    ghost use Rattle.std.specs.Prelude.{◌≡◌, ◌∷◌, []};
    ghost use Rattle.lsr_journal.specs.Recorded.{RecordedState};

    ghost Value = { RecordedState };

    ghost view = { λ s. record { journal = s.locked.value; mark = s.mark; reader = s.reader; recent = s.recent } };

    // the journal has one port, and knows its mark: no event is refused as another port's
    ghost invariant = { λ s. (s.locked.value.counts.marks ≡ s.mark ∷ []) × (s.mark.port ≡ 1) };
}

/// The router with its journal, in a box. The only error is out of memory.
fn boxed<R: Wait + Drop>(alloc: Global, locked: Locked<R>) -> Result<Box<Locked<R>>, AllocError>
    ensures { IfOk result (λ made. made.value ≡ locked) }
{
    Ok(Box::new(alloc, locked)?)
}

impl<R: Wait + Drop> RecordedSession<R> {
    /// A session that begins with the router of the configuration, and has replied to nothing. It keeps `rt`, to wait for the reader.
    /// The fault is that there is too little memory, or no place for the reader.
    pub fn new(alloc: Global, rt: R, config: Config) -> Result<RecordedSession<R>, OpenFault>
        ensures { IfOk result (λ session. session ≡ begun config session.journal.table) }
    {
        let (locked, mut readers) = Locked::new(alloc, rt, config, PORTS, READERS)?;
        let locked = boxed(alloc, locked)?;
        let Some(reader) = readers.pop() else {
            return Err(OpenFault::Reader);
        };
        Ok(RecordedSession {
            locked,
            mark: Mark {
                port: PORTS,
                place: 0,
                entry: 0,
                published: 0,
            },
            reader,
            recent: Recent::new(alloc)?,
        })
    }

    /// Appends the file of the entries that were made since the session began, in the newest format, with the text of the
    /// configuration. The text has to say the configuration of the session's router: else what is appended spells nothing. The only
    /// errors are out of memory, and more than a file can hold; then nothing changed.
    pub fn write_journal(&self, text: &str, out: &mut Vec<u8>) -> Result<(), AllocError>
        ensures ok { OnOk result ((bytes : List ℕ) × (out.new.items ≡ out.old.items ++ bytes)
            × ((config : Setup) → IsRead text.now (Ok config) → self.now.journal.router ≡ config.router
            → SpellsSegment bytes text.now config (stretch_of self.now.journal))) }
        ensures err { OnErr result (out.new.items ≡ out.old.items) }
    {
        self.locked.is_segment();
        write_stretch(text, self.locked.base(), self.locked.entries(), out)
    }
}

impl<R: Wait + Drop> Serves for RecordedSession<R> {
    ghost use Rattle.lsr_journal.specs.Recorded.{is_over};

    ghost serves = { Records };

    ghost over = { is_over };

    fn serve(
        mut self,
        alloc: Global,
        request: &Request,
    ) -> (RecordedSession<R>, Result<Option<String>, AllocError>) {
        let text = serve(alloc, &mut self, request);
        (self, text)
    }

    fn is_over(&self) -> bool {
        match self.recent.newest() {
            Some(reply) => is_full_reply(reply),
            None => false,
        }
    }
}

/// Whether an event was refused since the journal is full.
fn is_full_reply(reply: Reply) -> bool
    ensures { result ≡ is_full_reply reply }
{
    matches!(reply, Reply::Refused(Refusal::JournalFull))
}

/// Serves a request, where it is one that is served. The only error is that memory ran out: then the session is as it was, or as it is
/// after the answer for whose lines there was no memory.
fn serve<R: Wait + Drop>(
    alloc: Global,
    session: &mut RecordedSession<R>,
    request: &Request,
) -> Result<Option<String>, AllocError>
    ensures told { IfOk result (λ text. Records session.old request.now (option_map string_bytes text) session.new) }
    ensures untold { OnErr result (IsUntold (answers_of Records session.old request.now) session.old session.new) }
{
    let text = match request {
        Request::Receive(arrival) => answer_message(alloc, session, arrival)?,
        Request::Frame(arrival) => answer_frame(alloc, session, arrival)?,
        Request::Tick(moment) => answer_event(alloc, session, &Event::Tick(*moment))?,
        Request::LinkUp(link) => answer_event(alloc, session, &Event::LinkUp(*link))?,
        Request::LinkDown(link) => answer_event(alloc, session, &Event::LinkDown(*link))?,
        Request::Restart => answer_event(alloc, session, &Event::Restart)?,
        Request::Start => answer_event(alloc, session, &Event::Start)?,
        Request::Command(command) => answer_command(alloc, session, command)?,
        Request::Recent => session.recent.text(alloc)?,
        Request::Show(_) => return Ok(None),
    };
    Ok(Some(text))
}

/// The line of a refusal.
fn refusal_text(alloc: Global, refusal: Refusal) -> Result<String, AllocError>
    ensures { IfOk result (λ text. string_bytes text ≡ refusal_line refusal) }
{
    let mut text = String::new(alloc);
    push_refusal(&mut text, refusal)?;
    Ok(text)
}

/// Tells of the last entry, as an event was just answered: its reply is the newest, and its lines are printed. It asks that there is one.
/// Where memory ran out for the lines its reply is the newest too.
fn tell_last<R: Wait + Drop>(
    alloc: Global,
    session: &mut RecordedSession<R>,
) -> Result<String, AllocError>
    requires { 0 < length session.old.journal.entries }
    ensures { (last : CountedEntry) × IsLast session.old.journal.entries last
        × (session.new ≡ record session.old { recent = latest (session.old.recent ++ last.entry.reply ∷ []) })
        × IfOk result (λ text. string_bytes text ≡ entry_text last.entry) }
{
    let Some(last) = session.locked.entries().last() else {
        unreachable!();
    };
    session.recent.push(last.entry.reply);
    entry_text(alloc, &last.entry)
}

/// Applies an event at the session's port. Where memory ran out for its lines it was applied too.
fn answer_event<R: Wait + Drop>(
    alloc: Global,
    session: &mut RecordedSession<R>,
    event: &Event,
) -> Result<String, AllocError>
    ensures told { IfOk result (λ text. PrintsEvent session.old event.now (string_bytes text) session.new) }
    ensures untold { OnErr result ((text : List ℕ) × PrintsEvent session.old event.now text session.new) }
{
    match session.locked.enter(alloc, session.mark, event) {
        Ok(mark) => {
            session.mark = mark;
            session.reader.learn(mark.published);
            tell_last(alloc, session)
        }
        Err(refusal) => refuse(alloc, session, refusal),
    }
}

/// Applies a command. Where memory ran out for a copy of the command the session is as it was.
fn answer_command<R: Wait + Drop>(
    alloc: Global,
    session: &mut RecordedSession<R>,
    command: &Command,
) -> Result<String, AllocError>
    ensures told { IfOk result (λ text. PrintsEvent session.old (events.Command command.now) (string_bytes text) session.new) }
    ensures untold { OnErr result (IsUntold (PrintsEvent session.old (events.Command command.now)) session.old session.new) }
{
    let command = command.copied(alloc)?;
    answer_event(alloc, session, &Event::Command(command))
}

/// Refuses an event, or a datagram that is none and goes no further. Where memory ran out for its line it was refused too.
fn refuse<R: Wait + Drop>(
    alloc: Global,
    session: &mut RecordedSession<R>,
    refusal: Refusal,
) -> Result<String, AllocError>
    ensures told { IfOk result (λ text. PrintsRead session.old (Err refusal) (string_bytes text) session.new) }
    ensures untold { OnErr result ((text : List ℕ) × PrintsRead session.old (Err refusal) text session.new) }
{
    session.recent.push(Reply::Refused(refusal));
    refusal_text(alloc, refusal)
}

/// Serves what a datagram is. Where memory ran out for its lines it was served too.
fn answer_read<R: Wait + Drop>(
    alloc: Global,
    session: &mut RecordedSession<R>,
    what: Result<Datagram, Refusal>,
) -> Result<String, AllocError>
    ensures told { IfOk result (λ text. PrintsRead session.old what (string_bytes text) session.new) }
    ensures untold { OnErr result ((text : List ℕ) × PrintsRead session.old what text session.new) }
{
    match what {
        Ok(Datagram::Event(event)) => answer_event(alloc, session, &event),
        Ok(Datagram::Passed(passed)) => passed_text(alloc, &passed),
        Err(refusal) => refuse(alloc, session, refusal),
    }
}

/// Serves a datagram that came over a link. Where memory ran out for its lines it was served too.
fn answer_datagram<R: Wait + Drop>(
    alloc: Global,
    session: &mut RecordedSession<R>,
    link: u16,
    bytes: &[u8],
) -> Result<String, AllocError>
    ensures told { IfOk result (λ text. PrintsDatagram session.old link bytes.now (string_bytes text) session.new) }
    ensures untold { OnErr result ((text : List ℕ) × PrintsDatagram session.old link bytes.now text session.new) }
{
    let router = session.locked.router();
    let what = read_seen(alloc, router, &mut session.reader, link, bytes);
    answer_read(alloc, session, what)
}

/// Serves the frame that came. Where memory ran out for its lines it was served too.
fn answer_frame<R: Wait + Drop>(
    alloc: Global,
    session: &mut RecordedSession<R>,
    arrival: &Arrival,
) -> Result<String, AllocError>
    ensures told { IfOk result (λ text. PrintsDatagram session.old arrival.now.link arrival.now.bytes.items (string_bytes text) session.new) }
    ensures untold { OnErr result ((text : List ℕ) × PrintsDatagram session.old arrival.now.link arrival.now.bytes.items text session.new) }
{
    answer_datagram(alloc, session, arrival.link, arrival.bytes.as_slice())
}

/// Serves the message that came, in its Hop frame. Where memory ran out for the frame the session is as it was.
fn answer_message<R: Wait + Drop>(
    alloc: Global,
    session: &mut RecordedSession<R>,
    arrival: &Arrival,
) -> Result<String, AllocError>
    ensures told { IfOk result (λ text. PrintsDatagram session.old arrival.now.link (1 ∷ arrival.now.bytes.items) (string_bytes text) session.new) }
    ensures untold { OnErr result (IsUntold (PrintsDatagram session.old arrival.now.link (1 ∷ arrival.now.bytes.items)) session.old session.new) }
{
    let frame = hop_frame(alloc, arrival.bytes.as_slice())?;
    answer_datagram(alloc, session, arrival.link, frame.as_slice())
}
