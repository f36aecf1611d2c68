//! The console of a router that runs.
ghost use Rattle.std.specs.Prelude.{◌≡◌, ◌⊎◌, ℕ, List, [], IfOk, None, OnOk, is_some};
ghost use Rattle.std.specs.Io.KnownBytes.{Appends};
ghost use Rattle.interface_workers.specs.Chains.{HasRoom};
ghost use Rattle.lsr_rounds.specs.Attending.{IsAttended};
ghost use Rattle.lsr_console.specs.Consoles.{PrintsLine, TellsHeard, TellsOnce};
ghost use Rattle.lsr_console.specs.Counters.{counts_with};
ghost use Rattle.lsr_console.specs.Endings.{IsWritten, ending_of};

use crate::answering::answer_line;
use crate::attending::fed_nothing;
use crate::counters::Counters;
use crate::ending::{ConsoleEnding, ending_of};
use crate::listening::Heard;
use crate::manner::Manner;
use crate::printing::{put, put_untext};
use crossbeam_channel::{Receiver, RecvTimeoutError};
use interface_workers::{CoreName, Gate, KeepSegments, Port, Wire, Work};
use lsr_rounds::{Desk, Operator};
use lsr_serve::PortCount;
use lsr_session::Recent;
use std::alloc::{AllocError, Global};
use std::io;
use std::io::Write;
use std::sync::Wait;
use std::time::{Clock, Duration};

/// The console of a router that runs: lines come from who reads its input ([`crate::listen`]), and each is answered on the output.
#[derive(Drop)]
pub struct Console<O: Write + Drop> {
    lines: Receiver<Heard>,
    output: O,
    /// How it answers.
    manner: Manner,
    /// The last replies to this console.
    recent: Recent,
    /// What each port did up to the end of the last round.
    counters: Counters,
    /// How many lines there were.
    number: usize,
    /// Why the run is to end, if it is.
    ending: Option<ConsoleEnding>,
}

impl<O: Write + Drop> Console<O> {
    /// A console to which no line came, before the first round is over. Its lines come from the other end of [`crate::open_lines`]; it
    /// answers on the output, in this manner. The only error is that memory ran out.
    pub fn new(
        alloc: Global,
        lines: Receiver<Heard>,
        output: O,
        manner: Manner,
    ) -> Result<Console<O>, AllocError>
        ensures output { IfOk result (λ console. console.output ≡ output) }
        ensures manner { IfOk result (λ console. console.manner ≡ manner) }
        ensures recent { IfOk result (λ console. console.recent ≡ []) }
        ensures counters { IfOk result (λ console. console.counters.ports.items ≡ []) }
        ensures number { IfOk result (λ console. console.number ≡ 0) }
        ensures ending { IfOk result (λ console. console.ending ≡ None) }
    {
        Ok(Console {
            lines,
            output,
            manner,
            recent: Recent::new(alloc)?,
            counters: Counters::new(alloc),
            number: 0,
            ending: None,
        })
    }

    /// Why the run was to end, if it was: where an answer couldn't be written, for which error.
    pub fn into_ending(self) -> Option<ConsoleEnding>
        ensures { result ≡ self.ending }
    {
        let Console {
            lines: _lines,
            output: _output,
            manner: _manner,
            recent: _recent,
            counters: _counters,
            number: _,
            ending,
        } = self;
        ending
    }

    /// From now on `show counters` says this of the router's files that aren't written; nothing where all are.
    pub fn tell_unwritten(&mut self, text: String)
        ensures { self.new ≡ record self.old { manner = record self.old.manner { unwritten = text } } }
    {
        self.manner.unwritten = text;
    }

    /// Answers the line, whose number is how many there were with it, at once, and ends the answer. The error is the output's.
    fn serve_line<
        L: CoreName,
        R: Wait + Drop,
        K: KeepSegments + Drop,
        T: Wait + Clock,
        W: Wire,
        G: Gate,
    >(
        &mut self,
        desk: &Desk<'_, L, R, K, T, G>,
        port: &mut Port<L>,
        wire: &mut W,
        work: &mut Work,
        line: &str,
    ) -> io::Result<()>
        requires { HasRoom work.old }
        ensures attended { IsAttended L.config work.old port.old.mark port.old.taken work.new port.new.mark port.new.taken }
        ensures told { OnOk result ((text : List ℕ) × Appends (O.contents self.old.output) (O.contents self.new.output) text
            × PrintsLine L.config self.old.manner self.old.counters.ports.items self.old.number line.now
            (record { work = work.old; recent = self.old.recent }) text (record { work = work.new; recent = self.new.recent })) }
        ensures kept { (self.new.ending ≡ self.old.ending) × (self.new.number ≡ self.old.number) × (self.new.manner ≡ self.old.manner) }
    {
        let number = self.number;
        let marks = self.manner.marks;
        match answer_line(
            desk,
            port,
            wire,
            work,
            &mut self.recent,
            &self.manner,
            &self.counters,
            number,
            line,
        ) {
            Ok(text) => put(&mut self.output, text.as_str(), marks),
            Err(lack) => put(&mut self.output, lack.text(), marks),
        }
    }

    /// Answers what was heard, at once. The error is the output's.
    fn take<L: CoreName, R: Wait + Drop, K: KeepSegments + Drop, T: Wait + Clock, W: Wire, G: Gate>(
        &mut self,
        desk: &Desk<'_, L, R, K, T, G>,
        port: &mut Port<L>,
        wire: &mut W,
        work: &mut Work,
        heard: Heard,
    ) -> io::Result<()>
        requires { HasRoom work.old }
        ensures attended { IsAttended L.config work.old port.old.mark port.old.taken work.new port.new.mark port.new.taken }
        ensures told { OnOk result ((text : List ℕ) × Appends (O.contents self.old.output) (O.contents self.new.output) text
            × TellsHeard L.config self.old.manner self.old.counters.ports.items self.new.number heard
            (record { work = work.old; recent = self.old.recent }) text (record { work = work.new; recent = self.new.recent })) }
        ensures ending { self.new.ending ≡ ending_of heard }
    {
        fed_nothing(port, work);
        self.number = self.number.saturating_add(1);
        self.ending = ending_of(&heard);
        match heard {
            Heard::Line(line) => self.serve_line(desk, port, wire, work, line.as_str()),
            Heard::NotText(at) => put_untext(&mut self.output, self.number, at, self.manner.marks),
            Heard::Fault(_) | Heard::End => Ok(()),
        }
    }
}

impl<O: Write + Drop> Operator for Console<O> {
    /// Whether the run is to end: the operator wrote `quit`, the input ended or can't be read, or an answer can't be written.
    fn is_done(&self) -> bool
        ensures { result ≡ is_some self.now.ending }
    {
        self.ending.is_some()
    }

    /// Takes at most one line, waiting for it so many milliseconds at most, and answers it at once.
    fn attend<
        L: CoreName,
        R: Wait + Drop,
        K: KeepSegments + Drop,
        T: Wait + Clock,
        W: Wire,
        G: Gate,
    >(
        &mut self,
        desk: &Desk<'_, L, R, K, T, G>,
        port: &mut Port<L>,
        wire: &mut W,
        work: &mut Work,
        within_ms: u64,
    )
        requires { HasRoom work.old }
        ensures attended { IsAttended L.config work.old port.old.mark port.old.taken work.new port.new.mark port.new.taken }
        ensures told { IsWritten self.new.ending → (text : List ℕ)
            × Appends (O.contents self.old.output) (O.contents self.new.output) text
            × TellsOnce L.config self.old.manner self.old.counters.ports.items self.new.number
            (record { work = work.old; recent = self.old.recent }) text (record { work = work.new; recent = self.new.recent }) }
    {
        fed_nothing(port, work);
        if self.is_done() {
            return;
        }
        let within = Duration::from_millis(within_ms);
        let heard = match self.lines.recv_timeout(desk.rt, within) {
            Ok(heard) => heard,
            Err(RecvTimeoutError::Timeout) => return,
            Err(RecvTimeoutError::Disconnected) => Heard::End,
        };
        let Err(error) = self.take(desk, port, wire, work, heard) else {
            return;
        };
        self.ending = Some(ConsoleEnding::Unwritten(error));
    }

    /// Nothing.
    fn after_moment<L: CoreName, R: Wait + Drop, K: KeepSegments + Drop, T: Wait + Clock, G: Gate>(
        &mut self,
        _desk: &Desk<'_, L, R, K, T, G>,
    ) {}

    /// Counts what each port did in the round, too. Where memory runs out the counts stay as they were.
    fn after_round(&mut self, ports: &[PortCount])
        ensures counted { (self.new.counters.ports.items ≡ counts_with self.old.counters.ports.items ports.now)
            ⊎ (self.new.counters.ports.items ≡ self.old.counters.ports.items) }
        ensures kept { self.new ≡ record self.old { counters = self.new.counters } }
    {
        self.counters.add(ports);
    }
}
