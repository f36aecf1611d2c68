//! Who attends to a router that runs: its console, who writes its journal, and who tells what happens.

use crate::keeping::Journaling;
use crate::waiting::Waiting;
use httpdate::HttpDate;
use interface_workers::{CoreName, Gate, KeepSegments, Machine, Port, Wire, Work};
use log::sink::Writer;
use log::{Level, LevelFilter, Log, info, log, warn};
use lsr_config::Config;
use lsr_console::{Console, ConsoleEnding};
use lsr_facts::{Router, State};
use lsr_rounds::{Desk, Operator};
use lsr_serve::{LinkSockets, PortCount, copy_config, tell_lost};
use lsr_watch::changes_text;
use sorted_rows::Table;
use std::alloc::{AllocError, Global};
use std::io::Write;
use std::sync::Wait;
use std::time::{Clock, SystemTime};

/// How many milliseconds a second has.
const SECOND_MS: u64 = 1_000;
/// How many milliseconds a tenth of a second has.
const TENTH_MS: u64 = 100;

/// The same links again. The only error is out of memory.
pub(crate) fn copy_links(
    alloc: Global,
    links: &Table<u16, LinkSockets>,
) -> Result<Table<u16, LinkSockets>, AllocError> {
    let mut copy = Table::new(alloc);
    for (number, sockets) in links.as_slice() {
        copy.set(*number, *sockets)?;
    }
    Ok(copy)
}

/// What a router of this configuration knows when it is opened. The only error is out of memory.
fn opening_state(alloc: Global, config: &Config) -> Result<State, AllocError> {
    Machine::open(alloc, copy_config(alloc, config)?)?.export(alloc)
}

/// Tells what happens to a router, by lines of a log.
#[derive(Drop)]
pub(crate) struct Teller<E: Write + Drop> {
    log: Writer<E>,
    /// What is told at all.
    level: LevelFilter,
    /// The router's links, in the order of their ports.
    links: Table<u16, LinkSockets>,
    /// What the router knew at the last look; when it was opened, where nobody looked.
    before: State,
    /// The LSPs that begin here and aren't up.
    waiting: Waiting,
}

impl<E: Write + Drop> Teller<E> {
    /// Nothing is told yet of a router of this configuration. The only error is out of memory.
    pub(crate) fn new(
        alloc: Global,
        error: E,
        level: LevelFilter,
        config: &Config,
        links: &Table<u16, LinkSockets>,
    ) -> Result<Teller<E>, AllocError> {
        Ok(Teller {
            log: Writer::new(error),
            level,
            links: copy_links(alloc, links)?,
            before: opening_state(alloc, config)?,
            waiting: Waiting::new(alloc),
        })
    }

    /// Tells that the router runs and how its operator goes on, which time of day is the start of its clock, and where its journal goes. Where the
    /// system's clock can't be read, or is past the year 9999, the time isn't told.
    pub(crate) fn tell_start<T: Clock>(&self, clock: &T, router: &Router, journal: Option<&str>) {
        if !self.level.allows(Level::Info) {
            return;
        }
        info!(self.log; target: "", "router {} is running: type help for its commands, quit to stop it", router.id);
        if let Ok(now) = SystemTime::now(clock) {
            if let Ok(date) = HttpDate::try_from(now) {
                info!(self.log; target: "", "0.0 s is {date}");
            }
        }
        if let Some(prefix) = journal {
            info!(self.log; target: "", "its journal goes to {prefix}.1, {prefix}.2 and so on, a file each minute; a crash loses the minute that is in memory");
        }
    }

    /// Tells these lines, as warnings.
    fn tell_news(&self, news: &str) {
        if self.level.allows(Level::Warn) {
            for line in news.lines() {
                warn!(self.log; target: "", "{line}");
            }
        }
    }

    /// Tells these lines of a moment, in milliseconds since the start.
    fn tell_at(&self, moment: u64, text: &str, level: Level) {
        if !self.level.allows(level) {
            return;
        }
        let seconds = moment / SECOND_MS;
        let tenths = moment % SECOND_MS / TENTH_MS;
        for line in text.lines() {
            log!(self.log; target: "", level, "{seconds}.{tenths} s: {line}");
        }
    }

    /// Looks at the router, and tells what changed since the last look, and which LSPs still don't come up. For want of memory nothing is told.
    fn look<L: CoreName, R: Wait + Drop, K: KeepSegments + Drop, T: Wait + Clock, G: Gate>(
        &mut self,
        desk: &Desk<'_, L, R, K, T, G>,
    ) {
        if !self.level.allows(Level::Warn) {
            return;
        }
        let Ok(state) = desk.core.inspect(desk.rt, desk.alloc) else {
            return;
        };
        let router = desk.core.router();
        let moment = state.facts.moment;
        if let Ok(changes) = changes_text(desk.alloc, router, &self.before, &state) {
            self.tell_at(moment, changes.as_str(), Level::Info);
        }
        if let Ok(waits) = self.waiting.look(desk.alloc, router, &state) {
            self.tell_at(moment, waits.as_str(), Level::Warn);
        }
        self.before = state;
    }

    /// Tells of each port what was lost in a round, if anything was.
    fn tell_round(&self, ports: &[PortCount]) {
        if self.level.allows(Level::Warn) {
            tell_lost(&self.log, &self.links, ports);
        }
    }
}

/// Who attends to a router that runs.
#[derive(Drop)]
pub(crate) struct Attendant<'a, B, O: Write + Drop, E: Write + Drop> {
    /// Its console.
    pub(crate) console: Console<O>,
    /// Who writes its journal, if it is wanted.
    pub(crate) beside: &'a mut B,
    /// Who tells what happens.
    pub(crate) teller: Teller<E>,
}

impl<B: Journaling, O: Write + Drop, E: Write + Drop> Attendant<'_, B, O, E> {
    /// Writes what was handed over of the journal, and tells what is to be told of it.
    pub(crate) fn tell_journal(&mut self) {
        self.beside.after_moment();
        let news = self.beside.take_news();
        self.teller.tell_news(news.as_str());
        let unwritten = self.beside.unwritten(self.teller.before.facts.moment);
        self.console.tell_unwritten(unwritten);
    }

    /// Why the run was to end, if it was.
    pub(crate) fn into_ending(self) -> Option<ConsoleEnding> {
        let Attendant {
            console,
            beside: _,
            teller: _teller,
        } = self;
        console.into_ending()
    }
}

impl<B: Journaling, O: Write + Drop, E: Write + Drop> Operator for Attendant<'_, B, O, E> {
    fn is_done(&self) -> bool {
        self.console.is_done()
    }

    fn attend<
        L: CoreName,
        R: Wait + Drop,
        K: KeepSegments + Drop,
        T: Wait + Clock,
        W: Wire,
        G: Gate,
    >(
        &mut self,
        desk: &Desk<'_, L, R, K, T, G>,
        port: &mut Port<L>,
        wire: &mut W,
        work: &mut Work,
        within_ms: u64,
    ) {
        self.console.attend(desk, port, wire, work, within_ms);
    }

    fn after_moment<L: CoreName, R: Wait + Drop, K: KeepSegments + Drop, T: Wait + Clock, G: Gate>(
        &mut self,
        desk: &Desk<'_, L, R, K, T, G>,
    ) {
        self.teller.look(desk);
        self.tell_journal();
    }

    fn after_round(&mut self, ports: &[PortCount]) {
        self.console.after_round(ports);
        self.teller.tell_round(ports);
    }
}
