//! `lsr serve`: the links of a configuration over sockets, and what is told of the run.
ghost use Rattle.std.specs.Prelude.{◌≡◌, ◌+◌, ◌<◌, ℕ, List, length, IfErr, IfOk, OnOk};
ghost use Rattle.std.specs.Io.KnownBytes.{Appends};
ghost use Rattle.run_reconciler.specs.Judged.{IsNoRun, ServesRun};
ghost use Rattle.lsr_serve.specs.Told.{Serves, TellsRun};

use crate::run::{BesideClock, PortCount, RunReport, serve_on};
use crate::udp_wire::{LinkWire, ServeFault, UdpWire, open_clock_wire, open_wires};
use interface_workers::{KeepSegments, OpenGate, Segment};
use log::sink::Writer;
use log::{Log, error, info, warn};
use lsr_config::{Config, LinkSockets};
use run_reconciler::{Mismatch, judge};
use sorted_rows::{Table, TryCopy};
use std::alloc::{AllocError, Global};
use std::io::Write;
use std::net::Net;
use std::sync::Wait;
use std::thread::Threads;
use std::time::Clock;
use std::{fmt, io};

/// The status of a run that is one run.
const DONE: u8 = 0;
/// The status of one that isn't, or that didn't begin.
const FAILED: u8 = 1;

/// A configuration like this one. The only error is out of memory.
pub fn copy_config(alloc: Global, config: &Config) -> Result<Config, AllocError>
    ensures { IfOk result (λ copy. copy ≡ config.now) }
{
    config.opens();
    Ok(Config {
        router: config.router.try_copy(alloc)?,
        routes: config.routes.try_copy(alloc)?,
        tunnels: config.tunnels.try_copy(alloc)?,
        bypasses: config.bypasses.try_copy(alloc)?,
    })
}

/// Whose port one is.
#[derive(Clone, Copy)]
enum PortName {
    /// That of the link of this number.
    Link(u16),
    /// That of the clock.
    Clock,
    /// That of the operator.
    Console,
}

impl PortName {
    /// Whose port is the one after so many: those of these links come first, then the clock's, then the operator's.
    fn after(before: usize, links: &Table<u16, LinkSockets>) -> PortName {
        match links.as_slice().get(before) {
            Some(link) => PortName::Link(link.0),
            None if before == links.as_slice().len() => PortName::Clock,
            None => PortName::Console,
        }
    }
}

impl fmt::Display for PortName {
    fn fmt<W: fmt::Write>(&self, f: &mut fmt::Formatter<W>) -> fmt::Result {
        match self {
            PortName::Link(link) => write!(f, "link {link}"),
            PortName::Clock => f.write_str("clock"),
            PortName::Console => f.write_str("console"),
        }
    }
}

/// Logs how much each port did: those of these links in their order, the clock's, and the operator's if there is one. A line that can't be
/// written is left out.
pub fn tell_ports<L: Log>(log: &L, links: &Table<u16, LinkSockets>, ports: &[PortCount]) {
    for (before, count) in ports.iter().enumerate() {
        let name = PortName::after(before, links);
        let tally = count.tally;
        info!(log; target: "", "{name}: {} received: {} processed, {} forwarded, {} dropped, {} refused; {} frames not sent, {} socket errors",
            tally.datagrams, tally.fed, tally.passed, tally.dropped, tally.refused, tally.lost, tally.faults);
    }
}

/// Logs of each port how many datagrams were dropped or refused, how many frames weren't sent, and how often its socket failed, where any were,
/// or it did. A line that can't be written is left out.
pub fn tell_lost<L: Log>(log: &L, links: &Table<u16, LinkSockets>, ports: &[PortCount]) {
    for (before, count) in ports.iter().enumerate() {
        let name = PortName::after(before, links);
        let tally = count.tally;
        if tally.dropped > 0 || tally.refused > 0 {
            warn!(log; target: "", "{name}: of {} received {} dropped, {} refused", tally.datagrams, tally.dropped, tally.refused);
        }
        if tally.lost > 0 || tally.faults > 0 {
            warn!(log; target: "", "{name}: {} frames not sent, {} socket errors", tally.lost, tally.faults);
        }
    }
}

/// Logs how many LSPs the router knows at the end of its last segment. A line that can't be written is left out.
pub fn tell_end<L: Log>(log: &L, last: Option<&Segment>) {
    if let Some(last) = last {
        let state = last.end();
        let paths = state.facts.paths.as_slice().len();
        let resvs = state.resvs.as_slice().len();
        let repairs = state.repairs.as_slice().len();
        info!(log; target: "", "router: {paths} paths, {resvs} reservations, {repairs} repairs");
    }
}

/// Logs which segment, counted from 1, doesn't go on from what was before it, where a mismatch names one: of 0 nothing is told. A line that
/// can't be written is left out.
pub fn tell_gap<L: Log>(log: &L, segment: u64) {
    if segment > 0 {
        error!(log; target: "", "segment {segment} of the journal doesn't go on from what was before it");
    }
}

/// Whether what a run left is one run of the router of this configuration, as [`judge`] says.
fn judge_report(config: &Config, served: &RunReport) -> Result<(), Mismatch>
    ensures run { OnOk result
        (ServesRun config.now (length served.now.ports.items) served.now.segments.items served.now.receipts.items) }
    ensures mismatch { IfErr result
        (IsNoRun config.now (length served.now.ports.items) served.now.segments.items served.now.receipts.items) }
{
    let segments = served.segments.as_slice();
    let receipts = served.receipts.as_slice();
    judge(config, served.ports.len(), segments, receipts)
}

/// Prints whether what a run left is one run of the router of this configuration, as [`judge`] says, and how many entries its journal
/// has; and gives the status, 0 or 1. Where a segment doesn't go on, the error stream is told which. The error is the output's.
pub fn tell_run<W: Write, E: Write>(
    config: &Config,
    served: &RunReport,
    output: &mut W,
    error: &mut E,
) -> io::Result<u8>
    ensures { IfOk result (λ status. (text : List ℕ) × Appends (W.contents output.old) (W.contents output.new) text
        × TellsRun config.now (length served.now.ports.items) served.now.segments.items served.now.receipts.items text status) }
{
    match judge_report(config, served) {
        Ok(()) => {
            let count = served.receipts.len();
            write!(output, "reconciled {count} entries\n")?;
            Ok(DONE)
        }
        Err(
            Mismatch {
                port,
                place,
                segment,
            },
        ) => {
            tell_gap(&Writer::new(error), segment);
            write!(output, "mismatch {port} {place}\n")?;
            Ok(FAILED)
        }
    }
}

/// The wires of the links, and that of the clock.
fn open_all<'a, R: Net>(
    net: &R,
    alloc: Global,
    links: &'a Table<u16, LinkSockets>,
) -> Result<(Vec<LinkWire<UdpWire<'a>>>, UdpWire<'a>), ServeFault>
    ensures { IfOk result (λ wires. length wires.0.items ≡ length links.now) }
{
    let wires = open_wires(net, alloc, links)?;
    let clock_wire = open_clock_wire(net, links)?;
    Ok((wires, clock_wire))
}

/// What the run of the links leaves, with a port for each and one for the clock, and who keeps its journal, that has all segments. The
/// fault is that a socket can't be had, and then nothing was started, that memory ran out, or that a segment wasn't kept.
fn served<
    R: Net + Threads + Wait + Clock + Clone + Send + Sync + Drop,
    K: KeepSegments + Send + Drop,
    B: BesideClock,
>(
    rt: &R,
    alloc: Global,
    config: Config,
    links: &Table<u16, LinkSockets>,
    turns: u32,
    keeper: K,
    beside: &mut B,
) -> Result<(RunReport, K), ServeFault>
    requires few { length links.now < 64 }
    requires none { K.given keeper ≡ 0 }
    ensures ports { IfOk result (λ served. length served.0.ports.items ≡ length links.now + 1) }
    ensures kept { IfOk result (λ served. K.given served.1 ≡ length served.0.segments.items) }
{
    let (wires, clock_wire) = open_all(rt, alloc, links)?;
    let Ok((served, keeper)) = serve_on(
        rt, rt, alloc, config, wires, clock_wire, &OpenGate, turns, keeper, beside,
    ) else {
        return Err(ServeFault::Memory);
    };
    match served.unkept() {
        None => Ok((served, keeper)),
        Some(number) => Err(ServeFault::Unkept(number)),
    }
}

/// Logs what a run left, and prints whether it is one run of the router of this configuration, with its status, as [`tell_run`] does.
fn tell_served<W: Write, E: Write>(
    config: &Config,
    links: &Table<u16, LinkSockets>,
    served: &RunReport,
    output: &mut W,
    error: &mut E,
) -> io::Result<u8>
    ensures { IfOk result (Serves config.now (length served.now.ports.items) (W.contents output.old) (W.contents output.new)) }
{
    let log = Writer::new(error);
    tell_ports(&log, links, served.ports.as_slice());
    tell_end(&log, served.segments.as_slice().last());
    tell_run(config, served, output, log.into_inner())
}

/// `lsr serve`: the router of the configuration serves these links, its own, over sockets, so many turns each; a turn takes 100
/// milliseconds at most. After each moment of the clock the thread that called it does what is done beside it. Who keeps the journal has no segment yet, and is given each one as soon as it is taken, while the run goes on, up to the first that can't be kept.
/// Logs how much each port did on the error stream, prints
/// whether what was told is one run of that router from its opening on, and gives the status: 0 where it is, 1 where it isn't, where
/// a socket can't be had, where a segment isn't kept, or where memory ran out, which the error stream is told. The error is that a
/// stream could not be written.
pub fn serve_links<
    R: Net + Threads + Wait + Clock + Clone + Send + Sync + Drop,
    K: KeepSegments + Send + Drop,
    B: BesideClock,
    W: Write,
    E: Write,
>(
    rt: &R,
    alloc: Global,
    config: Config,
    links: &Table<u16, LinkSockets>,
    turns: u32,
    keeper: K,
    beside: &mut B,
    output: &mut W,
    error: &mut E,
) -> io::Result<u8>
    requires few { length links.now < 64 }
    requires none { K.given keeper ≡ 0 }
    ensures { IfOk result (Serves config (length links.now + 1) (W.contents output.old) (W.contents output.new)) }
{
    let fault = match copy_config(alloc, &config) {
        Ok(opened) => match served(rt, alloc, opened, links, turns, keeper, beside) {
            Ok((served, _keeper)) => return tell_served(&config, links, &served, output, error),
            Err(fault) => fault,
        },
        Err(_) => ServeFault::Memory,
    };
    write!(error, "{fault}\n")?;
    Ok(FAILED)
}
