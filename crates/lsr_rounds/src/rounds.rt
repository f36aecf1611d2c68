//! A run in rounds: threads serve, what they left is reconciled and given up, and the next round goes on.
ghost use Rattle.std.specs.Prelude.{◌≡◌, ◌+◌, ◌<◌, ◌≤◌, IfOk, length};
ghost use Rattle.lsr_rounds.specs.Ended.{IsRunOfRounds, IsSoFar};
ghost use Rattle.lsr_serve.specs.Below.workers.Below.core.Names.{IsSegmentOf};
ghost use Rattle.lsr_serve.specs.Reports.{IsReportOf};

use crate::fault::RunFault;
use crate::operator::{Desk, Operator};
use crate::pace::Pace;
use crate::round::{Round, Seats, run_round};
use crate::so_far::RunSoFar;
use lsr_config::Config;
use lsr_serve::workers::{Core, CoreName, Finished, Gate, KeepSegments, Opened, Wire, open};
use lsr_serve::{
    LinkWire, RoundFlag, RunReport, Worker, add_finished, add_segment, copy_config, link_workers,
};
use std::alloc::{AllocError, Global};
use std::marker::Brand;
use std::sync::Wait;
use std::sync::ledger::Blank;
use std::thread::Threads;
use std::time::Clock;

/// How many turns a link's thread makes in a round at most, and how many events each other port feeds.
pub const ROUND_TURNS: u32 = 16_384;
/// How many ports are fed by the thread that began the run: the clock's and the operator's.
const SEATS: usize = 2;

/// What a run left that was told to end: what is known of it, and how many segments of its journal are kept.
pub struct RunEnd {
    /// The run: at least one round, and all of them reconciled.
    pub run: RunSoFar,
    /// How many segments are kept: all, or those before the first that couldn't be.
    pub kept: u64,
}

/// Written out, so that it is dropped by one call, whatever it holds.
impl Drop for RunEnd {
    fn drop(self) {
        let RunEnd { run: _run, kept: _ } = self;
    }
}

/// Rounds, each reconciled and given up, until the operator is done: what is known of them, and what the last one left.
fn run_rounds<
    L: CoreName + Send + Sync,
    R: Threads + Wait + Clock + Send + Sync + Drop,
    K: KeepSegments + Send + Drop,
    W: Wire + Send + Drop,
    G: Gate + Sync,
    O: Operator,
>(
    desk: &Desk<'_, L, R, K, R, G>,
    config: &Config,
    seats: &mut Seats<L, W>,
    workers: Vec<Worker<L, W>>,
    round: &RoundFlag,
    operator: &mut O,
) -> Result<(RunSoFar, RunReport), RunFault>
    requires { config.now ≡ L.config }
    ensures so_far { IfOk result (λ left. IsSoFar L.config (length workers.items + 2) left.0) }
    ensures ports { IfOk result (λ left. length left.1.ports.items ≡ length workers.items + 2) }
    ensures own { IfOk result (λ left. IsReportOf L.config left.1) }
{
    let Ok(mut pace) = Pace::start(desk.rt) else {
        return Err(RunFault::Clock);
    };
    let mut so_far = RunSoFar::new(desk.alloc);
    let mut workers = workers;
    for _ in desk.rt.forever() {
        let made = run_round(
            desk,
            seats,
            workers,
            ROUND_TURNS,
            round,
            &mut pace,
            operator,
        )?;
        let Round {
            mut report,
            workers: back,
        } = made;
        if operator.is_done() {
            return Ok((so_far, report));
        }
        if pace.has_failed() {
            return Err(RunFault::Clock);
        }
        let segment = desk.core.rotate(desk.rt, desk.alloc, &mut seats.clock)?;
        add_segment(&mut report, segment.into_segment())?;
        let ports = so_far.add(config, report)?;
        operator.after_round(ports.as_slice());
        workers = back;
    }
    unreachable!()
}

/// The rounds of a core that was opened, until the operator is done: what is known of them, what the last one left, and the core's end. The
/// keeper is given the entries since the last segment also where a round ends with a fault.
fn run_core<
    L: CoreName + Send + Sync,
    R: Threads + Wait + Clock + Send + Sync + Drop,
    K: KeepSegments + Send + Drop,
    W: Wire + Send + Drop,
    G: Gate + Sync,
    O: Operator,
>(
    rt: &R,
    alloc: Global,
    core: Core<L, R, K>,
    config: &Config,
    gate: &G,
    seats: Seats<L, W>,
    workers: Vec<Worker<L, W>>,
    round: &RoundFlag,
    operator: &mut O,
) -> Result<(RunSoFar, RunReport, Finished<K>), RunFault>
    requires { config.now ≡ L.config }
    ensures so_far { IfOk result (λ left. IsSoFar L.config (length workers.items + 2) left.0) }
    ensures ports { IfOk result (λ left. length left.1.ports.items ≡ length workers.items + 2) }
    ensures own { IfOk result (λ left. IsReportOf L.config left.1) }
    ensures given { IfOk result (λ left. K.given left.2.keeper ≡ left.2.kept) }
    ensures last { IfOk result (λ left. IsSegmentOf L.config left.2.last) }
{
    let mut seats = seats;
    let desk = Desk {
        rt,
        alloc,
        core: &core,
        gate,
    };
    let ran = run_rounds(&desk, config, &mut seats, workers, round, operator);
    let finished = core.finish(alloc);
    let (so_far, report) = ran?;
    Ok((so_far, report, finished?))
}

/// The run of a router of this name.
fn serve_named<
    L: CoreName + Send + Sync,
    R: Threads + Wait + Clock + Clone + Send + Sync + Drop,
    K: KeepSegments + Send + Drop,
    W: Wire + Send + Drop,
    G: Gate + Sync,
    O: Operator,
>(
    rt: &R,
    alloc: Global,
    blank: Blank,
    config: &Config,
    links: Vec<LinkWire<W>>,
    wire: W,
    gate: &G,
    round: &RoundFlag,
    keeper: K,
    operator: &mut O,
) -> Result<(RunEnd, K), RunFault>
    requires name { blank.name ≡ L.name }
    requires parts { blank.parts ≡ L.parts }
    requires config { config.now ≡ L.config }
    requires ports { (length links.items + 2 ≤ L.parts) × (L.parts ≤ 64) }
    requires none { K.given keeper ≡ 0 }
    ensures run { IfOk result (λ ended. IsRunOfRounds L.config (length links.items + 2) ended.0.run) }
    ensures kept { IfOk result (λ ended. K.given ended.1 ≡ ended.0.kept) }
{
    let count = links.len();
    let Opened {
        core,
        mut ports,
        readers,
    } = open::<L, R, K>(
        alloc,
        rt.clone()?,
        blank,
        copy_config(alloc, config)?,
        (count + SEATS) as u16,
        count,
        keeper,
    )?;
    let (Some(operator_port), Some(clock_port)) = (ports.pop(), ports.pop()) else {
        return Err(RunFault::from(AllocError));
    };
    let workers = link_workers(alloc, ports, readers, links)?;
    let seats = Seats {
        clock: clock_port,
        operator: operator_port,
        wire,
    };
    let (mut so_far, mut report, finished) = run_core(
        rt, alloc, core, config, gate, seats, workers, round, operator,
    )?;
    let keeper = add_finished(&mut report, finished)?;
    let kept = report.kept;
    let ports = so_far.add(config, report)?;
    operator.after_round(ports.as_slice());
    Ok((RunEnd { run: so_far, kept }, keeper))
}

/// The run of the router of a configuration, in rounds, until the operator is done. Each link has a port, 1, 2 and so on in their order, and a
/// thread; the last two ports are the clock's and the operator's, which the thread that calls this feeds. When a round is over, all threads
/// have ended, and what they left is reconciled with the rounds before it, and given up. The fault is that a round is no run with those
/// before it, that there is too little memory, or no place for a reader of the label table, or that the clock can't be read.
pub fn serve_rounds<
    R: Threads + Wait + Clock + Clone + Send + Sync + Drop,
    K: KeepSegments + Send + Drop,
    W: Wire + Send + Drop,
    G: Gate + Sync,
    O: Operator,
>(
    rt: &R,
    alloc: Global,
    config: &Config,
    links: Vec<LinkWire<W>>,
    wire: W,
    gate: &G,
    round: &RoundFlag,
    keeper: K,
    operator: &mut O,
) -> Result<(RunEnd, K), RunFault>
    requires few { length links.items < 62 }
    requires none { K.given keeper ≡ 0 }
    ensures run { IfOk result (λ ended. IsRunOfRounds config.now (length links.items + 2) ended.0.run) }
    ensures kept { IfOk result (λ ended. K.given ended.1 ≡ ended.0.kept) }
{
    let blank = Blank::new(links.len() as u64 + SEATS as u64);
    serve_named::<Brand, R, K, W, G, O>(
        rt, alloc, blank, config, links, wire, gate, round, keeper, operator,
    )
}
