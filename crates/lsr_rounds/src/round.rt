//! A round of a run: the links' threads serve, and the thread that began the run feeds the clock's moments and attends to the operator.
ghost use Rattle.std.specs.Prelude.{◌≡◌, ◌+◌, All, IfOk, length};
ghost use Rattle.lsr_serve.specs.Below.workers.Chains.{HasRoom, IsWorkOf};
ghost use Rattle.lsr_serve.specs.Reports.{IsReportOf};
ghost use Rattle.lsr_rounds.specs.Attending.{IsAttended};
ghost use Rattle.lsr_rounds.specs.Rounds.{AreSeatsOf, IsGrown};

use crate::operator::{Desk, Operator};
use crate::pace::Pace;
use abstract_paths::Event;
use lsr_serve::workers::{CoreName, Gate, KeepSegments, Port, Wire, Work, serve_event};
use lsr_serve::{RoundFlag, RunReport, Turned, Worker, add_turned, add_work, run_worker};
use std::alloc::AllocError;
use std::sync::Wait;
use std::thread;
use std::thread::Threads;
use std::time::Clock;

/// The ports that are fed by the thread that began a run, and the wire by which both send.
#[derive(Drop)]
pub(crate) struct Seats<L: CoreName, W> {
    /// The clock's port.
    pub(crate) clock: Port<L>,
    /// The operator's port.
    pub(crate) operator: Port<L>,
    /// The wire.
    pub(crate) wire: W,
}

/// What was done by the ports of the thread that began a run.
#[derive(Drop)]
struct SeatWork {
    clock: Work,
    operator: Work,
}

/// What a round left: how much each port did, what it was told and the segments; and the workers, which can go on.
#[derive(Drop)]
pub(crate) struct Round<L: CoreName, W> {
    pub(crate) report: RunReport,
    pub(crate) workers: Vec<Worker<L, W>>,
}

/// How long a round lasts at most, in milliseconds.
const ROUND_MS: u64 = 60_000;

/// Feeds the clock's moments as they come, and attends to the operator between them, until the round is over, or the operator's run, or
/// so many turns were made, or the clock can't be read. The only error is out of memory.
fn serve_seats<
    L: CoreName,
    R: Wait + Drop,
    K: KeepSegments + Drop,
    T: Wait + Clock,
    W: Wire,
    G: Gate,
    O: Operator,
>(
    desk: &Desk<'_, L, R, K, T, G>,
    seats: &mut Seats<L, W>,
    turns: u32,
    round: &RoundFlag,
    pace: &mut Pace,
    operator: &mut O,
) -> Result<SeatWork, AllocError>
    ensures { IfOk result (AreSeatsOf L.config) }
{
    let mut clock = Work::new(desk.alloc, turns)?;
    let mut asked = Work::new(desk.alloc, turns)?;
    let end = pace.next().saturating_add(ROUND_MS);
    for _turn in 0..turns {
        if pace.next() >= end || pace.has_failed() || round.is_over() || operator.is_done() {
            return Ok(SeatWork {
                clock,
                operator: asked,
            });
        }
        serve_turn(desk, seats, pace, operator, &mut clock, &mut asked);
    }
    Ok(SeatWork {
        clock,
        operator: asked,
    })
}

/// Feeds the clock's next moment, if it has come, and does what is done after it; else waits until it comes. Attends to the operator meanwhile, and
/// also where moments are late.
fn serve_turn<
    L: CoreName,
    R: Wait + Drop,
    K: KeepSegments + Drop,
    T: Wait + Clock,
    W: Wire,
    G: Gate,
    O: Operator,
>(
    desk: &Desk<'_, L, R, K, T, G>,
    seats: &mut Seats<L, W>,
    pace: &mut Pace,
    operator: &mut O,
    clock: &mut Work,
    asked: &mut Work,
)
    requires clock { HasRoom clock.old }
    requires asked { HasRoom asked.old }
    ensures clock { IsGrown L.config clock.old clock.new }
    ensures asked { IsGrown L.config asked.old asked.new }
{
    let within_ms = pace.wait_ms(desk.rt);
    if within_ms == 0 {
        feed_moment(desk, seats, clock, pace.pass());
        operator.after_moment(desk);
    }
    operator.attend(desk, &mut seats.operator, &mut seats.wire, asked, within_ms);
}

/// Feeds a moment by the clock's port.
fn feed_moment<
    L: CoreName,
    R: Wait + Drop,
    K: KeepSegments + Drop,
    T: Wait + Clock,
    W: Wire,
    G: Gate,
>(desk: &Desk<'_, L, R, K, T, G>, seats: &mut Seats<L, W>, work: &mut Work, moment: u64)
    requires { HasRoom work.old }
    ensures { IsAttended L.config work.old seats.old.clock.mark seats.old.clock.taken work.new seats.new.clock.mark seats.new.clock.taken }
{
    serve_event(
        desk.rt,
        desk.alloc,
        desk.core,
        &mut seats.clock,
        &mut seats.wire,
        desk.gate,
        work,
        &Event::Tick(moment),
    );
}

/// The seats of a round, which is over for all when they are done.
fn end_seats<
    L: CoreName,
    R: Wait + Drop,
    K: KeepSegments + Drop,
    T: Wait + Clock,
    W: Wire,
    G: Gate,
    O: Operator,
>(
    desk: &Desk<'_, L, R, K, T, G>,
    seats: &mut Seats<L, W>,
    turns: u32,
    round: &RoundFlag,
    pace: &mut Pace,
    operator: &mut O,
) -> Result<SeatWork, AllocError>
    ensures { IfOk result (AreSeatsOf L.config) }
{
    let work = serve_seats(desk, seats, turns, round, pace, operator);
    round.end();
    work
}

/// A worker's turns; when it made all, the round is over for the others too.
fn end_worker<
    L: CoreName,
    R: Wait + Drop,
    K: KeepSegments + Drop,
    T: Wait + Clock,
    W: Wire + Drop,
    G: Gate,
>(
    desk: &Desk<'_, L, R, K, T, G>,
    turns: u32,
    round: &RoundFlag,
    worker: Worker<L, W>,
) -> Turned<L, W>
    ensures { IfOk result.work (IsWorkOf L.config) }
{
    let turned = run_worker(desk.rt, desk.alloc, desk.core, desk.gate, turns, worker);
    round.end();
    turned
}

/// The threads of the links.
fn run_workers<
    L: CoreName + Send + Sync,
    R: Threads + Wait + Clock + Send + Sync + Drop,
    K: KeepSegments + Send + Drop,
    W: Wire + Send + Drop,
    G: Gate + Sync,
>(
    desk: &Desk<'_, L, R, K, R, G>,
    turns: u32,
    round: &RoundFlag,
    workers: Vec<Worker<L, W>>,
) -> Result<Vec<Turned<L, W>>, AllocError>
    ensures each { IfOk result (λ turned. length turned.items ≡ length workers.items) }
    ensures own { IfOk result (λ turned. All (λ one. IfOk one.work (IsWorkOf L.config)) turned.items) }
{
    thread::map_vec(
        desk.rt,
        workers,
        &|worker| end_worker(desk, turns, round, worker),
    )
}

/// A round: each link's thread makes at most so many turns, and so does this one, which feeds the clock's moments and attends to the
/// operator. All have ended when it returns. The only error is out of memory.
pub(crate) fn run_round<
    L: CoreName + Send + Sync,
    R: Threads + Wait + Clock + Send + Sync + Drop,
    K: KeepSegments + Send + Drop,
    W: Wire + Send + Drop,
    G: Gate + Sync,
    O: Operator,
>(
    desk: &Desk<'_, L, R, K, R, G>,
    seats: &mut Seats<L, W>,
    workers: Vec<Worker<L, W>>,
    turns: u32,
    round: &RoundFlag,
    pace: &mut Pace,
    operator: &mut O,
) -> Result<Round<L, W>, AllocError>
    ensures ports { IfOk result (λ made. length made.report.ports.items ≡ length workers.items + 2) }
    ensures workers { IfOk result (λ made. length made.workers.items ≡ length workers.items) }
    ensures own { IfOk result (λ made. IsReportOf L.config made.report) }
{
    round.begin();
    let (turned, served) = thread::join(
        desk.rt,
        || run_workers(desk, turns, round, workers),
        || end_seats(desk, seats, turns, round, pace, operator),
    );
    let SeatWork {
        clock,
        operator: asked,
    } = served?;
    let mut report = RunReport::new(desk.alloc);
    let mut workers = Vec::new(desk.alloc);
    add_turned(&mut report, &mut workers, turned?)?;
    add_work(&mut report, clock)?;
    add_work(&mut report, asked)?;
    Ok(Round { report, workers })
}
