//! A router's run: a thread for each link and one for the clock, over any wires.
ghost use Rattle.std.specs.Prelude.{◌≡◌, ◌+◌, ◌<◌, ◌≤◌, All, IfNone, IfOk, IsPermutation, OnOk, length};
ghost use Rattle.lsr_config.specs.Configs.{Setup};
ghost use Rattle.interface_workers.specs.Chains.{IsWorkOf};
ghost use Rattle.interface_workers.specs.Below.core.Names.{IsSegmentOf};
ghost use Rattle.lsr_serve.specs.Moments.{AreOfMoments, HasClock};
ghost use Rattle.lsr_serve.specs.Reports.{IsCounted, IsPutTo, IsReportOf};

use crate::udp_wire::LinkWire;
use abstract_paths::Event;
use interface_workers::{
    Core, CoreName, CoreReader, Finished, Gate, KeepSegments, OpenFault, Opened, Port, Receipt,
    Segment, Tally, Wire, Work, open, serve_event, serve_link,
};
use lsr_config::Config;
use std::alloc::{AllocError, Global};
use std::marker::Brand;
use std::sync::Wait;
use std::sync::ledger::Blank;
use std::thread;
use std::thread::Threads;
use std::time::{Clock, Duration};

/// How far apart two moments of the clock are, in milliseconds.
pub const TICK_MS: u64 = 100;

/// How much a port did.
#[derive(Clone, Copy, PartialEq, Eq)]
pub struct PortCount {
    /// How many receipts it has.
    pub receipts: usize,
    /// How many of the datagrams that it took became what; of the clock's port, of its moments, and of an operator's, of its events.
    pub tally: Tally,
}

/// What a run leaves.
pub struct RunReport {
    /// How much each port did, in the order of the ports.
    pub ports: Vec<PortCount>,
    /// The receipts of all ports, those of each in its order.
    pub receipts: Vec<Receipt>,
    /// The journal's segments in their order: by the number at their beginning, an empty one first.
    pub segments: Vec<Segment>,
    /// How many segments are kept: all, or those before the first that couldn't be.
    pub kept: u64,
}

/// Written out, so that it is dropped by one call, whatever the run left.
impl Drop for RunReport {
    fn drop(self) {
        let RunReport {
            ports: _ports,
            receipts: _receipts,
            segments: _segments,
            kept: _,
        } = self;
    }
}

/// What whoever began a run does beside its clock. It is done on the thread that began the run, which may do what the others can't, as
/// to write files.
pub trait BesideClock {
    /// What is done after each moment of the clock.
    fn after_moment(&mut self);
}

/// Nothing is done beside the clock.
#[derive(Drop)]
pub struct ClockAlone;

impl BesideClock for ClockAlone {
    fn after_moment(&mut self) {}
}

/// A link's worker before it starts.
#[derive(Drop)]
pub struct Worker<L: CoreName, W> {
    port: Port<L>,
    reader: CoreReader<L>,
    link: u16,
    wire: W,
}

/// A link's worker whose turns are over, and what it did in them. The only error is out of memory, and then it made none.
#[derive(Drop)]
pub struct Turned<L: CoreName, W> {
    /// The worker, which can make more turns.
    pub worker: Worker<L, W>,
    /// What it did.
    pub work: Result<Work, AllocError>,
}

/// A worker's thread: its turns, with what it did.
pub fn run_worker<
    L: CoreName,
    R: Wait + Drop,
    K: KeepSegments + Drop,
    T: Wait,
    W: Wire + Drop,
    G: Gate,
>(
    rt: &T,
    alloc: Global,
    core: &Core<L, R, K>,
    gate: &G,
    turns: u32,
    worker: Worker<L, W>,
) -> Turned<L, W>
    ensures { IfOk result.work (IsWorkOf L.config) }
{
    let Worker {
        mut port,
        reader,
        link,
        mut wire,
    } = worker;
    let (reader, work) = serve_link(
        rt, alloc, core, &mut port, reader, link, &mut wire, gate, turns,
    );
    Turned {
        worker: Worker {
            port,
            reader,
            link,
            wire,
        },
        work,
    }
}

/// The clock's turns: each waits for the next moment and feeds it, and then does what is done beside it; with what it did.
fn run_clock<
    L: CoreName,
    R: Wait + Drop,
    K: KeepSegments + Drop,
    T: Wait,
    C: Clock,
    W: Wire,
    G: Gate,
    B: BesideClock,
>(
    rt: &T,
    clock: &C,
    alloc: Global,
    core: &Core<L, R, K>,
    port: &mut Port<L>,
    wire: &mut W,
    gate: &G,
    turns: u32,
    beside: &mut B,
) -> Result<Work, AllocError>
    ensures own { IfOk result (IsWorkOf L.config) }
    ensures moments { IfOk result (λ work. AreOfMoments turns work.receipts.items × (work.tally.datagrams ≡ turns)) }
{
    let mut work = Work::new(alloc, turns)?;
    for turn in 0..turns {
        thread::sleep(clock, Duration::from_millis(TICK_MS));
        let moment = (u64::from(turn) + 1) * TICK_MS;
        serve_event(
            rt,
            alloc,
            core,
            port,
            wire,
            gate,
            &mut work,
            &Event::Tick(moment),
        );
        beside.after_moment();
    }
    Ok(work)
}

/// The workers of the links, each with the port and the reader of its place. The only error is out of memory, or that there are fewer ports
/// or readers than links.
pub fn link_workers<L: CoreName, W: Drop>(
    alloc: Global,
    ports: Vec<Port<L>>,
    readers: Vec<CoreReader<L>>,
    links: Vec<LinkWire<W>>,
) -> Result<Vec<Worker<L, W>>, AllocError>
    ensures { IfOk result (λ workers. length workers.items ≡ length links.items) }
{
    let mut workers = Vec::with_capacity(alloc, links.len())?;
    let mut places = ports.into_iter().zip(readers);
    for link in links {
        let Some((port, reader)) = places.next() else {
            return Err(AllocError);
        };
        let LinkWire { number, wire } = link;
        workers.push(Worker {
            port,
            reader,
            link: number,
            wire,
        })?;
    }
    Ok(workers)
}

impl RunReport {
    /// Nothing yet.
    pub fn new(alloc: Global) -> RunReport
        ensures ports { length result.ports.items ≡ 0 }
        ensures counted { IsCounted result }
        ensures own { (c : Setup) → IsReportOf c result }
    {
        RunReport {
            ports: Vec::new(alloc),
            receipts: Vec::new(alloc),
            segments: Vec::new(alloc),
            kept: 0,
        }
    }

    /// The number of the first segment that isn't kept, or none where all are.
    pub(crate) fn unkept(&self) -> Option<u64>
        ensures { IfNone result (self.now.kept ≡ length self.now.segments.items) }
    {
        if self.kept == self.segments.len() as u64 {
            return None;
        }
        Some(self.kept.saturating_add(1))
    }
}

/// Puts the work of one more port to what the others left. The only error is out of memory.
pub fn add_work(served: &mut RunReport, work: Work) -> Result<(), AllocError>
    ensures put { OnOk result (IsPutTo served.old work served.new) }
    ensures ports { OnOk result (length served.new.ports.items ≡ length served.old.ports.items + 1) }
    ensures counted { IsCounted served.old → OnOk result (IsCounted served.new) }
    ensures own { (c : Setup) → IsReportOf c served.old → IsWorkOf c work → OnOk result (IsReportOf c served.new) }
{
    let Work {
        mut receipts,
        mut segments,
        tally,
        turns: _,
    } = work;
    served.ports.push(PortCount {
        receipts: receipts.len(),
        tally,
    })?;
    served.receipts.append(&mut receipts)?;
    served.segments.append(&mut segments)?;
    Ok(())
}

/// Puts what workers did to what the others left, and the workers to those whose turns are over. The only error is out of memory.
pub fn add_turned<L: CoreName, W: Drop>(
    served: &mut RunReport,
    workers: &mut Vec<Worker<L, W>>,
    turned: Vec<Turned<L, W>>,
) -> Result<(), AllocError>
    requires { IsCounted served.old }
    ensures ports { OnOk result (length served.new.ports.items ≡ length served.old.ports.items + length turned.items) }
    ensures workers { OnOk result (length workers.new.items ≡ length workers.old.items + length turned.items) }
    ensures counted { OnOk result (IsCounted served.new) }
    ensures own { (c : Setup) → IsReportOf c served.old → All (λ one. IfOk one.work (IsWorkOf c)) turned.items → OnOk result (IsReportOf c served.new) }
{
    for one in turned {
        let Turned { worker, work } = one;
        workers.push(worker)?;
        add_work(served, work?)?;
    }
    Ok(())
}

/// Puts segments in their order: by the number at their beginning, an empty one first. The only error is out of memory.
fn sort_segments(segments: &mut Vec<Segment>) -> Result<(), AllocError>
    ensures { IsPermutation segments.old.items segments.new.items }
{
    segments.sort_by_key(|segment| (segment.from().number(), segment.entries().len()))?;
    Ok(())
}

/// Puts one more segment to what the ports left, all segments in their order. The only error is out of memory.
pub fn add_segment(served: &mut RunReport, segment: Segment) -> Result<(), AllocError>
    ensures ports { served.new.ports ≡ served.old.ports }
    ensures receipts { served.new.receipts ≡ served.old.receipts }
    ensures own { (c : Setup) → IsReportOf c served.old → IsSegmentOf c segment → OnOk result (IsReportOf c served.new) }
{
    served.segments.push(segment)?;
    sort_segments(&mut served.segments)?;
    Ok(())
}

/// Puts what the core leaves to what the ports left, all segments in their order: who keeps them. The only error is out of memory.
pub fn add_finished<K: KeepSegments + Drop>(
    served: &mut RunReport,
    finished: Finished<K>,
) -> Result<K, AllocError>
    ensures ports { served.new.ports ≡ served.old.ports }
    ensures receipts { served.new.receipts ≡ served.old.receipts }
    ensures kept { IfOk result (λ keeper. (keeper ≡ finished.keeper) × (served.new.kept ≡ finished.kept)) }
    ensures own { (c : Setup) → IsReportOf c served.old → IsSegmentOf c finished.last → OnOk result (IsReportOf c served.new) }
{
    let Finished { last, keeper, kept } = finished;
    add_segment(served, last)?;
    served.kept = kept;
    Ok(keeper)
}

/// The threads of the links: the workers in their order, and what each did. The only error is out of memory.
pub fn run_workers<
    L: CoreName + Send + Sync,
    R: Threads + Wait + Send + Sync + Drop,
    K: KeepSegments + Send + Drop,
    W: Wire + Send + Drop,
    G: Gate + Sync,
>(
    rt: &R,
    alloc: Global,
    core: &Core<L, R, K>,
    workers: Vec<Worker<L, W>>,
    gate: &G,
    turns: u32,
) -> Result<Vec<Turned<L, W>>, AllocError>
    ensures each { IfOk result (λ turned. length turned.items ≡ length workers.items) }
    ensures own { IfOk result (λ turned. All (λ one. IfOk one.work (IsWorkOf L.config)) turned.items) }
{
    thread::map_vec(
        rt,
        workers,
        &|worker| run_worker(rt, alloc, core, gate, turns, worker),
    )
}

/// The threads of the links and of the clock, and what they leave. The only error is out of memory.
fn run_threads<
    L: CoreName + Send + Sync,
    R: Threads + Wait + Clone + Send + Sync + Drop,
    K: KeepSegments + Send + Drop,
    C: Clock,
    W: Wire + Send + Drop,
    G: Gate + Sync,
    B: BesideClock,
>(
    rt: &R,
    clock: &C,
    alloc: Global,
    core: &Core<L, R, K>,
    workers: Vec<Worker<L, W>>,
    clock_port: &mut Port<L>,
    clock_wire: &mut W,
    gate: &G,
    turns: u32,
    beside: &mut B,
) -> Result<RunReport, AllocError>
    ensures ports { IfOk result (λ served. length served.ports.items ≡ length workers.items + 1) }
    ensures counted { IfOk result IsCounted }
    ensures own { IfOk result (IsReportOf L.config) }
    ensures clock { IfOk result (HasClock turns) }
{
    let (turned, clock_work) = thread::join(
        rt,
        || run_workers(rt, alloc, core, workers, gate, turns),
        || run_clock(
            rt, clock, alloc, core, clock_port, clock_wire, gate, turns, beside,
        ),
    );
    let mut served = RunReport::new(alloc);
    let mut workers = Vec::new(alloc);
    add_turned(&mut served, &mut workers, turned?)?;
    add_work(&mut served, clock_work?)?;
    Ok(served)
}

/// The run of a router of this name.
fn serve_named<
    L: CoreName + Send + Sync,
    R: Threads + Wait + Clone + Send + Sync + Drop,
    K: KeepSegments + Send + Drop,
    C: Clock,
    W: Wire + Send + Drop,
    G: Gate + Sync,
    B: BesideClock,
>(
    rt: &R,
    clock: &C,
    alloc: Global,
    blank: Blank,
    config: Config,
    links: Vec<LinkWire<W>>,
    clock_wire: W,
    gate: &G,
    turns: u32,
    keeper: K,
    beside: &mut B,
) -> Result<(RunReport, K), OpenFault>
    requires name { blank.name ≡ L.name }
    requires parts { blank.parts ≡ L.parts }
    requires config { config ≡ L.config }
    requires ports { (length links.items + 1 ≤ L.parts) × (L.parts ≤ 64) }
    requires none { K.given keeper ≡ 0 }
    ensures ports { IfOk result (λ served. length served.0.ports.items ≡ length links.items + 1) }
    ensures counted { IfOk result (λ served. IsCounted served.0) }
    ensures own { IfOk result (λ served. IsReportOf L.config served.0) }
    ensures clock { IfOk result (λ served. HasClock turns served.0) }
    ensures kept { IfOk result (λ served. K.given served.1 ≡ served.0.kept) }
{
    let count = links.len();
    let Opened {
        core,
        mut ports,
        readers,
    } = open::<L, R, K>(
        alloc,
        rt.clone()?,
        blank,
        config,
        count as u16 + 1,
        count,
        keeper,
    )?;
    let Some(mut clock_port) = ports.pop() else {
        return Err(OpenFault::Memory);
    };
    let mut clock_wire = clock_wire;
    let workers = link_workers(alloc, ports, readers, links)?;
    let mut served = run_threads(
        rt,
        clock,
        alloc,
        &core,
        workers,
        &mut clock_port,
        &mut clock_wire,
        gate,
        turns,
        beside,
    )?;
    let keeper = add_finished(&mut served, core.finish(alloc)?)?;
    Ok((served, keeper))
}

/// The run of the router of a configuration. Each link has a port, 1, 2 and so on in their order, and a thread that makes so
/// many turns on its wire; the last port is the clock's, which feeds as many moments, 100 milliseconds apart, and sends from a
/// wire of its own; after each moment that thread, which began the run, does what is done beside the clock. All threads have ended when it returns. Where a thread can't be made, its turns are made after the others'.
/// Who keeps the journal has no segment yet. It is given each segment as soon as it is taken, where the journal is full and when all threads
/// have ended, up to the first that can't be kept; it comes back. The report has all ports, and the receipts of all; receipts and segments
/// are of the router of the configuration. The fault is that there is too little memory, or no place for a reader of the label table.
pub fn serve_on<
    R: Threads + Wait + Clone + Send + Sync + Drop,
    K: KeepSegments + Send + Drop,
    C: Clock,
    W: Wire + Send + Drop,
    G: Gate + Sync,
    B: BesideClock,
>(
    rt: &R,
    clock: &C,
    alloc: Global,
    config: Config,
    links: Vec<LinkWire<W>>,
    clock_wire: W,
    gate: &G,
    turns: u32,
    keeper: K,
    beside: &mut B,
) -> Result<(RunReport, K), OpenFault>
    requires few { length links.items < 64 }
    requires none { K.given keeper ≡ 0 }
    ensures ports { IfOk result (λ served. length served.0.ports.items ≡ length links.items + 1) }
    ensures counted { IfOk result (λ served. IsCounted served.0) }
    ensures own { IfOk result (λ served. IsReportOf config served.0) }
    ensures clock { IfOk result (λ served. HasClock turns served.0) }
    ensures kept { IfOk result (λ served. K.given served.1 ≡ served.0.kept) }
{
    let blank = Blank::new(links.len() as u64 + 1);
    serve_named::<Brand, R, K, C, W, G, B>(
        rt, clock, alloc, blank, config, links, clock_wire, gate, turns, keeper, beside,
    )
}
