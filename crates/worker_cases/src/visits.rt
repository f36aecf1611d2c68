//! Runs in which ports feed one router, each over a wire of its own: one after the other, or all at once.
ghost use Rattle.std.specs.Prelude.{◌≡◌};

use crate::fault::Fault;
use crate::feeding::{open_router, read_config};
use crate::left::Left;
use crate::scripted_wire::{ScriptedWire, WirePlan};
use abstract_paths::Event;
use interface_workers::{
    Core, CoreName, CoreReader, OpenGate, Opened, Port, Work, serve_event, serve_link,
};
use lsr_config::{BUILT_IN, Config};
use std::alloc::{AllocError, Global};
use std::marker::Brand;
use std::sync::Wait;
use std::sync::ledger::Blank;
use std::thread;
use std::thread::Threads;

/// How many ports a router has: as many visits there are at most.
const PORTS: u16 = 4;

/// What a port does in each of its turns.
#[derive(Clone, Copy)]
pub(crate) enum Task {
    /// It asks its wire for a frame, and serves it as one that came over the link of this number.
    Serve(u16),
    /// It feeds a moment, so many milliseconds after the one before.
    Tick(u64),
}

/// The part of a port in a run.
#[derive(Clone, Copy)]
pub(crate) struct Visit {
    /// What it does in each turn.
    pub(crate) task: Task,
    /// How many turns it makes.
    pub(crate) turns: u32,
    /// What happens on its wire.
    pub(crate) plan: WirePlan,
}

/// When visits are made.
#[derive(Clone, Copy)]
pub(crate) enum Order {
    /// One after the other.
    InTurn,
    /// Each in a thread of its own.
    AtOnce,
}

/// What a run leaves, and the wires of its visits in their order.
#[derive(Drop)]
pub(crate) struct Visited {
    /// What it leaves.
    pub(crate) left: Left,
    /// The wires.
    pub(crate) wires: Vec<ScriptedWire>,
}

/// A visit before it is made.
#[derive(Drop)]
struct Visitor<L: CoreName> {
    port: Port<L>,
    reader: CoreReader<L>,
    visit: Visit,
}

/// What a port did in a visit, and its wire.
#[derive(Drop)]
struct Done {
    work: Result<Work, AllocError>,
    wire: ScriptedWire,
}

/// Feeds so many moments, so far apart; where the journal is full its entries are taken. The only error is out of memory.
fn feed_moments<L: CoreName, R: Wait + Drop>(
    rt: &R,
    alloc: Global,
    core: &Core<L, R>,
    port: &mut Port<L>,
    wire: &mut ScriptedWire,
    turns: u32,
    period: u64,
) -> Result<Work, AllocError> {
    let mut work = Work::new(alloc, turns)?;
    for turn in 0..turns {
        let moment = (u64::from(turn) + 1).saturating_mul(period);
        let event = Event::Tick(moment);
        serve_event(rt, alloc, core, port, wire, &OpenGate, &mut work, &event);
    }
    Ok(work)
}

/// Makes a visit.
fn make<L: CoreName, R: Wait + Drop>(
    rt: &R,
    alloc: Global,
    core: &Core<L, R>,
    visitor: Visitor<L>,
) -> Done {
    let Visitor {
        mut port,
        reader,
        visit,
    } = visitor;
    let mut wire = ScriptedWire::new(alloc, visit.plan);
    let turns = visit.turns;
    let work = match visit.task {
        Task::Serve(link) => {
            let (_reader, work) = serve_link(
                rt, alloc, core, &mut port, reader, link, &mut wire, &OpenGate, turns,
            );
            work
        }
        Task::Tick(period) => { feed_moments(rt, alloc, core, &mut port, &mut wire, turns, period) }
    };
    Done { work, wire }
}

/// Makes all visits: what they leave. The only error is out of memory.
fn make_all<L: CoreName + Send + Sync, R: Threads + Wait + Send + Sync + Drop>(
    rt: &R,
    alloc: Global,
    core: Core<L, R>,
    visitors: Vec<Visitor<L>>,
    order: Order,
) -> Result<Visited, AllocError> {
    let shared = &core;
    let all = match order {
        Order::AtOnce => {
            thread::map_vec(rt, visitors, &|visitor| make(rt, alloc, shared, visitor))?
        }
        Order::InTurn => visitors
            .into_iter()
            .map(|visitor| make(rt, alloc, shared, visitor))
            .collect(alloc)?,
    };
    let mut works = Vec::new(alloc);
    let mut wires = Vec::new(alloc);
    for Done { work, wire } in all {
        works.push(work)?;
        wires.push(wire)?;
    }
    let left = Left::gathered(rt, alloc, core, works)?;
    Ok(Visited { left, wires })
}

/// The run of a router of this name.
fn run_named<L: CoreName + Send + Sync, R: Threads + Wait + Clone + Send + Sync + Drop>(
    rt: &R,
    alloc: Global,
    blank: Blank,
    config: Config,
    visits: &[Visit],
    order: Order,
) -> Result<Visited, Fault>
    requires name { blank.name ≡ L.name }
    requires parts { blank.parts ≡ L.parts }
    requires config { config ≡ L.config }
    requires four { blank.parts ≡ PORTS }
{
    let Opened {
        core,
        ports,
        readers,
    } = open_router::<L, R>(alloc, rt.clone()?, blank, config, PORTS)?;
    let visitors = ports
        .into_iter()
        .zip(readers)
        .zip(visits)
        .map(|((port, reader), visit)| Visitor {
            port,
            reader,
            visit: *visit,
        })
        .collect(alloc)?;
    Ok(make_all(rt, alloc, core, visitors, order)?)
}

/// Visits to the built-in router, at most four: what they leave. The fault is out of memory, or no place for a reader.
pub(crate) fn run_visits<R: Threads + Wait + Clone + Send + Sync + Drop>(
    rt: &R,
    alloc: Global,
    visits: &[Visit],
    order: Order,
) -> Result<Visited, Fault> {
    let blank = Blank::new(u64::from(PORTS));
    match read_config(alloc, BUILT_IN) {
        Ok(config) => run_named::<Brand, R>(rt, alloc, blank, config, visits, order),
        Err(fault) => Err(fault),
    }
}
