//! Cases of the built-in router as `lsr serve` serves it, over wires in memory and by a clock that never waits.
ghost use Rattle.std.specs.Prelude.{◌≡◌, IfOk, length};

use crate::fault::Fault;
use crate::feeding::read_config;
use crate::frames::{IN_LINK, OUT_LINK, TEAR_FRAME};
use crate::scripted_wire::{SILENT, ScriptedWire, WirePlan};
use interface_workers::{Gate, KeepSegments, NotKept, Segment};
use lsr_config::BUILT_IN;
use lsr_serve::{ClockAlone, LinkWire, RunReport, serve_on, tell_run};
use std::alloc::{AllocError, Global};
use std::sync::Wait;
use std::sync::atomic::{AtomicBool, AtomicU64, Ordering};
use std::thread::Threads;
use std::time::{Clock, Duration};
use std::{io, thread};

/// The ports of the links, in their order, and the clock's.
const HELD_PORT: u16 = 1;

const FREE_PORT: u16 = 2;

const CLOCK_PORT: u16 = 3;
/// How long a port that is held sleeps until it looks again, in milliseconds.
const LOOK_MS: u64 = 10;
/// How often it looks: ten seconds in all.
const MOST_LOOKS: u32 = 1_000;

/// A router that has the first of the built-in router's links alone.
const OTHER: &str = r#"
router = "10.0.0.2"
refresh_ms = 30000
labels = [16, 4111]

[[link]]
number = 1
address = "10.1.0.2"
peer = "10.1.0.1"
peer_router = "10.0.0.1"
limit = 1250000
"#;

/// A run.
#[derive(Clone, Copy)]
struct Case {
    /// What it is called.
    name: &'static str,
    /// What happens on the wire of each link.
    plan: WirePlan,
    /// How many turns each link makes, and how many moments the clock feeds.
    turns: u32,
    /// Whether the first call of port 1 is held until that of port 2 has left.
    is_held: bool,
    /// How many segments can be kept.
    room: u64,
    /// Whether there are as many segments each time.
    is_counted: bool,
}

/// Nothing comes but three moments, and all segments are kept.
const SHORT: Case = Case {
    name: "silent links",
    plan: SILENT,
    turns: 3,
    is_held: false,
    room: u64::MAX,
    is_counted: true,
};
/// PathTears of an LSP that isn't known come again and again, so that each of three threads feeds more than a segment holds.
const LONG: Case = Case {
    name: "all kept",
    plan: WirePlan {
        arrivals: &[TEAR_FRAME],
        is_endless: true,
        ..SILENT
    },
    turns: 5_000,
    is_counted: false,
    ..SHORT
};
/// These; more moments than a segment holds; and one PathTear over each link.
const CASES: [Case; 5] = [
    SHORT,
    Case {
        name: "a long run",
        turns: 5_000,
        ..SHORT
    },
    Case {
        name: "both at once",
        plan: WirePlan {
            arrivals: &[TEAR_FRAME],
            ..SILENT
        },
        turns: 2,
        is_held: true,
        ..SHORT
    },
    LONG,
    Case {
        name: "one kept",
        room: 1,
        is_counted: true,
        ..LONG
    },
];

/// A clock that never waits.
#[derive(Clone, Copy)]
struct Hasty;

impl Clock for Hasty {
    fn monotonic(&self) -> io::Result<Duration> {
        Ok(Duration::from_millis(0))
    }

    fn since_1970(&self) -> io::Result<Duration> {
        Ok(Duration::from_millis(0))
    }
}

/// The gate of a run. It holds port 1, where that is asked for, for ten seconds at most, and looks at the last call of the clock's port
/// whether entries are kept.
#[derive(Drop)]
struct Watch<'a> {
    clock: &'a HostRuntime,
    case: Case,
    entries: &'a AtomicU64,
    has_left: AtomicBool,
    has_waited: AtomicBool,
    is_early: AtomicBool,
}

impl<'a> Watch<'a> {
    /// The gate of this run before it.
    fn new(clock: &'a HostRuntime, case: Case, entries: &'a AtomicU64) -> Watch<'a> {
        Watch {
            clock,
            case,
            entries,
            has_left: AtomicBool::new(false),
            has_waited: AtomicBool::new(false),
            is_early: AtomicBool::new(false),
        }
    }

    /// Waits until port 2 has left.
    fn wait(&self) {
        for _look in 0..MOST_LOOKS {
            if self.has_left.load(Ordering::SeqCst) {
                self.has_waited.store(true, Ordering::SeqCst);
                return;
            }
            thread::sleep(self.clock, Duration::from_millis(LOOK_MS));
        }
    }
}

impl<'a> Gate for Watch<'a> {
    fn enter(&self, port: u16, call: u64) {
        if self.case.is_held && port == HELD_PORT && call == 1 {
            self.wait();
        }
        let is_last = port == CLOCK_PORT && call == u64::from(self.case.turns);
        if is_last && self.entries.load(Ordering::SeqCst) > 0 {
            self.is_early.store(true, Ordering::SeqCst);
        }
    }

    fn leave(&self, port: u16, call: u64) {
        if port == FREE_PORT && call == 1 {
            self.has_left.store(true, Ordering::SeqCst);
        }
    }
}

/// Keeps segments as far as there is room, none of them really: looks whether each begins where the one before ended, and counts their
/// entries.
#[derive(Drop)]
struct Keeper<'a> {
    room: u64,
    asked: u64,
    segments: u64,
    is_in_order: bool,
    entries: &'a AtomicU64,
}

impl<'a> KeepSegments for Keeper<'a> {
    ghost given = { λ keeper. keeper.segments };

    fn keep(&mut self, number: u64, segment: &Segment) -> Result<(), NotKept> {
        self.asked = self.asked.saturating_add(1);
        if number > self.room {
            return Err(NotKept);
        }
        let before = self.entries.load(Ordering::SeqCst);
        let entries = segment.entries().len() as u64;
        self.is_in_order = self.is_in_order && segment.from().number() == before;
        self.entries
            .store(before.saturating_add(entries), Ordering::SeqCst);
        self.segments = number;
        Ok(())
    }
}

/// Prints what became of the segments of a run, and of port 1.
fn tell_kept(
    rt: &HostRuntime,
    watch: &Watch<'_>,
    keeper: &Keeper<'_>,
    served: &RunReport,
) -> Result<(), Fault> {
    let of = watch.case.name;
    let has_waited = watch.has_waited.load(Ordering::SeqCst);
    println!(rt; "{of}: port 1 was held until port 2 had left: {has_waited}")?;
    let kept = served.kept;
    let is_all = kept == served.segments.len() as u64;
    let is_in_order = keeper.is_in_order && kept == keeper.segments;
    let entries = watch.entries.load(Ordering::SeqCst);
    let is_early = watch.is_early.load(Ordering::SeqCst);
    println!(rt;
        "{of}: {entries} entries kept, all: {is_all}, in order: {is_in_order}, before the end: {is_early}"
    )?;
    if watch.case.is_counted {
        let asked = keeper.asked;
        println!(rt; "{of}: {kept} segments kept, of {asked} that were given")?;
    }
    Ok(())
}

/// Prints what `lsr serve` prints of a run, as of a router of this configuration, what it logs of it, and the status that it gives.
fn tell_status(
    rt: &HostRuntime,
    alloc: Global,
    of: &str,
    text: &str,
    served: &RunReport,
) -> Result<(), Fault> {
    let config = read_config(alloc, text)?;
    let mut printed = Vec::new(alloc);
    let mut logged = Vec::new(alloc);
    let status = tell_run(&config, served, &mut printed, &mut logged)?;
    rt.write_all(printed.as_slice())?;
    rt.write_all(logged.as_slice())?;
    println!(rt; "{of}: status {status}")?;
    Ok(())
}

/// Prints what a run left: what each port did, what became of the segments, and what is told of it, also as of another router.
fn tell(
    rt: &HostRuntime,
    alloc: Global,
    watch: &Watch<'_>,
    keeper: &Keeper<'_>,
    served: &RunReport,
) -> Result<(), Fault> {
    let of = watch.case.name;
    for count in &served.ports {
        let receipts = count.receipts;
        let passed = count.tally.passed;
        println!(rt; "{of}: a port: {receipts} receipts, {passed} frames forwarded")?;
    }
    tell_kept(rt, watch, keeper, served)?;
    tell_status(rt, alloc, of, BUILT_IN, served)?;
    tell_status(rt, alloc, of, OTHER, served)
}

/// The two links of the built-in router, over wires with this plan. The only error is out of memory.
fn links(alloc: Global, plan: WirePlan) -> Result<Vec<LinkWire<ScriptedWire>>, AllocError>
    ensures { IfOk result (λ links. length links.items ≡ 2) }
{
    let first = LinkWire {
        number: IN_LINK,
        wire: ScriptedWire::new(alloc, plan),
    };
    let second = LinkWire {
        number: OUT_LINK,
        wire: ScriptedWire::new(alloc, plan),
    };
    Ok(Vec::from_array(alloc, [first, second])?)
}

/// Serves a case, and prints what it left.
fn serve<R: Threads + Wait + Clone + Send + Sync + Drop>(
    rt: &HostRuntime,
    waits: &R,
    alloc: Global,
    case: Case,
) -> Result<(), Fault> {
    let entries = AtomicU64::new(0);
    let keeper = Keeper {
        room: case.room,
        asked: 0,
        segments: 0,
        is_in_order: true,
        entries: &entries,
    };
    let watch = Watch::new(rt, case, &entries);
    let config = read_config(alloc, BUILT_IN)?;
    let links = links(alloc, case.plan)?;
    let clock_wire = ScriptedWire::new(alloc, SILENT);
    match serve_on(
        waits,
        &Hasty,
        alloc,
        config,
        links,
        clock_wire,
        &watch,
        case.turns,
        keeper,
        &mut ClockAlone,
    ) {
        Ok((served, keeper)) => tell(rt, alloc, &watch, &keeper, &served),
        Err(_) => Err(Fault::Memory),
    }
}

/// Serves the cases, and prints what each left.
pub(crate) fn run<R: Threads + Wait + Clone + Send + Sync + Drop>(
    rt: &HostRuntime,
    waits: &R,
    alloc: Global,
) -> Result<(), Fault> {
    for case in CASES {
        serve(rt, waits, alloc, case)?;
    }
    Ok(())
}
