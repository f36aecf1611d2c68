//! Cases of ports and their wires: two threads feed one router, wires fail at each of their calls in turn, and a receipt is another
//! router's.

use crate::fault::Fault;
use crate::frames::{IN_LINK, LABELLED_FRAME, OUT_LINK, PATH_FRAME, RESV_FRAME, TEAR_FRAME};
use crate::left::Left;
use crate::scripted_wire::{GivenFrame, SILENT, ScriptedWire, WirePlan};
use crate::visits::{Order, Task, Visit, run_visits};
use interface_workers::{Receipt, Segment};
use run_reconciler::reconcile;
use std::alloc::{AllocError, Global};
use std::sync::Wait;
use std::thread::Threads;

/// A Path and its Resv come, each again; then messages are due twice; then a labelled frame and a PathTear come.
const VISITS: [Visit; 4] = [
    Visit {
        task: Task::Serve(IN_LINK),
        turns: 2,
        plan: WirePlan {
            arrivals: &[PATH_FRAME, PATH_FRAME],
            ..SILENT
        },
    },
    Visit {
        task: Task::Serve(OUT_LINK),
        turns: 2,
        plan: WirePlan {
            arrivals: &[RESV_FRAME, RESV_FRAME],
            ..SILENT
        },
    },
    Visit {
        task: Task::Tick(REFRESH_MS),
        turns: 2,
        plan: SILENT,
    },
    Visit {
        task: Task::Serve(IN_LINK),
        turns: 2,
        plan: WirePlan {
            arrivals: &[LABELLED_FRAME, TEAR_FRAME],
            ..SILENT
        },
    },
];
/// The refresh period of the built-in router, in milliseconds.
const REFRESH_MS: u64 = 30_000;

/// One moment in each turn: in two threads more than a segment of the journal holds.
const MOMENTS: Visit = Visit {
    task: Task::Tick(1),
    turns: 3_000,
    plan: SILENT,
};

/// One moment, so many milliseconds after a router began.
fn one_moment(at: u64) -> [Visit; 1] {
    let visit = Visit {
        task: Task::Tick(at),
        turns: 1,
        plan: SILENT,
    };
    [visit]
}

/// Whether what was left is one run, and what the router knows is what its last segment ends with.
fn run_word(left: &Left) -> &'static str {
    match (left.is_one_run(), left.is_end) {
        (true, true) => "one run",
        (true, false) => "one run, at whose end the router knows something else",
        (false, _) => "not one run",
    }
}

/// The journal and the receipts of a run as they are written for developers: of equal runs the same.
fn written(alloc: Global, left: &Left) -> Result<String, AllocError> {
    format!(in alloc; "{:?}{:?}", left.segments, left.receipts)
}

/// How often wires were asked for a frame.
fn times_asked(wires: &[ScriptedWire]) -> usize {
    let mut asked = 0_usize;
    for wire in wires {
        asked = asked.saturating_add(wire.asked);
    }
    asked
}

/// Whether a frame that was lost was carried later on.
fn is_carried_later(wires: &[ScriptedWire]) -> bool {
    let mut lost: Option<&GivenFrame> = None;
    for wire in wires {
        for frame in wire.given.as_slice() {
            match lost {
                None if !frame.is_carried => lost = Some(frame),
                Some(first) if frame.is_carried && is_same_frame(first, frame) => return true,
                _ => {}
            }
        }
    }
    false
}

/// Whether two frames are the same, over the same link.
fn is_same_frame(frame: &GivenFrame, other: &GivenFrame) -> bool {
    frame.link == other.link && frame.bytes.as_slice() == other.bytes.as_slice()
}

/// The visits, where the wire of the one at this place fails at this call, or a frame doesn't come.
fn hurt(at: usize, fails_at: u64, without: Option<usize>) -> [Visit; 4] {
    let mut visits = VISITS;
    if let Some(visit) = visits.get_mut(at) {
        visit.plan.fails_at = fails_at;
        visit.plan.without = without;
    }
    visits
}

/// Prints what a failure at this call of this visit's wire came to.
fn fail_at<R: Threads + Wait + Clone + Send + Sync + Drop>(
    rt: &HostRuntime,
    waits: &R,
    alloc: Global,
    at: usize,
    call: u64,
) -> Result<(), Fault> {
    let run = run_visits(waits, alloc, &hurt(at, call, None), Order::InTurn)?;
    let lost = match run.wires.get(at) {
        Some(wire) => wire.lost_arrival,
        None => None,
    };
    let other = run_visits(waits, alloc, &hurt(at, 0, lost), Order::InTurn)?;
    let journal = if written(alloc, &run.left)? == written(alloc, &other.left)? {
        "the same journal"
    } else {
        "another journal"
    };
    let came_of = match lost {
        Some(_) => "as without the frame that didn't come",
        None if is_carried_later(run.wires.as_slice()) => "and what was lost goes out again",
        None => "and what was lost doesn't go out again",
    };
    let asked = times_asked(run.wires.as_slice());
    let word = run_word(&run.left);
    let visit = at.saturating_add(1);
    println!(rt;
        "failing wire: visit {visit}, call {call}: asked {asked} times, {word}, {journal}, {came_of}"
    )?;
    Ok(())
}

/// Each wire of the visits fails at each of its calls in turn, and goes on: prints how often all were asked for a frame, whether what
/// was left is one run, whether its journal is that of a run without a failure, in which nothing comes in place of a frame that was lost as
/// it would have come, and whether a frame that was lost as it was sent goes out again.
fn fail_all<R: Threads + Wait + Clone + Send + Sync + Drop>(
    rt: &HostRuntime,
    waits: &R,
    alloc: Global,
) -> Result<(), Fault> {
    let unhurt = run_visits(waits, alloc, &VISITS, Order::InTurn)?;
    let word = run_word(&unhurt.left);
    let entries = unhurt.left.receipts.len();
    println!(rt; "failing wire: {word} of {entries} entries where none fails")?;
    for (at, wire) in unhurt.wires.iter().enumerate() {
        for call in 1..=wire.calls {
            fail_at(rt, waits, alloc, at, call)?;
        }
    }
    Ok(())
}

/// Prints whether segments and receipts are those of one run.
fn tell_reconciled(
    rt: &HostRuntime,
    of: &str,
    segments: &[Segment],
    receipts: &[Receipt],
) -> Result<(), Fault> {
    match reconcile(segments, receipts) {
        Ok(_) => println!(rt; "{of} receipt: reconciled")?,
        Err(mismatch) => println!(rt; "{of} receipt: {mismatch}")?,
    }
    Ok(())
}

/// Two routers are fed one moment each, another one: prints whether the first one's segment goes with its own receipt, and with that of
/// the other.
fn tell_strange<R: Threads + Wait + Clone + Send + Sync + Drop>(
    rt: &HostRuntime,
    waits: &R,
    alloc: Global,
) -> Result<(), Fault> {
    let here = run_visits(waits, alloc, &one_moment(1), Order::InTurn)?.left;
    let there = run_visits(waits, alloc, &one_moment(2), Order::InTurn)?.left;
    let segments = here.segments.as_slice();
    tell_reconciled(rt, "own", segments, here.receipts.as_slice())?;
    tell_reconciled(rt, "another router's", segments, there.receipts.as_slice())
}

/// The cases. Two threads feed one router 3,000 moments each, and take its entries where the journal is full: prints whether all that
/// they were told is one run.
pub(crate) fn run<R: Threads + Wait + Clone + Send + Sync + Drop>(
    rt: &HostRuntime,
    waits: &R,
    alloc: Global,
) -> Result<(), Fault> {
    let left = run_visits(waits, alloc, &[MOMENTS, MOMENTS], Order::AtOnce)?.left;
    let word = run_word(&left);
    let entries = left.receipts.len();
    println!(rt; "two threads: {word} of {entries} entries")?;
    fail_all(rt, waits, alloc)?;
    tell_strange(rt, waits, alloc)
}
