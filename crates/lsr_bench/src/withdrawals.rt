//! Frames that are forwarded while the entry of their label comes and goes.
ghost use Rattle.std.specs.Prelude.{◌≡◌};

use crate::measuring::{MILLI_NANOS, nanos_since, per_second, tell};
use lsr_config::{BUILT_IN, Config};
use lsr_facts::Refusal;
use std::alloc::Global;
use std::marker::Brand;
use std::sync::Wait;
use std::sync::atomic::{AtomicBool, Ordering};
use std::sync::ledger::Blank;
use std::thread;
use std::thread::Threads;
use std::time::Instant;
use worker_cases::{
    Core, CoreName, Fate, Fault, Follower, IN_LINK, LABELLED_FRAME, OUT_LINK, Opened, PATH_FRAME,
    RESV_FRAME, TEAR_FRAME, followers, open_router, read_config,
};

/// How many ports and readers the router has: one that signals, and three that forward.
const PORTS: u16 = 4;
/// The port that signals.
const SIGNALLER: u16 = 1;

/// The labels of the built-in router.
const ITS_LABELS: &str = "[16, 4111]";
/// One label to give out: each LSP gets the same.
const ONE_LABEL: &str = "[16, 16]";

/// How many frames were forwarded, refused for their label, or neither.
#[derive(Clone, Copy)]
struct Fates {
    forwarded: u64,
    refused: u64,
    other: u64,
}

impl Fates {
    /// None yet.
    const NONE: Fates = Fates {
        forwarded: 0,
        refused: 0,
        other: 0,
    };

    /// One more.
    fn count(&mut self, fate: Fate) {
        match fate {
            Fate::Forwarded(OUT_LINK) => self.forwarded = self.forwarded.saturating_add(1),
            Fate::Refused(Refusal::NoLabel) => self.refused = self.refused.saturating_add(1),
            _ => self.other = self.other.saturating_add(1),
        }
    }
}

/// What threads saw: the fates of frames after each Resv, after each PathTear, and of those that came beside them.
#[derive(Clone, Copy)]
struct Seen {
    /// Whether it is the thread that signals, which alone sees frames after messages.
    is_signaller: bool,
    after_resv: Fates,
    after_tear: Fates,
    beside: Fates,
}

impl Seen {
    /// Nothing yet.
    const NOTHING: Seen = Seen {
        is_signaller: false,
        after_resv: Fates::NONE,
        after_tear: Fates::NONE,
        beside: Fates::NONE,
    };
}

/// In each round a Path, its Resv and its PathTear come, and after the Resv and the PathTear a labelled frame, each looked up once
/// the receipt of the message before is learnt.
fn signal<L: CoreName, R: Wait + Drop>(
    handles: &R,
    alloc: Global,
    core: &Core<L, R>,
    follower: &mut Follower<L>,
    rounds: u32,
) -> Seen {
    let mut seen = Seen::NOTHING;
    seen.is_signaller = true;
    for _round in 0..rounds {
        let is_there = follower.feed(handles, alloc, core, IN_LINK, PATH_FRAME)
            && follower.feed(handles, alloc, core, OUT_LINK, RESV_FRAME);
        let mut fate = Fate::Other;
        if is_there {
            fate = follower.forward(alloc, core.router(), IN_LINK, LABELLED_FRAME);
        }
        seen.after_resv.count(fate);
        let mut fate = Fate::Other;
        if follower.feed(handles, alloc, core, IN_LINK, TEAR_FRAME) {
            fate = follower.forward(alloc, core.router(), IN_LINK, LABELLED_FRAME);
        }
        seen.after_tear.count(fate);
    }
    seen
}

/// A thread: the first port signals; the others forward labelled frames until that is done, by readers that learn of no entry.
fn play<L: CoreName, R: Wait + Drop>(
    handles: &R,
    alloc: Global,
    core: &Core<L, R>,
    follower: Follower<L>,
    rounds: u32,
    is_done: &AtomicBool,
) -> Seen {
    let mut follower = follower;
    let mut seen = Seen::NOTHING;
    if follower.mark().port == SIGNALLER {
        seen = signal(handles, alloc, core, &mut follower, rounds);
        is_done.store(true, Ordering::SeqCst);
    }
    for _frame in 0..u32::MAX {
        if is_done.load(Ordering::SeqCst) {
            break;
        }
        seen.beside.count(follower.forward(alloc, core.router(), IN_LINK, LABELLED_FRAME));
    }
    seen
}

/// The run of a router of this name, with a thread for each port: what all saw together.
fn run_named<L: CoreName + Send + Sync, R: Threads + Wait + Clone + Send + Sync + Drop>(
    handles: &R,
    alloc: Global,
    blank: Blank,
    config: Config,
    rounds: u32,
) -> Result<Seen, Fault>
    requires name { blank.name ≡ L.name }
    requires parts { blank.parts ≡ L.parts }
    requires config { config ≡ L.config }
    requires four { blank.parts ≡ PORTS }
{
    let Opened {
        core,
        ports,
        readers,
    } = match open_router::<L, R>(alloc, handles.clone()?, blank, config, PORTS) {
        Ok(opened) => opened,
        Err(fault) => return Err(fault),
    };
    let is_done = AtomicBool::new(false);
    let shared = &core;
    let all = thread::map_vec(
        handles,
        followers(alloc, ports, readers)?,
        &|follower| play(handles, alloc, shared, follower, rounds, &is_done),
    )?;
    let mut sum = Seen::NOTHING;
    for seen in all.as_slice() {
        if seen.is_signaller {
            sum.after_resv = seen.after_resv;
            sum.after_tear = seen.after_tear;
        }
        let (beside, more) = (sum.beside, seen.beside);
        sum.beside = Fates {
            forwarded: beside.forwarded.saturating_add(more.forwarded),
            refused: beside.refused.saturating_add(more.refused),
            other: beside.other.saturating_add(more.other),
        };
    }
    Ok(sum)
}

/// An LSP of the built-in router, where that has one label to give out, comes and goes so many times, while three threads forward frames
/// under its label: prints what becomes of frames that come once the receipt of its Resv is learnt, and once that of its PathTear is; and
/// where it is timed, what becomes of the others, and how many a second are forwarded or refused. The fault says what to do.
pub(crate) fn run_withdrawals<R: Threads + Wait + Clone + Send + Sync + Drop>(
    rt: &HostRuntime,
    handles: &R,
    count: u32,
    is_timed: bool,
) -> Result<(), Fault> {
    let start = Instant::now(rt)?;
    let text = BUILT_IN.replace(rt.alloc(), ITS_LABELS, ONE_LABEL)?;
    let config = read_config(rt.alloc(), text.as_str())?;
    let blank = Blank::new(u64::from(PORTS));
    let seen = run_named::<Brand, R>(handles, rt.alloc(), blank, config, count)?;
    let nanos = nanos_since(rt, start)?;
    let told = [
        ("once the Resv is learnt", seen.after_resv),
        ("once the PathTear is learnt", seen.after_tear),
        (
            "by three workers beside it, which learn of nothing",
            seen.beside,
        ),
    ];
    for (of, fates) in told.iter().take(if is_timed { 3 } else { 2 }) {
        let numbers = [fates.forwarded, fates.refused, fates.other];
        let line = "withdrawals: @: # forwarded, # refused for their label, # otherwise";
        tell(rt, line, &[*of], &numbers)?;
    }
    if is_timed {
        let frames = seen.beside.forwarded.saturating_add(seen.beside.refused);
        let numbers = [
            u64::from(count),
            nanos / MILLI_NANOS,
            per_second(frames, nanos),
        ];
        let line = "withdrawals: # rounds in # ms, beside # frames a second";
        tell(rt, line, &[], &numbers)?;
    }
    Ok(())
}
