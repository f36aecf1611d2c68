//! How many datagrams a router takes over sockets, and how many frames it forwards; and the same datagrams taken by threads without a
//! router: what is left of a worker where nothing is read, stepped or written.
ghost use Rattle.std.specs.Prelude.{◌≡◌};

use crate::measuring::{MILLI_NANOS, nanos_since, per_second, tell};
use crate::neighbours::{
    LINKS, Load, Sender, Traffic, counted, free_links, send_all, senders, wires,
};
use lsr_config::{BUILT_IN, Config};
use lsr_serve::{LinkSockets, LinkWire, link_workers, run_worker};
use sorted_rows::Table;
use std::alloc::{AllocError, Global};
use std::marker::Brand;
use std::net::Net;
use std::sync::Wait;
use std::sync::atomic::{AtomicU64, Ordering};
use std::sync::ledger::Blank;
use std::thread;
use std::thread::Threads;
use std::time::Instant;
use worker_cases::{
    CoreName, Fault, Left, OUT_LINK, OpenGate, Opened, Wire, open_router, read_config,
};

/// The links that the built-in router hasn't. Its link 2 leads on to where the Paths go.
const MORE_LINKS: &str = r#"
[[link]]
number = 3
address = "10.3.0.2"
peer = "10.3.0.5"
peer_router = "10.0.0.5"
limit = 1250000

[[link]]
number = 4
address = "10.4.0.2"
peer = "10.4.0.7"
peer_router = "10.0.0.7"
limit = 1250000
"#;
/// How many turns a thread makes beyond those in which it takes a frame: it waits 100 milliseconds in each for one that is late.
const SPARE_TURNS: u32 = 600;
/// What is printed where receipts and journal are one run.
const ONE_RUN: &str = "reconciled";
/// What is printed where they aren't.
const NOT_ONE_RUN: &str = "not one run";
/// The most bytes of a datagram.
const BUFFER_LEN: usize = 65_536;

/// What threads took of what neighbours sent.
#[derive(Clone, Copy)]
struct Taken {
    /// How many datagrams were taken off the sockets.
    datagrams: u64,
    /// In how many nanoseconds.
    nanos: u64,
    /// How many messages the router has receipts for.
    messages: u64,
    /// How many frames it forwarded.
    forwarded: u64,
    /// How many segments its journal has.
    segments: u64,
    /// Whether receipts and journal are one run; without a router there are none.
    is_one_run: bool,
}

/// Asks the wire for a frame once, and sends it on as it came, where frames are forwarded. A fault is the wire's to count: nothing is done
/// where it can count no more.
fn take_once<W: Wire>(wire: &mut W, traffic: Traffic, buffer: &mut [u8]) {
    if wire.failures() < u64::MAX {
        let came = wire.receive(buffer);
        let Ok(Some(len)) = came else {
            return;
        };
        if matches!(traffic, Traffic::Frames) && wire.failures() < u64::MAX {
            let _sent = wire.send(OUT_LINK, &buffer[..len]);
        }
    }
}

/// Asks the wire of a link for a frame so many times, and sends each on as it came, where frames are forwarded. The only error is out of
/// memory.
fn take_bare<W: Wire + Drop>(
    alloc: Global,
    link: LinkWire<W>,
    traffic: Traffic,
    turns: u32,
) -> Result<(), AllocError> {
    let LinkWire {
        number: _,
        mut wire,
    } = link;
    let mut buffer = vec![in alloc; 0_u8; BUFFER_LEN]?;
    for _turn in 0..turns {
        take_once(&mut wire, traffic, &mut buffer);
    }
    Ok(())
}

/// Takes what the neighbours send over these wires by a thread for each, without a router.
fn take<R: Threads + Sync, W: Wire + Send + Drop>(
    rt: &HostRuntime,
    handles: &R,
    wires: Vec<LinkWire<W>>,
    senders: Vec<Sender<'_>>,
    load: Load,
) -> Result<Taken, Fault> {
    let alloc = rt.alloc();
    let turns = load.count.saturating_add(SPARE_TURNS);
    let start = Instant::now(rt)?;
    let (taken, sent) = thread::join(
        handles,
        || thread::map_vec(
            handles,
            wires,
            &|link| take_bare(alloc, link, load.traffic, turns),
        ),
        || send_all(rt, handles, senders),
    );
    let nanos = nanos_since(rt, start)?;
    sent?;
    for done in taken? {
        done?;
    }
    Ok(Taken {
        datagrams: 0,
        nanos,
        messages: 0,
        forwarded: 0,
        segments: 0,
        is_one_run: true,
    })
}

/// Serves the neighbours over these wires by a router of this name, with a worker for each.
fn serve<
    L: CoreName + Send + Sync,
    R: Threads + Wait + Clone + Send + Sync + Drop,
    W: Wire + Send + Drop,
>(
    rt: &HostRuntime,
    handles: &R,
    blank: Blank,
    config: Config,
    wires: Vec<LinkWire<W>>,
    senders: Vec<Sender<'_>>,
    load: Load,
) -> Result<Taken, Fault>
    requires name { blank.name ≡ L.name }
    requires parts { blank.parts ≡ L.parts }
    requires config { config ≡ L.config }
    requires four { blank.parts ≡ LINKS }
{
    let alloc = rt.alloc();
    let Opened {
        core,
        ports,
        readers,
    } = match open_router::<L, R>(alloc, handles.clone()?, blank, config, LINKS) {
        Ok(opened) => opened,
        Err(fault) => return Err(fault),
    };
    let turns = load.count.saturating_add(SPARE_TURNS);
    let start = Instant::now(rt)?;
    let workers = link_workers(alloc, ports, readers, wires)?;
    let shared = &core;
    let (works, sent) = thread::join(
        handles,
        || thread::map_vec(
            handles,
            workers,
            &|worker| run_worker(handles, alloc, shared, &OpenGate, turns, worker).work,
        ),
        || send_all(rt, handles, senders),
    );
    let nanos = nanos_since(rt, start)?;
    sent?;
    let left = Left::gathered(handles, alloc, core, works?)?;
    let is_one_run = left.is_one_run();
    Ok(Taken {
        datagrams: 0,
        nanos,
        messages: left.receipts.len() as u64,
        forwarded: left.forwarded,
        segments: left.segments.len() as u64,
        is_one_run,
    })
}

/// Takes what these neighbours send over these sockets, with a router or without one.
fn take_over<R: Net + Threads + Wait + Clone + Send + Sync + Drop>(
    rt: &HostRuntime,
    handles: &R,
    links: &Table<u16, LinkSockets>,
    counts: &[AtomicU64],
    senders: Vec<Sender<'_>>,
    load: Load,
    is_served: bool,
) -> Result<Taken, Fault> {
    let wires = match wires(handles, rt.alloc(), links) {
        Ok(wires) => wires,
        Err(fault) => return Err(fault),
    };
    let wires = counted(rt.alloc(), wires, counts, load)?;
    if !is_served {
        return take(rt, handles, wires, senders, load);
    }
    let text = format!(in rt.alloc(); "{BUILT_IN}{MORE_LINKS}")?;
    let config = read_config(rt.alloc(), text.as_str())?;
    let blank = Blank::new(u64::from(LINKS));
    serve::<Brand, R, _>(rt, handles, blank, config, wires, senders, load)
}

/// Takes what neighbours send of this load, with a router, or without one: where frames are forwarded each datagram is sent on as it
/// came then. The fault says what to do.
fn run<R: Net + Threads + Wait + Clone + Send + Sync + Drop>(
    rt: &HostRuntime,
    handles: &R,
    load: Load,
    is_served: bool,
) -> Result<Taken, Fault> {
    let alloc = rt.alloc();
    let mut sockets = Vec::new(alloc);
    let mut counts = Vec::new(alloc);
    for _ in 0..LINKS {
        let Ok(()) = counts.push(AtomicU64::new(0)) else {
            return Err(Fault::Memory);
        };
    }
    let links = match free_links(handles, alloc, &mut sockets) {
        Ok(links) => links,
        Err(fault) => return Err(fault),
    };
    let senders = match senders(alloc, &links, sockets, counts.as_slice(), &load) {
        Ok(senders) => senders,
        Err(fault) => return Err(fault),
    };
    let mut taken = take_over(
        rt,
        handles,
        &links,
        counts.as_slice(),
        senders,
        load,
        is_served,
    )?;
    for count in counts.as_slice() {
        taken.datagrams = taken.datagrams.saturating_add(count.load(Ordering::SeqCst));
    }
    Ok(taken)
}

/// Runs a router, and prints how many messages it took and in which time, or how many frames it forwarded beside messages. Gives how many
/// datagrams that is a second.
fn measure_run<R: Net + Threads + Wait + Clone + Send + Sync + Drop>(
    rt: &HostRuntime,
    handles: &R,
    load: Load,
) -> Result<u64, Fault> {
    let taken = run(rt, handles, load, true)?;
    let millis = taken.nanos / MILLI_NANOS;
    let senders = if load.neighbours == 1 {
        "one neighbour"
    } else {
        "four neighbours"
    };
    let manner = if load.is_shown_more {
        "together"
    } else {
        "one by one"
    };
    let rate = match load.traffic {
        Traffic::Paths => {
            let rate = per_second(taken.messages, taken.nanos);
            let count = u64::from(load.count) * u64::from(load.neighbours);
            let line = "datagrams of @, @: # of # taken in # ms: # a second";
            tell(
                rt,
                line,
                &[senders, manner],
                &[taken.messages, count, millis, rate],
            )?;
            rate
        }
        Traffic::Frames => {
            let rate = per_second(taken.forwarded, taken.nanos);
            let line = "frames of @: # forwarded in # ms, beside # messages: # a second";
            tell(
                rt,
                line,
                &[senders],
                &[taken.forwarded, millis, taken.messages, rate],
            )?;
            per_second(taken.datagrams, taken.nanos)
        }
    };
    let line = "@: # receipts, # segments of the journal";
    let outcome = if taken.is_one_run {
        ONE_RUN
    } else {
        NOT_ONE_RUN
    };
    tell(rt, line, &[outcome], &[taken.messages, taken.segments])?;
    Ok(rate)
}

/// Measures how many datagrams workers take a second of so many in all, one worker and then four: of messages first one by one, then what
/// came together; and then what is taken without a router. Prints what came. The fault says what to do.
pub(crate) fn measure_load<R: Net + Threads + Wait + Clone + Send + Sync + Drop>(
    rt: &HostRuntime,
    handles: &R,
    traffic: Traffic,
    count: u32,
) -> Result<(), Fault> {
    for neighbours in [1, LINKS] {
        let load = Load {
            traffic,
            neighbours,
            count: count / u32::from(neighbours.max(1)),
            is_shown_more: true,
        };
        if matches!(traffic, Traffic::Paths) {
            measure_run(
                rt,
                handles,
                Load {
                    is_shown_more: false,
                    ..load
                },
            )?;
        }
        let rate = measure_run(rt, handles, load)?;
        let bare = run(rt, handles, load, false)?;
        let most = per_second(bare.datagrams, bare.nanos);
        let line = "without a router: # datagrams in # ms: # a second, of which that is # percent";
        let numbers = [
            bare.datagrams,
            bare.nanos / MILLI_NANOS,
            most,
            rate.saturating_mul(100) / most.max(1),
        ];
        tell(rt, line, &[], &numbers)?;
    }
    Ok(())
}

/// Prints how many datagrams four workers take of so many in all, and of messages how many are taken without a router. The fault says what
/// to do.
pub(crate) fn count_load<R: Net + Threads + Wait + Clone + Send + Sync + Drop>(
    rt: &HostRuntime,
    handles: &R,
    traffic: Traffic,
    count: u32,
) -> Result<(), Fault> {
    let load = Load {
        traffic,
        neighbours: LINKS,
        count: count / u32::from(LINKS),
        is_shown_more: true,
    };
    let taken = run(rt, handles, load, true)?;
    let (of, datagrams) = match traffic {
        Traffic::Paths => ("datagrams", taken.messages),
        Traffic::Frames => ("forwarding", taken.datagrams),
    };
    let numbers = [
        datagrams,
        u64::from(load.count) * u64::from(LINKS),
        u64::from(LINKS),
    ];
    let outcome = if taken.is_one_run {
        ONE_RUN
    } else {
        NOT_ONE_RUN
    };
    let line = "@: # of # taken by # workers; @";
    tell(rt, line, &[of, outcome], &numbers)?;
    if matches!(traffic, Traffic::Paths) {
        let bare = run(rt, handles, load, false)?;
        let numbers = [bare.datagrams, u64::from(count)];
        tell(
            rt,
            "datagrams: # of # taken without a router",
            &[],
            &numbers,
        )?;
    }
    Ok(())
}
