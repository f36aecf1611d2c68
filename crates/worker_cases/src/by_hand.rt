//! Cases of a router that is fed by hand, by one port: what a reader of its label table finds beside the events that change it, and a
//! journal that is full.
ghost use Rattle.std.specs.Prelude.{◌≡◌};

use crate::fault::Fault;
use crate::feeding::{open_router, read_config};
use crate::follower::{Follower, feed_event};
use crate::frames::{IN_LINK, LABELLED_FRAME, OUT_LINK, PATH_FRAME, RESV_FRAME, TEAR_FRAME};
use crate::left::count_entries;
use abstract_paths::Event;
use interface_workers::{Core, CoreName, Opened, Port};
use lsr_config::{BUILT_IN, Config};
use lsr_facts::Refusal;
use std::alloc::Global;
use std::marker::Brand;
use std::sync::Wait;
use std::sync::ledger::Blank;

/// The label that is looked up: the first that the router gives out.
const LABEL: u32 = 16;
/// A labelled frame with this label, and a TTL of 1.
const LAST_HOP_FRAME: &[u8] = b"\x02\x01\x00\x01\x01\x01\x00hello";
/// A labelled frame with the label 17.
const OTHER_LABEL_FRAME: &[u8] = b"\x02\x01\x00\x01\x11\x40\x00a";

/// What comes to the router.
#[derive(Clone, Copy)]
enum Step {
    /// A message with this name, over the link of this number, and its frame.
    Message(&'static str, u16, &'static [u8]),
    /// A labelled frame with this name.
    Labelled(&'static str, &'static [u8]),
}

/// A Path, its Resv and its PathTear, with labelled frames between.
const STEPS: [Step; 6] = [
    Step::Message("Path", IN_LINK, PATH_FRAME),
    Step::Message("Resv", OUT_LINK, RESV_FRAME),
    Step::Labelled("another label", OTHER_LABEL_FRAME),
    Step::Labelled("a TTL of 1", LAST_HOP_FRAME),
    Step::Labelled("a TTL of 64", LABELLED_FRAME),
    Step::Message("PathTear", IN_LINK, TEAR_FRAME),
];

/// Feeds a message, and prints how many changes of the label table there were, and what the reader finds that has learnt of it; or prints
/// what becomes of a labelled frame, by what the reader sees.
fn follow<L: CoreName, R: Wait + Drop>(
    rt: &HostRuntime,
    waits: &R,
    alloc: Global,
    core: &Core<L, R>,
    follower: &mut Follower<L>,
    step: Step,
) -> Result<(), Fault> {
    match step {
        Step::Message(of, link, frame) => {
            if !follower.feed(waits, alloc, core, link, frame) {
                return Err(Fault::NotTaken);
            }
            let changes = follower.mark().published;
            let found = follower.look(LABEL);
            println!(rt; "reader: after the {of} {changes} changes; label {LABEL}: {found:?}")?;
        }
        Step::Labelled(of, frame) => {
            let fate = follower.forward(alloc, core.router(), IN_LINK, frame);
            println!(rt; "reader: {of}: {fate:?}")?;
        }
    }
    Ok(())
}

/// How many events are fed: one more than a journal holds.
const EVENTS: u64 = 4_097;

/// Feeds moments from 0 on, until one is refused: which, and why.
fn feed_until<L: CoreName, R: Wait + Drop>(
    waits: &R,
    alloc: Global,
    core: &Core<L, R>,
    port: &mut Port<L>,
) -> Option<(u64, Refusal)> {
    for moment in 0..EVENTS {
        if let Err(refusal) = feed_event(waits, alloc, core, port, &Event::Tick(moment)) {
            return Some((moment, refusal));
        }
    }
    None
}

/// Feeds one event more than a journal holds, takes its entries, and feeds the one that was refused again: prints what came of each.
fn fill<L: CoreName, R: Wait + Drop>(
    rt: &HostRuntime,
    waits: &R,
    alloc: Global,
    core: &Core<L, R>,
    port: &mut Port<L>,
) -> Result<(), Fault> {
    let Some((taken, refusal)) = feed_until(waits, alloc, core, port) else {
        return Err(Fault::NotTaken);
    };
    let number = refusal.number();
    println!(rt;
        "full journal: {taken} of {EVENTS} events taken, the next refused: {number}, {refusal}"
    )?;
    let entries = count_entries(waits, alloc, core, port)?;
    let again = feed_event(waits, alloc, core, port, &Event::Tick(taken)).is_ok();
    println!(rt; "full journal: {entries} entries taken out; then the event is taken: {again}")?;
    Ok(())
}

/// Takes the steps by a port of the router of this name, and a reader that follows; or fills its journal by the port.
fn run_named<L: CoreName, R: Wait + Clone + Drop>(
    rt: &HostRuntime,
    waits: &R,
    alloc: Global,
    blank: Blank,
    config: Config,
    is_filled: bool,
) -> Result<(), Fault>
    requires name { blank.name ≡ L.name }
    requires parts { blank.parts ≡ L.parts }
    requires config { config ≡ L.config }
    requires one { blank.parts ≡ 1 }
{
    let Opened {
        core,
        mut ports,
        mut readers,
    } = open_router::<L, R>(alloc, waits.clone()?, blank, config, 1)?;
    let (Some(mut port), Some(reader)) = (ports.pop(), readers.pop()) else {
        return Err(Fault::NotTaken);
    };
    if is_filled {
        return fill(rt, waits, alloc, &core, &mut port);
    }
    let mut follower = Follower::new(port, reader);
    for step in STEPS {
        follow(rt, waits, alloc, &core, &mut follower, step)?;
    }
    Ok(())
}

/// A Path comes over link 1, its Resv over link 2, and its PathTear over link 1, with labelled frames between, to one router; the journal
/// of another is filled.
pub(crate) fn run<R: Wait + Clone + Drop>(
    rt: &HostRuntime,
    waits: &R,
    alloc: Global,
    is_filled: bool,
) -> Result<(), Fault> {
    let config = read_config(alloc, BUILT_IN)?;
    run_named::<Brand, R>(rt, waits, alloc, Blank::new(1), config, is_filled)
}
