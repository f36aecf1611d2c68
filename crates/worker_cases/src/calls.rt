//! A router in one thread: the call that opens it and serves a list of inputs, the one that serves a list, the one that serves an input,
//! and the one that serves an event give the same.

use crate::fault::Fault;
use crate::feeding::read_config;
use crate::frames::{IN_LINK, OUT_LINK, PATH_FRAME, RESV_FRAME, TEAR_FRAME};
use abstract_paths::Event;
use interface_workers::is_same_state;
use lsr_config::BUILT_IN;
use lsr_facts::{Refusal, State};
use router_core::{Input, Machine, Served};
use sorted_rows::TryCopy;
use std::alloc::{AllocError, Global};

/// The frames that come, with their links: a Path twice, its Resv, the Path again, and its PathTear twice.
const FRAMES: [(u16, &[u8]); 6] = [
    (IN_LINK, PATH_FRAME),
    (IN_LINK, PATH_FRAME),
    (OUT_LINK, RESV_FRAME),
    (IN_LINK, PATH_FRAME),
    (IN_LINK, TEAR_FRAME),
    (IN_LINK, TEAR_FRAME),
];
/// How long after one the next comes, in milliseconds.
const BETWEEN_MS: u64 = 1_000;

/// The frames, and a moment after each. The only error is out of memory.
fn inputs(alloc: Global) -> Result<Vec<Input>, AllocError> {
    let mut inputs = Vec::new(alloc);
    let mut moment = 0_u64;
    for (link, frame) in FRAMES {
        let bytes = Vec::from_slice(alloc, frame)?;
        inputs.push(Input::Datagram { link, bytes })?;
        moment = moment.saturating_add(BETWEEN_MS);
        inputs.push(Input::Event(Event::Tick(moment)))?;
    }
    Ok(inputs)
}

/// What a router answered, and what it knows at the end.
#[derive(Drop)]
struct Answered {
    answers: Vec<Result<Served, Refusal>>,
    state: State,
}

/// What this router answers that serves the inputs one by one. The only error is out of memory.
fn serve_each(alloc: Global, machine: Machine, inputs: &[Input]) -> Result<Answered, AllocError> {
    let mut machine = machine;
    let mut answers = Vec::new(alloc);
    for input in inputs {
        answers.push(machine.serve(alloc, input))?;
    }
    let state = machine.export(alloc)?;
    Ok(Answered { answers, state })
}

/// What this router answers that serves copies of the events that had these answers, and a copy of what it knows then. The only error is
/// out of memory.
fn serve_copies(
    alloc: Global,
    machine: Machine,
    answers: &[Result<Served, Refusal>],
) -> Result<Answered, AllocError> {
    let mut machine = machine;
    let mut copied = Vec::new(alloc);
    for answer in answers {
        if let Ok(Served::Made(made)) = answer {
            let copy = made.event.try_copy(alloc)?;
            copied.push(machine.serve_event(alloc, copy).map(Served::Made))?;
        }
    }
    let state = machine.export(alloc)?.try_copy(alloc)?;
    Ok(Answered {
        answers: copied,
        state,
    })
}

/// The built-in router as it is opened. The fault is out of memory.
fn open(alloc: Global) -> Result<Machine, Fault> {
    Ok(Machine::open(alloc, read_config(alloc, BUILT_IN)?)?)
}

/// Prints whether what was answered is the same, and what is known at the end.
fn tell_same(
    rt: &HostRuntime,
    alloc: Global,
    of: &str,
    one: &Answered,
    other: &Answered,
) -> Result<(), Fault> {
    let answers = format!(in alloc; "{:?}", one.answers)?;
    let is_same = answers == format!(in alloc; "{:?}", other.answers)?;
    let is_known = is_same_state(&one.state, &other.state);
    let count = one.answers.len();
    println!(rt;
        "one thread: {of}: {count} answers, the same: {is_same}; known at the end, the same: {is_known}"
    )?;
    Ok(())
}

/// Serves the inputs by each of the calls, and prints whether their answers and what is known at the end are those of a run.
pub(crate) fn run(rt: &HostRuntime, alloc: Global) -> Result<(), Fault> {
    let inputs = inputs(alloc)?;
    let config = read_config(alloc, BUILT_IN)?;
    let (machine, answers) = Machine::run(alloc, config, inputs.as_slice())?;
    let state = machine.export(alloc)?;
    let ran = Answered { answers, state };
    let mut machine = open(alloc)?;
    let answers = machine.serve_all(alloc, inputs.as_slice())?;
    let state = machine.export(alloc)?;
    tell_same(rt, alloc, "a list", &ran, &Answered { answers, state })?;
    let each = serve_each(alloc, open(alloc)?, inputs.as_slice())?;
    tell_same(rt, alloc, "each", &ran, &each)?;
    let copies = serve_copies(alloc, open(alloc)?, ran.answers.as_slice())?;
    tell_same(rt, alloc, "copies", &ran, &copies)
}
