//! Measures of a router: of its steps, of messages, and of look-ups in its label table; and of one under many threads and over sockets.
//! A person asks for them; without words a short run is made, whose counts are always the same.
#![tactic(auto)]

mod coding;
mod load;
mod lookups;
mod measuring;
mod neighbours;
mod steps;
mod withdrawals;

use crate::coding::measure_coding;
use crate::load::{count_load, measure_load};
use crate::lookups::{count_lookups, measure_longest, measure_lookups};
use crate::neighbours::Traffic;
use crate::steps::{count_steps, measure_steps};
use crate::withdrawals::run_withdrawals;
use std::io;
use std::net::Net;
use std::sync::Wait;
use std::thread::Threads;
use worker_cases::Fault;

/// The status of a run that did what it was asked.
const DONE: u8 = 0;
/// That of one that failed.
const FAILED: u8 = 1;
/// That of words that ask for nothing that is known.
const BAD_WORDS: u8 = 2;

/// What to do where the words ask for nothing that is known.
const USAGE: &str = "\
write one of these, or no word for a short run of steps, look-ups and workers, whose counts are always the same:
  steps [N]         how long steps of one router take, N of each that it takes again and again; 100000 without N
  coding [N]        how long it takes to read and to write a Path, N times; 1000000 without N
  lookups [N]       look-ups of labels a second, N by each reader; 2000000 without N
  longest [N]       the longest of N look-ups; 10000000 without N
  datagrams [N]     messages that four workers take a second, N in all; 100000 without N
  forwarding [N]    labelled frames that they forward a second, N datagrams in all; 400000 without N
  withdrawals [N]   what becomes of frames while an LSP comes and goes N times; 10000 without N
N is a number from 1 to 4294967295.";

/// How many steps of each kind a router takes in a short run that it takes again and again.
const SHORT_STEPS: u32 = 2_000;
/// How many labels each reader looks up there.
const SHORT_LOOKUPS: u32 = 4_096;
/// How many messages neighbours send there: more than a journal holds, so that it is full while what came together is fed.
const SHORT_MESSAGES: u32 = 6_000;
/// How many datagrams they send there, most of which are forwarded.
const SHORT_DATAGRAMS: u32 = 1_600;
/// How often an LSP comes and goes there.
const SHORT_ROUNDS: u32 = 100;

/// Takes steps, looks labels up, has workers serve links, and prints what is counted.
fn run_short<R: Net + Threads + Wait + Clone + Send + Sync + Drop>(
    rt: &HostRuntime,
    handles: &R,
) -> Result<(), Fault> {
    count_steps(rt, SHORT_STEPS)?;
    count_lookups(rt, handles, SHORT_LOOKUPS)?;
    count_load(rt, handles, Traffic::Paths, SHORT_MESSAGES)?;
    count_load(rt, handles, Traffic::Frames, SHORT_DATAGRAMS)?;
    run_withdrawals(rt, handles, SHORT_ROUNDS, false)
}

/// Makes what words ask for, at the size that they say or else at its own, and prints what came; none where they ask for nothing that is
/// known.
fn answer<R: Net + Threads + Wait + Clone + Send + Sync + Drop>(
    rt: &HostRuntime,
    handles: &R,
    words: &[String],
) -> Option<Result<(), Fault>> {
    let (word, size) = match words {
        [] => return Some(run_short(rt, handles)),
        [word] => (word, None),
        [word, digits] => match digits.parse::<u32>() {
            Ok(size) if size > 0 => (word, Some(size)),
            _ => return None,
        },
        _ => return None,
    };
    let made = match word.as_str() {
        "steps" => measure_steps(rt, size.unwrap_or(100_000)),
        "coding" => measure_coding(rt, size.unwrap_or(1_000_000)),
        "lookups" => measure_lookups(rt, handles, size.unwrap_or(2_000_000)),
        "longest" => measure_longest(rt, handles, size.unwrap_or(10_000_000)),
        "datagrams" => measure_load(rt, handles, Traffic::Paths, size.unwrap_or(100_000)),
        "forwarding" => measure_load(rt, handles, Traffic::Frames, size.unwrap_or(400_000)),
        "withdrawals" => run_withdrawals(rt, handles, size.unwrap_or(10_000), true),
        _ => return None,
    };
    Some(made)
}

/// Makes the measure that these words ask for, and gives the status: 0 where it was made, 1 where it failed, and 2 where the words ask for
/// nothing that is known. The error stream says what to do then. Threads and sockets are had by the handles.
pub fn run<R: Net + Threads + Wait + Clone + Send + Sync + Drop>(
    rt: &HostRuntime,
    handles: &R,
    words: &[String],
) -> io::Result<u8> {
    match answer(rt, handles, words) {
        Some(Ok(())) => Ok(DONE),
        Some(Err(fault)) => {
            eprintln!(rt; "{fault}")?;
            Ok(FAILED)
        }
        None => {
            eprintln!(rt; "{USAGE}")?;
            Ok(BAD_WORDS)
        }
    }
}
