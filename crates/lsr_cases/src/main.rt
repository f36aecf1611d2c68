//! Worked cases that no line of `lsr` asks, and measures. Without a word all cases are run: calls of the libraries that read and write
//! bytes and reserve bandwidth (`rows`), captured packets (`captures`), threads that feed a router (`worker_cases`), a short run of the measures (`lsr_bench`), and calls
//! that may find no memory (`growth_cases`). What they print stands in the file `stdout`.
//!
//! With the word `growths` these alone are run, or the part that the next word names, and the error stream is marked where calls take no
//! memory. Any other words ask for a measure.
#![tactic(auto)]

mod bandwidth;
mod captures;
mod changes;
mod pieces;
mod rows;
mod wire;

use anyhow::Result;
use std::net::Net;
use std::process::ExitCode;
use std::sync::Wait;
use std::thread::Threads;
use std::time::Clock;

/// The word for the cases of calls that may find no memory.
const GROWTHS: &str = "growths";
/// The status of a run in which all was as it has to be.
const DONE: u8 = 0;
/// That of one in which something wasn't.
const FAILED: u8 = 1;

/// Runs the cases of calls that may find no memory, of those that the words name.
fn run_growths<R: Wait + Clone + Drop>(
    rt: &HostRuntime,
    handles: &R,
    words: &[String],
    is_marked: bool,
) -> Result<u8> {
    let is_as_wanted = growth_cases::run(rt, handles, words, is_marked)?;
    Ok(if is_as_wanted { DONE } else { FAILED })
}

/// Runs all cases, one kind after the other.
fn run_all<R: Net + Threads + Wait + Clock + Print + Clone + Send + Sync + Drop>(
    rt: &HostRuntime,
    handles: &R,
) -> Result<u8> {
    rows::run(rt)?;
    captures::run(rt)?;
    worker_cases::run_cases(rt, handles, rt.alloc())?;
    lsr_bench::run(rt, handles, &[])?;
    run_growths(rt, handles, &[], false)
}

/// Does what the words ask for, and gives the status.
fn run<R: Net + Threads + Wait + Clock + Print + Clone + Send + Sync + Drop>(
    rt: &HostRuntime,
    handles: &R,
) -> Result<u8> {
    let words = growth_cases::read_words(rt)?;
    match words.as_slice() {
        [] => run_all(rt, handles),
        [word, words @ ..] if word.as_str() == GROWTHS => run_growths(rt, handles, words, true),
        words => Ok(lsr_bench::run(rt, handles, words)?),
    }
}

fn main(rt: HostRuntime) -> ExitCode {
    let status = match run(&rt, &rt) {
        Ok(status) => status,
        Err(fault) => {
            let _told = eprintln!(rt; "lsr_cases: {fault}");
            FAILED
        }
    };
    ExitCode::from(status)
}
