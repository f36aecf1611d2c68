//! Calls that may find no memory, and that no line of `lsr` shows: where one finds none, what it had to leave as it was is compared,
//! and it is made again. What came of each is printed, so the same is printed whichever one request for memory is refused. The
//! program `lsr_cases` runs this with ample memory, and what it prints has to be what it prints then: so a call that always says
//! that there is no memory is seen too.
//!
//! It has three parts:
//!
//! - `workers`: two ports feed a router under its lock in turn, events and datagrams by workers, beside a router in one thread that
//!   serves the same. NAME.step of the folder in which it runs has the lines, as of `lsr step`, and NAME.toml the configuration.
//! - `worlds`: the moves of a world, made at once.
//! - `copies`: copies of tables and of a wheel, which no step makes.
#![tactic(auto)]

mod bench;
mod calls;
mod copies;
mod cores;
mod witness;
mod worlds;

use crate::bench::{Bench, again};
use std::sync::Wait;
use std::{env, io};

/// The words after the program's name. The errors are that one isn't UTF-8, or that memory ran out twice.
pub fn read_words(rt: &HostRuntime) -> io::Result<Vec<String>> {
    again!(words_of(rt), _, {})
}

/// The words after the program's name.
fn words_of(rt: &HostRuntime) -> io::Result<Vec<String>> {
    Ok(env::args(rt)?.skip(1).collect::<Vec<String>>(rt.alloc())?)
}

/// Whether the part is asked for by the first word: where there is none, each is.
fn is_asked_for(words: &[String], part: &str) -> bool {
    match words.first() {
        Some(word) => word.as_str() == part,
        None => true,
    }
}

/// Runs all parts, or the one of the first word, and prints what came of each. Whoever waits for a lock waits by `waits`. Where it is
/// marked, the error stream says between which calls none takes memory: `no memory`, and `memory` after them. Whether all is as it
/// has to be.
pub fn run<R: Wait + Clone + Drop>(
    rt: &HostRuntime,
    waits: &R,
    words: &[String],
    is_marked: bool,
) -> io::Result<bool> {
    let mut bench = Bench {
        rt,
        alloc: rt.alloc(),
        is_marked,
        differs: false,
    };
    if is_asked_for(words, "workers") {
        cores::run(waits, &mut bench)?;
    }
    if is_asked_for(words, "worlds") {
        worlds::run(&bench)?;
    }
    if is_asked_for(words, "copies") {
        copies::run(&mut bench)?;
    }
    Ok(!bench.differs)
}
