//! Worked calls of the libraries that are of use by themselves: of the wire formats, and of reserved bandwidth. They stand in
//! files, a line each:
//!
//! - `NAME = PIECES` names bytes, for all lines that follow. PIECES are words: hexadecimal digits or names, each with
//!   `N*` before it where it stands N times.
//! - `VERB PIECES -> ANSWER` is a case. Where something is read, it is written again too, and the bytes are those of
//!   the line, or those that stand as PIECES after ` as `.
//! - `#` begins a comment.
//!
//! The verbs of the wire formats: `object` reads an object, `frame` a frame, `make` a frame and the message in it; `checksum` is the
//! checksum of a message; `turn_frame` reads the frame with each bit of its head turned, `cut_frame` with each length, and
//! they count what came.
//!
//! The verbs of bandwidth go on where the one before ended. An LSP is TUNNEL/ID, a STYLE `ff` or `se`, a RATE the eight
//! hexadecimal digits of a rate word, a SETUP and a HOLDING priority a number of 0 (best) to 7:
//!
//! - `links NUMBER=LIMIT ..`: links with these limits, in bytes per second, nothing reserved on them;
//! - `put LSP LINK STYLE RATE HOLDING`: the LSP has this reservation from now on;
//! - `remove LSP`, `hold LSP HOLDING`, `expire MOMENT`: it goes; it is kept at another priority; what has expired goes (all
//!   expire at 1,000);
//! - `reserved LINK PRIORITY`: what is reserved, in bytes per second;
//! - `fits LSP LINK STYLE RATE SETUP HOLDING`: `yes` or `no`; `victims ..`, the same words: the LSPs, or `none`.

use crate::pieces::Pieces;
use crate::{bandwidth, changes, wire};
use admission::Admission;
use anyhow::{Context, Result};
use sorted_rows::Table;
use std::alloc::Global;
use std::fs;

/// The files, one after the other.
const FILES: [&str; 6] = [
    "rows/checksums.txt",
    "rows/objects.txt",
    "rows/frames.txt",
    "rows/labelled.txt",
    "rows/frame_changes.txt",
    "rows/bandwidth.txt",
];

/// What the lines so far have made: the bytes that they named, and what is reserved.
#[derive(Drop)]
struct Bench {
    pieces: Pieces,
    admission: Admission,
}

impl Bench {
    /// What is said of the case, and the bytes that are written of what was read.
    fn said(&mut self, alloc: Global, case: &str, written: &mut Vec<u8>) -> Result<String> {
        let (verb, text) = case.split_once(' ').unwrap_or((case, ""));
        if bandwidth::is_verb(verb) {
            return bandwidth::said(alloc, &mut self.admission, case);
        }
        let bytes = self.pieces.spell(text)?;
        match verb {
            "turn_frame" => Ok(changes::turned(alloc, bytes.as_slice())?),
            "cut_frame" => Ok(changes::cut(alloc, bytes.as_slice())?),
            _ => wire::said(alloc, verb, bytes.as_slice(), written),
        }
    }

    /// What the case gives in place of what it is to give, where it differs.
    fn difference(&mut self, alloc: Global, case: &str, wanted: &str) -> Result<Option<String>> {
        let (_verb, text) = case.split_once(' ').unwrap_or((case, ""));
        let (words, form) = wanted.split_once(" as ").unwrap_or((wanted, text));
        let mut written = Vec::new(alloc);
        let said = match self.said(alloc, case, &mut written) {
            Ok(said) => said,
            Err(fault) => format!(in alloc; "{fault}")?,
        };
        if said.as_str() != words {
            return Ok(Some(said));
        }
        if written.is_empty() || written == self.pieces.spell(form)? {
            return Ok(None);
        }
        let digits = hex::encode(alloc, written.as_slice())?;
        Ok(Some(format!(in alloc; "{said} as {digits}")?))
    }
}

/// How many cases a file has, and how many of them agree.
#[derive(Drop)]
struct Score {
    agreeing: u32,
    cases: u32,
}

/// Takes the line in, and tells how its case differs.
fn take_line(
    alloc: Global,
    bench: &mut Bench,
    line: &str,
    score: &mut Score,
) -> Result<Option<String>> {
    if line.is_empty() || line.starts_with('#') {
        return Ok(None);
    }
    let Some((case, wanted)) = line.split_once(" -> ") else {
        let (name, text) = line.split_once(" = ").context("no case")?;
        bench.pieces.name(name, text)?;
        return Ok(None);
    };
    score.cases = score.cases.saturating_add(1);
    let difference = bench.difference(alloc, case, wanted)?;
    if difference.is_none() {
        score.agreeing = score.agreeing.saturating_add(1);
    }
    Ok(difference)
}

/// Takes in the lines of the file, and prints each whose case differs.
fn take_file(rt: &HostRuntime, bench: &mut Bench, file: &str) -> Result<()> {
    let mut score = Score {
        agreeing: 0,
        cases: 0,
    };
    for (place, line) in fs::read_to_string(rt, file)?.lines().enumerate() {
        if let Some(differs) = take_line(rt.alloc(), bench, line, &mut score)? {
            println!(rt; "{file}, line {}: {differs}", place.saturating_add(1))?;
        }
    }
    println!(rt; "{file}: {} of {} cases agree", score.agreeing, score.cases)?;
    Ok(())
}

/// Takes in all files.
pub fn run(rt: &HostRuntime) -> Result<()> {
    let alloc = rt.alloc();
    let mut bench = Bench {
        pieces: Pieces::new(alloc),
        admission: Admission::new(alloc, Table::new(alloc))?,
    };
    for file in FILES {
        take_file(rt, &mut bench, file)?;
    }
    Ok(())
}
