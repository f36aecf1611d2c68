//! A run over lines whose session may leave lines unserved, and may end it.
ghost use Rattle.std.specs.Prelude.{◌≡◌, ℕ, Bool, List, Option, IfOk, OnErr, string_bytes};
ghost use Rattle.std.specs.Option.{option_map};
ghost use Rattle.std.specs.Io.KnownBytes.{Appends, append_known};
ghost use Rattle.line_streams.specs.Cuts.{lines_of};
ghost use Rattle.lsr_lines.specs.declared.lines.Request.{Request};
ghost use Rattle.lsr_lines.specs.Runs.{BecomesServed, Stops, answers_of};
ghost use Rattle.lsr_lines.specs.Steps.{IsUntold};

use crate::lines::{Request, read_request};
use crate::step::{Ending, LineOutcome, is_passed, put_echo, put_full};
use line_streams::next_line;
use std::alloc::{AllocError, Global};
use std::io;
use std::io::Write;

/// A session that serves requests, one after the other, until it is over. It may serve not every request.
pub trait Serves: Drop {
    ghost serves: { Self → Request → Option (List ℕ) → Self → Type 0 };

    ghost over: { Self → Bool };

    /// Serves a request: gives itself as it is then, and the lines that are printed, or none where it serves no such request.
    /// The only error is that memory ran out: then it is as it was, or as it is after the answer for whose lines there was no
    /// memory.
    fn serve(self, alloc: Global, request: &Request) -> (Self, Result<Option<String>, AllocError>)
        ensures told { IfOk result.1 (λ text. serves self request.now (option_map string_bytes text) result.0) }
        ensures untold { OnErr result.1 (IsUntold (answers_of serves self request.now) self result.0) };

    /// Whether it is over: it serves no further line.
    fn is_over(&self) -> bool
        ensures { result ≡ over self.now };
}

/// What ends a run over lines.
#[derive(Clone, Copy, Debug, PartialEq, Eq)]
pub enum RunStop<'a> {
    /// The lines end it.
    Lines(Ending<'a>),
    /// The session does: it is over. Lines may be left.
    Session,
}

/// Serves the line, and prints the answer: the session as it is then. Where memory ran out it is as it was, or as it is after the
/// answer for which there was no memory. The error is the output's.
pub(crate) fn serve_one<S: Serves, W: Write>(
    alloc: Global,
    session: S,
    echo: bool,
    line: &str,
    output: &mut W,
) -> io::Result<(S, LineOutcome)>
    ensures { IfOk result (λ r. (printed : List ℕ) × Appends (W.contents output.old) (W.contents output.new) printed
        × BecomesServed S.serves echo session line.now printed r.1 r.0) }
{
    if is_passed(echo, line) {
        return Ok((session, LineOutcome::Done));
    }
    let request = match read_request(alloc, line) {
        Ok(Some(request)) => request,
        Ok(None) => return Ok((session, LineOutcome::NoRequest)),
        Err(_) => return Ok((session, LineOutcome::Memory)),
    };
    match session.serve(alloc, &request) {
        (session, Ok(Some(text))) => {
            put_echo(echo, line, output)?;
            output.write_all(text.as_bytes())?;
            Ok((session, LineOutcome::Done))
        }
        (session, Ok(None)) => Ok((session, LineOutcome::NoRequest)),
        (session, Err(_)) => Ok((session, LineOutcome::Memory)),
    }
}

/// Serves the line as [`serve_one`] does, and prints the answer to the block, which is written where it is full. The error is
/// the output's, or that memory ran out for the block: then the answers before this one are written.
fn serve_into<S: Serves, W: Write>(
    alloc: Global,
    session: S,
    echo: bool,
    line: &str,
    block: &mut Vec<u8>,
    output: &mut W,
) -> io::Result<(S, LineOutcome)>
    ensures { IfOk result (λ r. (printed : List ℕ)
        × Appends (append_known (W.contents output.old) block.old.items) (append_known (W.contents output.new) block.new.items) printed
        × BecomesServed S.serves echo session line.now printed r.1 r.0) }
{
    let len = block.len();
    match serve_one(alloc, session, echo, line, block) {
        Ok(served) => {
            put_full(block, output)?;
            Ok(served)
        }
        Err(fault) => {
            block.truncate(len);
            let _ = output.write_all(block.as_slice());
            Err(fault)
        }
    }
}

/// Serves the lines as [`run_lines`] does. What is printed last and isn't written yet is in the block.
fn run_all<'a, S: Serves, W: Write>(
    alloc: Global,
    session: S,
    echo: bool,
    text: &'a str,
    block: &mut Vec<u8>,
    output: &mut W,
) -> io::Result<(S, RunStop<'a>)>
    ensures { IfOk result (λ r. (printed : List ℕ)
        × Appends (append_known (W.contents output.old) block.old.items) (append_known (W.contents output.new) block.new.items) printed
        × Stops S.serves S.over echo session (lines_of text.now) printed r.1 r.0) }
{
    let mut session = session;
    let mut rest = text;
    let mut number = 0usize;
    'lines: while !session.is_over() {
        let Some((line, others)) = next_line(rest) else {
            return Ok((session, RunStop::Lines(Ending::Done)));
        };
        number += 1;
        let (next, served) = serve_into(alloc, session, echo, line, block, output)?;
        session = next;
        match served {
            LineOutcome::Done => {}
            LineOutcome::NoRequest => {
                return Ok((session, RunStop::Lines(Ending::BadLine(number, line))));
            }
            LineOutcome::Memory => return Ok((session, RunStop::Lines(Ending::Memory))),
        }
        rest = others;
    }
    Ok((session, RunStop::Session))
}

/// Serves the lines of the text, one after the other, up to the first that the session doesn't serve, or until it is over: gives
/// it as it is then, and what ended the run. With `echo` each line is printed before its answer, and empty lines and lines that
/// begin with # are passed over. Many answers are written at once, and all are when this returns. The error is the output's, or
/// that memory ran out for what is to be written.
pub fn run_lines<'a, S: Serves, W: Write>(
    alloc: Global,
    session: S,
    echo: bool,
    text: &'a str,
    output: &mut W,
) -> io::Result<(S, RunStop<'a>)>
    ensures { IfOk result (λ r. (printed : List ℕ) × Appends (W.contents output.old) (W.contents output.new) printed
        × Stops S.serves S.over echo session (lines_of text.now) printed r.1 r.0) }
{
    let mut block = Vec::new(alloc);
    let ran = run_all(alloc, session, echo, text, &mut block, output)?;
    output.write_all(block.as_slice())?;
    Ok(ran)
}
