//! The lines of a text, answered one after the other.
ghost use Rattle.std.specs.Prelude.{◌≡◌, ℕ, List, IfOk, OnOk, OnErr, string_bytes};
ghost use Rattle.std.specs.Io.KnownBytes.{Appends, Keeps, append_known};
ghost use Rattle.lsr_lines.specs.declared.lines.Request.{Request};
ghost use Rattle.line_streams.specs.Cuts.{lines_of};
ghost use Rattle.lsr_lines.specs.Steps.{Becomes, Ends, IsUntold, echo_text, is_passed, is_remark};

use crate::lines::Request;
use crate::run::{RunStop, Serves, run_lines, serve_one};
use std::alloc::{AllocError, Global};
use std::io;
use std::io::Write;

/// From so many bytes on what is printed is written, in one piece.
const BLOCK_LEN: usize = 65_536;

/// What answers requests.
pub trait Answers: Drop {
    ghost answers: { Self → Request → List ℕ → Self → Type 0 };

    /// Answers a request: gives itself as it is then, and the lines that are printed. The only error is that
    /// memory ran out: then it is as it was, or as it is after the answer for whose lines there was no memory.
    fn answer(self, alloc: Global, request: &Request) -> (Self, Result<String, AllocError>)
        ensures told { IfOk result.1 (λ text. answers self request.now (string_bytes text) result.0) }
        ensures untold { OnErr result.1 (IsUntold (answers self request.now) self result.0) };
}

/// How a run over lines ends.
#[derive(Clone, Copy, Debug, PartialEq, Eq)]
pub enum Ending<'a> {
    /// Every line was served.
    Done,
    /// The line of this number, from 1, asks for nothing that there is. The lines before it were served.
    BadLine(usize, &'a str),
    /// There was no memory for a line that asks for something: for its message, or to answer it. The lines before it
    /// were served.
    Memory,
}

/// What became of one line.
#[derive(Clone, Copy)]
pub(crate) enum LineOutcome {
    /// It was served: its answer was printed, or it was passed over.
    Done,
    /// It asks for nothing that there is.
    NoRequest,
    /// There was no memory for its message, or to answer it.
    Memory,
}

/// Who answers every request, as a session that is never over.
#[derive(Drop)]
struct Unending<A: Answers> {
    session: A,
}

impl<A: Answers> Serves for Unending<A> {
    ghost use Rattle.std.specs.Option.{MatchOption};
    ghost use Rattle.std.specs.Prelude.{false};

    ghost serves = { λ before request text after. MatchOption text ⊥ (λ t. A.answers before.session request t after.session) };

    ghost over = { λ _. false };

    fn serve(
        self,
        alloc: Global,
        request: &Request,
    ) -> (Unending<A>, Result<Option<String>, AllocError>) {
        let Unending { session } = self;
        match session.answer(alloc, request) {
            (session, Ok(text)) => (Unending { session }, Ok(Some(text))),
            (session, Err(error)) => (Unending { session }, Err(error)),
        }
    }

    fn is_over(&self) -> bool {
        false
    }
}

/// Whether the line is a remark: it is empty, or begins with #.
pub fn is_remark(line: &str) -> bool
    ensures { result ≡ is_remark line.now }
{
    matches!(line.as_bytes(), [] | [b'#', ..])
}

/// Whether the line is passed over: where lines are echoed a remark is.
pub(crate) fn is_passed(echo: bool, line: &str) -> bool
    ensures { result ≡ is_passed echo line.now }
{
    echo && is_remark(line)
}

/// Prints the line, where lines are echoed. The error is the output's.
pub(crate) fn put_echo<W: Write>(echo: bool, line: &str, output: &mut W) -> io::Result<()>
    ensures { OnOk result (Appends (W.contents output.old) (W.contents output.new) (echo_text echo line.now)) }
{
    if echo {
        return write!(output, "{line}\n");
    }
    Ok(())
}

/// Answers the line, and prints the answer: the session as it is then. A line that asks for nothing leaves it as it
/// was. Where memory ran out it is as it was, or as it is after the answer for which there was no memory. The error is
/// the output's.
pub(crate) fn step_line<A: Answers, W: Write>(
    alloc: Global,
    session: A,
    echo: bool,
    line: &str,
    output: &mut W,
) -> io::Result<(A, LineOutcome)>
    ensures { IfOk result (λ r. (printed : List ℕ) × Appends (W.contents output.old) (W.contents output.new) printed
        × Becomes A.answers echo session line.now printed r.1 r.0) }
{
    let (after, served) = serve_one(alloc, Unending { session }, echo, line, output)?;
    let Unending { session } = after;
    Ok((session, served))
}

/// Writes the block, where it has [`BLOCK_LEN`] bytes or more: it is empty then. The error is the output's.
pub fn put_full<W: Write>(block: &mut Vec<u8>, output: &mut W) -> io::Result<()>
    ensures { OnOk result (Keeps (append_known (W.contents output.old) block.old.items) (append_known (W.contents output.new) block.new.items)) }
{
    if block.len() < BLOCK_LEN {
        return Ok(());
    }
    output.write_all(block.as_slice())?;
    block.clear();
    Ok(())
}

/// Answers the lines of the text, one after the other, up to the first that asks for nothing. With `echo` each is printed
/// before its answer, and empty lines and lines that begin with # are passed over. Many answers are written at once, and all
/// are when this returns. The error is the output's, or that memory ran out for what is to be written.
pub fn step_lines<'a, A: Answers, W: Write>(
    alloc: Global,
    session: A,
    echo: bool,
    text: &'a str,
    output: &mut W,
) -> io::Result<Ending<'a>>
    ensures { IfOk result (λ ending. (printed : List ℕ) × Appends (W.contents output.old) (W.contents output.new) printed
        × Ends A.answers echo session (lines_of text.now) printed ending) }
{
    let (_after, stop) = run_lines(alloc, Unending { session }, echo, text, output)?;
    match stop {
        RunStop::Lines(ending) => Ok(ending),
        RunStop::Session => unreachable!(),
    }
}
