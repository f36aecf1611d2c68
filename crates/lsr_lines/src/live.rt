//! The lines of a stream, each answered as soon as it has come.
ghost use Rattle.std.specs.Prelude.{◌≡◌, ◌+◌, ℕ, List, [], true, false, IfOk};
ghost use Rattle.std.specs.Io.KnownBytes.{Appends};
ghost use Rattle.lsr_lines.specs.Live.{BecomesLive, Lives, Marks, is_told};

use crate::forms::tell_bad_line;
use crate::step::{Answers, LineOutcome, is_remark, step_line};
use line_streams::{ByteStream, Found, InputFault, LineReader};
use std::alloc::Global;
use std::io;
use std::io::Write;

/// How a run over lines ends that are answered as they come.
#[derive(Clone, Copy, Debug, PartialEq, Eq)]
pub enum LiveEnding {
    /// The input ended, and every line was served.
    Done,
    /// There was no memory for a line that asks for something. The lines before it were served.
    Memory,
    /// No further line is served, for this fault of the input.
    Unread(InputFault),
}

/// Whether it is told of a line that it asks for nothing.
fn is_told(served: LineOutcome) -> bool
    ensures { result ≡ is_told served }
{
    matches!(served, LineOutcome::NoRequest)
}

/// Serves the line of this number: a remark is passed over, a line that asks for something is answered, and of another one it
/// is told on the error stream which it is and what was expected. Gives the session as it is then. The error is that a stream
/// could not be written.
fn serve_line<A: Answers, W: Write, E: Write>(
    alloc: Global,
    session: A,
    echo: bool,
    number: usize,
    line: &str,
    output: &mut W,
    error: &mut E,
) -> io::Result<(A, LineOutcome)>
    ensures { IfOk result (λ r. (printed : List ℕ) × (told : List ℕ)
        × Appends (W.contents output.old) (W.contents output.new) printed × Appends (E.contents error.old) (E.contents error.new) told
        × BecomesLive A.answers echo session number line.now printed told r.1 r.0) }
{
    if is_remark(line) {
        return Ok((session, LineOutcome::Done));
    }
    let (session, served) = step_line(alloc, session, echo, line, output)?;
    output.flush()?;
    match served {
        LineOutcome::Done => Ok((session, LineOutcome::Done)),
        LineOutcome::NoRequest => {
            tell_bad_line(error, number, line)?;
            Ok((session, LineOutcome::NoRequest))
        }
        LineOutcome::Memory => Ok((session, LineOutcome::Memory)),
    }
}

/// Serves the lines of the input, each as soon as it has come: how that ends, and whether of a line it was told that it asks
/// for nothing. With `echo` each line is printed before its answer. The error is that a stream could not be written.
pub fn serve_lines<A: Answers, S: ByteStream, W: Write, E: Write>(
    alloc: Global,
    session: A,
    echo: bool,
    input: &mut S,
    output: &mut W,
    error: &mut E,
) -> io::Result<(LiveEnding, bool)>
    ensures { IfOk result (λ r. (printed : List ℕ) × (told : List ℕ)
        × Appends (W.contents output.old) (W.contents output.new) printed × Appends (E.contents error.old) (E.contents error.new) told
        × Marks r.1 told × Lives A.answers echo session (S.stream input.old) (S.stream input.new) printed told r.0) }
{
    let mut reader = LineReader::new(alloc);
    let mut line = Vec::new(alloc);
    let mut session = session;
    let mut bad = false;
    'lines: for count in 0..usize::MAX {
        let found = match reader.read_line(input, &mut line) {
            Ok(found) => found,
            Err(fault) => return Ok((LiveEnding::Unread(fault), bad)),
        };
        if let Found::End = found {
            return Ok((LiveEnding::Done, bad));
        }
        let text = match str::from_utf8(line.as_slice()) {
            Ok(text) => text,
            Err(error) => {
                let fault = InputFault::NotTextLine {
                    line: count + 1,
                    at: error.valid_up_to(),
                };
                return Ok((LiveEnding::Unread(fault), bad));
            }
        };
        let (next, served) = serve_line(alloc, session, echo, count + 1, text, output, error)?;
        if let LineOutcome::Memory = served {
            return Ok((LiveEnding::Memory, bad));
        }
        session = next;
        bad = bad | is_told(served);
        if let Found::LastLine = found {
            return Ok((LiveEnding::Done, bad));
        }
    }
    Ok((LiveEnding::Unread(InputFault::TooLong), bad))
}
