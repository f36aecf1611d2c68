//! `lsr decode -`: a capture, a message in each line, each answered as soon as it has come.
ghost use Rattle.std.specs.Prelude.{◌≡◌, ℕ, List, IfOk, OnOk};
ghost use Rattle.std.specs.Io.KnownBytes.{Appends};
ghost use Rattle.lsr_decode.specs.declared.decoding.Decoded.{Decoded};
ghost use Rattle.lsr_decode.specs.declared.capture.Ending.{Ending};
ghost use Rattle.lsr_decode.specs.Decoding.{Decodes};
ghost use Rattle.lsr_decode.specs.Captures.{DecodesLines, DecodesWord, answer_text, ending_of, ending_status, ending_text, is_refused};

use crate::decoding::{Decoded, decode_digits, run_decode};
use line_streams::{ByteStream, Found, InputFault, LineReader, tell_input_fault};
use lsr_facts::Refusal;
use lsr_text::{OUT_OF_MEMORY, refusal_name};
use std::alloc::Global;
use std::io;
use std::io::Write;

/// The word that stands for the lines of the input.
const INPUT: &str = "-";
/// What the input is called.
const INPUT_NAME: &str = "standard input";
/// What is told of an input that broke, or that has a line of too many bytes.
const UNREADABLE: &str = "\
unreadable
  standard input broke, or its next line has more than 16777216 bytes: look at where it comes from
";

/// How a run over a capture ends.
#[derive(Clone, Copy)]
pub enum Ending {
    /// All lines were answered, and this says whether any was refused.
    Done(bool),
    /// The input broke, a line has more bytes than a reader gives, or there are more lines than 64 bits count. Lines before
    /// that were answered.
    Unreadable,
    /// The input is a folder. Lines before that was found were answered.
    Folder,
    /// There is no memory for a line. Lines before it were answered.
    Memory,
}

/// Prints the answer to the line of this number, and an empty line after it: whether it is a refusal. The error is the
/// stream's.
fn put_answer<W: Write>(output: &mut W, number: u64, decoded: &Decoded) -> io::Result<bool>
    ensures refused { IfOk result (λ refused. refused ≡ is_refused decoded.now) }
    ensures told { OnOk result (Appends (W.contents output.old) (W.contents output.new) (answer_text number decoded.now)) }
{
    match decoded {
        Decoded::Shown(text) => {
            write!(output, "{text}\n")?;
            Ok(false)
        }
        Decoded::Refused(fault) => {
            let refusal = Refusal::Unread(*fault);
            let kind = refusal.number();
            let name = refusal_name(refusal);
            write!(output, "line {number}: refused {kind} {name}\n\n")?;
            Ok(true)
        }
        Decoded::NoDigits => {
            write!(output, "line {number}: not hexadecimal digits\n\n")?;
            Ok(true)
        }
        Decoded::OddDigits => {
            write!(
                output,
                "line {number}: an odd number of hexadecimal digits\n\n"
            )?;
            Ok(true)
        }
        Decoded::Memory => {
            write!(output, "line {number}: refused 40 NoMemory\n\n")?;
            Ok(true)
        }
    }
}

/// Answers the line of this number: whether it was refused. The error is the output's.
fn answer_line<W: Write>(
    alloc: Global,
    fields: bool,
    number: u64,
    line: &[u8],
    output: &mut W,
) -> io::Result<bool>
    ensures { IfOk result (λ refused. (decoded : Decoded) × Decodes fields line.now decoded
        × Appends (W.contents output.old) (W.contents output.new) (answer_text number decoded) × (refused ≡ is_refused decoded)) }
{
    let decoded = decode_digits(alloc, fields, line);
    put_answer(output, number, &decoded)
}

/// How a run ends that is given no further line, for this fault.
fn ending_of(fault: InputFault) -> Ending
    ensures { result ≡ ending_of fault }
{
    match fault {
        InputFault::Folder => Ending::Folder,
        InputFault::Memory => Ending::Memory,
        InputFault::Absent
        | InputFault::Unopened
        | InputFault::Broken
        | InputFault::TooLong
        | InputFault::NotText(_)
        | InputFault::NotTextLine { .. } => Ending::Unreadable,
    }
}

/// Answers the lines of the input, each as soon as it has come. The error is the output's.
fn decode_lines<S: ByteStream, W: Write>(
    alloc: Global,
    fields: bool,
    input: &mut S,
    output: &mut W,
) -> io::Result<Ending>
    ensures { IfOk result (λ ending. (printed : List ℕ) × Appends (W.contents output.old) (W.contents output.new) printed
        × DecodesLines fields (S.stream input.old) (S.stream input.new) printed ending) }
{
    let mut reader = LineReader::new(alloc);
    let mut line = Vec::new(alloc);
    let mut refused = false;
    'lines: for count in 0..u64::MAX {
        let found = match reader.read_line(input, &mut line) {
            Ok(found) => found,
            Err(fault) => return Ok(ending_of(fault)),
        };
        if let Found::End = found {
            return Ok(Ending::Done(refused));
        }
        let is_bad = answer_line(alloc, fields, count + 1, line.as_slice(), output)?;
        refused = refused | is_bad;
        if let Found::LastLine = found {
            return Ok(Ending::Done(refused));
        }
    }
    Ok(Ending::Unreadable)
}

/// Tells why lines weren't all answered, and gives the status. The error is the stream's.
fn tell_ending<E: Write>(ending: Ending, error: &mut E) -> io::Result<u8>
    ensures status { IfOk result (λ status. status ≡ ending_status ending) }
    ensures told { OnOk result (Appends (E.contents error.old) (E.contents error.new) (ending_text ending)) }
{
    match ending {
        Ending::Done(false) => Ok(0),
        Ending::Done(true) => Ok(1),
        Ending::Unreadable => {
            error.write_all(UNREADABLE.as_bytes())?;
            Ok(1)
        }
        Ending::Folder => {
            tell_input_fault(error, INPUT_NAME, InputFault::Folder)?;
            Ok(1)
        }
        Ending::Memory => {
            write!(error, "{OUT_OF_MEMORY}\n")?;
            Ok(1)
        }
    }
}

/// `lsr decode HEX [--fields]`: as [`run_decode`]. Where the word is `-` each line of the input is the hexadecimal digits of
/// one message, and is answered with the message's lines, or with why it is refused and its number, and an empty line after
/// that; the status is 0, or 1 where a line was refused or the input could not be read to its end. The error is that a
/// stream could not be written.
pub fn run_decode_of<S: ByteStream, W: Write, E: Write>(
    alloc: Global,
    fields: bool,
    word: &str,
    input: &mut S,
    output: &mut W,
    error: &mut E,
) -> io::Result<u8>
    ensures { IfOk result (DecodesWord fields word.now (S.stream input.old) (S.stream input.new)
        (W.contents output.old) (W.contents output.new) (E.contents error.old) (E.contents error.new)) }
{
    if word == INPUT {
        let ending = decode_lines(alloc, fields, input, output)?;
        return tell_ending(ending, error);
    }
    run_decode(alloc, fields, word, output, error)
}
