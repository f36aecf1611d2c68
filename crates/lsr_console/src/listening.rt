//! Who reads a console's input, on a thread of its own.
ghost use Rattle.std.specs.Prelude.{◌≡◌, ◌≤◌, false, length};
ghost use Rattle.line_streams.specs.Streams.{left_of};
ghost use Rattle.lsr_console.specs.Heard.{Hears, IsHeardAs, IsHeardOf, is_last};

use crate::said::QUIT_WORD;
use crossbeam_channel::{Receiver, Sender, bounded};
use line_streams::{ByteStream, Found, InputFault, LineReader};
use std::alloc::{AllocError, Global};
use std::sync::Wait;

/// How many lines may wait to be answered. The input isn't read further before one of them is.
pub const WAITING_LINES: usize = 16;

/// What came of a console's input.
#[derive(Drop)]
pub enum Heard {
    /// A line, without its newline.
    Line(String),
    /// A line that isn't UTF-8 from this byte of it on. The first is byte 0.
    NotText(usize),
    /// No further line is read, for this fault.
    Fault(InputFault),
    /// The end.
    End,
}

/// What comes next of an input.
#[derive(Drop)]
struct Next {
    heard: Heard,
    /// Whether nothing comes after it.
    is_last: bool,
}

/// What hands lines over to a console, and what the console takes them from: at most [`WAITING_LINES`] wait between them. The only error
/// is that memory ran out.
pub fn open_lines(alloc: Global) -> Result<(Sender<Heard>, Receiver<Heard>), AllocError> {
    bounded(alloc, WAITING_LINES)
}

/// A line of these bytes, as it is handed over. Takes no memory.
fn line_of(bytes: Vec<u8>) -> Heard
    ensures { IsHeardAs bytes.items result }
{
    match String::from_utf8(bytes) {
        Ok(line) => Heard::Line(line),
        Err(error) => Heard::NotText(error.utf8_error().valid_up_to()),
    }
}

/// What is handed over where a reader found this, which put the line into the bytes. Takes no memory.
fn heard_of(found: &Result<Found, InputFault>, line: Vec<u8>) -> Heard
    ensures { IsHeardOf found.now line.items result }
{
    match found {
        Ok(Found::Line | Found::LastLine) => line_of(line),
        Ok(Found::End) => Heard::End,
        Err(fault) => Heard::Fault(*fault),
    }
}

/// Whether nothing comes after what a reader found.
fn is_last(found: &Result<Found, InputFault>) -> bool
    ensures { result ≡ is_last found.now }
{
    !matches!(found, Ok(Found::Line))
}

/// What comes next of the input: its next line, or why there is none. A line has at most 16,777,216 bytes.
fn next_heard<S: ByteStream>(alloc: Global, reader: &mut LineReader, input: &mut S) -> Next
    requires { length (left_of reader.old) ≤ 65536 }
    ensures hears { Hears (S.stream input.old) (S.stream input.new) (left_of reader.old) (left_of reader.new) result.heard result.is_last }
    ensures few { result.is_last ≡ false → length (left_of reader.new) ≤ 65536 }
{
    let mut line = Vec::new(alloc);
    let found = reader.read_line(input, &mut line);
    Next {
        heard: heard_of(&found, line),
        is_last: is_last(&found),
    }
}

/// Whether it is the line that ends the run.
fn is_quit(heard: &Heard) -> bool {
    match heard {
        Heard::Line(line) => line.as_str() == QUIT_WORD,
        _ => false,
    }
}

/// Reads the lines of an input, and hands each over as soon as it has come, waiting for room: none is lost. It ends at the end of the
/// input, at a fault of it, after the line `quit`, and when nobody takes lines any more. It is meant for a thread of its own: while it
/// waits for a line it can't be ended.
pub fn listen<R: Wait, S: ByteStream>(rt: &R, alloc: Global, input: &mut S, lines: Sender<Heard>) {
    let mut reader = LineReader::new(alloc);
    'lines: for _ in rt.forever() {
        let Next { heard, is_last } = next_heard(alloc, &mut reader, input);
        let ends = is_last || is_quit(&heard);
        if lines.send(rt, heard).is_err() || ends {
            return;
        }
    }
    unreachable!()
}
