//! `lsr decode` on what its word stands for.
ghost use Rattle.std.specs.Prelude.{IfOk};
ghost use Rattle.lsr_runs.specs.Decoding.{DecodesAny, DecodesNamed};

use crate::endings::FAILED;
use crate::files::FilesByName;
use line_streams::{ByteStream, tell_input_fault};
use lsr_decode::{is_file_name, run_decode_file, run_decode_of};
use std::alloc::Global;
use std::io;
use std::io::Write;

/// The capture file of this name, decoded. The error is that a stream could not be written.
fn run_decode_named<F: FilesByName, W: Write, E: Write>(
    files: &F,
    alloc: Global,
    fields: bool,
    name: &str,
    output: &mut W,
    error: &mut E,
) -> io::Result<u8>
    ensures { IfOk result (DecodesNamed (F.opens files.now) (F.fails files.now) F.File.stream fields name.now
        (W.contents output.old) (W.contents output.new) (E.contents error.old) (E.contents error.new)) }
{
    match files.open(name) {
        Ok(file) => {
            let mut file = file;
            run_decode_file(alloc, fields, name, &mut file, output, error)
        }
        Err(fault) => {
            tell_input_fault(error, name, fault)?;
            Ok(FAILED)
        }
    }
}

/// `lsr decode WORD [--fields]`: a word with a dot or a slash is the name of a capture file, whose messages are printed; any other is
/// decoded itself, and `-` stands for the lines of the input. Gives the status. The error is that a stream could not be
/// written.
pub fn run_decode_on<F: FilesByName, R: ByteStream, W: Write, E: Write>(
    files: &F,
    alloc: Global,
    fields: bool,
    word: &str,
    input: &mut R,
    output: &mut W,
    error: &mut E,
) -> io::Result<u8>
    ensures { IfOk result (DecodesAny (F.opens files.now) (F.fails files.now) F.File.stream fields word.now (R.stream input.old) (R.stream input.new)
        (W.contents output.old) (W.contents output.new) (E.contents error.old) (E.contents error.new)) }
{
    if is_file_name(word) {
        return run_decode_named(files, alloc, fields, word, output, error);
    }
    run_decode_of(alloc, fields, word, input, output, error)
}
