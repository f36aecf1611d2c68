//! What a console prints, at once.
ghost use Rattle.std.specs.Prelude.{◌≡◌, ◌++◌, OnOk};
ghost use Rattle.std.specs.Io.KnownBytes.{Appends};
ghost use Rattle.lsr_console.specs.Consoles.{end_mark};
ghost use Rattle.lsr_console.specs.Told.{untext_text};

use line_streams::{InputFault, tell_input_fault};
use std::io;
use std::io::Write;

/// What a console's input is called.
const INPUT_NAME: &str = "standard input";

/// The mark at the end of an answer: a line with a full stop alone, as no answer has one.
const MARK: &str = ".\n";

/// The mark at the end of an answer, where it is asked for.
fn end_mark(marks: bool) -> &'static str
    ensures { result.now ≡ end_mark marks }
{
    if marks { MARK } else { "" }
}

/// Ends an answer: its mark is printed where it is asked for, and all that was printed goes out. The error is the output's.
fn put_end<O: Write>(output: &mut O, marks: bool) -> io::Result<()>
    ensures { OnOk result (Appends (O.contents output.old) (O.contents output.new) (end_mark marks)) }
{
    output.write_all(end_mark(marks).as_bytes())?;
    output.flush()
}

/// Prints an answer at once, with its mark where it is asked for. The error is the output's.
pub(crate) fn put<O: Write>(output: &mut O, text: &str, marks: bool) -> io::Result<()>
    ensures { OnOk result (Appends (O.contents output.old) (O.contents output.new) (text.now ++ end_mark marks)) }
{
    output.write_all(text.as_bytes())?;
    put_end(output, marks)
}

/// Tells that the line of this number isn't UTF-8 from this byte of it on, at once, with the mark where it is asked for. The error is the
/// output's.
pub(crate) fn put_untext<O: Write>(
    output: &mut O,
    number: usize,
    at: usize,
    marks: bool,
) -> io::Result<()>
    ensures { OnOk result (Appends (O.contents output.old) (O.contents output.new) (untext_text number at ++ end_mark marks)) }
{
    let fault = InputFault::NotTextLine { line: number, at };
    tell_input_fault(output, INPUT_NAME, fault)?;
    put_end(output, marks)
}
