//! What is printed of a file of a recorded run, and what is told of it.

ghost use Rattle.std.specs.Prelude.{◌++◌, OnOk};
ghost use Rattle.std.specs.Io.KnownBytes.{Appends};
ghost use Rattle.lsr_check.specs.Telling.{flaw_line, flaw_text, name_line, run_line, stop_line, stop_text, unread_line, unread_text};

use crate::flaw::{Flaw, Stop};
use crate::recorded::{Recorded, Unread};
use crate::telling::push_flaw;
use line_streams::tell_input_fault;
use std::alloc::Global;
use std::io;
use std::io::Write;

/// Prints that there is a run, of so many entries. The error is the stream's.
pub(crate) fn put_run<W: Write>(output: &mut W, count: usize) -> io::Result<()>
    ensures { OnOk result (Appends (W.contents output.old) (W.contents output.new) (run_line count)) }
{
    write!(output, "run of {count} entries\n")
}

/// Prints what is wrong with a recorded run. The error is the stream's.
fn put_flaw<W: Write>(output: &mut W, flaw: &Flaw) -> io::Result<()>
    ensures { OnOk result (Appends (W.contents output.old) (W.contents output.new) (flaw_line flaw.now)) }
{
    match flaw {
        Flaw::Gap => write!(output, "entry 0: Gap\n"),
        Flaw::Fault(fault) => write!(output, "{fault}\n"),
    }
}

/// Prints that there is no recorded run in a file that was read. The error is the stream's.
fn put_unread<W: Write>(output: &mut W, unread: Unread) -> io::Result<()>
    ensures { OnOk result (Appends (W.contents output.old) (W.contents output.new) (unread_line unread)) }
{
    match unread {
        Unread::Input(_) => Ok(()),
        Unread::Format => write!(output, "entry 0: Format\n"),
        Unread::Memory => write!(output, "entry 0: Memory\n"),
    }
}

/// Prints what ends the check. The error is the stream's.
pub(crate) fn put_stop<W: Write>(output: &mut W, stop: &Stop) -> io::Result<()>
    ensures { OnOk result (Appends (W.contents output.old) (W.contents output.new) (stop_line stop.now)) }
{
    match stop {
        Stop::Unread(unread) => put_unread(output, *unread),
        Stop::Flawed(_, flaw) => put_flaw(output, flaw),
    }
}

/// Tells which file it is. The error is the stream's.
fn tell_name<E: Write>(error: &mut E, name: &str) -> io::Result<()>
    ensures { OnOk result (Appends (E.contents error.old) (E.contents error.new) (name_line name.now)) }
{
    write!(error, "  in {name}\n")
}

/// Tells why the file of this name has no recorded run. The error is the stream's.
fn tell_unread<E: Write>(error: &mut E, name: &str, unread: Unread) -> io::Result<()>
    ensures { OnOk result (Appends (E.contents error.old) (E.contents error.new) (unread_text name.now unread)) }
{
    match unread {
        Unread::Input(fault) => tell_input_fault(error, name, fault),
        Unread::Format => {
            tell_name(error, name)?;
            write!(
                error,
                "  these bytes are no journal file, or one that was cut short: copy it again\n"
            )
        }
        Unread::Memory => tell_name(error, name),
    }
}

/// Tells what is wrong with the recorded run of the file of this name. The error is the stream's, or that memory ran out.
fn tell_flaw<E: Write>(
    alloc: Global,
    error: &mut E,
    name: &str,
    run: &Recorded,
    flaw: &Flaw,
) -> io::Result<()>
    ensures { OnOk result (Appends (E.contents error.old) (E.contents error.new) (name_line name.now ++ flaw_text flaw.now run.now)) }
{
    let mut text = String::new(alloc);
    write!(text, "  in {name}\n")?;
    push_flaw(alloc, &mut text, flaw, run)?;
    error.write_all(text.as_bytes())
}

/// Tells what ends the check at the file of this name. The error is the stream's, or that memory ran out.
pub(crate) fn tell_stop<E: Write>(
    alloc: Global,
    error: &mut E,
    name: &str,
    stop: &Stop,
) -> io::Result<()>
    ensures { OnOk result (Appends (E.contents error.old) (E.contents error.new) (stop_text name.now stop.now)) }
{
    match stop {
        Stop::Unread(unread) => tell_unread(error, name, *unread),
        Stop::Flawed(run, flaw) => tell_flaw(alloc, error, name, run, flaw),
    }
}
