//! `lsr show-journal` on a file.

ghost use Rattle.std.specs.Prelude.{IfOk};
ghost use Rattle.lsr_runs.specs.Showing.{ShowsFile};

use crate::checking::read_named_bytes;
use crate::endings::FAILED;
use crate::files::FilesByName;
use journal_lines::run_show_journal;
use line_streams::tell_input_fault;
use std::alloc::Global;
use std::io;
use std::io::Write;

/// `lsr show-journal FILE`: shows the journal of the file of this name, entry by entry, up to the byte at which it breaks, if it does. Gives
/// the status, 0 or 1. The error is that a stream could not be written, or that memory ran out.
pub fn run_show_journal_of<F: FilesByName, W: Write, E: Write>(
    files: &F,
    alloc: Global,
    file: &str,
    output: &mut W,
    error: &mut E,
) -> io::Result<u8>
    ensures { IfOk result (ShowsFile (F.opens files.now) (F.fails files.now) F.File.stream file.now
        (W.contents output.old) (W.contents output.new) (E.contents error.old) (E.contents error.new)) }
{
    match read_named_bytes(files, alloc, file) {
        Ok(bytes) => run_show_journal(alloc, bytes.as_slice(), output, error),
        Err(fault) => {
            tell_input_fault(error, file, fault)?;
            Ok(FAILED)
        }
    }
}
