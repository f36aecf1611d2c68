//! `lsr check` on the files that its words name.

ghost use Rattle.std.specs.Prelude.{IfErr, IfOk, map};
ghost use Rattle.lsr_runs.specs.Checking.{ChecksFiles, HasBytes, IsUnreadRun, ReadsRun};
ghost use Rattle.lsr_runs.specs.Playing.{IsTextless};

use crate::files::FilesByName;
use field_bytes::ReadFault;
use journal_files::{Recording, read_segment};
use line_streams::{InputFault, read_bytes};
use lsr_check::{Recorded, RunsByName, Unread, run_check};
use std::alloc::Global;
use std::io;
use std::io::Write;

/// The bytes of the file of this name.
pub(crate) fn read_named_bytes<F: FilesByName>(
    files: &F,
    alloc: Global,
    name: &str,
) -> Result<Vec<u8>, InputFault>
    ensures bytes { IfOk result (λ bytes. HasBytes (F.opens files.now) F.File.stream name.now bytes.items) }
    ensures fault { IfErr result (IsTextless (F.opens files.now) (F.fails files.now) F.File.stream name.now) }
{
    let mut file = match files.open(name) {
        Ok(file) => file,
        Err(fault) => return Err(fault),
    };
    match read_bytes(alloc, &mut file) {
        Ok(bytes) => Ok(bytes),
        Err(fault) => Err(fault),
    }
}

/// The recorded runs of files.
#[derive(Drop)]
struct RunFiles<'a, F: FilesByName> {
    files: &'a F,
}

/// The run that a file's bytes spell.
fn run_in(alloc: Global, bytes: &[u8]) -> Result<Recorded, Unread>
    ensures run { IfOk result (ReadsRun bytes.now) }
    ensures fault { IfErr result (IsUnreadRun bytes.now) }
{
    match read_segment(alloc, bytes) {
        Ok(
            Recording {
                text: _text,
                config,
                base,
                entries,
            },
        ) => Ok(Recorded {
            config,
            base,
            entries,
        }),
        Err(ReadFault::Format) => Err(Unread::Format),
        Err(ReadFault::Memory) => Err(Unread::Memory),
    }
}

impl<F: FilesByName> RunsByName for RunFiles<'_, F> {
    ghost use Rattle.lsr_runs.specs.Checking.{FailsIn, SpellsIn};

    ghost spells = { λ runs. SpellsIn (F.opens runs.files.now) F.File.stream };

    ghost fails = { λ runs. FailsIn (F.opens runs.files.now) (F.fails runs.files.now) F.File.stream };

    fn read(&self, alloc: Global, name: &str) -> Result<Recorded, Unread> {
        match read_named_bytes(self.files, alloc, name) {
            Ok(bytes) => run_in(alloc, bytes.as_slice()),
            Err(fault) => Err(Unread::Input(fault)),
        }
    }
}

/// `lsr check FILE..`: says of the file of each name, in their order, whether its recorded run is one, from where the run of the file before
/// it ended. Gives the status, 0 or 1. The error is that a stream could not be written, or that memory ran out for what is told.
pub fn run_check_of<F: FilesByName, W: Write, E: Write>(
    files: &F,
    alloc: Global,
    names: &[&str],
    output: &mut W,
    error: &mut E,
) -> io::Result<u8>
    ensures { IfOk result (ChecksFiles (F.opens files.now) (F.fails files.now) F.File.stream (map (λ name. name.now) names.now)
        (W.contents output.old) (W.contents output.new) (E.contents error.old) (E.contents error.new)) }
{
    run_check(alloc, &RunFiles { files }, names, output, error)
}
