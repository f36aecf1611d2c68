//! `lsr check` on files, one after the other.

ghost use Rattle.std.specs.Prelude.{◌≡◌, ℕ, List, None, IfErr, IfOk, length, map, option_map};
ghost use Rattle.std.specs.Io.KnownBytes.{Appends};
ghost use Rattle.abstract_router.specs.States.{State};
ghost use Rattle.lsr_check.specs.Checking.{Checks, IsRunIn, StopsAt};
ghost use Rattle.lsr_check.specs.Following.{end_of};
ghost use Rattle.lsr_check.specs.declared.recorded.Recorded.{Recorded};

use crate::flaw::Stop;
use crate::following::check_after;
use crate::recorded::{Recorded, RunEnd, RunsByName};
use crate::verdict::{put_run, put_stop, tell_stop};
use std::alloc::Global;
use std::io;
use std::io::Write;

/// The status where all files are runs.
const DONE: u8 = 0;
/// The status where one isn't.
const FAILED: u8 = 1;

/// A file's run.
#[derive(Debug, Drop)]
struct Checked {
    /// How many entries it has.
    count: usize,
    /// Where it ends.
    end: RunEnd,
}

/// The run of a file, which has to begin where the one before it ended, if there is one.
fn check_file<N: RunsByName>(
    alloc: Global,
    runs: &N,
    before: Option<&RunEnd>,
    name: &str,
) -> Result<Checked, Stop>
    ensures run { IfOk result (λ checked. (run : Recorded) × (state : State)
        × IsRunIn (N.spells runs.now) (option_map (λ end. end.now) before.entry) name.now run state
        × (checked.count ≡ length run.entries) × (checked.end ≡ end_of run state)) }
    ensures stop { IfErr result (StopsAt (N.spells runs.now) (N.fails runs.now) (option_map (λ end. end.now) before.entry) name.now) }
{
    let run = match runs.read(alloc, name) {
        Ok(run) => run,
        Err(unread) => return Err(Stop::Unread(unread)),
    };
    match check_after(alloc, before, &run) {
        Ok(state) => Ok(Checked {
            count: run.entries.as_slice().len(),
            end: run.end(state),
        }),
        Err(flaw) => Err(Stop::Flawed(run, flaw)),
    }
}

/// Checks the files of these names as [`run_check`] does, from where the run of the file before the first ended, if there is one.
fn check_rest<N: RunsByName, W: Write, E: Write>(
    alloc: Global,
    runs: &N,
    before: Option<RunEnd>,
    names: &[&str],
    output: &mut W,
    error: &mut E,
) -> io::Result<u8>
    ensures { IfOk result (λ status. (printed : List ℕ) × (told : List ℕ)
        × Checks (N.spells runs.now) (N.fails runs.now) before (map (λ name. name.now) names.now) printed told status
        × Appends (W.contents output.old) (W.contents output.new) printed
        × Appends (E.contents error.old) (E.contents error.new) told) }
{
    let [name, rest @ ..] = names else {
        return Ok(DONE);
    };
    match check_file(alloc, runs, before.as_ref(), name) {
        Ok(checked) => {
            put_run(output, checked.count)?;
            let status = check_rest(alloc, runs, Some(checked.end), rest, output, error)?;
            Ok(status)
        }
        Err(stop) => {
            put_stop(output, &stop)?;
            tell_stop(alloc, error, name, &stop)?;
            Ok(FAILED)
        }
    }
}

/// `lsr check FILE..`: says of the file of each name, in their order, that its recorded run is one, from where the one before it
/// ended. The first that isn't ends that: what is wrong with it is printed in one line, and told on the error stream: what was found, and
/// what was expected. Gives the status, 0 where all are runs, else 1. The error is that a stream could not be written, or that memory
/// ran out for what is told.
pub fn run_check<N: RunsByName, W: Write, E: Write>(
    alloc: Global,
    runs: &N,
    names: &[&str],
    output: &mut W,
    error: &mut E,
) -> io::Result<u8>
    ensures { IfOk result (λ status. (printed : List ℕ) × (told : List ℕ)
        × Checks (N.spells runs.now) (N.fails runs.now) None (map (λ name. name.now) names.now) printed told status
        × Appends (W.contents output.old) (W.contents output.new) printed
        × Appends (E.contents error.old) (E.contents error.new) told) }
{
    check_rest(alloc, runs, None, names, output, error)
}
