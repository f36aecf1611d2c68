//! `lsr step --live`: the lines of the input, each answered as soon as it has come.
ghost use Rattle.std.specs.Prelude.{◌≡◌, ℕ, List, Ok, IfOk, IfErr, OnOk};
ghost use Rattle.std.specs.Option.{option_map};
ghost use Rattle.std.specs.Io.KnownBytes.{Appends};
ghost use Rattle.lsr_config.specs.Configs.{Setup};
ghost use Rattle.lsr_config.specs.Reading.{IsRead};
ghost use Rattle.lsr_runs.specs.Live.{NeverBegins, RunsLive, RunsLiveOn, ending_of, live_status};
ghost use Rattle.lsr_runs.specs.Endings.{ending_text};
ghost use Rattle.lsr_runs.specs.Sessions.{IsConfigText, begun};

use crate::endings::{FAILED, RunEnding, Source, status_of, tell_ending};
use crate::files::FilesByName;
use crate::session::{begin, read_config_text};
use line_streams::ByteStream;
use lsr_lines::{Ending, LiveEnding, serve_lines};
use lsr_session::Session;
use std::alloc::Global;
use std::io;
use std::io::Write;

/// How a run ends whose lines ended so.
fn ending_of<'a>(ending: LiveEnding) -> RunEnding<'a>
    ensures { result ≡ ending_of ending }
{
    match ending {
        LiveEnding::Done => RunEnding::Ran(Ending::Done),
        LiveEnding::Memory => RunEnding::Ran(Ending::Memory),
        LiveEnding::Unread(fault) => RunEnding::Unread(Source::Input, fault),
    }
}

/// A session that begins on the router of the configuration, or without one on the built-in one; or how the run ends before
/// its first line.
fn begin_on<'a, C: ByteStream + Drop>(
    alloc: Global,
    config: Option<C>,
) -> Result<Session, RunEnding<'a>>
    ensures begun { IfOk result (λ session. (configured : List ℕ) × (setup : Setup) × IsConfigText (option_map C.stream config) configured
        × IsRead configured (Ok setup) × (session ≡ begun setup)) }
    ensures fault { IfErr result (NeverBegins (option_map C.stream config)) }
{
    let text = match read_config_text(alloc, config) {
        Ok(text) => text,
        Err(fault) => return Err(RunEnding::Unread(Source::Config, fault)),
    };
    let session = begin(alloc, text)?;
    Ok(session)
}

/// Tells how the run ended on the configuration of this name, where it didn't end well, and gives the status, which is 0 where
/// of no line was told that it is bad, either. The error is the stream's.
fn end_live<E: Write>(error: &mut E, name: &str, ending: &RunEnding, bad: bool) -> io::Result<u8>
    ensures told { OnOk result (Appends (E.contents error.old) (E.contents error.new) (ending_text name.now ending.now)) }
    ensures status { IfOk result (λ status. status ≡ live_status bad ending.now) }
{
    tell_ending(error, name, ending)?;
    Ok(if bad { FAILED } else { status_of(ending) })
}

/// `lsr step --live [--echo]`: answers each line of the input as soon as it has come, by the router of the configuration, which
/// has this name, or without one by the built-in router; with `echo` each line is printed before its answer. Of a line that
/// asks for nothing it is told on the error stream which it is, and empty lines and lines that begin with # are passed over.
/// Tells how the run ended if it didn't end well, and gives the status, 0 or 1. The error is that a stream could not be
/// written.
pub fn run_live<C: ByteStream + Drop, R: ByteStream, W: Write, E: Write>(
    alloc: Global,
    name: &str,
    config: Option<C>,
    echo: bool,
    input: &mut R,
    output: &mut W,
    error: &mut E,
) -> io::Result<u8>
    ensures { IfOk result (RunsLiveOn name.now echo (option_map C.stream config) (R.stream input.old) (R.stream input.new)
        (W.contents output.old) (W.contents output.new) (E.contents error.old) (E.contents error.new)) }
{
    match begin_on(alloc, config) {
        Ok(session) => {
            let (ending, bad) = serve_lines(alloc, session, echo, input, output, error)?;
            let status = end_live(error, name, &ending_of(ending), bad)?;
            Ok(status)
        }
        Err(ending) => {
            let status = end_live(error, name, &ending, false)?;
            Ok(status)
        }
    }
}

/// `lsr step --live [--config FILE] [--echo]`: as [`run_live`], on the router of the file of this name, or without one on the
/// built-in router. A file that can't be opened is told as one that can't be read.
pub fn run_live_of<F: FilesByName, R: ByteStream, W: Write, E: Write>(
    files: &F,
    alloc: Global,
    file: Option<&str>,
    echo: bool,
    input: &mut R,
    output: &mut W,
    error: &mut E,
) -> io::Result<u8>
    ensures { IfOk result (RunsLive (F.opens files.now) (F.fails files.now) F.File.stream echo (option_map (λ f. f.now) file.entry)
        (R.stream input.old) (R.stream input.new) (W.contents output.old) (W.contents output.new) (E.contents error.old) (E.contents error.new)) }
{
    let Some(name) = file else {
        return run_live(alloc, "", None::<F::File>, echo, input, output, error);
    };
    match files.open(name) {
        Ok(stream) => run_live(alloc, name, Some(stream), echo, input, output, error),
        Err(fault) => {
            let ending = RunEnding::Unread(Source::Config, fault);
            tell_ending(error, name, &ending)?;
            Ok(FAILED)
        }
    }
}
