//! `lsr step --journal`: as `lsr step`, and the journal of the run is written to a file.
ghost use Rattle.std.specs.Prelude.{◌≡◌, Ok, IfOk, IfErr, OnOk, string_bytes};
ghost use Rattle.std.specs.Option.{option_map};
ghost use Rattle.std.specs.Io.KnownBytes.{Appends};
ghost use Rattle.lsr_config.specs.Configs.{Setup};
ghost use Rattle.lsr_config.specs.Reading.{IsRead};
ghost use Rattle.lsr_journal.specs.Recorded.{begun};
ghost use Rattle.run_journal.specs.Journals.{stretch_of};
ghost use Rattle.lsr_runs.specs.Recording.{HoldsJournal, IsRecordable, RunsRecorded, RunsRecordedOn, recorded_form, recorded_status, stop_text};
ghost use Rattle.lsr_runs.specs.Sessions.{CannotBegin, NeverSteps, said_by};

use crate::endings::{DONE, FAILED, RunEnding, Source, tell_ending};
use crate::files::FilesByName;
use crate::session::{configured, read_texts, said};
use crate::written::{OutputFault, WritesFiles, tell_kept};
use line_streams::ByteStream;
use lsr_journal::RecordedSession;
use lsr_lines::{Ending, RunStop, expected_form, form_among, run_lines, tell_bad_form};
use lsr_text::OUT_OF_MEMORY;
use std::alloc::Global;
use std::io;
use std::io::Write;
use std::sync::Wait;

/// The form of lines that show something, while the journal is kept: it holds what the router knows.
const SHOWN_FORM: &str =
    "show recent, which is all that is shown with --journal: leave --journal out to see the rest\n";

/// The form that the line should have, by its first word, while the journal is kept.
fn recorded_form(line: &str) -> &'static str
    ensures { result.now ≡ recorded_form line.now }
{
    form_among(SHOWN_FORM, expected_form(line), line)
}

/// Tells why lines weren't all served. That the journal is full was answered. The error is the stream's.
fn tell_stop<E: Write>(error: &mut E, stop: RunStop) -> io::Result<()>
    ensures { OnOk result (Appends (E.contents error.old) (E.contents error.new) (stop_text stop.entry)) }
{
    match stop {
        RunStop::Lines(Ending::Done) => Ok(()),
        RunStop::Lines(Ending::BadLine(number, line)) => {
            tell_bad_form(error, number, line, recorded_form(line))
        }
        RunStop::Lines(Ending::Memory) => write!(error, "{OUT_OF_MEMORY}\n"),
        RunStop::Session => Ok(()),
    }
}

/// The status: 0 where every line was served and the journal's file is written.
fn recorded_status(stop: RunStop, kept: Result<(), OutputFault>) -> u8
    ensures { result ≡ recorded_status stop.entry kept }
{
    match (stop, kept) {
        (RunStop::Lines(Ending::Done), Ok(())) => DONE,
        _ => FAILED,
    }
}

/// A session that begins on the router that the text says.
fn begin_recorded<'a, N: Wait + Clone + Drop>(
    alloc: Global,
    rt: &N,
    text: &str,
) -> Result<RecordedSession<N>, RunEnding<'a>>
    ensures begun { IfOk result (λ session. (config : Setup) × IsRead text.now (Ok config) × (session ≡ begun config session.journal.table)) }
    ensures fault { IfErr result (CannotBegin text.now) }
{
    let config = configured(alloc, text)?;
    let Ok(rt) = rt.clone() else {
        return Err(RunEnding::Memory);
    };
    match RecordedSession::new(alloc, rt, config) {
        Ok(session) => Ok(session),
        Err(_) => Err(RunEnding::Memory),
    }
}

/// Writes what the session recorded to the file of this name, with the text that says the router.
fn keep_journal<F: WritesFiles, N: Wait + Drop>(
    files: &F,
    alloc: Global,
    text: &str,
    session: &RecordedSession<N>,
    name: &str,
) -> Result<(), OutputFault>
    ensures { OnOk result ((config : Setup) → IsRead text.now (Ok config) → session.now.journal.router ≡ config.router
        → HoldsJournal (F.holds files.now) name.now text.now config (stretch_of session.now.journal)) }
{
    let mut bytes = Vec::new(alloc);
    session.write_journal(text, &mut bytes)?;
    files.write(alloc, name, bytes.as_slice())
}

/// The session that begins, the text that says its router, and the text of the input; or how the run ends before its first line.
fn prepare_recorded<'a, N: Wait + Clone + Drop, C: ByteStream + Drop, R: ByteStream>(
    alloc: Global,
    rt: &N,
    config: Option<C>,
    input: &mut R,
) -> Result<(RecordedSession<N>, Option<String>, String), RunEnding<'a>>
    ensures ready { IfOk result (λ ready. IsRecordable (option_map C.stream config) (R.stream input.old)
        ready.0 (said_by (option_map string_bytes ready.1)) (string_bytes ready.2)) }
    ensures fault { IfErr result (NeverSteps (option_map C.stream config) (R.stream input.old)) }
{
    let (config_text, text) = read_texts(alloc, config, input)?;
    let session = begin_recorded(alloc, rt, said(&config_text))?;
    Ok((session, config_text, text))
}

/// `lsr step --journal [--echo]`: as [`crate::run_step`], by a session that waits by `rt`, and writes its journal to the file of the name
/// `journal` when the lines are served, or a line isn't, or the journal is full. Of what is shown it serves `show recent` alone. Tells
/// on the error stream how the run ended if it didn't end well, and gives the status, 0 or 1. The error is that a stream could not be
/// written, or that memory ran out for what is printed: then no file is written.
pub fn run_recorded<
    F: WritesFiles,
    N: Wait + Clone + Drop,
    C: ByteStream + Drop,
    R: ByteStream,
    W: Write,
    E: Write,
>(
    files: &F,
    rt: &N,
    alloc: Global,
    name: &str,
    config: Option<C>,
    echo: bool,
    journal: &str,
    input: &mut R,
    output: &mut W,
    error: &mut E,
) -> io::Result<u8>
    ensures { IfOk result (RunsRecordedOn (F.holds files.now) journal.now name.now echo (option_map C.stream config) (R.stream input.old)
        (W.contents output.old) (W.contents output.new) (E.contents error.old) (E.contents error.new)) }
{
    let (session, config_text, text) = match prepare_recorded(alloc, rt, config, input) {
        Ok(ready) => ready,
        Err(ending) => {
            tell_ending(error, name, &ending)?;
            return Ok(FAILED);
        }
    };
    let (session, stop) = run_lines(alloc, session, echo, text.as_str(), output)?;
    let kept = keep_journal(files, alloc, said(&config_text), &session, journal);
    tell_stop(error, stop)?;
    tell_kept(error, journal, kept)?;
    Ok(recorded_status(stop, kept))
}

/// `lsr step --journal FILE [--config FILE] [--echo]`: as [`run_recorded`], on the router of the file of this name, or without one on
/// the built-in router. A file that can't be opened is told as one that can't be read.
pub fn run_recorded_of<
    F: FilesByName + WritesFiles,
    N: Wait + Clone + Drop,
    R: ByteStream,
    W: Write,
    E: Write,
>(
    files: &F,
    rt: &N,
    alloc: Global,
    file: Option<&str>,
    echo: bool,
    journal: &str,
    input: &mut R,
    output: &mut W,
    error: &mut E,
) -> io::Result<u8>
    ensures { IfOk result (RunsRecorded (F.opens files.now) (F.fails files.now) F.File.stream (F.holds files.now) journal.now echo
        (option_map (λ f. f.now) file.entry) (R.stream input.old)
        (W.contents output.old) (W.contents output.new) (E.contents error.old) (E.contents error.new)) }
{
    let Some(name) = file else {
        let config = None::<F::File>;
        return run_recorded(
            files, rt, alloc, "", config, echo, journal, input, output, error,
        );
    };
    match files.open(name) {
        Ok(stream) => {
            let config = Some(stream);
            run_recorded(
                files, rt, alloc, name, config, echo, journal, input, output, error,
            )
        }
        Err(fault) => {
            tell_ending(error, name, &RunEnding::Unread(Source::Config, fault))?;
            Ok(FAILED)
        }
    }
}
