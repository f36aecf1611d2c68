//! What the words of the command line ask for, done.
ghost use Rattle.std.specs.Prelude.{◌≡◌, ◌≢◌, IfOk, OnErr, OnOk, map};
ghost use Rattle.std.specs.Io.KnownBytes.{Appends};
ghost use Rattle.std.specs.IoError.{error_kind};
ghost use Rattle.std.specs.declared.io.ErrorKind.TheVariants.{BrokenPipe, OutOfMemory};
ghost use Rattle.clap.specs.Words.{kind_of};
ghost use Rattle.lsr_words.specs.declared.words.Asked.TheVariants.{Serve, Step};
ghost use Rattle.lsr_tool.specs.Commands.{Does, Runs, words_status};
ghost use Rattle.lsr_runs.specs.Endings.{memory_text, unread_words_text, unwritable_text};

use crate::configuring::run_config_of;
use crate::console::{refuse_words, run_console_of};
use crate::serving::run_serve_of;
use clap::error::{Error, ErrorKind};
use line_streams::ByteStream;
use lsr_explain::run_explain;
use lsr_runs::{
    BAD_WORDS, FAILED, FilesByName, SystemFiles, WritesFiles, run_check_of, run_decode_on,
    run_lab_of, run_live_of, run_play_of, run_recorded_of, run_show_journal_of, run_step_of,
};
use lsr_text::OUT_OF_MEMORY;
use lsr_words::{Asked, read_words};
use std::alloc::{Alloc, Global};
use std::convert::AsStr;
use std::io;
use std::io::Write;
use std::net::Net;
use std::rt::Files;
use std::sync::Wait;
use std::thread::Threads;
use std::time::Clock;

/// What is told of words that can't be read.
const UNREAD_WORDS: &str = "error: a word isn't UTF-8; see lsr --help\n";
/// What is told where a run is to be recorded whose lines are answered as they come.
const LIVE_JOURNAL: &str = "error: --journal isn't taken beside --live; see lsr step --help\n";
/// What is told where a stream can't be written.
const UNWRITABLE: &str = "\
unwritable
  the output or the error stream can't be written: look at where they go
";

/// The status of words that aren't taken: 0 where they ask for help, 1 where memory ran out, else 2.
fn words_status(kind: ErrorKind) -> u8
    ensures { result ≡ words_status kind }
{
    match kind {
        ErrorKind::DisplayHelp | ErrorKind::DisplayVersion => 0,
        ErrorKind::OutOfMemory => FAILED,
        _ => BAD_WORDS,
    }
}

/// Prints the help that the words ask for, or tells on the error stream why they weren't taken, and gives the
/// status. The error is a stream's.
fn tell_words<W: Write, E: Write>(fault: Error, output: &mut W, error: &mut E) -> io::Result<u8>
    ensures status { IfOk result (λ status. status ≡ words_status (kind_of fault)) }
{
    let status = words_status(fault.kind());
    if status == FAILED {
        write!(error, "{OUT_OF_MEMORY}\n")?;
    } else if fault.use_stderr() {
        write!(error, "{fault}")?;
    } else {
        write!(output, "{fault}")?;
    }
    Ok(status)
}

/// Answers lines by a router: as they come, or once all have come, and then it may record the run. Gives the status, 2 where it is to record a
/// run whose lines are answered as they come. The error is that a stream could not be written, or that memory ran out.
fn run_lines_of<
    F: FilesByName + WritesFiles,
    N: Wait + Clone + Drop,
    R: ByteStream,
    W: Write,
    E: Write,
>(
    files: &F,
    rt: &N,
    alloc: Global,
    file: Option<&str>,
    echo: bool,
    live: bool,
    journal: Option<&str>,
    input: &mut R,
    output: &mut W,
    error: &mut E,
) -> io::Result<u8>
    ensures { IfOk result (Does (F.opens files.now) (F.fails files.now) F.File.stream (F.holds files.now) (Step file.entry echo live journal.entry)
        (R.stream input.old) (R.stream input.new) (W.contents output.old) (W.contents output.new) (E.contents error.old) (E.contents error.new)) }
{
    match (live, journal) {
        (false, None) => run_step_of(files, alloc, file, echo, input, output, error),
        (true, None) => run_live_of(files, alloc, file, echo, input, output, error),
        (false, Some(name)) => run_recorded_of(
            files, rt, alloc, file, echo, name, input, output, error,
        ),
        (true, Some(_)) => {
            error.write_all(LIVE_JOURNAL.as_bytes())?;
            Ok(BAD_WORDS)
        }
    }
}

/// Serves the links of the router of the file of this name over sockets: for a number of turns, or with a console until its operator ends it.
/// Gives the status, 2 where it has a console and a number of turns, or is to echo, to mark or to log without a console. The error is that a
/// stream could not be written, or that memory ran out.
fn run_sockets_of<
    F: FilesByName + WritesFiles,
    N: Net + Threads + Wait + Clock + Clone + Send + Sync + Drop,
    R: ByteStream + Send,
    W: Write,
    E: Write,
>(
    files: &F,
    rt: &N,
    alloc: Global,
    file: &str,
    turns: Option<&str>,
    journal: Option<&str>,
    console: bool,
    echo: bool,
    mark: bool,
    log: Option<&str>,
    input: &mut R,
    output: &mut W,
    error: &mut E,
) -> io::Result<u8>
    ensures { IfOk result (Does (F.opens files.now) (F.fails files.now) F.File.stream (F.holds files.now)
        (Serve file.entry turns.entry journal.entry console echo mark log.entry)
        (R.stream input.old) (R.stream input.new) (W.contents output.old) (W.contents output.new) (E.contents error.old) (E.contents error.new)) }
{
    match (console, turns, echo, mark, log) {
        (false, _, false, false, None) => {
            run_serve_of(files, rt, alloc, file, turns, journal, output, error)
        }
        (true, None, _, _, _) => run_console_of(
            files, rt, alloc, file, journal, echo, mark, log, input, output, error,
        ),
        (true, Some(_), _, _, _) => refuse_words(error, console),
        (false, _, true, _, _) => refuse_words(error, console),
        (false, _, false, true, _) => refuse_words(error, console),
        (false, _, false, false, Some(_)) => refuse_words(error, console),
    }
}

/// Does what was asked for, and gives the status. Links are served by `rt`. The error is that a stream could not be
/// written, or that memory ran out.
pub fn run_asked<
    F: FilesByName + WritesFiles,
    N: Net + Threads + Wait + Clock + Clone + Send + Sync + Drop,
    R: ByteStream + Send,
    W: Write,
    E: Write,
>(
    files: &F,
    rt: &N,
    alloc: Global,
    asked: Asked<'_>,
    input: &mut R,
    output: &mut W,
    error: &mut E,
) -> io::Result<u8>
    ensures { IfOk result (Does (F.opens files.now) (F.fails files.now) F.File.stream (F.holds files.now) asked.entry
        (R.stream input.old) (R.stream input.new) (W.contents output.old) (W.contents output.new) (E.contents error.old) (E.contents error.new)) }
{
    match asked {
        Asked::Step {
            file,
            echo,
            live,
            journal,
        } => run_lines_of(
            files, rt, alloc, file, echo, live, journal, input, output, error,
        ),
        Asked::Config(file) => run_config_of(files, alloc, file, output, error),
        Asked::Decode { word, fields } => {
            run_decode_on(files, alloc, fields, word, input, output, error)
        }
        Asked::Explain(words) => run_explain(alloc, words.as_slice(), output, error),
        Asked::Serve {
            file,
            turns,
            journal,
            console,
            echo,
            mark,
            log,
        } => run_sockets_of(
            files, rt, alloc, file, turns, journal, console, echo, mark, log, input, output, error,
        ),
        Asked::Play { file, lab: false } => run_play_of(files, alloc, file, output, error),
        Asked::Play { file, lab: true } => run_lab_of(files, alloc, file, output, error),
        Asked::Check(names) => run_check_of(files, alloc, names.as_slice(), output, error),
        Asked::ShowJournal(file) => run_show_journal_of(files, alloc, file, output, error),
    }
}

/// Does what the words ask for, and gives the status. Links are served by `rt`. The error is that a stream could not be
/// written, or that memory ran out.
fn run_words<
    F: FilesByName + WritesFiles,
    N: Net + Threads + Wait + Clock + Clone + Send + Sync + Drop,
    S: AsStr,
    R: ByteStream + Send,
    W: Write,
    E: Write,
>(
    files: &F,
    rt: &N,
    alloc: Global,
    words: &[S],
    input: &mut R,
    output: &mut W,
    error: &mut E,
) -> io::Result<u8>
    ensures { IfOk result (Runs (F.opens files.now) (F.fails files.now) F.File.stream (F.holds files.now) (map S.text words.now)
        (R.stream input.old) (R.stream input.new) (W.contents output.old) (W.contents output.new) (E.contents error.old) (E.contents error.new)) }
{
    match read_words(alloc, words) {
        Ok(Some(asked)) => run_asked(files, rt, alloc, asked, input, output, error),
        Ok(None) => Ok(BAD_WORDS),
        Err(fault) => tell_words(fault, output, error),
    }
}

/// The program: does what the words ask for, the first of which is its own name, and gives the status: 0; 1
/// for a refused file, input, line or message, a socket that can't be had, or a run over sockets that isn't one; 2 for bad
/// words. Files that they name are opened, and links are served, by `rt`. The error is that a stream could not be written, or
/// that memory ran out.
pub fn run<
    F: Files + Alloc + Net + Threads + Wait + Clock + Clone + Send + Sync + Drop,
    S: AsStr,
    R: ByteStream + Send,
    W: Write,
    E: Write,
>(
    rt: &F,
    alloc: Global,
    words: &[S],
    input: &mut R,
    output: &mut W,
    error: &mut E,
) -> io::Result<u8>
    ensures { IfOk result (Runs (λ _ _. Unit {0}) (λ _ _. Unit {0}) ⟦<F::File as ByteStream>⟧.stream (λ _ _. Unit {0}) (map S.text words.now)
        (R.stream input.old) (R.stream input.new) (W.contents output.old) (W.contents output.new) (E.contents error.old) (E.contents error.new)) }
{
    let files = SystemFiles::new(rt);
    run_words(&files, rt, alloc, words, input, output, error)
}

/// Tells of a run that an error of this kind ended; of a reader that went away, as `head` does when it has enough, nothing is told. The error is
/// the stream's.
fn tell_failure<E: Write>(kind: io::ErrorKind, error: &mut E) -> io::Result<()>
    ensures memory { kind ≡ OutOfMemory → OnOk result (Appends (E.contents error.old) (E.contents error.new) memory_text) }
    ensures quiet { kind ≡ BrokenPipe → error.new ≡ error.old }
    ensures unwritable { kind ≢ OutOfMemory → kind ≢ BrokenPipe → OnOk result (Appends (E.contents error.old) (E.contents error.new) unwritable_text) }
{
    match kind {
        io::ErrorKind::OutOfMemory => write!(error, "{OUT_OF_MEMORY}\n"),
        io::ErrorKind::BrokenPipe => Ok(()),
        _ => error.write_all(UNWRITABLE.as_bytes()),
    }
}

/// Tells of words that an error of this kind kept from being read. The error is the stream's.
fn tell_unread<E: Write>(kind: io::ErrorKind, error: &mut E) -> io::Result<()>
    ensures memory { kind ≡ OutOfMemory → OnOk result (Appends (E.contents error.old) (E.contents error.new) memory_text) }
    ensures unread { kind ≢ OutOfMemory → OnOk result (Appends (E.contents error.old) (E.contents error.new) unread_words_text) }
{
    if kind == io::ErrorKind::OutOfMemory {
        write!(error, "{OUT_OF_MEMORY}\n")
    } else {
        error.write_all(UNREAD_WORDS.as_bytes())
    }
}

/// The status of a run that is over: the one that it gave; or 1 where a stream could not be written or memory ran out, which
/// is told.
pub fn end<E: Write>(ran: io::Result<u8>, error: &mut E) -> u8
    ensures status { IfOk ran (λ status. result ≡ status) }
    ensures failed { OnErr ran (result ≡ 1) }
{
    match ran {
        Ok(status) => status,
        Err(fault) => {
            let _ = tell_failure(fault.kind(), error);
            FAILED
        }
    }
}

/// Tells why there are no words to run: one isn't UTF-8, or memory ran out. Gives the status, 2 or 1.
pub fn tell_unread_words<E: Write>(fault: &io::Error, error: &mut E) -> u8
    ensures memory { error_kind fault.now ≡ OutOfMemory → result ≡ 1 }
    ensures unread { error_kind fault.now ≢ OutOfMemory → result ≡ 2 }
{
    let _ = tell_unread(fault.kind(), error);
    if fault.kind() == io::ErrorKind::OutOfMemory {
        return FAILED;
    }
    BAD_WORDS
}
