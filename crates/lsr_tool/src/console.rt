//! `lsr serve --console`: a router that runs until its operator ends it.
ghost use Rattle.std.specs.Io.KnownBytes.{Appends};
ghost use Rattle.std.specs.Prelude.{◌≡◌, ◌+◌, ◌<◌, ℕ, Option, IfOk, OnOk, length};
ghost use Rattle.lsr_config.specs.Configs.{Setup};
ghost use Rattle.lsr_serve.specs.Told.{reconciled_text};
ghost use Rattle.lsr_tool.specs.Attended.{AttendsFile, AttendsRun, AttendsText, IsAttended};

use crate::attending::{Attendant, Teller, copy_links};
use crate::keeping::{HandOver, Handed, Journaling, SegmentKeeper, SegmentWriter, Wanted};
use crate::lasting::Lasting;
use crate::named_output::{Lent, NamedOutput, Output, OutputName, take_back};
use crate::serving::{claims, configured, read_served, tell_written};
use crossbeam_channel::Receiver;
use line_streams::{ByteStream, tell_input_fault};
use log::sink::Writer;
use log::{Level, LevelFilter};
use lsr_config::Config;
use lsr_console::{Console, ConsoleEnding, Heard, Manner, listen, open_lines};
use lsr_rounds::{OpenLinks, RunEnd, RunFault, open_links, serve_links_until, tell_reconciled};
use lsr_runs::{BAD_WORDS, DONE, FAILED, FilesByName, WritesFiles, status_of, tell_ending};
use lsr_serve::{LinkSockets, RoundFlag, tell_end, tell_gap, tell_ports};
use run_reconciler::Mismatch;
use sorted_rows::Table;
use std::alloc::Global;
use std::io::Write;
use std::marker::{Brand, PhantomData};
use std::net::Net;
use std::sync::{Mutex, Wait};
use std::thread::Threads;
use std::time::Clock;
use std::{io, thread};

/// What is told of a word that is no level.
const BAD_LEVEL: &str = "error: LEVEL is info, warn or off; see lsr serve --help\n";
/// What is told where a run with a console is to end after so many turns.
const COUNTED_CONSOLE: &str = "error: --turns isn't taken beside --console; see lsr serve --help\n";
/// What is told where a run without a console is to echo, to mark or to log.
const NO_CONSOLE: &str =
    "error: --echo, --mark and --log are taken beside --console alone; see lsr serve --help\n";
/// What is told of a clock that can't be read.
const NO_CLOCK: &str = "clock\n  the system's clock can't be read\n";

/// What a run with a console is asked for.
#[derive(Clone, Copy)]
pub(crate) struct Attending<'a> {
    /// The text of the configuration.
    pub(crate) text: &'a str,
    /// What the names of the journal's files begin with, if it is written.
    pub(crate) journal: Option<&'a str>,
    /// Whether what is sent for a line is printed, too.
    pub(crate) echo: bool,
    /// Whether an end mark is printed after each answer.
    pub(crate) mark: bool,
    /// How much is told of what happens.
    pub(crate) level: LevelFilter,
}

/// How a run with a console ended.
#[derive(Drop)]
enum Attended {
    /// As it was told to: what is known of it, and the status.
    Ended(RunEnd, u8),
    /// Otherwise, as it was told.
    Failed,
}

/// How much is told of what happens, as a word says it; without a word what an operator has to know. None where it says nothing.
fn level_of(word: Option<&str>) -> Option<LevelFilter> {
    match word {
        None => Some(LevelFilter::Info),
        Some("info") => Some(LevelFilter::Info),
        Some("warn") => Some(LevelFilter::Warn),
        Some("off") => Some(LevelFilter::Off),
        Some(_) => None,
    }
}

/// Tells why a run of rounds ended before it was told to, and gives the status, 1. Where a segment doesn't go on, it is told which, too. The
/// error is a stream's.
fn tell_fault<W: Write, E: Write>(fault: RunFault, output: &mut W, error: &mut E) -> io::Result<u8>
    ensures { IfOk result (λ status. status ≡ 1) }
{
    match fault {
        RunFault::Mismatch(
            Mismatch {
                port,
                place,
                segment,
            },
        ) => {
            tell_gap(&Writer::new(error), segment);
            write!(output, "mismatch {port} {place}\n")?;
        }
        RunFault::Serve(fault) => write!(error, "{fault}\n")?,
        RunFault::Clock => error.write_all(NO_CLOCK.as_bytes())?,
    }
    Ok(FAILED)
}

/// Tells of a run that ended as it was told to, logs how much each port did, and prints how many entries were reconciled. The error is a
/// stream's.
fn tell_end_of<W: Write, E: Write>(
    ended: &RunEnd,
    links: &Table<u16, LinkSockets>,
    level: LevelFilter,
    output: &mut W,
    error: &mut E,
) -> io::Result<u8>
    ensures status { IfOk result (λ status. status ≡ 0) }
    ensures told { OnOk result (Appends (W.contents output.old) (W.contents output.new) (reconciled_text ended.now.run.entries)) }
{
    if level.allows(Level::Info) {
        let log = Writer::new(error);
        tell_ports(&log, links, ended.run.ports.as_slice());
        tell_end(&log, ended.run.last.as_ref());
    }
    tell_reconciled(&ended.run, output)?;
    Ok(DONE)
}

/// Tells of a run that ended as it was told to, as [`tell_end_of`] does, and gives the status; 1 where it ended otherwise. The error is a stream's.
fn tell_attended<W: Write, E: Write>(
    attended: io::Result<Attended>,
    links: &Table<u16, LinkSockets>,
    level: LevelFilter,
    output: &mut W,
    error: &mut E,
) -> io::Result<u8>
    ensures { (c : Setup) (ports : ℕ) → IfOk attended (IsAttended c ports) → IfOk result (λ status. status ≡ 0 → AttendsRun c ports (W.contents output.old) (W.contents output.new)) }
{
    let attended = attended?;
    match attended {
        Attended::Ended(ended, status) => {
            tell_end_of(&ended, links, level, output, error)?;
            Ok(status)
        }
        Attended::Failed => Ok(FAILED),
    }
}

/// The status of a console's run with this status, by why its console ended: 1 where its input couldn't be read, which is told. The error is
/// a stream's, also that which the console met.
fn end_console<E: Write>(ending: Option<ConsoleEnding>, error: &mut E, status: u8) -> io::Result<u8>
    ensures { IfOk result (λ after. after ≡ 0 → status ≡ 0) }
{
    match ending {
        Some(ConsoleEnding::Unwritten(fault)) => Err(fault),
        Some(ConsoleEnding::Unread(fault)) => {
            tell_input_fault(error, "standard input", fault)?;
            Ok(FAILED)
        }
        _ => Ok(status),
    }
}

/// The run of a router whose sockets are open, until its operator ends it; what is handed over of its journal is written meanwhile, and what the
/// run left is told. Gives how it ended. The error is that a stream could not be written, or that memory ran out.
fn attend_written<
    N: Threads + Wait + Clock + Clone + Send + Sync + Drop,
    B: Journaling,
    W: Write,
    E: Write,
>(
    rt: &N,
    alloc: Global,
    config: &Config,
    links: &Table<u16, LinkSockets>,
    text: &str,
    opened: OpenLinks<'_>,
    handed: &HandOver,
    beside: &mut B,
    asked: Attending<'_>,
    lines: Receiver<Heard>,
    output: &mut W,
    error: &mut E,
) -> io::Result<Attended>
    requires { length opened.links.items < 62 }
    ensures { IfOk result (IsAttended config.now (length opened.entry.links.items + 2)) }
{
    let wanted = Wanted {
        files: asked.journal.is_some(),
        errors: asked.level.allows(Level::Warn),
    };
    let keeper = SegmentKeeper::new(rt, alloc, handed, wanted, text);
    let manner = Manner {
        echo: asked.echo,
        marks: asked.mark,
        sockets: copy_links(alloc, links)?,
        unwritten: String::new(alloc),
    };
    let mut attendant = Attendant {
        console: Console::new(alloc, lines, Lasting::new(&mut *output), manner)?,
        beside,
        teller: Teller::new(alloc, &mut *error, asked.level, config, links)?,
    };
    attendant
        .teller
        .tell_start(rt, &config.router, asked.journal);
    let ended = serve_links_until(rt, alloc, config, opened, keeper, &mut attendant);
    attendant.tell_journal();
    let ending = attendant.into_ending();
    let status = end_console(ending, error, DONE);
    match ended {
        Ok(ended) => Ok(Attended::Ended(ended, status?)),
        Err(fault) => {
            tell_fault(fault, output, error)?;
            status?;
            Ok(Attended::Failed)
        }
    }
}

/// The run of a router whose sockets are open, until its operator ends it; what it left is told, and its journal written, where a prefix of its
/// files' names is given. Gives how it ended. The error is that a stream could not be written, or that memory ran out.
fn attend_run<
    F: WritesFiles,
    N: Threads + Wait + Clock + Clone + Send + Sync + Drop,
    W: Write,
    E: Write,
>(
    files: &F,
    rt: &N,
    alloc: Global,
    config: &Config,
    links: &Table<u16, LinkSockets>,
    text: &str,
    opened: OpenLinks<'_>,
    asked: Attending<'_>,
    lines: Receiver<Heard>,
    output: &mut W,
    error: &mut E,
) -> io::Result<Attended>
    requires { length opened.links.items < 62 }
    ensures { IfOk result (IsAttended config.now (length opened.entry.links.items + 2)) }
{
    let handed = Mutex::new(Handed::new(alloc));
    let mut writer = SegmentWriter::new(files, rt, alloc, asked.journal, &handed);
    let attended = attend_written(
        rt,
        alloc,
        config,
        links,
        text,
        opened,
        &handed,
        &mut writer,
        asked,
        lines,
        output,
        error,
    );
    // Also where a stream couldn't be written: what is left of the journal is.
    let written = writer.finish();
    match attended? {
        Attended::Ended(ended, status) => {
            let status = tell_written(error, written, status)?;
            Ok(Attended::Ended(ended, status))
        }
        Attended::Failed => {
            tell_written(error, written, FAILED)?;
            Ok(Attended::Failed)
        }
    }
}

/// Serves the links of the router of a configuration until its operator ends it, whose lines are read from the input by a thread of their own.
/// Gives how that ended. The error is that a stream could not be written, or that memory ran out.
fn attend_links<
    F: WritesFiles,
    N: Net + Threads + Wait + Clock + Clone + Send + Sync + Drop,
    R: ByteStream + Send,
    W: Write,
    E: Write,
>(
    files: &F,
    rt: &N,
    alloc: Global,
    config: &Config,
    links: &Table<u16, LinkSockets>,
    asked: Attending<'_>,
    input: &mut R,
    output: &mut W,
    error: &mut E,
) -> io::Result<Attended>
    requires { length links.now < 62 }
    ensures { IfOk result (IsAttended config.now (length links.now + 2)) }
{
    let round = RoundFlag::new();
    let opened = match open_links(rt, alloc, links, &round) {
        Ok(opened) => opened,
        Err(fault) => {
            write!(error, "{fault}\n")?;
            return Ok(Attended::Failed);
        }
    };
    let (heard, lines) = open_lines(alloc)?;
    if !claims(files, alloc, asked.journal, error)? {
        return Ok(Attended::Failed);
    }
    let (_, attended) = thread::join(
        rt,
        || listen(rt, alloc, input, heard),
        || -> io::Result<Attended>
            requires { length opened.links.items < 62 }
        {
            attend_run(
                files, rt, alloc, config, links, asked.text, opened, asked, lines, output, error,
            )
        },
    );
    attended
}

/// Serves the links of the router of a configuration as [`attend_links`] does, and tells what of it is known. The output has a name, and is given
/// back. Gives the status. The error is that a stream could not be written, or that memory ran out.
fn attend_named<
    L: OutputName,
    F: WritesFiles,
    N: Net + Threads + Wait + Clock + Clone + Send + Sync + Drop,
    R: ByteStream + Send,
    O: Output,
    E: Write,
>(
    files: &F,
    rt: &N,
    alloc: Global,
    config: &Config,
    links: &Table<u16, LinkSockets>,
    asked: Attending<'_>,
    input: &mut R,
    output: O,
    error: &mut E,
) -> (io::Result<u8>, O)
    requires few { length links.now < 62 }
    requires same { O.name output ≡ L.output }
    requires held { O.holds output ≡ L.held }
    ensures status { IfOk result.0 (λ status. status ≡ 0 → AttendsRun config.now (length links.now + 2) (O.holds output) (O.holds result.1)) }
    ensures same { O.name result.1 ≡ O.name output }
{
    let mut named: NamedOutput<L, O> = NamedOutput {
        output,
        name: PhantomData,
    };
    let attended = attend_links(
        files, rt, alloc, config, links, asked, input, &mut named, error,
    );
    let told = tell_attended(attended, links, asked.level, &mut named, error);
    let NamedOutput { output, name: _ } = named;
    (told, output)
}

/// Serves the links of the router of a configuration as [`attend_links`] does, tells what of it is known, and gives the status. The output is
/// named as it stands. The error is that a stream could not be written, or that memory ran out.
fn attend_lent<
    F: WritesFiles,
    N: Net + Threads + Wait + Clock + Clone + Send + Sync + Drop,
    R: ByteStream + Send,
    W: Write,
    E: Write,
>(
    files: &F,
    rt: &N,
    alloc: Global,
    config: &Config,
    links: &Table<u16, LinkSockets>,
    asked: Attending<'_>,
    input: &mut R,
    output: &mut W,
    error: &mut E,
) -> io::Result<u8>
    requires { length links.now < 62 }
    ensures { IfOk result (λ status. status ≡ 0 → AttendsRun config.now (length links.now + 2) (W.contents output.old) (W.contents output.new)) }
{
    let lent = Lent { output };
    let (told, lent) = attend_named::<Brand, F, N, R, Lent<'_, W>, E>(
        files, rt, alloc, config, links, asked, input, lent, error,
    );
    let Lent { output } = lent;
    take_back(output);
    told
}

/// Serves the links of the router that a text says, until its operator ends it.
fn attend_text<
    F: WritesFiles,
    N: Net + Threads + Wait + Clock + Clone + Send + Sync + Drop,
    R: ByteStream + Send,
    W: Write,
    E: Write,
>(
    files: &F,
    rt: &N,
    alloc: Global,
    file: &str,
    asked: Attending<'_>,
    input: &mut R,
    output: &mut W,
    error: &mut E,
) -> io::Result<u8>
    ensures { IfOk result (λ status. status ≡ 0 → AttendsText asked.entry.text.now (W.contents output.old) (W.contents output.new)) }
{
    match configured(alloc, asked.text) {
        Ok((config, links)) => attend_lent(
            files, rt, alloc, &config, &links, asked, input, output, error,
        ),
        Err(ending) => {
            tell_ending(error, file, &ending)?;
            Ok(status_of(&ending))
        }
    }
}

/// `lsr serve FILE --console [--journal PREFIX] [--echo] [--mark] [--log LEVEL]`: the links of the router of the file of this name are served
/// by `rt`, until the line `quit` or the end of the input; each line of the input is answered at once. Its journal goes into the files
/// `PREFIX.1`, `PREFIX.2` and so on; without a prefix it isn't kept. Prints at the end how many entries were reconciled, tells on the error
/// stream what happens, and why it didn't begin, and gives the status: 0, 1, or 2 where a word says no level. The error is that a stream
/// could not be written, or that memory ran out.
pub fn run_console_of<
    F: FilesByName + WritesFiles,
    N: Net + Threads + Wait + Clock + Clone + Send + Sync + Drop,
    R: ByteStream + Send,
    W: Write,
    E: Write,
>(
    files: &F,
    rt: &N,
    alloc: Global,
    file: &str,
    journal: Option<&str>,
    echo: bool,
    mark: bool,
    log: Option<&str>,
    input: &mut R,
    output: &mut W,
    error: &mut E,
) -> io::Result<u8>
    ensures { IfOk result (λ status. status ≡ 0 → AttendsFile (F.opens files.now) F.File.stream file.now (W.contents output.old) (W.contents output.new)) }
{
    let Some(level) = level_of(log) else {
        error.write_all(BAD_LEVEL.as_bytes())?;
        return Ok(BAD_WORDS);
    };
    match read_served(files, alloc, file) {
        Ok(text) => {
            let asked = Attending {
                text: text.as_str(),
                journal,
                echo,
                mark,
                level,
            };
            attend_text(files, rt, alloc, file, asked, input, output, error)
        }
        Err(ending) => {
            tell_ending(error, file, &ending)?;
            Ok(status_of(&ending))
        }
    }
}

/// Tells that words of `lsr serve` don't go together, and gives the status, 2. The error is the stream's.
pub(crate) fn refuse_words<E: Write>(error: &mut E, console: bool) -> io::Result<u8>
    ensures { IfOk result (λ status. status ≡ 2) }
{
    let told = if console { COUNTED_CONSOLE } else { NO_CONSOLE };
    error.write_all(told.as_bytes())?;
    Ok(BAD_WORDS)
}
