//! `lsr serve` on the router of a configuration.
ghost use Rattle.std.specs.Option.{option_map};
ghost use Rattle.std.specs.Prelude.{◌≡◌, ◌<◌, length, IfOk, IfErr, IsOk, string_bytes};
ghost use Rattle.lsr_runs.specs.Endings.{status_of};
ghost use Rattle.lsr_runs.specs.Playing.{IsFileText};
ghost use Rattle.lsr_tool.specs.Serving.{SaysRun, ServesFile, ServesText};

use crate::keeping::{HandOver, Handed, SegmentKeeper, SegmentWriter, Wanted};
use config_text::link_without;
use line_streams::read_text;
use lsr_config::Config;
use lsr_runs::{
    BAD_WORDS, FAILED, FilesByName, RunEnding, Source, Unwritten, WritesFiles, misconfigured,
    status_of, tell_ending, tell_output_fault,
};
use lsr_serve::{BesideClock, LinkSockets, read_sockets, read_turns, serve_links};
use sorted_rows::Table;
use std::alloc::Global;
use std::io;
use std::io::Write;
use std::net::Net;
use std::sync::{Mutex, Wait};
use std::thread::Threads;
use std::time::Clock;

/// What is told of a word that is no number of turns.
const BAD_TURNS: &str = "error: N is a number from 1 to 1000000; see lsr serve --help\n";

/// The configuration that a text says, with the sockets of its links.
pub(crate) fn configured<'a>(
    alloc: Global,
    text: &str,
) -> Result<(Config, Table<u16, LinkSockets>), RunEnding<'a>>
    ensures said { IfOk result (λ ready. SaysRun text.now ready.0 ready.1) }
    ensures few { IfOk result (λ ready. length ready.1 < 62) }
    ensures fault { IfErr result (λ ending. status_of ending ≡ 1) }
{
    let config = match Config::read(alloc, text) {
        Ok(config) => config,
        Err(fault) => return Err(misconfigured(alloc, text, fault)),
    };
    match read_sockets(alloc, text) {
        Ok(links) => Ok((config, links)),
        Err(fault) => {
            let place = link_without(alloc, text, &fault);
            Err(RunEnding::BadConfig(fault, place))
        }
    }
}

/// The text of the file of this name.
pub(crate) fn read_served<'a, F: FilesByName>(
    files: &F,
    alloc: Global,
    file: &str,
) -> Result<String, RunEnding<'a>>
    ensures text { IfOk result (λ text. IsFileText (F.opens files.now) F.File.stream file.now (string_bytes text)) }
    ensures fault { IfErr result (λ ending. status_of ending ≡ 1) }
{
    let mut stream = match files.open(file) {
        Ok(stream) => stream,
        Err(fault) => return Err(RunEnding::Unread(Source::Config, fault)),
    };
    match read_text(alloc, &mut stream) {
        Ok(text) => Ok(text),
        Err(fault) => Err(RunEnding::Unread(Source::Config, fault)),
    }
}

/// Serves the links of the router that a text says, so many turns each, and does what is done beside the clock. What keeps its journal is
/// given to it. Gives the status. The error is that a stream could not be written.
fn serve_text<
    N: Net + Threads + Wait + Clock + Clone + Send + Sync + Drop,
    B: BesideClock,
    W: Write,
    E: Write,
>(
    rt: &N,
    alloc: Global,
    file: &str,
    text: &str,
    turns: u32,
    handed: &HandOver,
    wanted: Wanted,
    beside: &mut B,
    output: &mut W,
    error: &mut E,
) -> io::Result<u8>
    ensures { IfOk result (λ status. status ≡ 0 → ServesText text.now (W.contents output.old) (W.contents output.new) status) }
{
    match configured(alloc, text) {
        Ok((config, links)) => {
            let keeper = SegmentKeeper::new(rt, alloc, handed, wanted, text);
            serve_links(
                rt, alloc, config, &links, turns, keeper, beside, output, error,
            )
        }
        Err(ending) => {
            tell_ending(error, file, &ending)?;
            Ok(status_of(&ending))
        }
    }
}

/// The status of a run with this status, when its journal is written or isn't: 1 where it isn't, which is told. The error is the
/// stream's.
pub(crate) fn tell_written<E: Write>(
    error: &mut E,
    written: Result<(), Unwritten>,
    status: u8,
) -> io::Result<u8>
    ensures { IfOk result (λ after. after ≡ 0 → (status ≡ 0) × IsOk written) }
{
    match written {
        Ok(()) => Ok(status),
        Err(unwritten) => {
            tell_output_fault(error, unwritten.name.as_str(), unwritten.fault)?;
            Ok(FAILED)
        }
    }
}

/// Whether the names of a journal's files are claimed, where a prefix of them is given; tells why not. The error is the stream's.
pub(crate) fn claims<F: WritesFiles, E: Write>(
    files: &F,
    alloc: Global,
    journal: Option<&str>,
    error: &mut E,
) -> io::Result<bool> {
    let Some(prefix) = journal else {
        return Ok(true);
    };
    match files.claim(alloc, prefix) {
        Ok(()) => Ok(true),
        Err(unwritten) => {
            tell_output_fault(error, unwritten.name.as_str(), unwritten.fault)?;
            Ok(false)
        }
    }
}

/// Serves the links of the router that a text says, and writes its journal into files where a prefix of their names is given.
fn serve_kept<
    F: WritesFiles,
    N: Net + Threads + Wait + Clock + Clone + Send + Sync + Drop,
    W: Write,
    E: Write,
>(
    files: &F,
    rt: &N,
    alloc: Global,
    file: &str,
    text: &str,
    turns: u32,
    journal: Option<&str>,
    output: &mut W,
    error: &mut E,
) -> io::Result<u8>
    ensures { IfOk result (λ status. status ≡ 0 → ServesText text.now (W.contents output.old) (W.contents output.new) status) }
{
    if !claims(files, alloc, journal, error)? {
        return Ok(FAILED);
    }
    let wanted = Wanted {
        files: journal.is_some(),
        errors: false,
    };
    let handed = Mutex::new(Handed::new(alloc));
    let mut writer = SegmentWriter::new(files, rt, alloc, journal, &handed);
    let status = serve_text(
        rt,
        alloc,
        file,
        text,
        turns,
        &handed,
        wanted,
        &mut writer,
        output,
        error,
    );
    // Also where a stream couldn't be written: what is left of the journal is.
    let written = writer.finish();
    tell_written(error, written, status?)
}

/// `lsr serve FILE [--turns N] [--journal PREFIX]`: the links of the router of the file of this name are served by `rt`, so many turns
/// each, or without a number 1,000. Its journal goes into the files `PREFIX.1`, `PREFIX.2` and so on, each written at the first moment of
/// the clock after its segment was taken, the last when the run is over; without a prefix it isn't kept. Prints whether what was told is one run, tells on the error stream why it didn't begin, and gives
/// the status: 0, 1, or 2 where the word is no number of turns. The error is that a stream could not be written.
pub fn run_serve_of<
    F: FilesByName + WritesFiles,
    N: Net + Threads + Wait + Clock + Clone + Send + Sync + Drop,
    W: Write,
    E: Write,
>(
    files: &F,
    rt: &N,
    alloc: Global,
    file: &str,
    turns: Option<&str>,
    journal: Option<&str>,
    output: &mut W,
    error: &mut E,
) -> io::Result<u8>
    ensures { IfOk result (ServesFile (F.opens files.now) F.File.stream file.now (option_map (λ w. w.now) turns.entry)
        (W.contents output.old) (W.contents output.new)) }
{
    let Some(turns) = read_turns(turns) else {
        error.write_all(BAD_TURNS.as_bytes())?;
        return Ok(BAD_WORDS);
    };
    match read_served(files, alloc, file) {
        Ok(text) => {
            let text = text.as_str();
            serve_kept(files, rt, alloc, file, text, turns, journal, output, error)
        }
        Err(ending) => {
            tell_ending(error, file, &ending)?;
            Ok(status_of(&ending))
        }
    }
}
