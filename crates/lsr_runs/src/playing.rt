//! `lsr play` on the world of a file.
ghost use Rattle.std.specs.Prelude.{◌≡◌, ◌≤◌, ℕ, List, IfOk, IfErr, Ok, OnOk, map, string_bytes};
ghost use Rattle.std.specs.Io.KnownBytes.{Appends};
ghost use Rattle.line_streams.specs.Cuts.{lines_of};
ghost use Rattle.line_streams.specs.declared.input.InputFault.{InputFault};
ghost use Rattle.lsr_config.specs.Reading.{IsRead};
ghost use Rattle.lsr_runs.specs.Sessions.{CannotBegin};
ghost use Rattle.lsr_runs.specs.declared.endings.RunEnding.TheVariants as endings;
ghost use Rattle.lsr_runs.specs.declared.endings.Source.TheVariants as sources;
ghost use Rattle.lsr_runs.specs.Playing.{AreSaid, AreTexts, IsFileText, IsFirstSaidFault, IsTextless, PlaysFile, PlaysLines, PlaysText, StopsFor, stop_text, whose_text};
ghost use Rattle.world_lines.specs.Named.{files_of};

use crate::endings::{FAILED, RunEnding, Source, tell_ending};
use crate::files::FilesByName;
use crate::session::misconfigured;
use line_streams::{InputFault, read_text, tell_input_fault};
use lsr_config::Config;
use lsr_play::{play_lab, play_lines, play_status, tell_play_ending};
use std::alloc::Global;
use std::io;
use std::io::Write;
use world_lines::next_file;

/// Why a world's lines aren't played.
#[derive(Drop)]
struct Stop<'a> {
    /// The name of the file that is at fault.
    name: &'a str,
    /// What is wrong with it, or that memory ran out.
    ending: RunEnding<'a>,
}

/// The text of a file.
#[derive(Drop)]
struct NamedText<'a> {
    /// The file's name.
    name: &'a str,
    /// Its text.
    text: String,
}

/// The text of the file of this name.
fn read_file<F: FilesByName>(files: &F, alloc: Global, name: &str) -> Result<String, InputFault>
    ensures text { IfOk result (λ text. IsFileText (F.opens files.now) F.File.stream name.now (string_bytes text)) }
    ensures fault { IfErr result (IsTextless (F.opens files.now) (F.fails files.now) F.File.stream name.now) }
{
    let mut stream = match files.open(name) {
        Ok(stream) => stream,
        Err(fault) => return Err(fault),
    };
    match read_text(alloc, &mut stream) {
        Ok(text) => Ok(text),
        Err(fault) => Err(fault),
    }
}

/// The file of this name, read; or that it has no text.
fn read_named<'a, F: FilesByName>(
    files: &F,
    alloc: Global,
    name: &'a str,
) -> Result<NamedText<'a>, Stop<'a>>
    ensures named { IfOk result (λ named. named.name.now ≡ name.now) }
    ensures text { IfOk result (λ named. IsFileText (F.opens files.now) F.File.stream name.now (string_bytes named.text)) }
    ensures stop { IfErr result (λ stop. (stop.name.now ≡ name.now) × ((fault : InputFault) × (stop.ending ≡ endings.Unread sources.Config fault)
        × IsTextless (F.opens files.now) (F.fails files.now) F.File.stream name.now fault)) }
{
    match read_file(files, alloc, name) {
        Ok(text) => Ok(NamedText { name, text }),
        Err(fault) => Err(Stop {
            name,
            ending: RunEnding::Unread(Source::Config, fault),
        }),
    }
}

/// The texts of the files that the lines of a world's file name, in order; or which has none.
fn read_files<'a, F: FilesByName>(
    files: &F,
    alloc: Global,
    text: &'a str,
) -> Result<Vec<NamedText<'a>>, Stop<'a>>
    ensures names { IfOk result (λ texts. map (λ named. named.name.now) texts.items ≡ files_of (lines_of text.now)) }
    ensures texts { IfOk result (λ texts. AreTexts (F.opens files.now) F.File.stream (map (λ named. named.name.now) texts.items) (map (λ named. string_bytes named.text) texts.items)) }
    ensures stop { IfErr result (λ stop. StopsFor (F.opens files.now) (F.fails files.now) F.File.stream (files_of (lines_of text.now)) stop.name.now stop.ending) }
{
    let mut texts = Vec::new(alloc);
    let mut rest = text;
    while let Some((name, others)) = next_file(rest) {
        let named = match read_named(files, alloc, name) {
            Ok(named) => named,
            Err(stop) => return Err(stop),
        };
        if texts.push(named).is_err() {
            return Err(Stop {
                name,
                ending: RunEnding::Memory,
            });
        }
        rest = others;
    }
    Ok(texts)
}

/// The configuration that the text of a file says; or that it gives no router.
fn configure_one<'a>(alloc: Global, named: &NamedText<'a>) -> Result<Config, Stop<'a>>
    ensures said { IfOk result (λ config. IsRead (string_bytes named.now.text) (Ok config)) }
    ensures stop { IfErr result (λ stop. (stop.name.now ≡ named.now.name.now) × CannotBegin (string_bytes named.now.text) stop.ending) }
{
    let text = named.text.as_str();
    match Config::read(alloc, text) {
        Ok(config) => Ok(config),
        Err(fault) => Err(Stop {
            name: named.name,
            ending: misconfigured(alloc, text, fault),
        }),
    }
}

/// The configurations that the texts say, in order; or which gives no router.
fn configure<'a>(alloc: Global, texts: &[NamedText<'a>]) -> Result<Vec<Config>, Stop<'a>>
    ensures configs { IfOk result (λ configs. AreSaid (map (λ named. string_bytes named.text) texts.now) configs.items) }
    ensures stop { IfErr result (λ stop. IsFirstSaidFault (map (λ named. named.name.now) texts.now) (map (λ named. string_bytes named.text) texts.now) stop.name.now stop.ending) }
{
    let mut configs = Vec::new(alloc);
    for named in texts {
        let config = match configure_one(alloc, named) {
            Ok(config) => config,
            Err(stop) => return Err(stop),
        };
        if configs.push(config).is_err() {
            return Err(Stop {
                name: named.name,
                ending: RunEnding::Memory,
            });
        }
    }
    Ok(configs)
}

/// The configurations of the routers that the lines of a world's file name, in order. All their files are read before the first
/// configuration is looked at.
fn configs_of<'a, F: FilesByName>(
    files: &F,
    alloc: Global,
    text: &'a str,
) -> Result<Vec<Config>, Stop<'a>>
    ensures configs { IfOk result (λ configs. (texts : List (List ℕ)) × AreTexts (F.opens files.now) F.File.stream (files_of (lines_of text.now)) texts × AreSaid texts configs.items) }
    ensures stop { IfErr result (λ stop. StopsFor (F.opens files.now) (F.fails files.now) F.File.stream (files_of (lines_of text.now)) stop.name.now stop.ending) }
{
    let texts = match read_files(files, alloc, text) {
        Ok(texts) => texts,
        Err(stop) => return Err(stop),
    };
    match configure(alloc, texts.as_slice()) {
        Ok(configs) => Ok(configs),
        Err(stop) => Err(stop),
    }
}

/// Tells whose configuration has a fault, where that is why lines aren't played. The error is the stream's.
fn tell_whose<E: Write>(error: &mut E, stop: &Stop) -> io::Result<()>
    ensures { OnOk result (Appends (E.contents error.old) (E.contents error.new) (whose_text stop.now.name.now stop.now.ending)) }
{
    match &stop.ending {
        RunEnding::BadConfig(_, _) => {
            let name = stop.name;
            write!(error, "  in {name}\n")
        }
        RunEnding::Ran(_) | RunEnding::Unread(_, _) | RunEnding::Memory => Ok(()),
    }
}

/// Tells why a world's lines aren't played. The error is the stream's.
fn tell_stop<E: Write>(error: &mut E, stop: &Stop) -> io::Result<()>
    ensures { OnOk result (Appends (E.contents error.old) (E.contents error.new) (stop_text stop.now.name.now stop.now.ending)) }
{
    tell_ending(error, stop.name, &stop.ending)?;
    tell_whose(error, stop)
}

/// Plays the lines of a world's file, of whose routers these are the configurations, and tells how that ended. Gives the status. The
/// error is that a stream could not be written.
fn play_text<W: Write, E: Write>(
    alloc: Global,
    configs: Vec<Config>,
    text: &str,
    output: &mut W,
    error: &mut E,
) -> io::Result<u8>
    ensures { IfOk result (PlaysLines configs.items (lines_of text.now) (W.contents output.old) (W.contents output.new) (E.contents error.old) (E.contents error.new)) }
{
    let ending = play_lines(alloc, configs, text, output)?;
    tell_play_ending(error, &ending)?;
    Ok(play_status(&ending))
}

/// Plays the text of a world's file, once the files that its lines name are read and their configurations looked at. Gives the
/// status. The error is that a stream could not be written.
fn run_play<F: FilesByName, W: Write, E: Write>(
    files: &F,
    alloc: Global,
    text: &str,
    output: &mut W,
    error: &mut E,
) -> io::Result<u8>
    ensures { IfOk result (PlaysText (F.opens files.now) (F.fails files.now) F.File.stream text.now
        (W.contents output.old) (W.contents output.new) (E.contents error.old) (E.contents error.new)) }
{
    match configs_of(files, alloc, text) {
        Ok(configs) => play_text(alloc, configs, text, output, error),
        Err(stop) => {
            tell_stop(error, &stop)?;
            Ok(FAILED)
        }
    }
}

/// `lsr play FILE`: the world of the file of this name is played. The files that its lines name are read, then their configurations
/// looked at, and then its lines are taken one after the other. Prints what its moves are answered, tells on the error stream why the
/// run didn't end well, and gives the status, 0 or 1. The error is that a stream could not be written.
pub fn run_play_of<F: FilesByName, W: Write, E: Write>(
    files: &F,
    alloc: Global,
    file: &str,
    output: &mut W,
    error: &mut E,
) -> io::Result<u8>
    ensures { IfOk result (PlaysFile (F.opens files.now) (F.fails files.now) F.File.stream file.now
        (W.contents output.old) (W.contents output.new) (E.contents error.old) (E.contents error.new)) }
{
    match read_file(files, alloc, file) {
        Ok(text) => run_play(files, alloc, text.as_str(), output, error),
        Err(fault) => {
            tell_input_fault(error, file, fault)?;
            Ok(FAILED)
        }
    }
}

/// Plays the lines of a world's file as [`play_text`] does, and takes those of `--lab`, too.
fn lab_text<W: Write, E: Write>(
    alloc: Global,
    configs: Vec<Config>,
    text: &str,
    output: &mut W,
    error: &mut E,
) -> io::Result<u8>
    ensures { IfOk result (λ status. status ≤ 1) }
{
    let ending = play_lab(alloc, configs, text, output)?;
    tell_play_ending(error, &ending)?;
    Ok(play_status(&ending))
}

/// Plays the text of a world's file as [`run_play`] does, and takes the lines of `--lab`, too.
fn run_lab<F: FilesByName, W: Write, E: Write>(
    files: &F,
    alloc: Global,
    text: &str,
    output: &mut W,
    error: &mut E,
) -> io::Result<u8>
    ensures { IfOk result (λ status. status ≤ 1) }
{
    match configs_of(files, alloc, text) {
        Ok(configs) => lab_text(alloc, configs, text, output, error),
        Err(stop) => {
            tell_stop(error, &stop)?;
            Ok(FAILED)
        }
    }
}

/// `lsr play FILE --lab`: as [`run_play_of`], with lines beside those of a world's file: remarks, `show NAME WHAT` and `run`. The error is
/// that a stream could not be written, or that memory ran out.
pub fn run_lab_of<F: FilesByName, W: Write, E: Write>(
    files: &F,
    alloc: Global,
    file: &str,
    output: &mut W,
    error: &mut E,
) -> io::Result<u8>
    ensures { IfOk result (λ status. status ≤ 1) }
{
    match read_file(files, alloc, file) {
        Ok(text) => run_lab(files, alloc, text.as_str(), output, error),
        Err(fault) => {
            tell_input_fault(error, file, fault)?;
            Ok(FAILED)
        }
    }
}
