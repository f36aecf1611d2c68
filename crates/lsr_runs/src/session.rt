//! `lsr step` on the router of a configuration, or on the built-in one.
ghost use Rattle.std.specs.Prelude.{◌≡◌, List, ℕ, Ok, Err, IfOk, IfErr, string_bytes};
ghost use Rattle.std.specs.Option.{option_map};
ghost use Rattle.std.specs.Io.KnownBytes.{Appends};
ghost use Rattle.lsr_config.specs.Configs.{Setup};
ghost use Rattle.lsr_config.specs.Reading.{IsRead};
ghost use Rattle.lsr_runs.specs.declared.endings.RunEnding.{RunEnding};
ghost use Rattle.lsr_runs.specs.Endings.{ending_text, status_of};
ghost use Rattle.line_streams.specs.Texts.{IsTextOf};
ghost use Rattle.lsr_runs.specs.Sessions.{CannotBegin, IsConfigText, IsReady, IsUnreadConfig, NeverSteps, Steps, StepsOnFile, begun, name_of, said_by};

use crate::endings::{RunEnding, Source, status_of, tell_ending};
use crate::files::FilesByName;
use config_text::place_of;
use line_streams::{ByteStream, InputFault, read_text};
use lsr_config::{BUILT_IN, Config, ConfigFault};
use lsr_lines::step_lines;
use lsr_session::{Machine, Session};
use std::alloc::{AllocError, Global};
use std::io;
use std::io::Write;

/// The text of the configuration, where there is one.
pub fn read_config_text<C: ByteStream + Drop>(
    alloc: Global,
    config: Option<C>,
) -> Result<Option<String>, InputFault>
    ensures text { IfOk result (λ text. IsConfigText (option_map C.stream config) (said_by (option_map string_bytes text))) }
    ensures fault { IfErr result (IsUnreadConfig (option_map C.stream config)) }
{
    match config {
        None => Ok(None),
        Some(mut stream) => match read_text(alloc, &mut stream) {
            Ok(text) => Ok(Some(text)),
            Err(fault) => Err(fault),
        },
    }
}

/// How a run ends on a text that gives no router for this fault.
pub fn misconfigured<'a>(alloc: Global, text: &str, fault: ConfigFault) -> RunEnding<'a>
    ensures { IsRead text.now (Err fault) → CannotBegin text.now result }
{
    let place = place_of(alloc, text, &fault);
    RunEnding::BadConfig(fault, place)
}

/// The text that was read, or without one that of the built-in router.
pub fn said(text: &Option<String>) -> &str
    ensures { result.now ≡ said_by (option_map string_bytes text.now) }
{
    match text {
        Some(text) => text.as_str(),
        None => BUILT_IN,
    }
}

/// The configuration that the text says.
pub(crate) fn configured<'a>(alloc: Global, text: &str) -> Result<Config, RunEnding<'a>>
    ensures said { IfOk result (λ config. IsRead text.now (Ok config)) }
    ensures fault { IfErr result (CannotBegin text.now) }
{
    match Config::read(alloc, text) {
        Ok(config) => Ok(config),
        Err(fault) => Err(misconfigured(alloc, text, fault)),
    }
}

/// A session that begins on the router of the configuration, which runs.
fn open(alloc: Global, config: Config) -> Result<Session, AllocError>
    ensures { IfOk result (λ session. session ≡ begun config) }
{
    let router = Machine::open(alloc, config)?;
    Session::new(alloc, router)
}

/// A session that begins on the router that the text says, or without a text on the built-in one.
pub(crate) fn begin<'a>(alloc: Global, text: Option<String>) -> Result<Session, RunEnding<'a>>
    ensures begun { IfOk result (λ session. (config : Setup) × IsRead (said_by (option_map string_bytes text)) (Ok config) × (session ≡ begun config)) }
    ensures fault { IfErr result (CannotBegin (said_by (option_map string_bytes text))) }
{
    let config = configured(alloc, said(&text))?;
    match open(alloc, config) {
        Ok(session) => Ok(session),
        Err(_) => Err(RunEnding::Memory),
    }
}

/// The text of the configuration, where there is one, and that of the input; or how the run ends before its first line.
pub(crate) fn read_texts<'a, C: ByteStream + Drop, R: ByteStream>(
    alloc: Global,
    config: Option<C>,
    input: &mut R,
) -> Result<(Option<String>, String), RunEnding<'a>>
    ensures texts { IfOk result (λ texts. IsConfigText (option_map C.stream config) (said_by (option_map string_bytes texts.0))
        × IsTextOf (R.stream input.old) (string_bytes texts.1)) }
    ensures fault { IfErr result (NeverSteps (option_map C.stream config) (R.stream input.old)) }
{
    let config_text = match read_config_text(alloc, config) {
        Ok(text) => text,
        Err(fault) => return Err(RunEnding::Unread(Source::Config, fault)),
    };
    match read_text(alloc, input) {
        Ok(text) => Ok((config_text, text)),
        Err(fault) => Err(RunEnding::Unread(Source::Input, fault)),
    }
}

/// The session that begins, and the text of the input; or how the run ends before its first line. Both texts are
/// read before the configuration is looked at.
fn prepare<'a, C: ByteStream + Drop, R: ByteStream>(
    alloc: Global,
    config: Option<C>,
    input: &mut R,
) -> Result<(Session, String), RunEnding<'a>>
    ensures ready { IfOk result (λ ready. IsReady (option_map C.stream config) (R.stream input.old) ready.0 (string_bytes ready.1)) }
    ensures fault { IfErr result (NeverSteps (option_map C.stream config) (R.stream input.old)) }
{
    let (config_text, text) = read_texts(alloc, config, input)?;
    let session = begin(alloc, config_text)?;
    Ok((session, text))
}

/// `lsr step [--echo]`: answers the lines of the input by the router of the configuration, which has this name, or without
/// one by the built-in router, one after the other, and prints what each is answered; with `echo` each line before that, and
/// empty lines and lines that begin with # are passed over. Tells on the error stream how the run ended if it didn't end
/// well, and gives the status, 0 or 1. The error is that a stream could not be written, or that memory ran out.
pub fn run_step<C: ByteStream + Drop, R: ByteStream, W: Write, E: Write>(
    alloc: Global,
    name: &str,
    config: Option<C>,
    echo: bool,
    input: &mut R,
    output: &mut W,
    error: &mut E,
) -> io::Result<u8>
    ensures { IfOk result (λ status. (ending : RunEnding) × (printed : List ℕ) × (status ≡ status_of ending)
        × Steps echo (option_map C.stream config) (R.stream input.old) printed ending
        × Appends (W.contents output.old) (W.contents output.new) printed
        × Appends (E.contents error.old) (E.contents error.new) (ending_text name.now ending)) }
{
    match prepare(alloc, config, input) {
        Ok((session, text)) => {
            let ending = RunEnding::Ran(step_lines(alloc, session, echo, text.as_str(), output)?);
            tell_ending(error, name, &ending)?;
            Ok(status_of(&ending))
        }
        Err(ending) => {
            tell_ending(error, name, &ending)?;
            Ok(status_of(&ending))
        }
    }
}

/// `lsr step [--config FILE] [--echo]`: as [`run_step`], on the router of the file of this name, or without one on the
/// built-in router. A file that can't be opened is told as one that can't be read.
pub fn run_step_of<F: FilesByName, R: ByteStream, W: Write, E: Write>(
    files: &F,
    alloc: Global,
    file: Option<&str>,
    echo: bool,
    input: &mut R,
    output: &mut W,
    error: &mut E,
) -> io::Result<u8>
    ensures { IfOk result (λ status. (ending : RunEnding) × (printed : List ℕ) × (status ≡ status_of ending)
        × StepsOnFile (F.opens files.now) (F.fails files.now) F.File.stream echo (option_map (λ f. f.now) file.entry) (R.stream input.old) printed ending
        × Appends (W.contents output.old) (W.contents output.new) printed
        × Appends (E.contents error.old) (E.contents error.new) (ending_text (name_of (option_map (λ f. f.now) file.entry)) ending)) }
{
    let Some(name) = file else {
        return run_step(alloc, "", None::<F::File>, echo, input, output, error);
    };
    match files.open(name) {
        Ok(stream) => run_step(alloc, name, Some(stream), echo, input, output, error),
        Err(fault) => {
            let ending = RunEnding::Unread(Source::Config, fault);
            tell_ending(error, name, &ending)?;
            Ok(status_of(&ending))
        }
    }
}
