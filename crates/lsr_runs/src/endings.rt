//! How a run of `lsr` ends, what is told of it, and its status.
ghost use Rattle.std.specs.Prelude.{◌≡◌, OnOk};
ghost use Rattle.std.specs.Io.KnownBytes.{Appends};
ghost use Rattle.lsr_runs.specs.Endings.{config_fault_text, ending_text, fault_line, lines_ending_text, place_lines, source_name, status_of};

use config_text::{Place, tell_place};
use line_streams::{InputFault, tell_input_fault};
use lsr_config::ConfigFault;
use lsr_lines::{Ending, tell_bad_line};
use lsr_text::OUT_OF_MEMORY;
use std::io;
use std::io::Write;

/// What the input is called.
const INPUT: &str = "standard input";
/// The status of a run that ended well.
pub const DONE: u8 = 0;
/// The status where something was refused, or memory ran out.
pub const FAILED: u8 = 1;
/// The status of words that ask for nothing that there is.
pub const BAD_WORDS: u8 = 2;

/// A text that a run reads.
#[derive(Clone, Copy)]
pub enum Source {
    /// The configuration.
    Config,
    /// The input.
    Input,
}

/// How a run of `lsr` ends.
#[derive(Drop)]
pub enum RunEnding<'a> {
    /// Its lines were answered as far as this says.
    Ran(Ending<'a>),
    /// This text isn't read.
    Unread(Source, InputFault),
    /// There is no memory to begin.
    Memory,
    /// The configuration's text gives no router, for a fault that stands at this place, where that is known.
    BadConfig(ConfigFault, Option<Place>),
}

/// The status that the program ends with.
pub fn status_of(ending: &RunEnding) -> u8
    ensures { result ≡ status_of ending.now }
{
    match ending {
        RunEnding::Ran(Ending::Done) => DONE,
        RunEnding::Ran(Ending::BadLine(_, _)) => FAILED,
        RunEnding::Ran(Ending::Memory) => FAILED,
        RunEnding::Unread(_, _) => FAILED,
        RunEnding::Memory => FAILED,
        RunEnding::BadConfig(_, _) => FAILED,
    }
}

/// What the text is called, where the configuration has this name.
fn source_name(config: &str, source: Source) -> &str
    ensures { result.now ≡ source_name config.now source }
{
    match source {
        Source::Config => config,
        Source::Input => INPUT,
    }
}

/// Tells of a configuration's fault: `config FAULT NAME`, or `config FAULT` where no key is at fault. The error is
/// the stream's.
#[tactic(auto, unfolding(crate::specs::Endings::fault_line))]
fn tell_fault<E: Write>(error: &mut E, fault: &ConfigFault) -> io::Result<()>
    ensures { OnOk result (Appends (E.contents error.old) (E.contents error.new) (fault_line fault.now)) }
{
    let word = fault.word();
    match fault.name() {
        Some(name) => write!(error, "config {word} {name}\n"),
        None => write!(error, "config {word}\n"),
    }
}

/// Tells where the fault stands, where that is known. The error is the stream's.
fn tell_known_place<E: Write>(
    error: &mut E,
    fault: &ConfigFault,
    place: &Option<Place>,
) -> io::Result<()>
    ensures { OnOk result (Appends (E.contents error.old) (E.contents error.new) (place_lines fault.now place.now)) }
{
    match place {
        Some(place) => tell_place(error, fault, place),
        None => Ok(()),
    }
}

/// Tells of a configuration's fault, and where it stands. The error is the stream's.
fn tell_config_fault<E: Write>(
    error: &mut E,
    fault: &ConfigFault,
    place: &Option<Place>,
) -> io::Result<()>
    ensures { OnOk result (Appends (E.contents error.old) (E.contents error.new) (config_fault_text fault.now place.now)) }
{
    tell_fault(error, fault)?;
    tell_known_place(error, fault, place)
}

/// Tells why lines weren't all answered. The error is the stream's.
fn tell_lines_ending<E: Write>(error: &mut E, ending: Ending) -> io::Result<()>
    ensures { OnOk result (Appends (E.contents error.old) (E.contents error.new) (lines_ending_text ending.entry)) }
{
    match ending {
        Ending::Done => Ok(()),
        Ending::BadLine(number, line) => tell_bad_line(error, number, line),
        Ending::Memory => write!(error, "{OUT_OF_MEMORY}\n"),
    }
}

/// Tells how the run ended on the configuration of this name, where it didn't end well. The error is the stream's.
pub fn tell_ending<E: Write>(error: &mut E, config: &str, ending: &RunEnding) -> io::Result<()>
    ensures { OnOk result (Appends (E.contents error.old) (E.contents error.new) (ending_text config.now ending.now)) }
{
    match ending {
        RunEnding::Ran(ending) => tell_lines_ending(error, *ending),
        RunEnding::Unread(source, fault) => {
            tell_input_fault(error, source_name(config, *source), *fault)
        }
        RunEnding::Memory => write!(error, "{OUT_OF_MEMORY}\n"),
        RunEnding::BadConfig(fault, place) => tell_config_fault(error, fault, place),
    }
}
