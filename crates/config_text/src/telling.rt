// What is told of the place of a fault.
ghost use Rattle.std.specs.Prelude.{◌≡◌, OnOk};
ghost use Rattle.std.specs.Io.KnownBytes.{Appends};
ghost use Rattle.config_text.specs.Telling.{entry_text, place_text, record_text, stop_text, top_text};

use crate::allowed::{TOML, allowed};
use crate::place::Place;
use crate::section::{Section, Spot};
use lsr_config::ConfigFault;
use std::io;
use std::io::Write;

/// Tells where the text stops being TOML, and why. The error is the stream's.
#[tactic(auto, unfolding(crate::specs::Telling::stop_text))]
fn tell_stop<E: Write>(error: &mut E, line: usize, column: usize, reason: &str) -> io::Result<()>
    ensures { OnOk result (Appends (E.contents error.old) (E.contents error.new) (stop_text line column reason.now)) }
{
    write!(
        error,
        "  line {line}, column {column}: {reason}\n  allowed: {TOML}\n"
    )
}

/// Tells what is found before the records. The error is the stream's.
#[tactic(auto, unfolding(crate::specs::Telling::top_text))]
fn tell_top<E: Write>(error: &mut E, found: &str, allowed: &str) -> io::Result<()>
    ensures { OnOk result (Appends (E.contents error.old) (E.contents error.new) (top_text found.now allowed.now)) }
{
    write!(
        error,
        "  before the records: {found}\n  allowed: {allowed}\n"
    )
}

/// Tells what is found in a record. The error is the stream's.
#[tactic(auto, unfolding(crate::specs::Telling::record_text))]
fn tell_record<E: Write>(
    error: &mut E,
    section: Section,
    number: usize,
    found: &str,
    allowed: &str,
) -> io::Result<()>
    ensures { OnOk result (Appends (E.contents error.old) (E.contents error.new) (record_text section number found.now allowed.now)) }
{
    let name = section.key().name();
    write!(
        error,
        "  record {number} of [[{name}]]: {found}\n  allowed: {allowed}\n"
    )
}

/// Tells what is found at a spot. The error is the stream's.
#[tactic(auto, unfolding(crate::specs::Telling::entry_text))]
fn tell_entry<E: Write>(error: &mut E, spot: Spot, found: &str, allowed: &str) -> io::Result<()>
    ensures { OnOk result (Appends (E.contents error.old) (E.contents error.new) (entry_text spot found.now allowed.now)) }
{
    match spot {
        Spot::Top => tell_top(error, found, allowed),
        Spot::Record(section, number) => tell_record(error, section, number, found, allowed),
    }
}

/// Tells where the fault stands, in lines that begin with two spaces: where it is and what is found there, and what is allowed.
/// The error is the stream's.
#[tactic(auto, unfolding(crate::specs::Telling::place_text))]
pub fn tell_place<E: Write>(error: &mut E, fault: &ConfigFault, place: &Place) -> io::Result<()>
    ensures { OnOk result (Appends (E.contents error.old) (E.contents error.new) (place_text fault.now place.now)) }
{
    match place {
        Place::Stop {
            line,
            column,
            reason,
        } => tell_stop(error, *line, *column, reason.as_str()),
        Place::Entry { spot, found } => {
            tell_entry(error, *spot, found.as_str(), allowed(fault, *spot))
        }
    }
}
