//! How a run over the lines of a world's file ends, and what is told of it.
ghost use Rattle.std.specs.Prelude.{◌≡◌, OnOk};
ghost use Rattle.std.specs.Io.KnownBytes.{Appends};
ghost use Rattle.lsr_play.specs.Endings.{fault_text, play_ending_text, play_status};

use lab_world::WorldFault;
use lsr_text::OUT_OF_MEMORY;
use std::io;
use std::io::Write;
use world_lines::tell_bad_line;

/// The status where nothing is told.
const DONE: u8 = 0;
/// The status where something is.
const FAILED: u8 = 1;

/// How a run over the lines of a world's file ends.
#[derive(Clone, Copy)]
pub enum PlayEnding<'a> {
    /// Every line was taken, and every move answered.
    Done,
    /// The line of this number, from 1, says nothing that there is, or not here. The lines before it were taken.
    BadLine(usize, &'a str),
    /// The routers and wires that are declared make no world.
    Fault(WorldFault),
    /// There was no memory for a line, or for what is printed of it. The lines before it were taken.
    Memory,
}

/// Tells why routers and wires make no world: `world FAULT`. The error is the stream's.
fn tell_fault<E: Write>(error: &mut E, fault: WorldFault) -> io::Result<()>
    ensures { OnOk result (Appends (E.contents error.old) (E.contents error.new) (fault_text fault)) }
{
    match fault {
        WorldFault::Memory => write!(error, "world Memory\n"),
        WorldFault::Routers => write!(error, "world Routers\n"),
        WorldFault::Joint(number) => write!(error, "world Joint {number}\n"),
    }
}

/// Tells how the run ended, where it didn't end well. The error is the stream's.
pub fn tell_play_ending<E: Write>(error: &mut E, ending: &PlayEnding) -> io::Result<()>
    ensures { OnOk result (Appends (E.contents error.old) (E.contents error.new) (play_ending_text ending.now)) }
{
    match ending {
        PlayEnding::Done => Ok(()),
        PlayEnding::BadLine(number, line) => tell_bad_line(error, *number, line),
        PlayEnding::Fault(fault) => tell_fault(error, *fault),
        PlayEnding::Memory => write!(error, "{OUT_OF_MEMORY}\n"),
    }
}

/// The status that the program ends with.
pub fn play_status(ending: &PlayEnding) -> u8
    ensures { result ≡ play_status ending.now }
{
    match ending {
        PlayEnding::Done => DONE,
        PlayEnding::BadLine(_, _) | PlayEnding::Fault(_) | PlayEnding::Memory => FAILED,
    }
}
