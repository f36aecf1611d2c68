//! Why a console ends the run.
ghost use Rattle.std.specs.Prelude.{◌≡◌};
ghost use Rattle.lsr_console.specs.Endings.{ending_of};

use crate::listening::Heard;
use crate::said::QUIT_WORD;
use line_streams::InputFault;
use std::io;

/// Why a console ends the run.
#[derive(Drop)]
pub enum ConsoleEnding {
    /// The operator wrote `quit`.
    Quit,
    /// The input ended.
    InputEnded,
    /// No further line can be read, for this fault.
    Unread(InputFault),
    /// An answer can't be written, for this error.
    Unwritten(io::Error),
}

/// Whether what was heard ends the run, and why.
pub(crate) fn ending_of(heard: &Heard) -> Option<ConsoleEnding>
    ensures { result ≡ ending_of heard.now }
{
    match heard {
        Heard::Line(line) => {
            if line.as_str() == QUIT_WORD {
                return Some(ConsoleEnding::Quit);
            }
            None
        }
        Heard::NotText(_) => None,
        Heard::Fault(fault) => Some(ConsoleEnding::Unread(*fault)),
        Heard::End => Some(ConsoleEnding::InputEnded),
    }
}
