//! The lines of moves that are chosen, and not told.
ghost use Rattle.std.specs.Prelude.{◌≡◌, ◌++◌, OnOk, string_bytes};
ghost use Rattle.lsr_play.specs.Chosen.{chosen_line};

use crate::declared::Declared;
use abstract_world::Move;
use std::alloc::AllocError;
use std::fmt::Write;

/// Appends the line that says the move, `> ` before it; nothing where the move is an operator's command. The only error is that memory
/// ran out.
pub(crate) fn push_chosen(
    text: &mut String,
    declared: &Declared<'_>,
    one: &Move,
) -> Result<(), AllocError>
    ensures { OnOk result (string_bytes text.new ≡ string_bytes text.old ++ chosen_line declared.now.names one.now) }
{
    match one {
        Move::Deliver(number) => write!(text, "> deliver {number}\n"),
        Move::Repeat(number) => write!(text, "> repeat {number}\n"),
        Move::Tick(router, moment) => {
            let name = declared.name_at(*router);
            write!(text, "> tick {name} {moment}\n")
        }
        Move::LinkUp(router, link) => {
            let name = declared.name_at(*router);
            write!(text, "> up {name} {link}\n")
        }
        Move::LinkDown(router, link) => {
            let name = declared.name_at(*router);
            write!(text, "> down {name} {link}\n")
        }
        Move::Restart(router) => {
            let name = declared.name_at(*router);
            write!(text, "> restart {name}\n")
        }
        Move::Command(_, _) => Ok(()),
    }
}
