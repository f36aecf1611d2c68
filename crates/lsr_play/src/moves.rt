//! Which move a line says.
ghost use Rattle.std.specs.Prelude.{◌≡◌, IfOk};
ghost use Rattle.std.specs.Option.{MatchOption};
ghost use Rattle.lsr_play.specs.Moving.{SaysMove, SaysNoMove, move_at, move_of};

use crate::declared::Declared;
use abstract_world::Move;
use std::alloc::{AllocError, Global};
use world_lines::{Act, WorldLine, read_line};

/// The move in which this happens at the router of this place.
fn move_at(router: usize, act: Act) -> Move
    ensures { result ≡ move_at router act }
{
    match act {
        Act::Tick(moment) => Move::Tick(router, moment),
        Act::LinkUp(link) => Move::LinkUp(router, link),
        Act::LinkDown(link) => Move::LinkDown(router, link),
        Act::Restart => Move::Restart(router),
        Act::Command(command) => Move::Command(router, command),
    }
}

/// The move that is said; none where what is said declares a router or a wire.
fn move_of(declared: &Declared<'_>, said: WorldLine<'_>) -> Option<Move>
    ensures { result ≡ move_of declared.now.names said.entry }
{
    match said {
        WorldLine::Router(_, _) | WorldLine::Wire(_) => None,
        WorldLine::Deliver(number) => Some(Move::Deliver(number as usize)),
        WorldLine::Repeat(number) => Some(Move::Repeat(number as usize)),
        WorldLine::At(name, act) => Some(move_at(declared.place_of(name), act)),
    }
}

/// The move that the line says; none where it says none. A router that isn't declared has the place behind the last one. The only
/// error is that there is no memory for a tunnel that it brings.
pub(crate) fn read_move(
    alloc: Global,
    declared: &Declared<'_>,
    line: &str,
) -> Result<Option<Move>, AllocError>
    ensures { IfOk result (λ asked. MatchOption asked (SaysNoMove declared.now.names line.now) (SaysMove declared.now.names line.now)) }
{
    match read_line(alloc, line)? {
        Some(said) => Ok(move_of(declared, said)),
        None => Ok(None),
    }
}
