//! The lines of a world's file, played one after the other.
ghost use Rattle.std.specs.Prelude.{◌≡◌, ◌+◌, ◌<◌, ◌^◌, ◌++◌, ℕ, List, IfErr, IfOk, length};
ghost use Rattle.std.specs.Io.KnownBytes.{Appends, append_known};
ghost use Rattle.line_streams.specs.Cuts.{lines_of};
ghost use Rattle.std.specs.Option.{MatchOption};
ghost use Rattle.lab_world.specs.Opening.{CanOpen, IsFaultOf};
ghost use Rattle.lsr_play.specs.Playing.{Becomes, CanBegin, EndsMoves, EndsOn, HoldsUp, Plays, configured, world_of};

use crate::declared::{Beginning, Declared, declare_all};
use crate::endings::PlayEnding;
use crate::made::make_move;
use crate::moves::read_move;
use lab_world::{World, WorldFault};
use line_streams::next_line;
use lsr_config::Config;
use lsr_lines::put_full;
use std::alloc::Global;
use std::io;
use std::io::Write;

/// What became of one line.
#[derive(Clone, Copy)]
enum MoveOutcome {
    /// Its move was answered, and the answer printed.
    Done,
    /// It says no move.
    NoMove,
    /// There was no memory for its move, or for what is printed of it.
    Memory,
}

/// How a run ends whose first line that declares nothing says no move, or takes memory that there isn't; none where it says a move,
/// or no line is left.
fn held_up<'a>(
    alloc: Global,
    declared: &Declared<'a>,
    rest: &'a str,
    count: usize,
) -> Option<PlayEnding<'a>>
    requires { count + length rest.now < 2 ^ 64 }
    ensures { MatchOption result
        (CanBegin declared.now.names (lines_of rest.now))
        (HoldsUp declared.now.names count (lines_of rest.now)) }
{
    let Some((line, _)) = next_line(rest) else {
        return None;
    };
    match read_move(alloc, declared, line) {
        Ok(Some(_said)) => None,
        Ok(None) => Some(PlayEnding::BadLine(count + 1, line)),
        Err(_) => Some(PlayEnding::Memory),
    }
}

/// Plays the line in the world, and prints what its move is answered to the block. Where memory ran out for that the move is made.
fn move_line(
    alloc: Global,
    declared: &Declared<'_>,
    world: &mut World,
    line: &str,
    block: &mut Vec<u8>,
) -> MoveOutcome
    ensures { (printed : List ℕ) × (block.new.items ≡ block.old.items ++ printed) × Becomes declared.now.names world.old line.now printed result world.new }
{
    let one = match read_move(alloc, declared, line) {
        Ok(Some(one)) => one,
        Ok(None) => return MoveOutcome::NoMove,
        Err(_) => return MoveOutcome::Memory,
    };
    match make_move(alloc, declared, world, one, block) {
        Ok(()) => MoveOutcome::Done,
        Err(_) => MoveOutcome::Memory,
    }
}

/// Plays the lines of the text, each of which is to say a move, in the world; `count` lines stand before them. What is printed last
/// and isn't written yet is in the block. The error is the output's.
fn move_all<'a, W: Write>(
    alloc: Global,
    beginning: &Beginning<'a>,
    world: &mut World,
    block: &mut Vec<u8>,
    output: &mut W,
) -> io::Result<PlayEnding<'a>>
    requires { beginning.now.count + length beginning.now.rest.now < 2 ^ 64 }
    ensures { IfOk result (λ ending. (printed : List ℕ)
        × Appends (append_known (W.contents output.old) block.old.items) (append_known (W.contents output.new) block.new.items) printed
        × EndsMoves beginning.now.declared.names beginning.now.count world.old (lines_of beginning.now.rest.now) printed ending) }
{
    let mut rest = beginning.rest;
    let mut number = beginning.count;
    while let Some((line, others)) = next_line(rest) {
        number += 1;
        let moved = move_line(alloc, &beginning.declared, world, line, block);
        put_full(block, output)?;
        match moved {
            MoveOutcome::Done => {}
            MoveOutcome::NoMove => return Ok(PlayEnding::BadLine(number, line)),
            MoveOutcome::Memory => return Ok(PlayEnding::Memory),
        }
        rest = others;
    }
    Ok(PlayEnding::Done)
}

/// The world of what was declared: its routers have the first of the configurations.
pub(crate) fn open(
    alloc: Global,
    configs: Vec<Config>,
    declared: &Declared<'_>,
) -> Result<World, WorldFault>
    ensures opened { IfOk result (λ world. world ≡ world_of configs.items declared.now) }
    ensures can { IfOk result (λ world. CanOpen (configured configs.items declared.now) declared.now.joints) }
    ensures fault { IfErr result (IsFaultOf (configured configs.items declared.now) declared.now.joints) }
{
    let mut configs = configs;
    configs.truncate(declared.routers());
    World::new(alloc, configs, declared.joints())
}

/// Plays the lines of a world's file from the first move on.
fn play_moves<'a, W: Write>(
    alloc: Global,
    configs: Vec<Config>,
    beginning: &Beginning<'a>,
    output: &mut W,
) -> io::Result<PlayEnding<'a>>
    requires { beginning.now.count + length beginning.now.rest.now < 2 ^ 64 }
    ensures { IfOk result (λ ending. (printed : List ℕ) × Appends (W.contents output.old) (W.contents output.new) printed
        × EndsOn configs.items beginning.now.declared beginning.now.count (lines_of beginning.now.rest.now) printed ending) }
{
    let declared = &beginning.declared;
    match held_up(alloc, declared, beginning.rest, beginning.count) {
        Some(ending) => return Ok(ending),
        None => {}
    }
    let mut world = match open(alloc, configs, declared) {
        Ok(world) => world,
        Err(fault) => return Ok(PlayEnding::Fault(fault)),
    };
    let mut block = Vec::new(alloc);
    let ending = move_all(alloc, beginning, &mut world, &mut block, output)?;
    output.write_all(block.as_slice())?;
    Ok(ending)
}

/// Plays the lines of a world's file: routers and wires are declared, the world of them is made before the first move, or at the end
/// where there is none, and then moves are made in it one after the other, and answered, up to the first line that says none.
/// `configs` are the configurations of the files that the text's lines `router NAME FILE` name, in order. Many answers are written at
/// once, and all are when this returns. The error is the output's.
pub fn play_lines<'a, W: Write>(
    alloc: Global,
    configs: Vec<Config>,
    text: &'a str,
    output: &mut W,
) -> io::Result<PlayEnding<'a>>
    ensures { IfOk result (λ ending. (printed : List ℕ) × Appends (W.contents output.old) (W.contents output.new) printed
        × Plays configs.items (lines_of text.now) printed ending) }
{
    let beginning = match declare_all(alloc, text) {
        Ok(beginning) => beginning,
        Err(_) => return Ok(PlayEnding::Memory),
    };
    let ending = play_moves(alloc, configs, &beginning, output)?;
    Ok(ending)
}
