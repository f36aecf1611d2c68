//! `lsr play --lab`: the lines of a world's file, and beside them remarks, `show NAME WHAT`, `run` and `seed N MOVES`.
ghost use Rattle.std.specs.Prelude.{◌≡◌, ◌+◌, ◌≤◌, ◌<◌, ◌^◌, ◌++◌, ℕ, true, false, List, IfOk, OnOk, length, string_bytes};
ghost use Rattle.std.specs.Io.KnownBytes.{Appends, append_known};
ghost use Rattle.line_streams.specs.Cuts.{lines_of};
ghost use Rattle.lsr_play.specs.Declaring.{nothing};
ghost use Rattle.lsr_play.specs.Labs.{AreDeclaredAmong, LabShows, LabTells, PassesOrDeclares, PlaysLab, PrintsLab, named_text};

use crate::answers::refusal_text;
use crate::chance::Chance;
use crate::chosen::push_chosen;
use crate::declared::{Declared, declare_line};
use crate::endings::PlayEnding;
use crate::lab::Lab;
use crate::lab_lines::{LabLine, read_lab_line};
use crate::made::{deliver_frame, make_move};
use crate::moves::read_move;
use crate::playing::open;
use abstract_world::Move;
use lab_world::World;
use line_streams::next_line;
use lsr_config::Config;
use lsr_facts::Refusal;
use lsr_lines::{Shown, is_remark, put_full};
use lsr_session::show;
use std::alloc::{AllocError, Global};
use std::fmt::Write as _;
use std::io;
use std::io::Write;

/// How many frames a line `run` delivers at most.
const MAX_RUN: usize = 65_536;

/// What becomes of a line.
#[derive(Clone, Copy)]
enum LabOutcome {
    /// It was taken.
    Done,
    /// It says nothing that there is.
    Bad,
}

/// The lines of a text, with the name before each. The only error is that memory ran out.
fn named_lines(alloc: Global, name: &str, text: &str) -> Result<String, AllocError>
    ensures { IfOk result (λ named. string_bytes named ≡ named_text name.now (lines_of text.now)) }
{
    let mut named = String::new(alloc);
    let mut rest = text;
    while let Some((line, others)) = next_line(rest) {
        write!(named, "{name} {line}\n")?;
        rest = others;
    }
    Ok(named)
}

/// What the router of this name shows, its name before each line; or that there is none. The only error is that memory ran out.
fn shown_text(
    alloc: Global,
    declared: &Declared<'_>,
    world: &World,
    name: &str,
    shown: &Shown,
) -> Result<String, AllocError>
    ensures { IfOk result (λ text. LabShows declared.now.names world.now (string_bytes text) world.now) }
{
    let place = declared.place_of(name);
    match world.router(place) {
        Some(router) => {
            let text = show(alloc, router, &[], shown)?;
            let named = named_lines(alloc, name, text.as_str())?;
            Ok(named)
        }
        None => {
            let refused = refusal_text(alloc, Refusal::NoRouter)?;
            Ok(refused)
        }
    }
}

/// Appends what the router of this name shows to the block, which is written where it is full. The error is the output's, or that
/// memory ran out.
fn show_named<W: Write>(
    alloc: Global,
    declared: &Declared<'_>,
    world: &World,
    name: &str,
    shown: &Shown,
    block: &mut Vec<u8>,
    output: &mut W,
) -> io::Result<()>
    ensures { OnOk result (LabTells declared.now.names world.now (append_known (W.contents output.old) block.old.items) (append_known (W.contents output.new) block.new.items) world.now) }
{
    let text = shown_text(alloc, declared, world, name, shown)?;
    block.extend_from_slice(text.as_bytes())?;
    put_full(block, output)?;
    Ok(())
}

/// Makes a move that a line says. The error is the output's, or that memory ran out.
fn make<W: Write>(
    alloc: Global,
    declared: &Declared<'_>,
    lab: &mut Lab,
    one: Move,
    block: &mut Vec<u8>,
    output: &mut W,
) -> io::Result<()>
    ensures { OnOk result (LabTells declared.now.names lab.old.world (append_known (W.contents output.old) block.old.items) (append_known (W.contents output.new) block.new.items) lab.new.world) }
{
    lab.remember(&one)?;
    make_move(alloc, declared, &mut lab.world, one, block)?;
    put_full(block, output)?;
    Ok(())
}

/// Makes a move of chance, and appends the line that says it before what it is answered; nothing where a frame is lost. The error is
/// the output's, or that memory ran out.
fn make_chosen<W: Write>(
    alloc: Global,
    declared: &Declared<'_>,
    lab: &mut Lab,
    chance: &mut Chance,
    block: &mut Vec<u8>,
    output: &mut W,
) -> io::Result<()>
    ensures { OnOk result (LabTells declared.now.names lab.old.world (append_known (W.contents output.old) block.old.items) (append_known (W.contents output.new) block.new.items) lab.new.world) }
{
    let Some(one) = lab.pick(chance) else {
        return Ok(());
    };
    let mut text = String::new(alloc);
    push_chosen(&mut text, declared, &one)?;
    block.extend_from_slice(text.as_bytes())?;
    lab.remember(&one)?;
    make_move(alloc, declared, &mut lab.world, one, block)?;
    put_full(block, output)?;
    Ok(())
}

/// Makes so many moves of chance: the same in the same world for the same seed. The error is the output's, or that memory ran out.
fn make_many<W: Write>(
    alloc: Global,
    declared: &Declared<'_>,
    lab: &mut Lab,
    seed: u64,
    moves: u64,
    block: &mut Vec<u8>,
    output: &mut W,
) -> io::Result<()>
    ensures { OnOk result (LabTells declared.now.names lab.old.world (append_known (W.contents output.old) block.old.items) (append_known (W.contents output.new) block.new.items) lab.new.world) }
{
    let mut chance = Chance::new(seed);
    for _turn in 0..moves {
        make_chosen(alloc, declared, lab, &mut chance, block, output)?;
    }
    Ok(())
}

/// Delivers the frame of this number. The error is the output's, or that memory ran out.
fn deliver<W: Write>(
    alloc: Global,
    declared: &Declared<'_>,
    world: &mut World,
    number: usize,
    block: &mut Vec<u8>,
    output: &mut W,
) -> io::Result<()>
    ensures { OnOk result (LabTells declared.now.names world.old (append_known (W.contents output.old) block.old.items) (append_known (W.contents output.new) block.new.items) world.new) }
{
    deliver_frame(alloc, declared, world, number, block)?;
    put_full(block, output)?;
    Ok(())
}

/// Delivers frames that weren't, in the order of their numbers, and those that are sent then, until none is left or [`MAX_RUN`] were. The
/// error is the output's, or that memory ran out.
fn run<W: Write>(
    alloc: Global,
    declared: &Declared<'_>,
    lab: &mut Lab,
    block: &mut Vec<u8>,
    output: &mut W,
) -> io::Result<()>
    ensures { OnOk result (LabTells declared.now.names lab.old.world (append_known (W.contents output.old) block.old.items) (append_known (W.contents output.new) block.new.items) lab.new.world) }
{
    for _turn in 0..MAX_RUN {
        let Some(number) = lab.take_left() else {
            return Ok(());
        };
        deliver(alloc, declared, &mut lab.world, number, block, output)?;
    }
    Ok(())
}

/// Takes a line that asks for more than a move. The error is the output's, or that memory ran out.
fn take_asked<W: Write>(
    alloc: Global,
    declared: &Declared<'_>,
    lab: &mut Lab,
    asked: &LabLine<'_>,
    block: &mut Vec<u8>,
    output: &mut W,
) -> io::Result<()>
    ensures { OnOk result (LabTells declared.now.names lab.old.world (append_known (W.contents output.old) block.old.items) (append_known (W.contents output.new) block.new.items) lab.new.world) }
{
    match asked {
        LabLine::Remark => Ok(()),
        LabLine::Show(name, shown) => {
            show_named(alloc, declared, &lab.world, name, shown, block, output)
        }
        LabLine::Run => run(alloc, declared, lab, block, output),
        LabLine::Seed(seed, moves) => {
            make_many(alloc, declared, lab, *seed, *moves, block, output)
        }
    }
}

/// Takes a line. The error is the output's, or that memory ran out.
fn take<W: Write>(
    alloc: Global,
    declared: &Declared<'_>,
    lab: &mut Lab,
    line: &str,
    block: &mut Vec<u8>,
    output: &mut W,
) -> io::Result<LabOutcome>
    ensures { IfOk result (λ _. LabTells declared.now.names lab.old.world (append_known (W.contents output.old) block.old.items) (append_known (W.contents output.new) block.new.items) lab.new.world) }
{
    if let Some(asked) = read_lab_line(alloc, line)? {
        take_asked(alloc, declared, lab, &asked, block, output)?;
        return Ok(LabOutcome::Done);
    }
    match read_move(alloc, declared, line)? {
        Some(one) => {
            make(alloc, declared, lab, one, block, output)?;
            Ok(LabOutcome::Done)
        }
        None => Ok(LabOutcome::Bad),
    }
}

/// What is known where the first line is reached that is no remark and declares nothing.
#[derive(Drop)]
struct LabBeginning<'a> {
    declared: Declared<'a>,
    /// How many lines stand before it.
    count: usize,
    /// The text from it on.
    rest: &'a str,
}

/// Takes what the line declares, or passes it over where it is a remark: whether it is such a line. The only error is that memory ran
/// out; then, and where it isn't, all is as it was.
fn pass_or_declare<'a>(
    alloc: Global,
    declared: &mut Declared<'a>,
    line: &'a str,
) -> Result<bool, AllocError>
    ensures taken { IfOk result (λ taken. taken ≡ true → PassesOrDeclares declared.old line.now declared.new) }
    ensures kept { IfOk result (λ taken. taken ≡ false → declared.new ≡ declared.old) }
{
    if is_remark(line) {
        return Ok(true);
    }
    declare_line(alloc, declared, line)
}

/// Takes what the lines of the text declare, and passes remarks over, up to the first line that is neither. The only error is that
/// memory ran out.
fn declare_lab<'a>(alloc: Global, text: &'a str) -> Result<LabBeginning<'a>, AllocError>
    ensures { IfOk result (λ b. (lines : List (List ℕ)) × (lines_of text.now ≡ lines ++ lines_of b.rest.now) × AreDeclaredAmong nothing lines b.declared
        × (b.count + length b.rest.now ≤ length text.now)) }
{
    let mut declared = Declared::new(alloc);
    let mut rest = text;
    let mut count = 0usize;
    while let Some((line, others)) = next_line(rest) {
        if !pass_or_declare(alloc, &mut declared, line)? {
            return Ok(LabBeginning {
                declared,
                count,
                rest,
            });
        }
        count += 1;
        rest = others;
    }
    Ok(LabBeginning {
        declared,
        count,
        rest,
    })
}

/// Whether the line says something that there is where a world has begun.
fn is_taken(alloc: Global, declared: &Declared<'_>, line: &str) -> Result<bool, AllocError> {
    if read_lab_line(alloc, line)?.is_some() {
        return Ok(true);
    }
    Ok(read_move(alloc, declared, line)?.is_some())
}

/// The first line of the text, where it says nothing that there is where a world has begun.
fn first_bad<'a>(
    alloc: Global,
    declared: &Declared<'_>,
    text: &'a str,
) -> Result<Option<&'a str>, AllocError> {
    let Some((line, _)) = next_line(text) else {
        return Ok(None);
    };
    if is_taken(alloc, declared, line)? {
        return Ok(None);
    }
    Ok(Some(line))
}

/// Takes the lines from the first on that is no remark and declares nothing. What is printed last and isn't written yet is in the
/// block. The error is the output's, or that memory ran out.
fn take_all<'a, W: Write>(
    alloc: Global,
    beginning: &LabBeginning<'a>,
    lab: &mut Lab,
    block: &mut Vec<u8>,
    output: &mut W,
) -> io::Result<PlayEnding<'a>>
    requires { beginning.now.count + length beginning.now.rest.now < 2 ^ 64 }
    ensures { IfOk result (λ _. LabTells beginning.now.declared.names lab.old.world (append_known (W.contents output.old) block.old.items) (append_known (W.contents output.new) block.new.items) lab.new.world) }
{
    let mut rest = beginning.rest;
    let mut number = beginning.count;
    while let Some((line, others)) = next_line(rest) {
        number += 1;
        let taken = take(alloc, &beginning.declared, lab, line, block, output)?;
        match taken {
            LabOutcome::Done => {}
            LabOutcome::Bad => return Ok(PlayEnding::BadLine(number, line)),
        }
        rest = others;
    }
    Ok(PlayEnding::Done)
}

/// Writes what was answered before a run broke off, where the output takes it.
fn put_rest<W: Write>(block: &Vec<u8>, output: &mut W) {
    let _ = output.write_all(block.as_slice());
}

/// Takes the lines as [`take_all`] does, and writes all that is printed. The error is the output's, or that memory ran out: then what was
/// answered is written.
fn take_written<'a, W: Write>(
    alloc: Global,
    beginning: &LabBeginning<'a>,
    lab: &mut Lab,
    output: &mut W,
) -> io::Result<PlayEnding<'a>>
    requires { beginning.now.count + length beginning.now.rest.now < 2 ^ 64 }
    ensures { IfOk result (λ _. LabTells beginning.now.declared.names lab.old.world (W.contents output.old) (W.contents output.new) lab.new.world) }
{
    let mut block = Vec::new(alloc);
    let ending = match take_all(alloc, beginning, lab, &mut block, output) {
        Ok(ending) => ending,
        Err(fault) => {
            put_rest(&block, output);
            return Err(fault);
        }
    };
    output.write_all(block.as_slice())?;
    Ok(ending)
}

/// Plays the lines from the first on that is no remark and declares nothing, in the world of what was declared. The error is the
/// output's, or that memory ran out: then what was answered is written.
fn play_taken<'a, W: Write>(
    alloc: Global,
    configs: Vec<Config>,
    beginning: &LabBeginning<'a>,
    output: &mut W,
) -> io::Result<PlayEnding<'a>>
    requires { beginning.now.count + length beginning.now.rest.now < 2 ^ 64 }
    ensures { IfOk result (λ _. (printed : List ℕ) × Appends (W.contents output.old) (W.contents output.new) printed
        × PrintsLab configs.items beginning.now.declared printed) }
{
    let world = match open(alloc, configs, &beginning.declared) {
        Ok(world) => world,
        Err(fault) => return Ok(PlayEnding::Fault(fault)),
    };
    let mut lab = Lab::new(alloc, world);
    let ending = take_written(alloc, beginning, &mut lab, output)?;
    Ok(ending)
}

/// Plays the lines of a world's file as [`crate::play_lines`] does, and takes these, too: empty lines and lines that begin with # are
/// passed over; `show NAME WHAT` shows what the router knows; `run` delivers the frames that weren't delivered yet; and `seed N MOVES`
/// makes so many moves of chance. What is printed is what moves are answered that lead from one world to the next, and what routers show
/// between. The error is the output's, or that memory ran out: then what was answered is written.
pub fn play_lab<'a, W: Write>(
    alloc: Global,
    configs: Vec<Config>,
    text: &'a str,
    output: &mut W,
) -> io::Result<PlayEnding<'a>>
    ensures { IfOk result (λ _. (printed : List ℕ) × Appends (W.contents output.old) (W.contents output.new) printed
        × PlaysLab configs.items (lines_of text.now) printed) }
{
    let beginning = declare_lab(alloc, text)?;
    if let Some(line) = first_bad(alloc, &beginning.declared, beginning.rest)? {
        return Ok(PlayEnding::BadLine(beginning.count + 1, line));
    }
    let ending = play_taken(alloc, configs, &beginning, output)?;
    Ok(ending)
}
