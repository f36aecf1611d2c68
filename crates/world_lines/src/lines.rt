//! What a line of a world's file says.
ghost use Rattle.std.specs.Prelude.{◌≡◌, ◌≢◌, ◌∷◌, ℕ, List, [], IfOk, OnErr, codes};
ghost use Rattle.std.specs.Option.{MatchOption};
ghost use Rattle.rsvp_bodies.specs.Finding.{Finds};
ghost use Rattle.abstract_paths.specs.declared.commands.Command.{Command};
ghost use Rattle.lsr_lines.specs.Commands.{BeginsWith, SaysCommand, words_left};
ghost use Rattle.world_lines.specs.declared.lines.Act.{Act};
ghost use Rattle.world_lines.specs.declared.lines.Act.TheVariants as acts;
ghost use Rattle.world_lines.specs.declared.lines.Wire.{Wire};
ghost use Rattle.world_lines.specs.Lines.{BringsCommand, BringsLine, CommandsRouter, Says, SaysAct, SaysAt, SaysFile, SaysLine, SaysLink, SaysNumber, SaysWire};

use lsr_lines::{
    Command, has_return, next_two, next_word, only_word, read_command, read_link, read_whole,
};
use std::alloc::{AllocError, Global};

/// A wire: this link of the one router is joined to that link of the other one, which may be the same router.
#[derive(Clone, Copy, Debug, PartialEq, Eq)]
pub struct Wire<'a> {
    /// The one router's name.
    pub name: &'a str,
    /// The number of its link, at least 1.
    pub link: u16,
    /// The other router's name.
    pub other: &'a str,
    /// The number of its link, at least 1.
    pub other_link: u16,
}

/// What is to happen at a router.
#[derive(Debug, Drop)]
pub enum Act {
    /// `tick NAME N`: this moment comes, in milliseconds.
    Tick(u64),
    /// `up NAME LINK`: the link of this number, at least 1, comes up.
    LinkUp(u16),
    /// `down NAME LINK`: the link of this number, at least 1, goes down.
    LinkDown(u16),
    /// `restart NAME`: the router loses what messages had set up in it, and is started again.
    Restart,
    /// `do NAME COMMAND`: the router is commanded.
    Command(Command),
}

/// What a line of a world's file says.
#[derive(Debug, Drop)]
pub enum WorldLine<'a> {
    /// `router NAME FILE`: there is a router of this name, which the file configures.
    Router(&'a str, &'a str),
    /// `wire NAME LINK NAME LINK`: two links are joined.
    Wire(Wire<'a>),
    /// `deliver I`: the frame of this number arrives at the other end of its link. Frames are numbered from 1.
    Deliver(u64),
    /// `repeat I`: the frame of this number arrives there once more.
    Repeat(u64),
    /// This is to happen at the router of this name.
    At(&'a str, Act),
}

// The first words of lines.
pub(crate) const ROUTER: &str = "router";

const WIRE: &str = "wire";

const DELIVER: &str = "deliver";

const REPEAT: &str = "repeat";

const TICK: &str = "tick";

const LINK_UP: &str = "up";

const LINK_DOWN: &str = "down";

const RESTART: &str = "restart";

const DO: &str = "do";

/// The number that is the only word.
fn only_number(left: Option<&str>) -> Option<u64>
    ensures { Finds (SaysNumber (words_left left.entry)) result }
{
    read_whole(only_word(left)?)
}

/// The link that is the only word.
fn only_link(left: Option<&str>) -> Option<u16>
    ensures { Finds (SaysLink (words_left left.entry)) result }
{
    read_link(only_word(left)?)
}

/// The name of a router and the file that configures it, which are the only words, neither of them empty.
pub(crate) fn name_and_file<'a>(left: Option<&'a str>) -> Option<(&'a str, &'a str)>
    ensures { MatchOption result
        ((name : List ℕ) (file : List ℕ) → ¬ SaysFile (words_left left.entry) name file)
        (λ r. SaysFile (words_left left.entry) r.0.now r.1.now) }
{
    let (name, left) = next_word(left)?;
    let file = only_word(left)?;
    if name.is_empty() || file.is_empty() {
        return None;
    }
    Some((name, file))
}

/// The wire that its four words say.
fn wire_said<'a>(name: &'a str, link: &str, other: &'a str, other_link: &str) -> Option<Wire<'a>>
    ensures { Finds (SaysWire (name.now ∷ link.now ∷ other.now ∷ other_link.now ∷ [])) result }
{
    if name.is_empty() || other.is_empty() {
        return None;
    }
    Some(Wire {
        name,
        link: read_link(link)?,
        other,
        other_link: read_link(other_link)?,
    })
}

/// The wire that the words say.
fn read_wire<'a>(left: Option<&'a str>) -> Option<Wire<'a>>
    ensures { Finds (SaysWire (words_left left.entry)) result }
{
    let (name, link, left) = next_two(left)?;
    let (other, left) = next_word(left)?;
    wire_said(name, link, other, only_word(left)?)
}

/// What a line says that is about no router alone: `router NAME FILE`, `wire NAME LINK NAME LINK`, `deliver I` or `repeat I`;
/// none where it is no such line.
fn read_other<'a>(word: &str, left: Option<&'a str>) -> Option<WorldLine<'a>>
    ensures { MatchOption result
        (((name : List ℕ) (file : List ℕ) → ¬ BeginsWith (codes "router") (λ others. SaysFile others name file) (word.now ∷ words_left left.entry))
        × ((wire : Wire) → ¬ BeginsWith (codes "wire") (λ others. SaysWire others wire) (word.now ∷ words_left left.entry))
        × ((number : ℕ) → ¬ BeginsWith (codes "deliver") (λ others. SaysNumber others number) (word.now ∷ words_left left.entry))
        × ((number : ℕ) → ¬ BeginsWith (codes "repeat") (λ others. SaysNumber others number) (word.now ∷ words_left left.entry)))
        (Says (word.now ∷ words_left left.entry)) }
{
    if word == ROUTER {
        let (name, file) = name_and_file(left)?;
        return Some(WorldLine::Router(name, file));
    }
    if word == WIRE {
        return Some(WorldLine::Wire(read_wire(left)?));
    }
    if word == DELIVER {
        return Some(WorldLine::Deliver(only_number(left)?));
    }
    if word == REPEAT {
        return Some(WorldLine::Repeat(only_number(left)?));
    }
    None
}

/// The end of a line: none where a word is left.
fn end_of(left: Option<&str>) -> Option<()>
    ensures { MatchOption result (words_left left.entry ≢ []) (λ _. words_left left.entry ≡ []) }
{
    match left {
        Some(_rest) => None,
        None => Some(()),
    }
}

/// What is to happen at a router, by the line's first word and those after the router's name, where it is no command; none
/// where they say nothing such.
fn read_event(word: &str, left: Option<&str>) -> Option<Act>
    ensures { MatchOption result
        (((moment : ℕ) → ¬ SaysAct word.now (words_left left.entry) (acts.Tick moment))
        × ((link : ℕ) → ¬ SaysAct word.now (words_left left.entry) (acts.LinkUp link))
        × ((link : ℕ) → ¬ SaysAct word.now (words_left left.entry) (acts.LinkDown link))
        × ¬ SaysAct word.now (words_left left.entry) acts.Restart)
        (SaysAct word.now (words_left left.entry)) }
{
    if word == TICK {
        return Some(Act::Tick(only_number(left)?));
    }
    if word == LINK_UP {
        return Some(Act::LinkUp(only_link(left)?));
    }
    if word == LINK_DOWN {
        return Some(Act::LinkDown(only_link(left)?));
    }
    if word == RESTART {
        end_of(left)?;
        return Some(Act::Restart);
    }
    None
}

/// The command that is left of a line; none where nothing such is left. The only error is that there is no memory for a tunnel
/// that it brings.
fn read_rest(alloc: Global, left: Option<&str>) -> Result<Option<Command>, AllocError>
    ensures command { IfOk result (Finds (SaysCommand (words_left left.entry))) }
    ensures memory { OnErr result ((command : Command) × SaysCommand (words_left left.entry) command) }
{
    match left {
        Some(rest) => read_command(alloc, rest),
        None => Ok(None),
    }
}

/// What is to happen at a router, by the line's first word and those after the router's name; none where they say nothing
/// such. The only error is that there is no memory for a tunnel that they bring.
fn read_act(alloc: Global, word: &str, left: Option<&str>) -> Result<Option<Act>, AllocError>
    ensures act { IfOk result (Finds (SaysAct word.now (words_left left.entry))) }
    ensures memory { OnErr result (BringsCommand word.now (words_left left.entry)) }
{
    if word == DO {
        return match read_rest(alloc, left)? {
            Some(command) => Ok(Some(Act::Command(command))),
            None => Ok(None),
        };
    }
    Ok(read_event(word, left))
}

/// What a line says that is about one router; none where it is no such line. The only error is that there is no memory for a
/// tunnel that it brings.
fn read_at<'a>(
    alloc: Global,
    word: &str,
    left: Option<&'a str>,
) -> Result<Option<WorldLine<'a>>, AllocError>
    ensures line { IfOk result (λ line. MatchOption line
        ((name : List ℕ) (act : Act) → ¬ SaysAt (word.now ∷ words_left left.entry) name act)
        (Says (word.now ∷ words_left left.entry))) }
    ensures memory { OnErr result (BringsLine (word.now ∷ words_left left.entry)) }
{
    let Some((name, left)) = next_word(left) else {
        return Ok(None);
    };
    if name.is_empty() {
        return Ok(None);
    }
    match read_act(alloc, word, left)? {
        Some(act) => Ok(Some(WorldLine::At(name, act))),
        None => Ok(None),
    }
}

/// What a line says whose first word is this; none where it says nothing. The only error is that there is no memory for a
/// tunnel that it brings.
fn read_after<'a>(
    alloc: Global,
    word: &str,
    left: Option<&'a str>,
) -> Result<Option<WorldLine<'a>>, AllocError>
    ensures line { IfOk result (Finds (Says (word.now ∷ words_left left.entry))) }
    ensures memory { OnErr result (BringsLine (word.now ∷ words_left left.entry)) }
{
    match read_other(word, left) {
        Some(line) => Ok(Some(line)),
        None => read_at(alloc, word, left),
    }
}

/// What the line of a world's file says: `router NAME FILE`, `wire NAME LINK NAME LINK`, `deliver I`, `repeat I`, `tick NAME N`,
/// `up NAME LINK`, `down NAME LINK`, `restart NAME` or `do NAME COMMAND`; none where it is no such line. Words are parted by one
/// space, a name and a file aren't empty, and no carriage return is in a line. The only error is that there is no memory for a
/// tunnel that the line brings, so it never comes in place of none.
pub fn read_line(alloc: Global, line: &str) -> Result<Option<WorldLine<'_>>, AllocError>
    ensures line { IfOk result (Finds (SaysLine line.now)) }
    ensures memory { OnErr result (CommandsRouter line.now) }
{
    if has_return(line) {
        return Ok(None);
    }
    match next_word(Some(line)) {
        Some((word, left)) => read_after(alloc, word, left),
        None => Ok(None),
    }
}
