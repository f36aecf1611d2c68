//! What lines declare before the first move: the routers of a world, by name, and its wires.
ghost use Rattle.std.specs.Prelude.{◌≡◌, ◌+◌, ◌≤◌, ◌++◌, ℕ, List, Some, None, IfOk, OnErr, length};
ghost use Rattle.std.specs.Bool.{MatchBool};
ghost use Rattle.line_streams.specs.Cuts.{lines_of};
ghost use Rattle.lsr_play.specs.Declaring.{AreDeclared, Declares, DeclaresNothing, EndsDeclaring, declared_by, joint_of, name_at, nothing, place_of};

use abstract_world::{End, Joint};
use line_streams::next_line;
use std::alloc::{AllocError, Global};
use std::marker::Model;
use world_lines::{Wire, WorldLine, read_line};

/// What lines declare: the names of a world's routers, each by its place, and its wires.
#[derive(Drop)]
pub(crate) struct Declared<'a> {
    names: Vec<&'a str>,
    joints: Vec<Joint>,
}

impl<'a> Model for Declared<'a> {
    ghost use Rattle.lsr_play.specs.Declaring.{Declaration};

    ghost Value = { Declaration };

    ghost view = { λ d. record { names = d.names.items; joints = d.joints.items } };
}

/// The place of the name among these; their number where it isn't one of them.
fn place_in(names: &[&str], name: &str) -> usize
    ensures { result ≡ place_of names.now name.now }
{
    for (place, known) in names.iter().enumerate() {
        if *known == name {
            return place;
        }
    }
    names.len()
}

impl<'a> Declared<'a> {
    /// No routers and no wires.
    pub(crate) fn new(alloc: Global) -> Declared<'a>
        ensures { result ≡ nothing }
    {
        Declared {
            names: Vec::new(alloc),
            joints: Vec::new(alloc),
        }
    }

    /// How many routers there are.
    pub(crate) fn routers(&self) -> usize
        ensures { result ≡ length self.now.names }
    {
        self.names.len()
    }

    /// The wires.
    pub(crate) fn joints(&self) -> &[Joint]
        ensures { result.now ≡ self.now.joints }
    {
        self.joints.as_slice()
    }

    /// The place of the router of this name; that behind the last router where none has it.
    pub(crate) fn place_of(&self, name: &str) -> usize
        ensures { result ≡ place_of self.now.names name.now }
    {
        place_in(self.names.as_slice(), name)
    }

    /// The name of the router of this place; no letter where there is none.
    pub(crate) fn name_at(&self, place: usize) -> &'a str
        ensures { result.now ≡ name_at self.now.names place }
    {
        match self.names.get(place) {
            Some(name) => name,
            None => "",
        }
    }

    /// The wire, where both of its routers are declared.
    fn joint_of(&self, wire: &Wire) -> Option<Joint>
        ensures { result ≡ joint_of self.now.names wire.now }
    {
        let one = self.place_of(wire.name);
        let other = self.place_of(wire.other);
        if one >= self.names.len() || other >= self.names.len() {
            return None;
        }
        Some(Joint {
            one: End {
                router: one,
                link: wire.link,
            },
            other: End {
                router: other,
                link: wire.other_link,
            },
        })
    }

    /// Takes what a line says, where that declares a router of a new name, or a wire between routers that are declared: whether it
    /// does. The only error is that memory ran out; then, and where the line declares nothing, all is as it was.
    fn declare(&mut self, said: &WorldLine<'a>) -> Result<bool, AllocError>
        ensures taken { IfOk result (λ taken. MatchBool taken
            (declared_by self.old said.now ≡ Some self.new)
            ((declared_by self.old said.now ≡ None) × (self.new ≡ self.old))) }
        ensures kept { OnErr result (self.new ≡ self.old) }
    {
        match said {
            WorldLine::Router(name, _file) => {
                if self.place_of(name) < self.names.len() {
                    return Ok(false);
                }
                self.names.push(name)?;
                Ok(true)
            }
            WorldLine::Wire(wire) => match self.joint_of(wire) {
                Some(joint) => {
                    self.joints.push(joint)?;
                    Ok(true)
                }
                None => Ok(false),
            },
            WorldLine::Deliver(_) | WorldLine::Repeat(_) | WorldLine::At(_, _) => Ok(false),
        }
    }
}

/// Takes what the line declares: whether it declares something. The only error is that memory ran out; then, and where the line
/// declares nothing, all is as it was.
pub(crate) fn declare_line<'a>(
    alloc: Global,
    declared: &mut Declared<'a>,
    line: &'a str,
) -> Result<bool, AllocError>
    ensures taken { IfOk result (λ taken. MatchBool taken
        (Declares declared.old line.now declared.new)
        (DeclaresNothing declared.old line.now × (declared.new ≡ declared.old))) }
{
    match read_line(alloc, line)? {
        Some(said) => declared.declare(&said),
        None => Ok(false),
    }
}

/// What is known where the first line is reached that declares nothing.
#[derive(Drop)]
pub(crate) struct Beginning<'a> {
    /// What was declared.
    pub(crate) declared: Declared<'a>,
    /// How many lines did that.
    pub(crate) count: usize,
    /// The text from that line on.
    pub(crate) rest: &'a str,
}

/// Takes what the lines of the text declare, up to the first that declares nothing. The only error is that memory ran out.
pub(crate) fn declare_all<'a>(alloc: Global, text: &'a str) -> Result<Beginning<'a>, AllocError>
    ensures { IfOk result (λ b. (lines : List (List ℕ)) × (lines_of text.now ≡ lines ++ lines_of b.rest.now) × AreDeclared nothing lines b.declared
        × (b.count ≡ length lines) × EndsDeclaring b.declared (lines_of b.rest.now) × (b.count + length b.rest.now ≤ length text.now)) }
{
    let mut declared = Declared::new(alloc);
    let mut rest = text;
    let mut count = 0usize;
    while let Some((line, others)) = next_line(rest) {
        if !declare_line(alloc, &mut declared, line)? {
            return Ok(Beginning {
                declared,
                count,
                rest,
            });
        }
        count += 1;
        rest = others;
    }
    Ok(Beginning {
        declared,
        count,
        rest,
    })
}
