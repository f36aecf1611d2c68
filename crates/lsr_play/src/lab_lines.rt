//! Lines that `lsr play --lab` takes beside those of a world's file.
ghost use Rattle.std.specs.Prelude.{◌++◌, IfOk, IfSome, codes};
ghost use Rattle.lsr_lines.specs.Lines.{AsksToSee};
ghost use Rattle.lsr_lines.specs.Commands.{words_left};
ghost use Rattle.lsr_play.specs.LabLines.{SaysLab, SaysSeed, SaysShow};

use lsr_lines::{
    Request, Shown, has_return, is_remark, next_word, only_word, read_request, read_whole,
};
use std::alloc::{AllocError, Global};

/// What such a line asks for.
#[derive(Drop)]
pub(crate) enum LabLine<'a> {
    /// An empty line, or one that begins with #: it is passed over.
    Remark,
    /// `show NAME WHAT`: the router of this name shows what it knows.
    Show(&'a str, Shown),
    /// `run`: frames are delivered that weren't yet.
    Run,
    /// `seed N MOVES`: so many moves of chance are made, by the numbers of this seed.
    Seed(u64, u64),
}

// The first words of lines.
const SHOW: &str = "show";

const RUN: &str = "run";

const SEED: &str = "seed";

/// What `show WHAT` asks a router to show; none where it asks for nothing that a router knows. The only error is that memory ran out.
fn read_shown(alloc: Global, what: &str) -> Result<Option<Shown>, AllocError>
    ensures { IfOk result (λ asked. IfSome asked (AsksToSee (codes "show " ++ what.now))) }
{
    let line = format!(in alloc; "{SHOW} {what}")?;
    match read_request(alloc, line.as_str())? {
        Some(Request::Show(shown)) => Ok(Some(shown)),
        _ => Ok(None),
    }
}

/// What the words after `show` ask for; none where they ask for nothing. The only error is that memory ran out.
fn read_show<'a>(alloc: Global, left: Option<&'a str>) -> Result<Option<LabLine<'a>>, AllocError>
    ensures { IfOk result (λ asked. IfSome asked (SaysShow (words_left left.entry))) }
{
    let Some((name, Some(what))) = next_word(left) else {
        return Ok(None);
    };
    if name.is_empty() {
        return Ok(None);
    }
    match read_shown(alloc, what)? {
        Some(shown) => Ok(Some(LabLine::Show(name, shown))),
        None => Ok(None),
    }
}

/// What the words after `seed` ask for; none where they ask for nothing.
fn read_seed<'a>(left: Option<&str>) -> Option<LabLine<'a>>
    ensures { IfSome result (SaysSeed (words_left left.entry)) }
{
    let (seed, left) = next_word(left)?;
    Some(LabLine::Seed(read_whole(seed)?, read_whole(only_word(left)?)?))
}

/// What the line asks for, where it is a remark, `show NAME WHAT`, `run` or `seed N MOVES`; none where it is no such line. The only error
/// is that memory ran out.
pub(crate) fn read_lab_line(alloc: Global, line: &str) -> Result<Option<LabLine<'_>>, AllocError>
    ensures { IfOk result (λ asked. IfSome asked (SaysLab line.now)) }
{
    if is_remark(line) {
        return Ok(Some(LabLine::Remark));
    }
    if line == RUN {
        return Ok(Some(LabLine::Run));
    }
    if has_return(line) {
        return Ok(None);
    }
    match next_word(Some(line)) {
        Some((word, left)) if word == SHOW => read_show(alloc, left),
        Some((word, left)) if word == SEED => Ok(read_seed(left)),
        Some(_) | None => Ok(None),
    }
}
