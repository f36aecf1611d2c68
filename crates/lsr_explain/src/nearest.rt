//! The topics that come closest to a word that asks for none.
ghost use Rattle.std.specs.Prelude.{◌≡◌, ◌++◌, IfOk, OnOk, map};
ghost use Rattle.lsr_explain.specs.Nearest.{IsRanking, edits_to, near_line, near_lines, shown};
ghost use Rattle.lsr_explain.specs.Topics.{text_of};
ghost use Rattle.line_streams.specs.Cuts.{lines_of};

use crate::topics::{Kind, is_indented};
use line_streams::next_line;
use std::alloc::{AllocError, Global};
use strsim::levenshtein;

/// A heading, and how far it is from a word.
#[derive(Clone, Copy)]
pub struct Near {
    /// How many characters are put in, taken out or changed to make its number or its name of the word; the fewest.
    pub edits: usize,
    /// The kind of topic that it stands over.
    pub kind: Kind,
    /// The heading.
    pub heading: &'static str,
}

/// How many characters are put in, taken out or changed to make the heading's first word of the word, or the name after it,
/// where headings of this kind have names; the fewest.
fn edits_to(alloc: Global, kind: Kind, word: &str, heading: &str) -> Result<usize, AllocError>
    ensures { IfOk result (λ n. n ≡ edits_to kind word.now heading.now) }
{
    let Some((first, name)) = heading.split_once(' ') else {
        return levenshtein(alloc, word, heading);
    };
    let by_first = levenshtein(alloc, word, first)?;
    if !kind.has_names() {
        return Ok(by_first);
    }
    let by_name = levenshtein(alloc, word, name)?;
    Ok(by_first.min(by_name))
}

/// Appends the line if it is a heading.
fn push_line(
    alloc: Global,
    near: &mut Vec<Near>,
    kind: Kind,
    word: &str,
    line: &'static str,
) -> Result<(), AllocError>
    ensures { OnOk result (map shown near.new.items ≡ map shown near.old.items ++ near_line kind word.now line.now) }
{
    if is_indented(line) {
        return Ok(());
    }
    let edits = edits_to(alloc, kind, word, line)?;
    near.push(Near {
        edits,
        kind,
        heading: line,
    })?;
    Ok(())
}

/// Appends the headings of this kind.
fn push_kind(alloc: Global, near: &mut Vec<Near>, kind: Kind, word: &str) -> Result<(), AllocError>
    ensures { OnOk result (map shown near.new.items ≡ map shown near.old.items ++ near_lines kind word.now (lines_of (text_of kind))) }
{
    let mut rest = kind.text();
    while let Some((line, behind)) = next_line(rest) {
        push_line(alloc, near, kind, word, line)?;
        rest = behind;
    }
    Ok(())
}

/// All headings, the nearest to the word first.
pub(crate) fn rank(alloc: Global, word: &str) -> Result<Vec<Near>, AllocError>
    ensures { IfOk result (λ ranked. IsRanking word.now ranked.items) }
{
    let mut near = Vec::new(alloc);
    push_kind(alloc, &mut near, Kind::Refusal, word)?;
    push_kind(alloc, &mut near, Kind::RsvpError, word)?;
    push_kind(alloc, &mut near, Kind::ConfigFault, word)?;
    push_kind(alloc, &mut near, Kind::RunFault, word)?;
    push_kind(alloc, &mut near, Kind::Ending, word)?;
    near.sort_by_key(|near| near.edits)?;
    Ok(near)
}
