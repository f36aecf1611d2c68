//! The files that a world's file names.
ghost use Rattle.std.specs.Prelude.{◌≡◌, ◌<◌, ◌∷◌, [], IfSome, length};
ghost use Rattle.std.specs.Option.{MatchOption, option_map};
ghost use Rattle.line_streams.specs.Cuts.{lines_of};
ghost use Rattle.lsr_lines.specs.Commands.{words_of};
ghost use Rattle.world_lines.specs.Named.{file_in, files_of};

use crate::lines::{ROUTER, name_and_file};
use line_streams::next_line;
use lsr_lines::next_word;

/// The file that configures a router, where the line is `router NAME FILE`.
fn file_of(line: &str) -> Option<&str>
    ensures { option_map (λ file. file.now) result ≡ file_in (words_of line.now) }
{
    let (word, left) = next_word(Some(line))?;
    if word != ROUTER {
        return None;
    }
    let (_name, file) = name_and_file(left)?;
    Some(file)
}

/// The file that the text's first line `router NAME FILE` names, wherever it stands, and the text after that line; none where
/// there is no such line.
pub fn next_file(text: &str) -> Option<(&str, &str)>
    ensures files { MatchOption result
        (files_of (lines_of text.now) ≡ [])
        (λ r. files_of (lines_of text.now) ≡ r.0.now ∷ files_of (lines_of r.1.now)) }
    ensures shorter { IfSome result (λ r. length r.1.now < length text.now) }
{
    let mut rest = text;
    while let Some((line, others)) = next_line(rest) {
        if let Some(file) = file_of(line) {
            return Some((file, others));
        }
        rest = others;
    }
    None
}
