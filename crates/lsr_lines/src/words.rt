//! The words of a line.
ghost use Rattle.std.specs.Prelude.{◌≡◌, ◌≢◌, ◌<◌, ◌∷◌, [], length};
ghost use Rattle.std.specs.Option.{MatchOption};
ghost use Rattle.lsr_lines.specs.Commands.{words_left};

/// What parts two words.
const SPACE: char = ' ';

/// The next word of what is left of a line, and what is left after it; none where nothing is left.
pub fn next_word(left: Option<&str>) -> Option<(&str, Option<&str>)>
    ensures { MatchOption result (words_left left.entry ≡ []) (λ r. words_left left.entry ≡ r.0.now ∷ words_left r.1) }
{
    let text = left?;
    match text.split_once(SPACE) {
        Some((word, rest)) => Some((word, Some(rest))),
        None => Some((text, None)),
    }
}

/// The next two words of what is left of a line, and what is left after them; none where there are fewer words.
pub fn next_two(left: Option<&str>) -> Option<(&str, &str, Option<&str>)>
    ensures { MatchOption result (length (words_left left.entry) < 2) (λ r. words_left left.entry ≡ r.0.now ∷ r.1.now ∷ words_left r.2) }
{
    let (first, left) = next_word(left)?;
    let (second, left) = next_word(left)?;
    Some((first, second, left))
}

/// The word that is all that is left of a line; none where nothing is left, or more than one word.
pub fn only_word(left: Option<&str>) -> Option<&str>
    ensures { MatchOption result (length (words_left left.entry) ≢ 1) (λ word. words_left left.entry ≡ word.now ∷ []) }
{
    let (word, left) = next_word(left)?;
    if left.is_some() {
        return None;
    }
    Some(word)
}
