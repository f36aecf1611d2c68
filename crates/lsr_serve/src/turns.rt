//! How many turns a run has.
ghost use Rattle.std.specs.Option.{MatchOption, option_map};
ghost use Rattle.std.specs.Prelude.{ℕ};
ghost use Rattle.lsr_serve.specs.Turns.{AsksForTurns, SpellsTurns};

/// How many turns a run has where nobody says how many.
pub const DEFAULT_TURNS: u32 = 1_000;
/// The most turns of a run.
pub const MAX_TURNS: u32 = 1_000_000;
/// What `parse` takes before a number, though it is no digit.
const SIGN: char = '+';

/// The number of turns that a word spells; none where it spells no such number.
fn spelled_turns(digits: &str) -> Option<u32>
    ensures { MatchOption result ((turns : ℕ) → ¬ SpellsTurns digits.now turns) (SpellsTurns digits.now) }
{
    if digits.starts_with(SIGN) {
        return None;
    }
    let Ok(turns) = digits.parse::<u32>() else {
        return None;
    };
    if turns == 0 || turns > MAX_TURNS {
        return None;
    }
    Some(turns)
}

/// The number of turns that a word names: decimal digits, leading zeros taken, 1 to [`MAX_TURNS`]; without a word
/// [`DEFAULT_TURNS`]. None where it names no such number.
pub fn read_turns(word: Option<&str>) -> Option<u32>
    ensures { MatchOption result ((turns : ℕ) → ¬ AsksForTurns (option_map (λ w. w.now) word.entry) turns)
        (AsksForTurns (option_map (λ w. w.now) word.entry)) }
{
    match word {
        Some(digits) => spelled_turns(digits),
        None => Some(DEFAULT_TURNS),
    }
}
