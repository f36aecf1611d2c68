//! The numbers that words name.
ghost use Rattle.std.specs.Prelude.{◌≤◌, ℕ};
ghost use Rattle.std.specs.Option.{MatchOption};
ghost use Rattle.lsr_lines.specs.Numbers.{NamesLink, NamesWhole, NamesUpTo};

/// What `parse` takes before a number, though it is no digit.
const SIGN: char = '+';

/// The link that the word names: decimal digits, leading zeros taken, 1 to 65,535.
pub fn read_link(digits: &str) -> Option<u16>
    ensures { MatchOption result ((link : ℕ) → ¬ NamesLink digits.now link) (NamesLink digits.now) }
{
    if digits.starts_with(SIGN) {
        return None;
    }
    match digits.parse::<u16>() {
        Ok(0) => None,
        Ok(link) => Some(link),
        Err(_) => None,
    }
}

/// The number of 64 bits that the word names: decimal digits, leading zeros taken.
pub fn read_whole(digits: &str) -> Option<u64>
    ensures { MatchOption result ((number : ℕ) → ¬ NamesWhole digits.now number) (NamesWhole digits.now) }
{
    if digits.starts_with(SIGN) {
        return None;
    }
    match digits.parse::<u64>() {
        Ok(number) => Some(number),
        Err(_) => None,
    }
}

/// The number that the word names: decimal digits, leading zeros taken, 0 to `most`.
pub(crate) fn read_up_to(most: u16, digits: &str) -> Option<u16>
    ensures { MatchOption result ((number : ℕ) → ¬ NamesUpTo most digits.now number) (NamesUpTo most digits.now) }
{
    if digits.starts_with(SIGN) {
        return None;
    }
    let Ok(number) = digits.parse::<u16>() else {
        return None;
    };
    if number > most {
        return None;
    }
    Some(number)
}
