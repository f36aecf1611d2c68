//! What a word asks for.
ghost use Rattle.std.specs.Prelude.{ℕ};
ghost use Rattle.std.specs.Option.{MatchOption};
ghost use Rattle.lsr_explain.specs.declared.topics.Topic.{Topic};
ghost use Rattle.lsr_explain.specs.Topics.{Explains, NamesError, NamesValue, ValueOf};

use crate::topics::{Topic, find_named, find_topic};

/// The word that asks for all that can be asked.
const LIST: &str = "list";
/// What an error about an object of an unknown class begins with.
const OF_CLASS: &str = "13/";
/// The word that asks for these errors.
const ALL_OF_CLASS: &str = "13/N";
/// What an error about an object of an unknown C-Type begins with.
const OF_CTYPE: &str = "14/";
/// The word that asks for these errors.
const ALL_OF_CTYPE: &str = "14/N";

/// What a word is answered.
#[derive(Clone, Copy)]
pub enum Answer {
    /// What this explains.
    Topic(Topic),
    /// An error about an object: what it means, and its value, which is 256 times the object's class, plus its
    /// C-Type.
    Object(Topic, u16),
    /// All that can be asked.
    List,
    /// Nothing has this number or name.
    Unknown,
}

/// The value that the digits are: decimal, leading zeros taken, that fit 16 bits.
fn read_value(digits: &str) -> Option<u16>
    ensures { MatchOption result ((value : ℕ) → ¬ ValueOf digits.now value) (ValueOf digits.now) }
{
    // A sign is no digit, but `parse` takes one.
    if digits.starts_with('+') {
        return None;
    }
    match digits.parse::<u16>() {
        Ok(value) => Some(value),
        Err(_) => None,
    }
}

/// The value of the error that the word names after this code and its slash; none where it names none.
fn value_after(code: &str, word: &str) -> Option<u16>
    ensures { MatchOption result ((value : ℕ) → ¬ NamesValue code.now word.now value) (NamesValue code.now word.now) }
{
    let digits = word.strip_prefix(code)?;
    read_value(digits)
}

/// The error of this code that the word names by its value, and the value; `all` is the word that asks for all of them.
fn find_error(code: &str, all: &str, word: &str) -> Option<(Topic, u16)>
    ensures { MatchOption result
        ((found : Topic) (value : ℕ) → ¬ NamesError code.now all.now word.now found value)
        (λ r. NamesError code.now all.now word.now r.0 r.1) }
{
    match value_after(code, word) {
        Some(value) => match find_topic(all) {
            Some(topic) => Some((topic, value)),
            None => None,
        },
        None => None,
    }
}

/// What the word asks for: a refusal or an error by number or name, a fault by name, in any case; an error about an object by
/// its value; or with `list` all that can be asked.
pub fn explain(word: &str) -> Answer
    ensures { Explains word.now result }
{
    if let Some(topic) = find_named(word) {
        return Answer::Topic(topic);
    }
    if word == LIST {
        return Answer::List;
    }
    if let Some((topic, value)) = find_error(OF_CLASS, ALL_OF_CLASS, word) {
        return Answer::Object(topic, value);
    }
    if let Some((topic, value)) = find_error(OF_CTYPE, ALL_OF_CTYPE, word) {
        return Answer::Object(topic, value);
    }
    Answer::Unknown
}
