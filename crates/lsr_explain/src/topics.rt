//! Topics: what is explained, and which words ask for it.
ghost use Rattle.std.specs.Prelude.{◌≡◌, option_map};
ghost use Rattle.lsr_explain.specs.Topics.{found_in, has_names, is_asked_by, is_indented, is_same, is_sought, seen, text_of, topic_by, topic_named, topic_of};

use crate::errors::ERRORS;
use crate::faults::{CONFIG_FAULTS, ENDINGS, RUN_FAULTS};
use crate::refusals::REFUSALS;
use line_streams::next_line;

/// What is explained.
#[derive(Clone, Copy)]
pub enum Kind {
    /// A refusal.
    Refusal,
    /// An error of RSVP.
    RsvpError,
    /// A fault of a configuration.
    ConfigFault,
    /// A fault of a recorded run.
    RunFault,
    /// What else is told on the error stream, and ends a run.
    Ending,
}

impl Kind {
    /// The topics of this kind: a heading for each, a line of a word or more, and after it lines that begin with spaces.
    pub(crate) fn text(self) -> &'static str
        ensures { result.now ≡ text_of self }
    {
        match self {
            Kind::Refusal => REFUSALS,
            Kind::RsvpError => ERRORS,
            Kind::ConfigFault => CONFIG_FAULTS,
            Kind::RunFault => RUN_FAULTS,
            Kind::Ending => ENDINGS,
        }
    }

    /// Whether a name stands after the first word of each heading of this kind.
    pub(crate) fn has_names(self) -> bool
        ensures { result ≡ has_names self }
    {
        match self {
            Kind::Refusal | Kind::RsvpError => true,
            Kind::ConfigFault | Kind::RunFault | Kind::Ending => false,
        }
    }
}

/// Something that an operator sees, and its explanation.
#[derive(Clone, Copy)]
pub struct Topic {
    /// What it is.
    pub kind: Kind,
    /// How it is told, but for the word that all of its kind begin with: a number or a code and value, and a name; or a
    /// fault.
    pub heading: &'static str,
    /// What stands after that: the explanation is the lines up to the first that doesn't begin with a space.
    pub behind: &'static str,
}

/// Whether the line begins with a space: it is no heading.
pub(crate) fn is_indented(line: &str) -> bool
    ensures { result ≡ is_indented line.now }
{
    matches!(line.as_bytes(), [b' ', ..])
}

/// Whether the word is this one of a heading: as it is told, or in any case, where they differ at most in capitals.
#[tactic(auto, unfolding(crate::specs::Topics::is_same))]
pub(crate) fn is_same(any_case: bool, told: &str, word: &str) -> bool
    ensures { result ≡ is_same any_case told.now word.now }
{
    if any_case {
        told.eq_ignore_ascii_case(word)
    } else {
        told == word
    }
}

/// Whether the word asks for what this heading stands over: it is the heading's first word, or the name after that, where
/// headings have names.
fn is_asked_by(any_case: bool, named: bool, word: &str, heading: &str) -> bool
    ensures { result ≡ is_asked_by any_case named word.now heading.now }
{
    match heading.split_once(' ') {
        Some((first, name)) => {
            if is_same(any_case, first, word) {
                return true;
            }
            if named {
                is_same(any_case, name, word)
            } else {
                false
            }
        }
        None => is_same(any_case, heading, word),
    }
}

/// Whether the line is a heading of this kind that the word asks for.
fn is_sought(any_case: bool, kind: Kind, word: &str, line: &str) -> bool
    ensures { result ≡ is_sought any_case kind word.now line.now }
{
    if is_indented(line) {
        return false;
    }
    is_asked_by(any_case, kind.has_names(), word, line)
}

/// The first topic of this kind that the word asks for.
fn find_in(any_case: bool, kind: Kind, word: &str) -> Option<Topic>
    ensures { option_map seen result ≡ found_in any_case kind word.now }
{
    let mut rest = kind.text();
    while let Some((line, behind)) = next_line(rest) {
        if is_sought(any_case, kind, word, line) {
            return Some(Topic {
                kind,
                heading: line,
                behind,
            });
        }
        rest = behind;
    }
    None
}

/// The topic that the word asks for by number or name: as it is told, or in any case.
#[tactic(auto, unfolding(crate::specs::Topics::topic_by))]
fn find_by(any_case: bool, word: &str) -> Option<Topic>
    ensures { option_map seen result ≡ topic_by any_case word.now }
{
    if let Some(topic) = find_in(any_case, Kind::Refusal, word) {
        return Some(topic);
    }
    if let Some(topic) = find_in(any_case, Kind::RsvpError, word) {
        return Some(topic);
    }
    if let Some(topic) = find_in(any_case, Kind::ConfigFault, word) {
        return Some(topic);
    }
    if let Some(topic) = find_in(any_case, Kind::RunFault, word) {
        return Some(topic);
    }
    find_in(any_case, Kind::Ending, word)
}

/// The topic that the word asks for by number or name, as it is told.
pub fn find_topic(word: &str) -> Option<Topic>
    ensures { option_map seen result ≡ topic_of word.now }
{
    find_by(false, word)
}

/// The topic that the word asks for by number or name: as it is told, else in any case.
pub(crate) fn find_named(word: &str) -> Option<Topic>
    ensures { option_map seen result ≡ topic_named word.now }
{
    if let Some(topic) = find_by(false, word) {
        return Some(topic);
    }
    find_by(true, word)
}
