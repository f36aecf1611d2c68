//! What a told line asks for.
ghost use Rattle.std.specs.Prelude.{◌≡◌, ◌++◌, ◌<◌, ◌↔◌, ◌∷◌, [], IfOk, IfSome, IsNone, OnOk, length, string_bytes};
ghost use Rattle.std.specs.List.{list_any};
ghost use Rattle.lsr_explain.specs.Asking.{asked_as, asked_by, asked_in, error_asked, first_asked, is_slash, joined, told_after, words_in};

use crate::topics::is_same;
use std::alloc::{AllocError, Global};
use std::fmt::Write;

/// What parts two words.
const SPACE: char = ' ';
/// What stands between the code and the value of an error.
const SLASH: u8 = b'/';
/// After this word a refusal is told.
const REFUSED: &str = "refused";
/// After this word an error of RSVP is told.
const ERROR: &str = "error";
/// After this word a fault of a configuration is told.
const CONFIG: &str = "config";
/// After this word and a number a fault of a recorded run is told.
const ENTRY: &str = "entry";

/// How what is asked for stands after a word that it is told with.
#[derive(Clone, Copy)]
pub(crate) enum Told {
    /// As the next word.
    Word,
    /// As an error of RSVP: its code and value.
    Error,
    /// After a number.
    Entry,
}

/// The text's first word, and all that stands after the space that ends it. None where the text is empty.
fn next_word(text: &str) -> Option<(&str, &str)>
    ensures end { IsNone result ↔ (text.now ≡ []) }
    ensures word { IfSome result (λ r. words_in text.now ≡ r.0.now ∷ words_in r.1.now) }
    ensures shorter { IfSome result (λ r. length r.1.now < length text.now) }
{
    if text.is_empty() {
        return None;
    }
    match text.split_once(SPACE) {
        Some((word, rest)) => Some((word, rest)),
        None => Some((text, "")),
    }
}

/// Whether a word has a slash.
fn has_slash(word: &str) -> bool
    ensures { result ≡ list_any is_slash word.now }
{
    word.as_bytes().iter().any(|byte| *byte == SLASH)
}

/// How what is asked for stands after the word, in any case; none where nothing is told with it.
#[tactic(auto, unfolding(crate::specs::Asking::told_after))]
fn told_after(word: &str) -> Option<Told>
    ensures { result ≡ told_after word.now }
{
    if is_same(true, REFUSED, word) {
        return Some(Told::Word);
    }
    if is_same(true, ERROR, word) {
        return Some(Told::Error);
    }
    if is_same(true, CONFIG, word) {
        return Some(Told::Word);
    }
    if is_same(true, ENTRY, word) {
        return Some(Told::Entry);
    }
    None
}

/// Appends the text's first word; nothing where there is none.
fn push_first(asked: &mut String, text: &str) -> Result<(), AllocError>
    ensures { OnOk result (string_bytes asked.new ≡ string_bytes asked.old ++ first_asked (words_in text.now)) }
{
    match next_word(text) {
        Some((word, _)) => asked.push_str(word),
        None => Ok(()),
    }
}

/// Appends an error whose first word this is, as CODE/VALUE: its value may be the next word.
fn push_error(asked: &mut String, code: &str, rest: &str) -> Result<(), AllocError>
    ensures { OnOk result (string_bytes asked.new ≡ string_bytes asked.old ++ error_asked code.now (words_in rest.now)) }
{
    if has_slash(code) {
        return asked.push_str(code);
    }
    match next_word(rest) {
        Some((value, _)) => write!(asked, "{code}/{value}"),
        None => asked.push_str(code),
    }
}

/// Appends what is asked for by the words of the text, which stand after one that it is told with.
fn push_told(asked: &mut String, told: Told, text: &str) -> Result<(), AllocError>
    ensures { OnOk result (string_bytes asked.new ≡ string_bytes asked.old ++ asked_as told (words_in text.now)) }
{
    let Some((word, rest)) = next_word(text) else {
        return Ok(());
    };
    match told {
        Told::Word => asked.push_str(word),
        Told::Error => push_error(asked, word, rest),
        Told::Entry => push_first(asked, rest),
    }
}

/// Appends what is asked for by a line: what is told after the first of its words that something is told after, else its first
/// word.
fn push_asked(asked: &mut String, line: &str) -> Result<(), AllocError>
    ensures { OnOk result (string_bytes asked.new ≡ string_bytes asked.old ++ asked_in (words_in line.now)) }
{
    let mut rest = line;
    while let Some((word, others)) = next_word(rest) {
        if let Some(told) = told_after(word) {
            return push_told(asked, told, others);
        }
        rest = others;
    }
    push_first(asked, line)
}

/// The texts as one, with a space after each. The only error is that memory ran out.
fn joined(alloc: Global, texts: &[&str]) -> Result<String, AllocError>
    ensures { IfOk result (λ line. string_bytes line ≡ joined texts.now) }
{
    let mut line = String::new(alloc);
    for text in texts {
        line.push_str(text)?;
        line.push_str(" ")?;
    }
    Ok(line)
}

/// What is asked for by texts: a number, a name or a fault as a word, or a line in which one is told. The only error is that
/// memory ran out.
pub(crate) fn asked_word(alloc: Global, texts: &[&str]) -> Result<String, AllocError>
    ensures { IfOk result (λ word. string_bytes word ≡ asked_by texts.now) }
{
    let line = joined(alloc, texts)?;
    let mut word = String::new(alloc);
    push_asked(&mut word, line.as_str())?;
    Ok(word)
}
