//! What is told of an error that came for an LSP of a tunnel.
ghost use Rattle.std.specs.Prelude.{◌≡◌, ◌++◌, IfOk, OnOk, option_map, string_bytes};
ghost use Rattle.lsr_explain.specs.Topics.{seen, words_of};
ghost use Rattle.lsr_watch.specs.Errors.{error_line, error_name, error_topic, is_noted, name_after, node_words, noted_line, told_words};

use lsr_explain::{Topic, find_topic};
use lsr_facts::{Noted, is_same_address};
use std::alloc::{AllocError, Global};
use std::fmt::Write;
use std::net::Ipv4Addr;

/// What is explained of an error: of its code and value, or else of its code with any value. The only error is that memory
/// ran out.
#[tactic(auto, unfolding(crate::specs::Errors::error_topic))]
fn error_topic(alloc: Global, code: u8, value: u16) -> Result<Option<Topic>, AllocError>
    ensures { IfOk result (λ topic. option_map seen topic ≡ error_topic code value) }
{
    let mut exact = String::new(alloc);
    write!(exact, "{code}/{value}")?;
    if let Some(topic) = find_topic(exact.as_str()) {
        return Ok(Some(topic));
    }
    let mut any = String::new(alloc);
    write!(any, "{code}/N")?;
    Ok(find_topic(any.as_str()))
}

/// Appends the name in a heading, after a space.
fn push_name_in(text: &mut String, heading: &str) -> Result<(), AllocError>
    ensures { OnOk result (string_bytes text.new ≡ string_bytes text.old ++ name_after (words_of heading.now)) }
{
    match heading.split_once(' ') {
        Some((_first, name)) => write!(text, " {name}"),
        None => Ok(()),
    }
}

/// Appends the name of an error after a space, if it has one, by which `lsr explain` knows it. The only error is that memory ran out.
#[tactic(auto, unfolding(crate::specs::Errors::error_name))]
pub fn push_error_name(
    alloc: Global,
    text: &mut String,
    code: u8,
    value: u16,
) -> Result<(), AllocError>
    ensures { OnOk result (string_bytes text.new ≡ string_bytes text.old ++ error_name code value) }
{
    match error_topic(alloc, code, value)? {
        Some(topic) => push_name_in(text, topic.heading),
        None => Ok(()),
    }
}

/// Appends which router found an error, and ends the line.
#[tactic(auto, unfolding(crate::specs::Errors::node_words))]
fn push_node(text: &mut String, node: Ipv4Addr) -> Result<(), AllocError>
    ensures { OnOk result (string_bytes text.new ≡ string_bytes text.old ++ node_words node) }
{
    write!(text, " from {node}\n")
}

/// Appends the name of an error and which router found it, and ends the line.
#[tactic(auto, unfolding(crate::specs::Errors::told_words))]
fn push_told(alloc: Global, text: &mut String, error: Noted) -> Result<(), AllocError>
    ensures { OnOk result (string_bytes text.new ≡ string_bytes text.old ++ told_words error) }
{
    push_error_name(alloc, text, error.code, error.value)?;
    push_node(text, error.node)
}

/// Appends the line of an error that came for an LSP of the tunnel of this number.
#[tactic(auto, unfolding(crate::specs::Errors::noted_line))]
fn push_noted(alloc: Global, text: &mut String, number: u16, error: Noted) -> Result<(), AllocError>
    ensures { OnOk result (string_bytes text.new ≡ string_bytes text.old ++ noted_line number error) }
{
    let code = error.code;
    let value = error.value;
    write!(text, "tunnel {number} error {code}/{value}")?;
    push_told(alloc, text, error)
}

/// Whether this error was noted before.
fn is_noted(error: Noted, was: Option<Noted>) -> bool
    ensures { result ≡ is_noted error was }
{
    match was {
        Some(was) => {
            was.code == error.code
                && was.value == error.value
                && is_same_address(was.node, error.node)
        }
        None => false,
    }
}

/// Appends the line of the error that is noted, if there is one and it is another than before.
pub(crate) fn push_error(
    alloc: Global,
    text: &mut String,
    number: u16,
    was: Option<Noted>,
    noted: Option<Noted>,
) -> Result<(), AllocError>
    ensures { OnOk result (string_bytes text.new ≡ string_bytes text.old ++ error_line number was noted) }
{
    let Some(error) = noted else {
        return Ok(());
    };
    if is_noted(error, was) {
        return Ok(());
    }
    push_noted(alloc, text, number, error)
}
