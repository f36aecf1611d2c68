//! What is printed of routes, of records and of names.
ghost use Rattle.std.specs.Prelude.{◌≡◌, ◌++◌, OnOk, flat_map, string_bytes};
ghost use Rattle.object_text.specs.Routes.{prefix_text};
ghost use Rattle.lsr_text.specs.Routes.{bytes_text, flags_words, is_plain, name_letter, name_text, record_lines, route_line, step_words, trace_line};

use rsvp_bodies::{Step, Trace};
use rsvp_contents::{Prefix, Record, Route};
use std::alloc::{AllocError, Global};
use std::fmt::Write;

/// Appends the bytes as hexadecimal digits after `0x`.
fn push_bytes(alloc: Global, text: &mut String, bytes: &[u8]) -> Result<(), AllocError>
    ensures { OnOk result (string_bytes text.new ≡ string_bytes text.old ++ bytes_text bytes.now) }
{
    let digits = hex::encode(alloc, bytes)?;
    write!(text, "0x{digits}")
}

/// Appends a prefix: `ADDRESS/LENGTH`. The only error is that memory ran out.
pub fn push_prefix(text: &mut String, prefix: Prefix) -> Result<(), AllocError>
    ensures { OnOk result (string_bytes text.new ≡ string_bytes text.old ++ prefix_text prefix) }
{
    let address = prefix.address;
    let length = prefix.length;
    write!(text, "{address}/{length}")
}

/// Appends a step after a space: `ADDRESS/LENGTH`, with `~` before it where it is loose, or the bytes of one of another
/// type.
fn push_step(alloc: Global, text: &mut String, step: &Step) -> Result<(), AllocError>
    ensures { OnOk result (string_bytes text.new ≡ string_bytes text.old ++ step_words step.now) }
{
    match step {
        Step::Ipv4 { loose, prefix } => {
            let mark = if *loose { " ~" } else { " " };
            text.push_str(mark)?;
            push_prefix(text, *prefix)
        }
        Step::Other(other) => {
            text.push_str(" ")?;
            push_bytes(alloc, text, other.as_slice())
        }
    }
}

/// Appends the steps, each after a space. The only error is that memory ran out.
pub fn push_steps(alloc: Global, text: &mut String, steps: &[Step]) -> Result<(), AllocError>
    ensures { OnOk result (string_bytes text.new ≡ string_bytes text.old ++ flat_map step_words steps.now) }
{
    for step in steps {
        push_step(alloc, text, step)?;
    }
    Ok(())
}

/// Appends the line of a route after its word, `none` standing for no route.
#[tactic(auto, unfolding(crate::specs::Routes::route_line))]
pub(crate) fn push_route(
    alloc: Global,
    text: &mut String,
    word: &str,
    route: &Option<Route>,
) -> Result<(), AllocError>
    ensures { OnOk result (string_bytes text.new ≡ string_bytes text.old ++ route_line word.now route.now) }
{
    write!(text, "  {word}")?;
    match route {
        Some(route) => push_steps(alloc, text, route.as_slice())?,
        None => text.push_str(" none")?,
    }
    text.push_str("\n")
}

/// Appends the flags after their word: two hexadecimal digits.
pub(crate) fn push_flags(alloc: Global, text: &mut String, flags: u8) -> Result<(), AllocError>
    ensures { OnOk result (string_bytes text.new ≡ string_bytes text.old ++ flags_words flags) }
{
    let digits = hex::encode(alloc, [flags])?;
    write!(text, " flags {digits}")
}

/// Appends the line of an entry of a record.
fn push_trace(alloc: Global, text: &mut String, trace: &Trace) -> Result<(), AllocError>
    ensures { OnOk result (string_bytes text.new ≡ string_bytes text.old ++ trace_line trace.now) }
{
    text.push_str("  record ")?;
    match trace {
        Trace::Ipv4 { prefix, flags } => {
            push_prefix(text, *prefix)?;
            push_flags(alloc, text, *flags)?;
        }
        Trace::Label { flags, label } => {
            write!(text, "label {label}")?;
            push_flags(alloc, text, *flags)?;
        }
        Trace::Other(other) => push_bytes(alloc, text, other.as_slice())?,
    }
    text.push_str("\n")
}

/// Appends the lines of the entries, in their order.
fn push_traces(alloc: Global, text: &mut String, traces: &[Trace]) -> Result<(), AllocError>
    ensures { OnOk result (string_bytes text.new ≡ string_bytes text.old ++ flat_map trace_line traces.now) }
{
    for trace in traces {
        push_trace(alloc, text, trace)?;
    }
    Ok(())
}

/// Appends the lines of a record, the entry that was added last first; one line that there is no record, or no entry.
#[tactic(auto, unfolding(crate::specs::Routes::record_lines))]
pub(crate) fn push_record(
    alloc: Global,
    text: &mut String,
    recorded: &Option<Record>,
) -> Result<(), AllocError>
    ensures { OnOk result (string_bytes text.new ≡ string_bytes text.old ++ record_lines recorded.now) }
{
    match recorded {
        None => text.push_str("  record none\n"),
        Some(recorded) => match recorded.as_slice() {
            [] => text.push_str("  record empty\n"),
            traces => push_traces(alloc, text, traces),
        },
    }
}

/// Whether a byte of a name is printed as it is: visible ASCII or a space, but neither a quote nor a backslash.
fn is_plain(byte: u8) -> bool
    ensures { result ≡ is_plain byte }
{
    (b' '..=b'~').contains(&byte) && byte != b'"' && byte != b'\\'
}

/// Appends a byte of a name: as it is where it is plain, else `\x` and two hexadecimal digits.
fn push_letter(alloc: Global, text: &mut String, byte: u8) -> Result<(), AllocError>
    ensures { OnOk result (string_bytes text.new ≡ string_bytes text.old ++ name_letter byte) }
{
    if is_plain(byte) {
        return text.push(char::from(byte));
    }
    let digits = hex::encode(alloc, [byte])?;
    write!(text, "\\x{digits}")
}

/// Appends the letters of a name.
fn push_letters(alloc: Global, text: &mut String, name: &[u8]) -> Result<(), AllocError>
    ensures { OnOk result (string_bytes text.new ≡ string_bytes text.old ++ flat_map name_letter name.now) }
{
    for byte in name {
        push_letter(alloc, text, *byte)?;
    }
    Ok(())
}

/// Appends a name, between quotes. The only error is that memory ran out.
#[tactic(auto, unfolding(crate::specs::Routes::name_text))]
pub fn push_name(alloc: Global, text: &mut String, name: &[u8]) -> Result<(), AllocError>
    ensures { OnOk result (string_bytes text.new ≡ string_bytes text.old ++ name_text name.now) }
{
    text.push_str("\"")?;
    push_letters(alloc, text, name)?;
    text.push_str("\"")
}
