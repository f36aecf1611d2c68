//! The subobjects of routes, a line for each (RFC 3209, 4.3.3 and 4.4.1).
ghost use Rattle.std.specs.Prelude.{◌≡◌, ◌++◌, OnOk, string_bytes};
ghost use Rattle.object_text.specs.Routes.{other_subobject, step_line, steps_text, strictness, trace_line, traces_text};

use crate::flags::{push_address_flags, push_label_flags};
use crate::words::push_digits;
use rsvp_objects::{Step, Trace};
use std::alloc::{AllocError, Global};
use std::fmt::Write;

/// Whether a step is strict or loose, as a word.
fn strictness(loose: bool) -> &'static str
    ensures { result.now ≡ strictness loose }
{
    if loose { "loose" } else { "strict" }
}

/// Appends the line of another type of subobject.
fn push_other_subobject(alloc: Global, text: &mut String, bytes: &[u8]) -> Result<(), AllocError>
    ensures { OnOk result (string_bytes text.new ≡ string_bytes text.old ++ other_subobject bytes.now) }
{
    text.push_str("    other")?;
    push_digits(alloc, text, bytes)?;
    text.push_str("\n")
}

/// Appends the line of a step.
fn push_step(alloc: Global, text: &mut String, step: &Step) -> Result<(), AllocError>
    ensures { OnOk result (string_bytes text.new ≡ string_bytes text.old ++ step_line step.now) }
{
    match step {
        Step::Ipv4 { loose, prefix } => {
            let word = strictness(*loose);
            let address = prefix.address;
            let length = prefix.length;
            write!(text, "    {word} {address}/{length}\n")
        }
        Step::Other(other) => push_other_subobject(alloc, text, other.as_slice()),
    }
}

/// Appends the lines of an explicit route, one for each step.
pub(crate) fn push_steps(alloc: Global, text: &mut String, steps: &[Step]) -> Result<(), AllocError>
    ensures { OnOk result (string_bytes text.new ≡ string_bytes text.old ++ steps_text steps.now) }
{
    for step in steps {
        push_step(alloc, text, step)?;
    }
    Ok(())
}

/// Appends the line of a recorded entry.
fn push_trace(alloc: Global, text: &mut String, entry: &Trace) -> Result<(), AllocError>
    ensures { OnOk result (string_bytes text.new ≡ string_bytes text.old ++ trace_line entry.now) }
{
    match entry {
        Trace::Ipv4 { prefix, flags } => {
            let address = prefix.address;
            let length = prefix.length;
            write!(text, "    address {address}/{length}")?;
            push_address_flags(alloc, text, *flags)?;
            text.push_str("\n")
        }
        Trace::Label { flags, label } => {
            write!(text, "    label {label}")?;
            push_label_flags(alloc, text, *flags)?;
            text.push_str("\n")
        }
        Trace::Other(other) => push_other_subobject(alloc, text, other.as_slice()),
    }
}

/// Appends the lines of a recorded route, one for each entry.
pub(crate) fn push_traces(
    alloc: Global,
    text: &mut String,
    entries: &[Trace],
) -> Result<(), AllocError>
    ensures { OnOk result (string_bytes text.new ≡ string_bytes text.old ++ traces_text entries.now) }
{
    for entry in entries {
        push_trace(alloc, text, entry)?;
    }
    Ok(())
}
