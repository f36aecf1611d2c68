//! Flags by their names.
ghost use Rattle.std.specs.Prelude.{◌≡◌, ◌++◌, OnOk, codes, string_bytes};
ghost use Rattle.object_text.specs.Flags.{address_flags, asked_flags, attribute_flags, error_flags, flag_word, label_flags, protection_flags, repair_flags, reroute_flags};
ghost use Rattle.object_text.specs.Words.{byte_text};

use crate::words::push_byte;
use std::alloc::{AllocError, Global};
use std::fmt::Write;

/// Appends ` flags ` and the byte.
fn push_flags(alloc: Global, text: &mut String, flags: u8) -> Result<(), AllocError>
    ensures { OnOk result (string_bytes text.new ≡ string_bytes text.old ++ (codes " flags " ++ byte_text flags)) }
{
    text.push_str(" flags ")?;
    push_byte(alloc, text, flags)
}

/// Appends the name of the flag after a space, where its bit is set.
#[tactic(auto, unfolding(crate::specs::Flags::flag_word))]
fn push_flag(text: &mut String, flags: u8, bit: u8, name: &str) -> Result<(), AllocError>
    ensures { OnOk result (string_bytes text.new ≡ string_bytes text.old ++ flag_word flags bit name.now) }
{
    if flags & bit == 0 {
        return Ok(());
    }
    write!(text, " {name}")
}

/// Appends the flags of an ERROR_SPEC (RFC 2205, A.5).
#[tactic(auto, unfolding(crate::specs::Flags::error_flags))]
pub(crate) fn push_error_flags(
    alloc: Global,
    text: &mut String,
    flags: u8,
) -> Result<(), AllocError>
    ensures { OnOk result (string_bytes text.new ≡ string_bytes text.old ++ error_flags flags) }
{
    push_flags(alloc, text, flags)?;
    push_flag(text, flags, 0x01, "in-place")?;
    push_flag(text, flags, 0x02, "not-guilty")
}

/// Appends whether an LSP can be repaired here, and is (RFC 3209, 4.4.1.1).
#[tactic(auto, unfolding(crate::specs::Flags::repair_flags))]
fn push_repair_flags(text: &mut String, flags: u8) -> Result<(), AllocError>
    ensures { OnOk result (string_bytes text.new ≡ string_bytes text.old ++ repair_flags flags) }
{
    push_flag(text, flags, 0x01, "protection-available")?;
    push_flag(text, flags, 0x02, "protection-in-use")
}

/// Appends which protection there is or is asked for, by these bits (RFC 4090, 4.3 and 4.4).
#[tactic(auto, unfolding(crate::specs::Flags::protection_flags))]
fn push_protection_flags(
    text: &mut String,
    flags: u8,
    bandwidth: u8,
    node: u8,
) -> Result<(), AllocError>
    ensures { OnOk result (string_bytes text.new ≡ string_bytes text.old ++ protection_flags flags bandwidth node) }
{
    push_flag(text, flags, bandwidth, "bandwidth-protection")?;
    push_flag(text, flags, node, "node-protection")
}

/// Appends the flags of an address in a RECORD_ROUTE (RFC 3209, 4.4.1.1; RFC 4090, 4.4).
pub(crate) fn push_address_flags(
    alloc: Global,
    text: &mut String,
    flags: u8,
) -> Result<(), AllocError>
    ensures { OnOk result (string_bytes text.new ≡ string_bytes text.old ++ address_flags flags) }
{
    push_flags(alloc, text, flags)?;
    push_repair_flags(text, flags)?;
    push_protection_flags(text, flags, 0x04, 0x08)
}

/// Appends the flags of a label in a RECORD_ROUTE (RFC 3209, 4.4.1.3).
pub(crate) fn push_label_flags(
    alloc: Global,
    text: &mut String,
    flags: u8,
) -> Result<(), AllocError>
    ensures { OnOk result (string_bytes text.new ≡ string_bytes text.old ++ label_flags flags) }
{
    push_flags(alloc, text, flags)?;
    push_flag(text, flags, 0x01, "global")
}

/// Appends the flags of a FAST_REROUTE (RFC 4090, 4.1).
pub(crate) fn push_reroute_flags(
    alloc: Global,
    text: &mut String,
    flags: u8,
) -> Result<(), AllocError>
    ensures { OnOk result (string_bytes text.new ≡ string_bytes text.old ++ reroute_flags flags) }
{
    push_flags(alloc, text, flags)?;
    push_flag(text, flags, 0x01, "one-to-one")?;
    push_flag(text, flags, 0x02, "facility")
}

/// Appends what a sender asks for (RFC 3209, 4.7.1).
#[tactic(auto, unfolding(crate::specs::Flags::asked_flags))]
fn push_asked_flags(text: &mut String, flags: u8) -> Result<(), AllocError>
    ensures { OnOk result (string_bytes text.new ≡ string_bytes text.old ++ asked_flags flags) }
{
    push_flag(text, flags, 0x01, "local-protection")?;
    push_flag(text, flags, 0x02, "label-recording")?;
    push_flag(text, flags, 0x04, "se-style")
}

/// Appends the flags of a SESSION_ATTRIBUTE (RFC 3209, 4.7.1; RFC 4090, 4.3).
pub(crate) fn push_attribute_flags(
    alloc: Global,
    text: &mut String,
    flags: u8,
) -> Result<(), AllocError>
    ensures { OnOk result (string_bytes text.new ≡ string_bytes text.old ++ attribute_flags flags) }
{
    push_flags(alloc, text, flags)?;
    push_asked_flags(text, flags)?;
    push_protection_flags(text, flags, 0x08, 0x10)
}
