// Where the fault of a configuration's text stands.
ghost use Rattle.std.specs.List.{list_any};
ghost use Rattle.std.specs.Prelude.{◌≡◌, ◌≤◌, false, option_map, IfOk, IfSome, MatchBool, string_bytes};
ghost use Rattle.toml.specs.Text.{IsValueText};
ghost use Rattle.toml.specs.View.{view};
ghost use Rattle.lsr_config.specs.declared.fault.ConfigFault.TheVariants as fault;
ghost use Rattle.config_text.specs.Positions.{is_newline};
ghost use Rattle.config_text.specs.Places as spec;
ghost use Rattle.config_text.specs.Places.{BeginsAt, HasFault, IsFound, IsLinkWithout, IsPlaceOf, LacksFault, OfText, is_short, remark, shown};

use crate::cuts::{count_all, cut_text, first_without, spot_of, value_at};
use crate::position::{column_after, line_after};
use crate::section::{Section, Spot};
use lsr_config::{Config, ConfigFault};
use std::alloc::{AllocError, Global};
use std::fmt;
use std::fmt::Formatter;
use toml::Value;

/// The longest text of a value that is shown whole, in bytes.
const MAX_SHOWN: usize = 200;
/// What ends a line.
const NEWLINE: u8 = b'\n';

/// Where the fault of a configuration's text stands.
#[derive(Debug, Drop)]
pub enum Place {
    /// The text is TOML up to this line and column, both from 1; a column counts characters.
    Stop {
        /// The line.
        line: usize,
        /// The column.
        column: usize,
        /// Why the text isn't TOML there.
        reason: String,
    },
    /// What stands under the key that is at fault.
    Entry {
        /// Where the key stands, or should stand.
        spot: Spot,
        /// What is found there.
        found: String,
    },
}

/// The key that is at fault; no text where none is.
fn key_of(fault: &ConfigFault) -> &str
    ensures { result.now ≡ spec.key_of fault.now }
{
    match fault.name() {
        Some(name) => name,
        None => "",
    }
}

/// Whether the faults are of one kind at one key.
fn is_same(fault: &ConfigFault, again: &ConfigFault) -> bool
    ensures { result ≡ spec.is_same fault.now again.now }
{
    fault.word() == again.word() && key_of(fault) == key_of(again)
}

/// Whether the document with only so many records has the fault; nothing where memory runs out.
fn has_fault(alloc: Global, text: &str, fault: &ConfigFault, count: usize) -> Option<bool>
    ensures { IfSome result (λ has. OfText text.now
        (λ ms. MatchBool has (HasFault fault.now count ms) (LacksFault fault.now count ms))) }
{
    let left = cut_text(alloc, text, count)?;
    match Config::read(alloc, left.as_str()) {
        Ok(_) => Some(false),
        Err(ConfigFault::Memory) => None,
        Err(again) => Some(is_same(fault, &again)),
    }
}

/// With how few records, at most `most`, the document has the fault; nothing where it isn't found or memory runs out.
fn least_count(alloc: Global, text: &str, fault: &ConfigFault, most: usize) -> Option<usize>
    ensures within { IfSome result (λ count. count ≤ most) }
    ensures begins { IfSome result (λ count. OfText text.now (BeginsAt fault.now count)) }
{
    let mut low = 0;
    let mut high = most;
    while low < high {
        let middle = low + (high - low) / 2;
        if has_fault(alloc, text, fault, middle)? {
            high = middle;
        } else {
            low = middle + 1;
        }
    }
    if has_fault(alloc, text, fault, low)? {
        Some(low)
    } else {
        None
    }
}

/// The value as TOML. The only error is that memory ran out.
fn value_text(alloc: Global, value: &Value) -> Result<String, AllocError>
    ensures { IfOk result (λ text. IsValueText false (view value.now) (string_bytes text)) }
{
    let mut f = Formatter::new(String::new(alloc));
    match fmt::Display::fmt(value, &mut f) {
        Ok(()) => Ok(f.into_inner()),
        Err(_) => Err(AllocError),
    }
}

/// Whether a line ends in the text.
fn has_newline(text: &str) -> bool
    ensures { result ≡ list_any is_newline text.now }
{
    text.as_bytes().iter().any(|byte| *byte == NEWLINE)
}

/// Whether the text is one line that isn't too long.
fn is_short(text: &str) -> bool
    ensures { result ≡ is_short text.now }
{
    text.len() <= MAX_SHOWN && !has_newline(text)
}

/// The text, where it is short.
fn shown(text: &str) -> &str
    ensures { result.now ≡ shown text.now }
{
    if is_short(text) { text } else { "..." }
}

/// What is said after a value.
fn remark(fault: &ConfigFault) -> &'static str
    ensures { result.now ≡ remark fault.now }
{
    match fault {
        ConfigFault::Repeated(_) => ", which another has",
        ConfigFault::UnknownName(_) => ", which none has",
        _ => "",
    }
}

/// What is told of the key that is at fault and its value. The only error is that memory ran out.
fn text_at(alloc: Global, fault: &ConfigFault, value: Option<&Value>) -> Result<String, AllocError>
    ensures { IfOk result (λ text. spec.IsFoundAt fault.now (option_map (λ found. view found.now) value.entry) (string_bytes text)) }
{
    let key = key_of(fault);
    let Some(value) = value else {
        return format!(in alloc; "there is no {key}");
    };
    let written = value_text(alloc, value)?;
    let shown = shown(written.as_str());
    let remark = remark(fault);
    format!(in alloc; "{key} = {shown}{remark}")
}

/// What is told of the value under the key that is at fault. The only error is that memory ran out.
fn found_text(
    alloc: Global,
    fault: &ConfigFault,
    value: Option<&Value>,
) -> Result<String, AllocError>
    ensures { IfOk result (λ text. IsFound fault.now (option_map (λ found. view found.now) value.entry) (string_bytes text)) }
{
    match fault {
        ConfigFault::TooMany(_) => String::from_str(alloc, "it is one too many"),
        _ => text_at(alloc, fault, value),
    }
}

/// The place of a fault that isn't that of the whole text; nothing where it isn't found or memory runs out.
fn entry_of(alloc: Global, text: &str, fault: &ConfigFault) -> Option<Place>
    ensures { IfSome result (IsPlaceOf text.now fault.now) }
{
    let Ok(document) = toml::table_from_str(alloc, text) else {
        return None;
    };
    let count = least_count(alloc, text, fault, count_all(&document))?;
    let spot = spot_of(&document, count);
    let value = value_at(&document, spot, key_of(fault));
    match found_text(alloc, fault, value) {
        Ok(found) => Some(Place::Entry { spot, found }),
        Err(_) => None,
    }
}

/// Where the text stops being TOML, and why; nothing where memory runs out.
fn stop_of(alloc: Global, text: &str) -> Option<Place>
    ensures { IfSome result (IsPlaceOf text.now fault.Text) }
{
    let Err(error) = toml::table_from_str(alloc, text) else {
        return None;
    };
    let stop = error.span()?.start;
    let before = &text.as_bytes()[..stop];
    let reason = String::from_str(alloc, error.message()).ok()?;
    Some(Place::Stop {
        line: line_after(before),
        column: column_after(before),
        reason,
    })
}

/// Where the fault of a configuration's text stands. It is found by reading the text again with fewer records, so that no rule
/// is decided here. Nothing where memory runs out, as at the fault [`ConfigFault::Memory`]; nor of a fault that the text hasn't.
pub fn place_of(alloc: Global, text: &str, fault: &ConfigFault) -> Option<Place>
    ensures { IfSome result (IsPlaceOf text.now fault.now) }
{
    match fault {
        ConfigFault::Memory => None,
        ConfigFault::Text => stop_of(alloc, text),
        _ => entry_of(alloc, text, fault),
    }
}

/// Where the first link stands that has no value under the key of the fault, as a router over sockets needs one; nothing where
/// each has one or memory runs out.
pub fn link_without(alloc: Global, text: &str, fault: &ConfigFault) -> Option<Place>
    ensures { IfSome result (IsLinkWithout text.now fault.now) }
{
    let Ok(document) = toml::table_from_str(alloc, text) else {
        return None;
    };
    let number = first_without(&document, key_of(fault))?;
    match text_at(alloc, fault, None) {
        Ok(found) => Some(Place::Entry {
            spot: Spot::Record(Section::Links, number),
            found,
        }),
        Err(_) => None,
    }
}
