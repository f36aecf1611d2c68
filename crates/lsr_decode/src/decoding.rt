//! `lsr decode`: one message, and its objects line by line.
ghost use Rattle.std.specs.Prelude.{◌≡◌, ◌++◌, ◌<◌, ◌≤◌, IfOk, IfErr, OnOk, length, string_bytes};
ghost use Rattle.rsvp_objects.specs.Objects.{SpellsObject};
ghost use Rattle.rsvp_objects.specs.Raw.{Raw, object_bytes};
ghost use Rattle.rsvp_objects.specs.declared.object.Object.{Object};
ghost use Rattle.std.specs.Io.KnownBytes.{Appends};
ghost use Rattle.rsvp_contents.specs.Picking.{content_in};
ghost use Rattle.lsr_decode.specs.declared.decoding.Decoded.{Decoded};
ghost use Rattle.lsr_decode.specs.Decoding.{Decodes, IsSpelled, RefusesMessage, ShowsMessage, ShowsObjects, bytes_of, decoded_status, fields_lines, kind_of, object_line, object_lines, shown_text, told_text};

use hex::FromHexError;
use lsr_facts::Refusal;
use lsr_lines::are_hex_digits;
use lsr_text::{OUT_OF_MEMORY, refusal_name};
use object_text::push_fields;
use rsvp_contents::Dropped;
use rsvp_messages::{Content, Message, Reading, read_message};
use rsvp_objects::{Object, ObjectFault, read_object};
use std::alloc::{AllocError, Global};
use std::fmt::Write as _;
use std::io;
use std::io::Write;

/// The length of a message's common header in bytes (RFC 2205, 3.1.1).
const MESSAGE_HEADER_LEN: usize = 8;

/// What a word is answered that is no message's bytes.
const NO_DIGITS: &str =
    "error: HEX is an even number of hexadecimal digits; see lsr decode --help\n";

/// The message that was read, whole or with an object that its type doesn't know.
fn message_read(reading: &Reading) -> &Message
    ensures { result.now ≡ content_in reading.now }
{
    match reading {
        Reading::Whole(message) => message,
        Reading::Unknown(message, _, _) => message,
    }
}

/// The name of the message's type.
fn kind_of(reading: &Reading) -> &'static str
    ensures { result.now ≡ kind_of (content_in reading.now) }
{
    match message_read(reading).content() {
        Content::Path(_) => "Path",
        Content::Resv(_) => "Resv",
        Content::PathErr(_) => "PathErr",
        Content::ResvErr(_) => "ResvErr",
        Content::PathTear(_) => "PathTear",
        Content::ResvTear(_) => "ResvTear",
    }
}

/// Appends the line of the object: `CLASS CTYPE BODY`, or `CLASS CTYPE` where its body is empty.
fn push_object(
    alloc: Global,
    text: &mut String,
    class: u8,
    ctype: u8,
    body: &[u8],
) -> Result<(), AllocError>
    ensures { OnOk result (string_bytes text.new ≡ string_bytes text.old
        ++ object_line (record { class = class; ctype = ctype; body = body.now })) }
{
    if body.is_empty() {
        return write!(text, "{class} {ctype}\n");
    }
    let digits = hex::encode(alloc, body)?;
    write!(text, "{class} {ctype} {digits}\n")
}

/// Appends what the object says, where fields are asked for.
fn push_named(
    alloc: Global,
    text: &mut String,
    fields: bool,
    object: &Object,
) -> Result<(), AllocError>
    ensures { OnOk result (string_bytes text.new ≡ string_bytes text.old ++ fields_lines fields object.now) }
{
    if fields {
        push_fields(alloc, text, object)
    } else {
        Ok(())
    }
}

/// Appends the lines of the object that the bytes spell.
fn push_lines(
    alloc: Global,
    text: &mut String,
    fields: bool,
    bytes: &[u8],
    object: &Object,
) -> Result<(), ObjectFault>
    requires { SpellsObject bytes.now object.now }
    ensures lines { OnOk result ((raw : Raw) × (bytes.now ≡ object_bytes raw) × IsSpelled (raw, object.now)
        × (string_bytes text.new ≡ string_bytes text.old ++ object_lines fields (raw, object.now))) }
    ensures some { OnOk result (1 ≤ length bytes.now) }
{
    let [_, _, class, ctype, body @ ..] = bytes else {
        return Err(ObjectFault::Length);
    };
    push_object(alloc, text, *class, *ctype, body)?;
    push_named(alloc, text, fields, object)?;
    Ok(())
}

/// Appends the lines of the first object of the bytes, and gives what stands after it.
fn push_first<'a>(
    alloc: Global,
    text: &mut String,
    fields: bool,
    bytes: &'a [u8],
) -> Result<&'a [u8], ObjectFault>
    ensures found { IfOk result (λ rest. (o : Raw × Object) × (bytes.entry.now ≡ bytes_of o ++ rest.now) × IsSpelled o
        × (string_bytes text.new ≡ string_bytes text.old ++ object_lines fields o)) }
    ensures shorter { IfOk result (λ rest. length rest.now < length bytes.entry.now) }
{
    let (object, len) = read_object(alloc, bytes)?;
    let (first, rest) = bytes.split_at(len);
    match push_lines(alloc, text, fields, first, &object) {
        Ok(()) => Ok(rest),
        Err(fault) => Err(fault),
    }
}

/// The lines of the objects that the bytes are.
fn object_lines(alloc: Global, fields: bool, bytes: &[u8]) -> Result<String, ObjectFault>
    ensures { IfOk result (λ text. ShowsObjects fields bytes.now (string_bytes text)) }
{
    let mut text = String::new(alloc);
    let mut rest = bytes;
    while !rest.is_empty() {
        rest = push_first(alloc, &mut text, fields, rest)?;
    }
    Ok(text)
}

/// What `decode` answers to a word.
#[derive(Drop)]
pub enum Decoded {
    /// The lines of the message that it is.
    Shown(String),
    /// It is no message, or there was no memory to read it.
    Refused(Dropped),
    /// It has another character than a hexadecimal digit.
    NoDigits,
    /// It is an odd number of hexadecimal digits.
    OddDigits,
    /// There was no memory for its bytes.
    Memory,
}

/// The lines of the message that the bytes are: `KIND LENGTH`, and one for each object; with fields also what it says.
pub(crate) fn message_text(alloc: Global, fields: bool, bytes: &[u8]) -> Result<String, Dropped>
    ensures text { IfOk result (λ text. ShowsMessage fields bytes.now (string_bytes text)) }
    ensures fault { IfErr result (λ fault. RefusesMessage bytes.now fault) }
{
    let reading = read_message(alloc, bytes)?;
    let (_header, objects) = bytes.split_at(MESSAGE_HEADER_LEN);
    let kind = kind_of(&reading);
    let len = bytes.len();
    // The objects were read before, so that all that can go wrong is that memory runs out.
    let Ok(lines) = object_lines(alloc, fields, objects) else {
        return Err(Dropped::NoMemory);
    };
    match format!(in alloc; "{kind} {len}\n{lines}") {
        Ok(text) => Ok(text),
        Err(_) => Err(Dropped::NoMemory),
    }
}

/// What the digits are decoded as: the bytes of one message in hexadecimal digits of either case.
pub(crate) fn decode_digits(alloc: Global, fields: bool, digits: &[u8]) -> Decoded
    ensures { Decodes fields digits.now result }
{
    match hex::decode(alloc, digits) {
        Ok(bytes) => match message_text(alloc, fields, bytes.as_slice()) {
            Ok(text) => Decoded::Shown(text),
            Err(fault) => Decoded::Refused(fault),
        },
        Err(error) => {
            if error == FromHexError::OutOfMemory {
                return Decoded::Memory;
            }
            if are_hex_digits(digits) {
                Decoded::OddDigits
            } else {
                Decoded::NoDigits
            }
        }
    }
}

/// Prints what a word was decoded as, and gives the status. The error is a stream's.
fn tell_decoded<W: Write, E: Write>(
    decoded: &Decoded,
    output: &mut W,
    error: &mut E,
) -> io::Result<u8>
    ensures status { IfOk result (λ status. status ≡ decoded_status decoded.now) }
    ensures shown { OnOk result (Appends (W.contents output.old) (W.contents output.new) (shown_text decoded.now)) }
    ensures told { OnOk result (Appends (E.contents error.old) (E.contents error.new) (told_text decoded.now)) }
{
    match decoded {
        Decoded::Shown(text) => {
            output.write_all(text.as_bytes())?;
            Ok(0)
        }
        Decoded::Refused(fault) => {
            let refusal = Refusal::Unread(*fault);
            let kind = refusal.number();
            let name = refusal_name(refusal);
            write!(error, "refused {kind} {name}\n")?;
            Ok(1)
        }
        Decoded::NoDigits | Decoded::OddDigits => {
            error.write_all(NO_DIGITS.as_bytes())?;
            Ok(2)
        }
        Decoded::Memory => {
            write!(error, "{OUT_OF_MEMORY}\n")?;
            Ok(1)
        }
    }
}

/// `lsr decode HEX [--fields]`: prints the message's lines, or on the error stream why there are none, and gives the
/// status: 0, 1 for a refused message, 2 for a word that isn't an even number of hexadecimal digits. The
/// error is that a stream could not be written.
pub fn run_decode<W: Write, E: Write>(
    alloc: Global,
    fields: bool,
    word: &str,
    output: &mut W,
    error: &mut E,
) -> io::Result<u8>
    ensures { IfOk result (λ status. (decoded : Decoded) × Decodes fields word.now decoded × (status ≡ decoded_status decoded)
        × Appends (W.contents output.old) (W.contents output.new) (shown_text decoded)
        × Appends (E.contents error.old) (E.contents error.new) (told_text decoded)) }
{
    let decoded = decode_digits(alloc, fields, word.as_bytes());
    tell_decoded(&decoded, output, error)
}
