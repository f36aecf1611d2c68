//! Reads the whole of an input, as bytes or as text, and tells why it wasn't taken.
ghost use Rattle.std.specs.Prelude.{◌≡◌, ◌≢◌, ◌≤◌, ◌<◌, ◌++◌, ◌⊎◌, ℕ, List, true, false, Ok, IfOk, OnOk, IfErr, IfSome, length, string_bytes};
ghost use Rattle.std.specs.Io.KnownBytes.{Consumes, IsAtEnd};
ghost use Rattle.std.specs.Io.KnownBytes.{Appends};
ghost use Rattle.std.specs.IoError.{error_kind};
ghost use Rattle.std.specs.declared.io.ErrorKind.TheVariants.{IsADirectory};
ghost use Rattle.line_streams.specs.declared.input.InputFault.TheVariants.{Broken, Folder, Memory, TooLong};
ghost use Rattle.line_streams.specs.Texts.{IsTextOf, IsUnread, input_fault_text};

use crate::stream::ByteStream;
use std::alloc::{AllocError, Global};
use std::io;
use std::io::{ErrorKind, Write};

/// The longest input that is taken, in bytes.
pub const MAX_INPUT_LEN: usize = 16_777_216;
/// How many bytes a read asks for.
const CHUNK_LEN: usize = 65_536;

/// Why an input wasn't taken.
#[derive(Clone, Copy, Debug, PartialEq, Eq)]
pub enum InputFault {
    /// There is no such file.
    Absent,
    /// It may not be opened.
    Unopened,
    /// It is a folder.
    Folder,
    /// It could not be read to its end.
    Broken,
    /// It has more than [`MAX_INPUT_LEN`] bytes.
    TooLong,
    /// It isn't UTF-8 from this byte on. The first byte is 0.
    NotText(usize),
    /// A line of it isn't UTF-8.
    NotTextLine {
        /// The number of the line, from 1.
        line: usize,
        /// The byte of the line from which it isn't. The first byte is 0.
        at: usize,
    },
    /// There is no memory for it.
    Memory,
}

impl From<AllocError> for InputFault {
    ghost from_gives = { λ _ fault. fault ≡ Memory };

    fn from(_error: AllocError) -> InputFault {
        InputFault::Memory
    }
}

/// Why nothing more comes of a stream that gave this error.
pub(crate) fn fault_of(error: &io::Error) -> InputFault
    ensures folder { error_kind error.now ≡ IsADirectory → result ≡ Folder }
    ensures broken { error_kind error.now ≢ IsADirectory → result ≡ Broken }
    ensures either { (result ≡ Broken) ⊎ (result ≡ Folder) }
{
    if error.kind() == ErrorKind::IsADirectory {
        InputFault::Folder
    } else {
        InputFault::Broken
    }
}

/// Reads once and appends what came. True at the end of the input.
fn read_more<S: ByteStream>(
    input: &mut S,
    chunk: &mut [u8],
    bytes: &mut Vec<u8>,
) -> Result<bool, InputFault>
    requires room { length bytes.old.items ≤ MAX_INPUT_LEN }
    requires chunk { 1 ≤ length chunk.old }
    ensures length { OnOk result (length bytes.new.items ≤ MAX_INPUT_LEN) }
    ensures bytes { OnOk result ((more : List ℕ) × (bytes.new.items ≡ bytes.old.items ++ more) × Consumes (S.stream input.old).bytes (S.stream input.new).bytes more) }
    ensures end { result ≡ Ok true → IsAtEnd (S.stream input.new).bytes }
    ensures more { result ≡ Ok false → length bytes.old.items < length bytes.new.items }
    ensures breaks { (S.stream input.new).may_break ≡ true → (S.stream input.old).may_break ≡ true }
    ensures fault { IfErr result (λ fault. (fault ≡ Memory) ⊎ ((((fault ≡ Broken) ⊎ (fault ≡ Folder)) × ((S.stream input.old).may_break ≡ true))
        ⊎ ((fault ≡ TooLong) × (more : List ℕ) × Consumes (S.stream input.old).bytes (S.stream input.new).bytes more × (MAX_INPUT_LEN < length (bytes.old.items ++ more))))) }
{
    let count = match input.read_next(chunk) {
        Ok(count) => count,
        Err(error) => return Err(fault_of(&error)),
    };
    if count > MAX_INPUT_LEN - bytes.len() {
        return Err(InputFault::TooLong);
    }
    bytes.extend_from_slice(&chunk[..count])?;
    Ok(count == 0)
}

/// Room for so many bytes.
fn room_for(alloc: Global, len: usize) -> Result<Vec<u8>, AllocError>
    ensures { IfOk result (λ room. length room.items ≡ len) }
{
    vec![in alloc; 0u8; len]
}

/// All the bytes of the input, where they are at most [`MAX_INPUT_LEN`].
pub fn read_bytes<S: ByteStream>(alloc: Global, input: &mut S) -> Result<Vec<u8>, InputFault>
    ensures length { IfOk result (λ bytes. length bytes.items ≤ MAX_INPUT_LEN) }
    ensures bytes { IfOk result (λ bytes. IfSome (S.stream input.old).bytes (λ all. bytes.items ≡ all)) }
    ensures fault { IfErr result (IsUnread (S.stream input.old)) }
{
    let mut bytes = Vec::new(alloc);
    let mut chunk = room_for(alloc, CHUNK_LEN)?;
    // Each read but the last gives a byte or more.
    for _ in 0..=MAX_INPUT_LEN {
        if read_more(input, chunk.as_mut_slice(), &mut bytes)? {
            return Ok(bytes);
        }
    }
    Err(InputFault::TooLong)
}

/// The text of an input: all its bytes, where they are UTF-8 and at most [`MAX_INPUT_LEN`].
pub fn read_text<S: ByteStream>(alloc: Global, input: &mut S) -> Result<String, InputFault>
    ensures text { IfOk result (λ text. IsTextOf (S.stream input.old) (string_bytes text)) }
    ensures fault { IfErr result (IsUnread (S.stream input.old)) }
{
    match String::from_utf8(read_bytes(alloc, input)?) {
        Ok(text) => Ok(text),
        Err(error) => Err(InputFault::NotText(error.utf8_error().valid_up_to())),
    }
}

/// Tells why the input of this name wasn't taken, and what to do. The error is the stream's.
pub fn tell_input_fault<E: Write>(error: &mut E, name: &str, fault: InputFault) -> io::Result<()>
    ensures { OnOk result (Appends (E.contents error.old) (E.contents error.new) (input_fault_text name.now fault)) }
{
    match fault {
        InputFault::Absent => write!(
            error,
            "unreadable\n  {name}: no such file; check the name, which counts from the folder where lsr runs\n"
        ),
        InputFault::Unopened => write!(
            error,
            "unreadable\n  {name} can't be opened: look at its name and its permissions\n"
        ),
        InputFault::Folder => write!(error, "unreadable\n  {name} is a folder: give a file\n"),
        InputFault::Broken => write!(
            error,
            "unreadable\n  {name} can't be read to its end: look at where it comes from\n"
        ),
        InputFault::TooLong => write!(
            error,
            "unreadable\n  {name} has more than 16777216 bytes, the most that is read\n"
        ),
        InputFault::NotText(at) => write!(
            error,
            "unreadable\n  {name} is no text: invalid UTF-8 at byte {at}, where the first is byte 0\n"
        ),
        InputFault::NotTextLine { line, at } => write!(
            error,
            "unreadable\n  {name}, line {line}, is no text: invalid UTF-8 at the line's byte {at}, where the first is byte 0\n"
        ),
        InputFault::Memory => write!(error, "memory\n"),
    }
}
