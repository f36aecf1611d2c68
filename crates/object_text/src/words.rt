//! Words that the lines of objects are made of.
ghost use Rattle.std.specs.Prelude.{◌≡◌, ◌++◌, OnOk, string_bytes};
ghost use Rattle.object_text.specs.Words.{byte_text, digits_word, next_word, word_text};

use byteorder::{BigEndian, ByteOrder};
use std::alloc::{AllocError, Global};
use std::fmt::Write;

/// Appends the word after a space; nothing for no word.
pub(crate) fn push_next(text: &mut String, word: &str) -> Result<(), AllocError>
    ensures { OnOk result (string_bytes text.new ≡ string_bytes text.old ++ next_word word.now) }
{
    if word.is_empty() {
        return Ok(());
    }
    write!(text, " {word}")
}

/// Appends the bytes in hexadecimal digits after a space; nothing for no bytes.
pub(crate) fn push_digits(alloc: Global, text: &mut String, bytes: &[u8]) -> Result<(), AllocError>
    ensures { OnOk result (string_bytes text.new ≡ string_bytes text.old ++ digits_word bytes.now) }
{
    if bytes.is_empty() {
        return Ok(());
    }
    let digits = hex::encode(alloc, bytes)?;
    write!(text, " {digits}")
}

/// Appends the byte in two hexadecimal digits.
pub(crate) fn push_byte(alloc: Global, text: &mut String, byte: u8) -> Result<(), AllocError>
    ensures { OnOk result (string_bytes text.new ≡ string_bytes text.old ++ byte_text byte) }
{
    let digits = hex::encode(alloc, &[byte])?;
    text.push_str(digits.as_str())
}

/// Appends the number in eight hexadecimal digits.
pub(crate) fn push_word(alloc: Global, text: &mut String, word: u32) -> Result<(), AllocError>
    ensures { OnOk result (string_bytes text.new ≡ string_bytes text.old ++ word_text word) }
{
    let mut bytes = [0; 4];
    BigEndian::write_u32(&mut bytes, word);
    let digits = hex::encode(alloc, &bytes)?;
    text.push_str(digits.as_str())
}
