//! The checksum of a message, and the test of the one that it came with.

ghost use Rattle.std.specs.Prelude.{◌≡◌};
ghost use Rattle.internet_checksum.specs.Checksums.{checksum_field, checksum_of, has_good_checksum};

use crate::ones::add_words;
use byteorder::{BigEndian, ByteOrder};

/// Where the checksum field of the common header begins.
const FIELD_START: usize = 2;

/// The first byte after it.
const FIELD_END: usize = 4;

/// The field of a message whose sender computed no checksum.
const NOT_COMPUTED: u16 = 0;

/// The checksum of the whole message, whatever its checksum field holds (RFC 2205, 3.1.1; RFC 1071, 1).
/// It is never zero: a computed zero is given as ffff. A message that ends within its header, or has no
/// bytes, is summed as far as it goes.
#[tactic(auto, unfolding(crate::specs::Checksums::checksum_of))]
pub fn checksum(bytes: &[u8]) -> u16
    ensures { result ≡ checksum_of bytes.now }
{
    let before = &bytes[..bytes.len().min(FIELD_START)];
    let after = &bytes[bytes.len().min(FIELD_END)..];
    match !add_words(add_words(0, before), after) {
        NOT_COMPUTED => u16::MAX,
        computed => computed,
    }
}

/// Whether the message says that no checksum was computed, or has the right one.
#[tactic(auto, unfolding(crate::specs::Checksums::has_good_checksum))]
pub fn has_good_checksum(bytes: &[u8]) -> bool
    ensures { result ≡ has_good_checksum bytes.now }
{
    let field = checksum_field(bytes);
    field == NOT_COMPUTED || field == checksum(bytes)
}

/// The checksum field. Bytes that are missing from it count as zero.
fn checksum_field(bytes: &[u8]) -> u16
    ensures { result ≡ checksum_field bytes.now }
{
    match &bytes[bytes.len().min(FIELD_START)..] {
        field @ [_, _, ..] => BigEndian::read_u16(field),
        [high] => u16::from_be_bytes([*high, 0]),
        [] => NOT_COMPUTED,
    }
}
