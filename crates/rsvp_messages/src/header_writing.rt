//! The common header (RFC 2205, 3.1.1).

ghost use Rattle.std.specs.Prelude.{◌≡◌, ◌≤◌, ◌+◌, ◌++◌, OnOk, OnErr, length};
ghost use Rattle.rsvp_messages.specs.Headers.{bare_header, sealed, with_word};

use byteorder::{BigEndian, ByteOrder};
use internet_checksum::checksum;
use rsvp_contents::numbers::{HEADER_LEN, SEND_TTL, VERSION};
use std::alloc::AllocError;

/// Bits of the flags, which stand below the version in the first byte.
const FLAG_BITS: u32 = 4;

/// Where the checksum field begins.
const CHECKSUM_START: usize = 2;

/// Where the length field begins.
const LENGTH_START: usize = 6;

/// Appends the header of a message of this type, without flags. Its length and its checksum are still 0.
pub(crate) fn put_header(kind: u8, out: &mut Vec<u8>) -> Result<(), AllocError>
    ensures ok { OnOk result (out.new.items ≡ out.old.items ++ bare_header kind) }
    ensures err { OnErr result (out.new.items ≡ out.old.items) }
{
    let header: [u8; HEADER_LEN] = [VERSION << FLAG_BITS, kind, 0, 0, SEND_TTL, 0, 0, 0];
    out.extend_from_slice(&header)
}

/// Writes a number of 16 bits over the two bytes from `at` on.
fn put_word(at: usize, word: u16, message: &mut [u8])
    requires { at + 2 ≤ length message.old }
    ensures { message.new ≡ with_word at word message.old }
{
    BigEndian::write_u16(&mut message[at..], word);
}

/// Fills in the length of the message and then its checksum.
pub(crate) fn seal(message: &mut [u8])
    requires whole { 8 ≤ length message.old }
    requires short { length message.old ≤ 4096 }
    ensures { message.new ≡ sealed message.old }
{
    put_word(LENGTH_START, message.len() as u16, message);
    put_word(CHECKSUM_START, checksum(message), message);
}
