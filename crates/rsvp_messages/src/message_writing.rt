//! A message as it goes out: the common header with its length and checksum (RFC 2205, 3.1.1), and after it the message's
//! objects in their order (RFC 2205, 3.1.3 to 3.1.8; RFC 3209, 3).

ghost use Rattle.std.specs.Prelude.{◌≡◌, ◌++◌, OnOk, OnErr};
ghost use Rattle.rsvp_contents.specs.Spelling.{SpellsReading};
ghost use Rattle.rsvp_contents.specs.Written.{message_bytes};

use crate::content_writing::write_content;
use rsvp_contents::{Message, Reading};
use std::alloc::AllocError;

/// Appends the message as it goes out: the common header, and its objects in their order. The only error is
/// out of memory, which leaves `out` as it was.
pub fn write_message(message: &Message, out: &mut Vec<u8>) -> Result<(), AllocError>
    ensures ok { OnOk result (out.new.items ≡ out.old.items ++ message_bytes message.now) }

    // What is written is read as the same message.
    ensures again { OnOk result (SpellsReading (message_bytes message.now) (Reading.Whole message.now)) }
    ensures err { OnErr result (out.new.items ≡ out.old.items) }
{
    write_content(message.content(), out)
}
