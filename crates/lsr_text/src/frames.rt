//! What is printed of a frame that is sent, and of a payload that is delivered.
ghost use Rattle.std.specs.Prelude.{◌≡◌, ◌++◌, OnOk, string_bytes};
ghost use Rattle.lsr_text.specs.FrameLines.{bytes_line, bytes_words, delivery_line, sent_line, written_line};

use link_frames::{Data, Frame, KIND_HOP};
use rsvp_messages::frame_bytes;
use std::alloc::{AllocError, Global};
use std::fmt::Write;

/// Appends bytes that go or came by a link: `WORD LINK HEX`. The only error is that memory ran out.
pub fn push_bytes_words(
    alloc: Global,
    text: &mut String,
    word: &str,
    link: u16,
    bytes: &[u8],
) -> Result<(), AllocError>
    ensures { OnOk result (string_bytes text.new ≡ string_bytes text.old ++ bytes_words word.now link bytes.now) }
{
    let digits = hex::encode(alloc, bytes)?;
    write!(text, "{word} {link} {digits}")
}

/// Appends the line of bytes that go by a link: `WORD LINK HEX`.
fn push_bytes_line(
    alloc: Global,
    text: &mut String,
    word: &str,
    link: u16,
    bytes: &[u8],
) -> Result<(), AllocError>
    ensures { OnOk result (string_bytes text.new ≡ string_bytes text.old ++ bytes_line word.now link bytes.now) }
{
    push_bytes_words(alloc, text, word, link, bytes)?;
    text.push_str("\n")
}

/// Appends the line of a frame's bytes: `tx LINK HEX`, the message of a Hop frame, or `frame LINK HEX`, the whole of another
/// frame, or of bytes that are none. The only error is that memory ran out.
pub fn push_written(
    alloc: Global,
    text: &mut String,
    link: u16,
    bytes: &[u8],
) -> Result<(), AllocError>
    ensures { OnOk result (string_bytes text.new ≡ string_bytes text.old ++ written_line link bytes.now) }
{
    match bytes {
        [KIND_HOP, message @ ..] => push_bytes_line(alloc, text, "tx", link, message),
        _ => push_bytes_line(alloc, text, "frame", link, bytes),
    }
}

/// Appends the line of a frame that is sent: that of its bytes. The only error is that memory ran out.
pub fn push_sent(
    alloc: Global,
    text: &mut String,
    link: u16,
    frame: &Frame,
) -> Result<(), AllocError>
    ensures { OnOk result (string_bytes text.new ≡ string_bytes text.old ++ sent_line link frame.now) }
{
    let bytes = frame_bytes(alloc, frame)?;
    push_written(alloc, text, link, bytes.as_slice())
}

/// Appends the line of a payload that is delivered: `deliver HEX`. The only error is that memory ran out.
pub fn push_delivery(alloc: Global, text: &mut String, payload: &Data) -> Result<(), AllocError>
    ensures { OnOk result (string_bytes text.new ≡ string_bytes text.old ++ delivery_line payload.now) }
{
    let digits = hex::encode(alloc, payload.as_slice())?;
    write!(text, "deliver {digits}\n")
}
