//! Objects, frames and checksums.

use anyhow::{Error, Result, anyhow, bail};
use rsvp_messages::{
    Dropped, Frame, Message, Payload, Reading, ReceivedFrame, ReceivedPayload, checksum,
    frame_bytes, has_good_checksum, read_frame, read_message,
};
use rsvp_objects::{read_object, write_object};
use std::alloc::{AllocError, Global};

/// What is said of a dropped message or frame.
fn refusal(fault: Dropped) -> Error {
    let number = fault.number();
    anyhow!("refused {number} {fault:?}")
}

/// How many bytes the first object has, its Class-Num, its C-Type and what it says; it is written again.
fn object(alloc: Global, bytes: &[u8], written: &mut Vec<u8>) -> Result<String> {
    let (object, len) = match read_object(alloc, bytes) {
        Ok(found) => found,
        Err(fault) => bail!("refused {fault:?}"),
    };
    let (class, ctype) = (object.class(), object.ctype());
    write_object(&object, written)?;
    Ok(format!(in alloc; "{len} {class}/{ctype} {object:?}")?)
}

/// How the frame was read.
fn read_as(alloc: Global, frame: &ReceivedFrame) -> Result<String, AllocError> {
    match frame {
        ReceivedFrame::Hop(Reading::Whole(_)) => format!(in alloc; "whole"),
        ReceivedFrame::Hop(Reading::Unknown(_, class, ctype)) => {
            format!(in alloc; "unknown {class}/{ctype}")
        }
        ReceivedFrame::Labelled(stack, _) => format!(in alloc; "labelled {:?}", stack.as_slice()),
        ReceivedFrame::Routed { to, limit, .. } => format!(in alloc; "routed {to} {limit}"),
    }
}

/// The message that the bytes are, if each of its objects is known.
fn whole(alloc: Global, bytes: &[u8]) -> Result<Message> {
    match read_message(alloc, bytes).map_err(refusal)? {
        Reading::Whole(message) => Ok(message),
        Reading::Unknown(_, class, ctype) => bail!("unknown {class}/{ctype}"),
    }
}

/// The payload as it is passed on, or as the router has it that makes the message in it.
fn sent_payload(alloc: Global, payload: ReceivedPayload, is_made: bool) -> Result<Payload> {
    match payload {
        ReceivedPayload::Message(data) if is_made => {
            Ok(Payload::Message(whole(alloc, data.as_slice())?))
        }
        payload => Ok(Payload::Received(payload)),
    }
}

/// The frame as it is passed on, or as the router has it that makes the message in it; none where an object isn't known.
fn sent(alloc: Global, frame: ReceivedFrame, is_made: bool) -> Result<Option<Frame>> {
    match frame {
        ReceivedFrame::Hop(Reading::Whole(message)) => Ok(Some(Frame::Hop(message))),
        ReceivedFrame::Hop(Reading::Unknown(..)) => Ok(None),
        ReceivedFrame::Labelled(stack, payload) => Ok(Some(Frame::Labelled(
            stack,
            sent_payload(alloc, payload, is_made)?,
        ))),
        ReceivedFrame::Routed { to, limit, message } => {
            if is_made {
                let message = whole(alloc, message.as_slice())?;
                return Ok(Some(Frame::Routed { to, limit, message }));
            }
            Ok(Some(Frame::Relayed { to, limit, message }))
        }
    }
}

/// How the frame is read; it is written as it is passed on, or by the router that makes the message in it.
fn frame(alloc: Global, bytes: &[u8], is_made: bool, written: &mut Vec<u8>) -> Result<String> {
    let frame = read_frame(alloc, bytes).map_err(refusal)?;
    let said = read_as(alloc, &frame)?;
    if let Some(frame) = sent(alloc, frame, is_made)? {
        written.extend_from_slice(frame_bytes(alloc, &frame)?.as_slice())?;
    }
    Ok(said)
}

/// The checksum of the message, and whether the one that it has is good.
fn sum(alloc: Global, bytes: &[u8]) -> Result<String, AllocError> {
    let word = if has_good_checksum(bytes) {
        "good"
    } else {
        "bad"
    };
    format!(in alloc; "{:04x} {word}", checksum(bytes))
}

/// What the verb says of the bytes; and what is written of what was read.
pub fn said(alloc: Global, verb: &str, bytes: &[u8], written: &mut Vec<u8>) -> Result<String> {
    match verb {
        "object" => object(alloc, bytes, written),
        "frame" => frame(alloc, bytes, false, written),
        "make" => frame(alloc, bytes, true, written),
        "checksum" => Ok(sum(alloc, bytes)?),
        _ => bail!("no such verb"),
    }
}
