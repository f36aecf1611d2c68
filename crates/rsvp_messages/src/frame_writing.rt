ghost use Rattle.std.specs.Prelude.{◌≡◌, ◌≤◌, ◌++◌, [], IfOk, OnOk, OnErr, length, take};
ghost use Rattle.std.specs.Net.Addr.{ipv4_octets};
ghost use Rattle.link_frames.specs.Frames.{CarriesAgain, SpellsFrame, frame_bytes, payload_bytes, received_payload_bytes, routed_bytes, unread};
ghost use Rattle.rsvp_messages.specs.Frames.{IsPayloadAgain};

use crate::write_message;
use label_stacks::write_stack;
use link_frames::{
    Frame, KIND_HOP, KIND_LABELLED, KIND_ROUTED, PAYLOAD_BYTES, PAYLOAD_MESSAGE, Payload,
    ReceivedPayload,
};
use std::alloc::{AllocError, Global};
use std::net::Ipv4Addr;

/// Most frames are written in fewer bytes: room for these is taken at once.
const USUAL_LEN: usize = 256;

/// Appends the kind of a payload that came and the payload.
fn put_received(payload: &ReceivedPayload, out: &mut Vec<u8>) -> Result<(), AllocError>
    ensures ok { OnOk result (out.new.items ≡ out.old.items ++ received_payload_bytes payload.now) }
    ensures err { OnErr result (take (length out.old.items) out.new.items ≡ out.old.items) }
    ensures fits { length (received_payload_bytes payload.now) ≤ 4097 }
{
    match payload {
        ReceivedPayload::Bytes(data) => {
            let bytes = data.as_slice();
            out.push(PAYLOAD_BYTES)?;
            out.extend_from_slice(bytes)
        }
        ReceivedPayload::Message(data) => {
            let bytes = data.as_slice();
            out.push(PAYLOAD_MESSAGE)?;
            out.extend_from_slice(bytes)
        }
    }
}

/// Appends the payload's kind and the payload.
fn put_payload(payload: &Payload, out: &mut Vec<u8>) -> Result<(), AllocError>
    ensures ok { OnOk result (out.new.items ≡ out.old.items ++ payload_bytes payload.now) }
    ensures err { OnErr result (take (length out.old.items) out.new.items ≡ out.old.items) }
    ensures again { OnOk result (IsPayloadAgain payload.now) }
{
    match payload {
        Payload::Received(payload) => put_received(payload, out),
        Payload::Message(message) => {
            out.push(PAYLOAD_MESSAGE)?;
            write_message(message, out)
        }
    }
}

/// Appends what stands before the message of a Routed frame.
fn put_routed_head(to: Ipv4Addr, limit: u8, out: &mut Vec<u8>) -> Result<(), AllocError>
    ensures ok { OnOk result (out.new.items ≡ out.old.items ++ routed_bytes (ipv4_octets to) limit []) }
    ensures err { OnErr result (take (length out.old.items) out.new.items ≡ out.old.items) }
    ensures four { length (ipv4_octets to) ≡ 4 }
{
    let [a, b, c, d] = to.octets();
    out.extend_from_slice(&[KIND_ROUTED, a, b, c, d, limit])
}

/// Appends the frame. Where there is no memory for it, a part of it may stand after what was there.
fn put_frame(frame: &Frame, out: &mut Vec<u8>) -> Result<(), AllocError>
    ensures ok { OnOk result (out.new.items ≡ out.old.items ++ frame_bytes frame.now) }
    ensures again { OnOk result (SpellsFrame (frame_bytes frame.now) (unread frame.now)) }
    ensures carried { OnOk result (CarriesAgain frame.now) }
    ensures err { OnErr result (take (length out.old.items) out.new.items ≡ out.old.items) }
{
    match frame {
        Frame::Hop(message) => {
            out.push(KIND_HOP)?;
            write_message(message, out)
        }
        Frame::Labelled(stack, payload) => {
            out.extend_from_slice(&[KIND_LABELLED, stack.as_slice().len() as u8])?;
            write_stack(stack, out)?;
            put_payload(payload, out)
        }
        Frame::Routed { to, limit, message } => {
            put_routed_head(*to, *limit, out)?;
            write_message(message, out)
        }
        Frame::Relayed { to, limit, message } => {
            put_routed_head(*to, *limit, out)?;
            out.extend_from_slice(message.as_slice())
        }
    }
}

/// Appends the frame. The only error is out of memory, which leaves `out` as it was.
pub fn write_frame(frame: &Frame, out: &mut Vec<u8>) -> Result<(), AllocError>
    ensures ok { OnOk result (out.new.items ≡ out.old.items ++ frame_bytes frame.now) }

    // What is written is read as the same frame: the message of a Hop frame whole, one that others may pass on unread.
    ensures again { OnOk result (SpellsFrame (frame_bytes frame.now) (unread frame.now)) }

    // The message in it is read as the same, where it is to go.
    ensures carried { OnOk result (CarriesAgain frame.now) }
    ensures err { OnErr result (out.new.items ≡ out.old.items) }
{
    out.reserve(USUAL_LEN)?;
    let start = out.len();
    if let Err(error) = put_frame(frame, out) {
        out.truncate(start);
        return Err(error);
    }
    Ok(())
}

/// The frame's bytes. The only error is out of memory.
pub fn frame_bytes(alloc: Global, frame: &Frame) -> Result<Vec<u8>, AllocError>
    ensures { IfOk result (λ bytes. bytes.items ≡ frame_bytes frame.now) }
{
    let mut bytes = Vec::new(alloc);
    write_frame(frame, &mut bytes)?;
    Ok(bytes)
}
