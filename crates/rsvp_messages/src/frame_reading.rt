ghost use Rattle.std.specs.Prelude.{◌≡◌, ◌≢◌, ◌≤◌, ◌+◌, ◌*◌, length, None, Err, IfOk, IfErr, IfNone, IfSome};
ghost use Rattle.rsvp_contents.specs.declared.dropped.Dropped.TheVariants.{NoMemory};
ghost use Rattle.link_frames.specs.Frames.{count_of, frame_fault, head_fault, kind_of, labelled_fault, labelled_in, payload_of, routed_in, ReadsFrame};
ghost use Rattle.rsvp_messages.specs.Frames.{IsDropFor};

use crate::read_message;
use label_stacks::{ENTRY_LEN, has_one_bottom, stack_of};
use link_frames::{
    Data, KIND_HOP, KIND_LABELLED, KIND_ROUTED, MAX_DATA_LEN, PAYLOAD_BYTES, PAYLOAD_MESSAGE,
    ReceivedFrame, ReceivedPayload, Stack, Unread,
};
use rsvp_bodies::address_of;
use rsvp_contents::Dropped;
use std::alloc::Global;

/// Bytes of a Labelled frame before its entries: its kind and their count.
const LABELLED_HEAD_LEN: usize = 2;
/// Bytes of a Routed frame before its message: its kind, an address and a limit.
const ROUTED_HEAD_LEN: usize = 6;

/// The first fault of a Labelled frame.
#[tactic(auto, unfolding(link_frames::specs::Frames::labelled_fault))]
fn labelled_fault(bytes: &[u8]) -> Option<Dropped>
    ensures fault { result ≡ labelled_fault bytes.now }
    ensures told { IfSome result (λ fault. fault ≢ NoMemory) }
    ensures few { IfNone result (count_of bytes.now ≤ 8) }
    ensures whole { IfNone result (4 * count_of bytes.now + 3 ≤ length bytes.now) }
    ensures short { IfNone result (length bytes.now ≤ 4 * count_of bytes.now + 4099) }
{
    if bytes.len() < LABELLED_HEAD_LEN {
        return Some(Dropped::Short);
    }
    let (head, body) = bytes.split_at(LABELLED_HEAD_LEN);
    let count = usize::from(head[1]);
    if count > Stack::MAX_LEN {
        return Some(Dropped::TooLong);
    }
    if body.len() <= ENTRY_LEN * count {
        return Some(Dropped::Short);
    }
    if !has_one_bottom(count, body) {
        return Some(Dropped::LengthField);
    }
    let (_, payload) = body.split_at(ENTRY_LEN * count);
    if payload[0] > PAYLOAD_MESSAGE {
        return Some(Dropped::KindUnsupported);
    }
    if payload.len() - 1 > MAX_DATA_LEN {
        return Some(Dropped::TooLong);
    }
    None
}

/// The payload of this kind.
fn payload_of(kind: u8, content: Data) -> ReceivedPayload
    ensures { result ≡ payload_of kind content }
{
    if kind == PAYLOAD_BYTES {
        ReceivedPayload::Bytes(content)
    } else {
        ReceivedPayload::Message(content)
    }
}

/// The Labelled frame that the bytes spell, or its first fault.
#[tactic(auto, using(crate::proofs::Answered::drop_for), unfolding(link_frames::specs::Frames::frame_fault))]
fn read_labelled(alloc: Global, bytes: &[u8]) -> Result<ReceivedFrame, Dropped>
    requires some { 1 ≤ length bytes.now }
    requires kind { kind_of bytes.now ≡ 2 }
    ensures fault { IfErr result (IsDropFor bytes.now) }
    ensures frame { IfOk result (λ frame. (frame_fault bytes.now ≡ None) × (frame ≡ labelled_in bytes.now)) }
{
    if let Some(fault) = labelled_fault(bytes) {
        return Err(fault);
    }
    let (head, body) = bytes.split_at(LABELLED_HEAD_LEN);
    let count = usize::from(head[1]);
    let stack = stack_of(count, body);
    let (_, payload) = body.split_at(ENTRY_LEN * count);
    let (kind, data) = payload.split_at(1);
    match Data::copy_of(alloc, data) {
        Ok(data) => Ok(ReceivedFrame::Labelled(stack, payload_of(kind[0], data))),
        Err(_no_memory) => Err(Dropped::NoMemory),
    }
}

/// The Routed frame that the bytes spell, or its first fault.
#[tactic(auto, unfolding(link_frames::specs::Frames::frame_fault))]
fn read_routed(alloc: Global, bytes: &[u8]) -> Result<ReceivedFrame, Dropped>
    requires some { 1 ≤ length bytes.now }
    requires kind { kind_of bytes.now ≡ 3 }
    ensures fault { IfErr result (IsDropFor bytes.now) }
    ensures frame { IfOk result (λ frame. (frame_fault bytes.now ≡ None) × (frame ≡ routed_in bytes.now)) }
{
    if bytes.len() < ROUTED_HEAD_LEN {
        return Err(Dropped::Short);
    }
    let (head, message) = bytes.split_at(ROUTED_HEAD_LEN);
    match Unread::copy_of(alloc, message) {
        Ok(message) => Ok(ReceivedFrame::Routed {
            to: address_of(&head[1..]),
            limit: head[5],
            message,
        }),
        Err(_no_memory) => Err(Dropped::NoMemory),
    }
}

/// The frame that the datagram is, or its first fault: [`Dropped::Short`] where it is empty or ends before its
/// message, [`Dropped::TooLong`] where it has more than eight labels or a payload above 4,096 bytes,
/// [`Dropped::LengthField`] where a bottom bit is wrong, [`Dropped::KindUnsupported`] where its kind or its
/// payload's isn't known, and in a Hop frame the message's. The messages of other frames aren't read.
/// [`Dropped::NoMemory`] can come in place of any answer but a fault of the frame's head, which in a Hop frame goes on
/// with its message's common header.
pub fn read_frame(alloc: Global, bytes: &[u8]) -> Result<ReceivedFrame, Dropped>
    ensures reads { ReadsFrame bytes.now result }

    // A fault of the head takes no memory to tell.
    ensures memory { result ≡ Err NoMemory → head_fault bytes.now ≡ None }
{
    if bytes.is_empty() {
        return Err(Dropped::Short);
    }
    match bytes[0] {
        KIND_HOP => read_message(alloc, bytes.split_at(1).1).map(ReceivedFrame::Hop),
        KIND_LABELLED => read_labelled(alloc, bytes),
        KIND_ROUTED => read_routed(alloc, bytes),
        _ => Err(Dropped::KindUnsupported),
    }
}
