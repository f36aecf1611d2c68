//! A labelled frame that goes on: its stack is read, forwarded and written again in front of its payload.

ghost use Rattle.std.specs.Prelude.{◌≡◌, ◌≤◌, ◌+◌, ◌*◌, ℕ, drop, length, IfNone, IfSome, List};
ghost use Rattle.link_frames.specs.Frames.{count_of};
ghost use Rattle.label_stacks.specs.declared.entry.StackEntry.{StackEntry};
ghost use Rattle.frame_rewriting.specs.Rewriting.{GoesOn, IsLabelled, IsRewritten};

use crate::head::{HEAD_LEN, ROOM, put_head};
use datagrams::Forwards;
use forwarding_table::Forwarding;
use label_stacks::{ENTRY_LEN, Stack, has_one_bottom, stack_of};
use link_frames::{KIND_LABELLED, MAX_DATA_LEN, PAYLOAD_MESSAGE};

/// A labelled frame that goes on, in the buffer that it came in.
#[derive(Clone, Copy, Debug, PartialEq, Eq)]
pub struct Rewritten {
    /// The number of the link that it leaves by.
    pub link: u16,
    /// Where it begins in the buffer. It ends where the buffer does.
    pub start: usize,
}

/// How many entries a labelled frame has, or none where the frame is no labelled one, or has a fault.
#[tactic(auto, unfolding(link_frames::specs::Frames::frame_fault, link_frames::specs::Frames::labelled_fault))]
fn entries_in(frame: &[u8]) -> Option<usize>
    ensures labelled { IfSome result (λ count. IsLabelled frame.now) }
    ensures count { IfSome result (λ count. count ≡ count_of frame.now) }
    ensures few { IfSome result (λ count. count ≤ 8) }
    ensures whole { IfSome result (λ count. HEAD_LEN + 4 * count ≤ length frame.now) }
    ensures other { IfNone result (¬ IsLabelled frame.now) }
{
    if frame.len() < HEAD_LEN || frame[0] != KIND_LABELLED {
        return None;
    }
    let (head, body) = frame.split_at(HEAD_LEN);
    let count = usize::from(head[1]);
    if count > Stack::MAX_LEN || body.len() <= ENTRY_LEN * count {
        return None;
    }
    let (_, payload) = body.split_at(ENTRY_LEN * count);
    if !has_one_bottom(count, body)
        || payload[0] > PAYLOAD_MESSAGE
        || payload.len() - 1 > MAX_DATA_LEN
    {
        return None;
    }
    Some(count)
}

/// Rewrites a labelled frame that goes on as it leaves (RFC 3031, 3.10; RFC 3032, 2.1 and 2.4.1). The frame came in the
/// buffer after [`ROOM`] bytes, and up to its end. `None`, and the buffer as it was, where it doesn't go on: it is no
/// labelled frame, it has a fault, or its stack is not sent. Takes no memory.
pub fn rewrite<F: Forwards>(labels: &F, buffer: &mut [u8]) -> Option<Rewritten>
    requires room { ROOM ≤ length buffer.old }
    ensures rewritten { IfSome result (IsRewritten (F.forwarded labels.now) (drop ROOM buffer.old) buffer.new) }
    ensures same { IfNone result (buffer.new ≡ buffer.old) }
    ensures stays { IfNone result ((link : ℕ) (stack : List StackEntry) → ¬ GoesOn (F.forwarded labels.now) (drop ROOM buffer.old) link stack) }
{
    let (_, frame) = buffer.split_at(ROOM);
    let count = entries_in(frame)?;
    let (_, body) = frame.split_at(HEAD_LEN);
    let stack = stack_of(count, body);
    match labels.forward(&stack) {
        Forwarding::Send { link, stack } => {
            let payload = ROOM + HEAD_LEN + ENTRY_LEN * count;
            let start = put_head(&stack, payload, buffer);
            Some(Rewritten { link, start })
        }
        Forwarding::Deliver | Forwarding::Drop(_) => None,
    }
}
