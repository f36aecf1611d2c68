//! Frames with changes, and what they are read as.

use rsvp_messages::{
    KIND_HOP, KIND_LABELLED, KIND_ROUTED, Reading, ReceivedFrame, ReceivedPayload, read_frame,
};
use std::alloc::{AllocError, Global};

/// The bytes of a message's common header (RFC 2205, 3.1.1).
const HEADER_LEN: usize = 8;

/// What the frame is, as `labelled/2 message` for a message under two labels.
fn kind_of(alloc: Global, frame: &ReceivedFrame) -> Result<String, AllocError> {
    match frame {
        ReceivedFrame::Hop(Reading::Whole(_)) => format!(in alloc; "whole"),
        ReceivedFrame::Hop(Reading::Unknown(..)) => format!(in alloc; "unknown"),
        ReceivedFrame::Labelled(stack, ReceivedPayload::Bytes(_)) => {
            format!(in alloc; "labelled/{} bytes", stack.as_slice().len())
        }
        ReceivedFrame::Labelled(stack, ReceivedPayload::Message(_)) => {
            format!(in alloc; "labelled/{} message", stack.as_slice().len())
        }
        ReceivedFrame::Routed { .. } => format!(in alloc; "routed"),
    }
}

/// How the bytes are read as a frame.
fn outcome(alloc: Global, bytes: &[u8]) -> Result<String, AllocError> {
    match read_frame(alloc, bytes) {
        Ok(frame) => kind_of(alloc, &frame),
        Err(fault) => format!(in alloc; "{fault:?}"),
    }
}

/// Outcomes in their order, those that follow upon their like counted together.
#[derive(Drop)]
struct Runs(Vec<(String, u32)>);

impl Runs {
    /// Counts how the bytes are read.
    fn follow(&mut self, alloc: Global, bytes: &[u8]) -> Result<(), AllocError> {
        let outcome = outcome(alloc, bytes)?;
        let last = self.0.len().saturating_sub(1);
        for (seen, count) in self.0.iter_mut().skip(last) {
            if *seen == outcome {
                *count = count.saturating_add(1);
                return Ok(());
            }
        }
        Ok(self.0.push((outcome, 1))?)
    }

    /// The counts, as in `4 Version, 44 Checksum`.
    fn text(&self, alloc: Global) -> Result<String, AllocError> {
        let mut text = String::new(alloc);
        for (outcome, count) in &self.0 {
            let comma = if text.is_empty() { "" } else { ", " };
            text = format!(in alloc; "{text}{comma}{count} {outcome}")?;
        }
        Ok(text)
    }
}

/// How many bytes the frame's head has: in a Hop frame its kind and its message's common header; in a Labelled frame all
/// before what it carries; in a Routed frame its kind, an address and a limit.
fn head_len(frame: &[u8]) -> usize {
    let len = match frame {
        [KIND_HOP, ..] => 1 + HEADER_LEN,
        [KIND_LABELLED, count, ..] => 3 + 4 * usize::from(*count),
        [KIND_ROUTED, ..] => 6,
        _ => 1,
    };
    len.min(frame.len())
}

/// How the frame is read with one bit of its head turned, bit by bit.
pub fn turned(alloc: Global, frame: &[u8]) -> Result<String, AllocError> {
    let mut runs = Runs(Vec::new(alloc));
    for at in 0..head_len(frame) {
        for bit in (0..8u32).rev() {
            let mut changed = Vec::from_slice(alloc, frame)?;
            if let Some(byte) = changed.get_mut(at) {
                *byte ^= 1 << bit;
            }
            runs.follow(alloc, changed.as_slice())?;
        }
    }
    runs.text(alloc)
}

/// How the frame is read cut short, at each length.
pub fn cut(alloc: Global, frame: &[u8]) -> Result<String, AllocError> {
    let mut runs = Runs(Vec::new(alloc));
    for len in 0..frame.len() {
        runs.follow(alloc, &frame[..len])?;
    }
    runs.text(alloc)
}
