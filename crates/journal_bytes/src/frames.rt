//! Frames that are sent, as an entry keeps them.

ghost use Rattle.std.specs.Prelude.{◌≡◌, IfOk, map};
ghost use Rattle.journal_bytes.specs.Entries.{written_frame};

use crate::entry::{Frames, Listed, WrittenFrame};
use crate::exact::Exact;
use abstract_paths::Output;
use rsvp_bodies::Kept;
use rsvp_messages::frame_bytes;
use std::alloc::{AllocError, Global};

/// A frame as it leaves. The only error is out of memory.
fn written_frame(alloc: Global, output: &Output) -> Result<WrittenFrame, AllocError>
    ensures { IfOk result (λ frame. frame ≡ written_frame output.now) }
{
    Ok(WrittenFrame {
        link: output.link,
        bytes: Kept::from_vec(frame_bytes(alloc, &output.frame)?),
    })
}

/// Frames as they leave. The only error is out of memory.
pub fn written_frames(alloc: Global, outputs: &[Output]) -> Result<Frames, AllocError>
    ensures { IfOk result (λ frames. frames ≡ map written_frame outputs.now) }
{
    let mut frames = Vec::with_capacity(alloc, outputs.len())?;
    for output in outputs {
        frames.push(written_frame(alloc, output)?)?;
    }
    Ok(Listed::from_vec(frames))
}

impl Exact for WrittenFrame {
    fn is_same(&self, other: &WrittenFrame) -> bool {
        self.link == other.link && self.bytes == other.bytes
    }
}
