//! What a datagram is that is no labelled frame: nothing of it goes by labels.

ghost use Rattle.std.specs.Prelude.{◌≡◌, IfNone, IfSome, List};
ghost use Rattle.datagrams.specs.Datagrams.{IsDatagram};
ghost use Rattle.forwarding_table.specs.declared.forwarding.Forwarding.{Forwarding};
ghost use Rattle.label_stacks.specs.declared.entry.StackEntry.{StackEntry};
ghost use Rattle.link_frames.specs.Frames.{kind_of};

use crate::datagram::{Datagram, Forwards};
use crate::reading::read_datagram;
use forwarding_table::{Fault, Forwarding};
use label_stacks::Stack;
use link_frames::KIND_LABELLED;
use lsr_facts::{Refusal, Router};
use std::alloc::Global;

/// Forwards by no label.
#[derive(Drop)]
struct NoLabels;

impl Forwards for NoLabels {
    ghost use Rattle.forwarding_table.specs.declared.forwarding.Fault.TheVariants.{NoLabel};
    ghost use Rattle.forwarding_table.specs.declared.forwarding.Forwarding.TheVariants.{Drop};

    ghost forwarded = { λ labels stack. Drop NoLabel };

    fn forward(&self, _stack: &Stack) -> Forwarding {
        Forwarding::Drop(Fault::NoLabel)
    }
}

/// What a datagram is, whatever forwards by labels, where it is no labelled frame; none where it is one. It is refused as
/// by [`read_datagram`].
pub fn read_unlabelled(
    alloc: Global,
    router: &Router,
    link: u16,
    bytes: &[u8],
) -> Option<Result<Datagram, Refusal>>
    ensures answer { IfSome result (λ answer. (forward : List StackEntry → Forwarding)
        → IsDatagram router.now forward link bytes.now answer) }
    ensures labelled { IfNone result (kind_of bytes.now ≡ 2) }
{
    if !bytes.is_empty() && bytes[0] == KIND_LABELLED {
        return None;
    }
    Some(read_datagram(alloc, router, &NoLabels, link, bytes))
}
