//! A move that is made in a world, and what is printed of it.
ghost use Rattle.std.specs.Prelude.{◌≡◌, ◌↔◌, ◌++◌, ℕ, List, Err, IsTrue, OnErr, OnOk};
ghost use Rattle.lsr_facts.specs.declared.refusal.Refusal.TheVariants.{NoFrame};
ghost use Rattle.lsr_play.specs.Answers.{told_in};
ghost use Rattle.lsr_play.specs.Making.{DeliversFrame, MakesMove};

use crate::answers::moved_text;
use crate::declared::Declared;
use abstract_world::Move;
use lab_world::{Report, World};
use lsr_facts::Refusal;
use std::alloc::{AllocError, Global};

/// Makes the move in the world, and appends what it is answered to the block. The only error is that memory ran out for what it is
/// answered: then the block is as it was, and the move is made.
pub(crate) fn make_move(
    alloc: Global,
    declared: &Declared<'_>,
    world: &mut World,
    one: Move,
    block: &mut Vec<u8>,
) -> Result<(), AllocError>
    ensures made { OnOk result ((printed : List ℕ) × (block.new.items ≡ block.old.items ++ printed) × MakesMove declared.now.names world.old one printed world.new) }
    ensures kept { OnErr result (block.new.items ≡ block.old.items) }
{
    let moved = world.run(alloc, &[one]);
    let text = moved_text(alloc, declared, world, &moved)?;
    block.extend_from_slice(text.as_bytes())
}

/// Whether a move was refused since there is no such frame, or no wire joins its link.
fn is_undelivered(moved: &Result<Report, Refusal>) -> bool
    ensures { IsTrue result ↔ (told_in moved.now ≡ Err NoFrame) }
{
    matches!(moved, Err(Refusal::NoFrame))
}

/// Delivers the frame of this number in the world, and appends what that is answered to the block; nothing where there is no such
/// frame, or no wire joins its link. The only error is that memory ran out for what it is answered.
pub(crate) fn deliver_frame(
    alloc: Global,
    declared: &Declared<'_>,
    world: &mut World,
    number: usize,
    block: &mut Vec<u8>,
) -> Result<(), AllocError>
    ensures { OnOk result ((printed : List ℕ) × (block.new.items ≡ block.old.items ++ printed) × DeliversFrame declared.now.names world.old number printed world.new) }
{
    let moved = world.run(alloc, &[Move::Deliver(number)]);
    if is_undelivered(&moved) {
        return Ok(());
    }
    let text = moved_text(alloc, declared, world, &moved)?;
    block.extend_from_slice(text.as_bytes())
}
