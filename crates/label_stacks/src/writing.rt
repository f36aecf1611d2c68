ghost use Rattle.std.specs.Prelude.{◌≡◌, ◌++◌, OnOk, OnErr, length, take};
ghost use Rattle.label_stacks.specs.Stacks.{stack_bytes, IsReadAgain};

use crate::entry::bottom_above;
use crate::stack::Stack;
use std::alloc::AllocError;

/// Appends the entries of a stack; the last alone has the bottom bit. The only error is out of memory; a part of
/// the stack may then stand after what was there.
pub fn write_stack(stack: &Stack, out: &mut Vec<u8>) -> Result<(), AllocError>
    ensures ok { OnOk result (out.new.items ≡ out.old.items ++ stack_bytes stack.now) }
    ensures err { OnErr result (take (length out.old.items) out.new.items ≡ out.old.items) }

    // What is written is read as the same stack.
    ensures again { IsReadAgain stack.now }
{
    let mut rest = stack.as_slice();
    while let [entry, below @ ..] = rest {
        let word = entry.word(bottom_above(below.len()));
        out.extend_from_slice(&word.to_be_bytes())?;
        rest = below;
    }
    Ok(())
}
