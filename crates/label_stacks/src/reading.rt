ghost use Rattle.std.specs.Prelude.{◌≡◌, ◌≤◌, ◌*◌, length};
ghost use Rattle.label_stacks.specs.Stacks.{has_one_bottom, stack_of, words_at};

use crate::entry::{ENTRY_LEN, StackEntry, bottom_above, bottom_of};
use crate::stack::Stack;
use arrayvec::ArrayVec;
use byteorder::{BigEndian, ByteOrder};

/// Whether of the first `count` words the last alone has the bottom bit.
pub fn has_one_bottom(count: usize, bytes: &[u8]) -> bool
    requires { 4 * count ≤ length bytes.now }
    ensures { result ≡ has_one_bottom (words_at count bytes.now) }
{
    let mut left = count;
    let mut rest = bytes;
    while left > 0 {
        left -= 1;
        if bottom_of(BigEndian::read_u32(rest)) != bottom_above(left) {
            return false;
        }
        (_, rest) = rest.split_at(ENTRY_LEN);
    }
    true
}

/// The stack that the first `count` words say.
pub fn stack_of(count: usize, bytes: &[u8]) -> Stack
    requires few { count ≤ 8 }
    requires whole { 4 * count ≤ length bytes.now }
    ensures { result ≡ stack_of (words_at count bytes.now) }
{
    let mut entries = ArrayVec::new();
    let mut left = count;
    let mut rest = bytes;
    while left > 0 {
        left -= 1;
        entries.push(StackEntry::of_word(BigEndian::read_u32(rest)));
        (_, rest) = rest.split_at(ENTRY_LEN);
    }
    Stack::new(entries)
}
