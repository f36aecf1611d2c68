//! The head of a labelled frame, written in front of its payload.

ghost use Rattle.std.specs.Prelude.{◌≡◌, ◌≤◌, ◌+◌, ◌*◌, ◌++◌, ◌∷◌, All, drop, length};
ghost use Rattle.byteorder.specs.Endian.{big_bytes};
ghost use Rattle.label_stacks.specs.Entries.{word_of, IsEntry};
ghost use Rattle.label_stacks.specs.Stacks.{bottom_above, stack_bytes};

use byteorder::{BigEndian, ByteOrder};
use label_stacks::{ENTRY_LEN, Stack, StackEntry};
use link_frames::KIND_LABELLED;

/// Bytes of a labelled frame before its entries: its kind and their count.
pub(crate) const HEAD_LEN: usize = 2;
/// Bytes that a buffer has before a frame, so that a whole stack more can be written in front of its payload.
pub const ROOM: usize = Stack::MAX_LEN * ENTRY_LEN;
/// The bits of a label stack entry below its label (RFC 3032, 2.1).
const LABEL_SHIFT: u32 = 12;
/// The bits below its traffic class.
const CLASS_SHIFT: u32 = 9;
/// The bits below its bottom bit.
const BOTTOM_SHIFT: u32 = 8;

/// The word of an entry that has so many below it. The last entry alone has the bottom bit (RFC 3032, 2.1).
fn word_above(below: usize, entry: &StackEntry) -> u32
    requires { IsEntry entry.now }
    ensures { result ≡ word_of entry.now (bottom_above below) }
{
    let bottom: u32 = if below == 0 { 1 } else { 0 };
    (entry.label << LABEL_SHIFT)
        + (u32::from(entry.class) << CLASS_SHIFT)
        + (bottom << BOTTOM_SHIFT)
        + u32::from(entry.ttl)
}

/// Writes a word over the four bytes from `at` on.
fn put_word(word: u32, at: usize, buffer: &mut [u8])
    requires { at + 4 ≤ length buffer.old }
    ensures { drop at buffer.new ≡ big_bytes 4 word ++ drop (at + 4) buffer.old }
{
    BigEndian::write_u32(&mut buffer[at..], word);
}

/// Writes entries so that they end at `end`, and says where they begin.
fn put_entries(entries: &[StackEntry], end: usize, buffer: &mut [u8]) -> usize
    requires fits { All IsEntry entries.now }
    requires room { 4 * length entries.now ≤ end }
    requires inside { end ≤ length buffer.old }
    ensures start { result + 4 * length entries.now ≡ end }
    ensures entries { drop result buffer.new ≡ stack_bytes entries.now ++ drop end buffer.old }
{
    let mut start = end;
    let mut below = 0;
    let mut rest = entries;
    while let [above @ .., entry] = rest {
        start -= ENTRY_LEN;
        put_word(word_above(below, entry), start, buffer);
        below += 1;
        rest = above;
    }
    start
}

/// Writes the head of a labelled frame, its kind, the count of its entries and the entries, so that it ends at `end`.
/// Says where it begins.
pub(crate) fn put_head(stack: &Stack, end: usize, buffer: &mut [u8]) -> usize
    requires room { HEAD_LEN + ROOM ≤ end }
    requires inside { end ≤ length buffer.old }
    ensures start { result ≤ end }
    ensures head { drop result buffer.new ≡ 2 ∷ length stack.now ∷ (stack_bytes stack.now ++ drop end buffer.old) }
{
    let entries = stack.as_slice();
    let start = put_entries(entries, end, buffer) - HEAD_LEN;
    buffer[start] = KIND_LABELLED;
    buffer[start + 1] = entries.len() as u8;
    start
}
