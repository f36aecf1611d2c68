ghost use Rattle.std.specs.Prelude.{◌≡◌, ◌≤◌};
ghost use Rattle.label_stacks.specs.Entries.{bottom_of, entry_of, word_of, IsEntry};
ghost use Rattle.label_stacks.specs.Stacks.{bottom_above};

/// Bytes of a label stack entry (RFC 3032, 2.1).
pub const ENTRY_LEN: usize = 4;
/// The bits of a label stack entry below its label (RFC 3032, 2.1).
const LABEL_SHIFT: u32 = 12;
/// The bits below its traffic class.
const CLASS_SHIFT: u32 = 9;
/// The bits below its bottom bit.
const BOTTOM_SHIFT: u32 = 8;
/// The traffic class, once it stands lowest.
const CLASS_MASK: u32 = 0x7;
/// The bottom bit, once it stands lowest.
const BOTTOM_MASK: u32 = 0x1;
/// The TTL, which stands lowest.
const TTL_MASK: u32 = 0xff;

/// A label stack entry (RFC 3032, 2.1). Its bottom bit isn't kept, since its place in the stack says it.
#[derive(Clone, Copy, Debug, Default, PartialEq, Eq)]
pub struct StackEntry {
    /// The label, of 20 bits.
    pub label: u32,
    /// The traffic class (RFC 5462), of 3 bits.
    pub class: u8,
    /// How many routers may pass the frame on.
    pub ttl: u8,
}

impl StackEntry {
    /// The entry that a word says, whatever its bottom bit.
    pub(crate) fn of_word(word: u32) -> StackEntry
        ensures entry { result ≡ entry_of word }
        ensures fits { IsEntry result }
    {
        StackEntry {
            label: word >> LABEL_SHIFT,
            class: ((word >> CLASS_SHIFT) & CLASS_MASK) as u8,
            ttl: (word & TTL_MASK) as u8,
        }
    }

    /// The word that says the entry, with this bottom bit.
    pub(crate) fn word(self, bottom: u32) -> u32
        requires entry { IsEntry self }
        requires bottom { bottom ≤ 1 }
        ensures { result ≡ word_of self bottom }
    {
        (self.label << LABEL_SHIFT)
            + (u32::from(self.class) << CLASS_SHIFT)
            + (bottom << BOTTOM_SHIFT)
            + u32::from(self.ttl)
    }
}

/// The bottom bit of a word.
pub(crate) fn bottom_of(word: u32) -> u32
    ensures { result ≡ bottom_of word }
{
    (word >> BOTTOM_SHIFT) & BOTTOM_MASK
}

/// The bottom bit of an entry with so many below it.
pub(crate) fn bottom_above(below: usize) -> u32
    ensures { result ≡ bottom_above below }
{
    if below == 0 { 1 } else { 0 }
}
