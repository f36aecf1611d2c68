ghost use Rattle.std.specs.Prelude.{◌≡◌};
ghost use Rattle.label_stacks.specs.Stacks.{IsStack};

use crate::entry::StackEntry;
use arrayvec::ArrayVec;
use std::marker::Model;

/// A stack of at most eight labels, the top first. Contracts see the list of its entries, each of whose numbers
/// fits its field.
#[derive(Debug, Drop)]
pub struct Stack {
    entries: ArrayVec<StackEntry, 8>,
}

impl Model for Stack {
    ghost use Rattle.std.specs.Prelude.{List};
    ghost use Rattle.label_stacks.specs.declared.entry.StackEntry.{StackEntry};
    ghost use Rattle.label_stacks.specs.Stacks.{IsStack};

    ghost Value = { List StackEntry };

    ghost view = { λ s. s.entries.items };

    ghost invariant = { λ s. IsStack s.entries.items };
}

impl Stack {
    /// The most entries of a stack.
    pub const MAX_LEN: usize = 8;

    /// The stack of these entries.
    pub fn new(entries: ArrayVec<StackEntry, 8>) -> Stack
        requires { IsStack entries.items }
        ensures { result ≡ entries.items }
    {
        Stack { entries }
    }

    /// A copy of the stack. Takes no memory.
    pub fn copied(&self) -> Stack
        ensures { result ≡ self.now }
    {
        let mut entries = ArrayVec::new();
        for entry in self.entries.as_slice() {
            entries.push(*entry);
        }
        Stack::new(entries)
    }

    /// The entries, the top first.
    pub fn as_slice(&self) -> &[StackEntry]
        ensures entries { result.now ≡ self.now }
        ensures fits { IsStack self.now }
    {
        self.entries.as_slice()
    }
}
