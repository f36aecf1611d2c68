ghost use Rattle.std.specs.Prelude.{◌≡◌, ◌<◌, ◌++◌, ◌∷◌, [], length};

use arrayvec::ArrayVec;
use lsr_facts::limits::MAX_BYPASSES;
use std::marker::Model;

/// Numbers of bypasses, at most as many as a router keeps. Contracts see the list of them.
#[derive(Debug, Drop)]
pub struct Candidates {
    numbers: ArrayVec<u16, MAX_BYPASSES>,
}

impl Model for Candidates {
    ghost use Rattle.std.specs.Prelude.{List, ℕ};

    ghost Value = { List ℕ };

    ghost view = { λ c. c.numbers.items };
}

impl Candidates {
    /// None.
    pub fn new() -> Candidates
        ensures { result ≡ [] }
    {
        Candidates {
            numbers: ArrayVec::new(),
        }
    }

    /// One more, behind the others. It asks that there is room.
    pub fn push(&mut self, number: u16)
        requires { length self.old < MAX_BYPASSES }
        ensures { self.new ≡ self.old ++ number ∷ [] }
    {
        self.numbers.push(number);
    }

    /// The numbers, in their order.
    pub fn as_slice(&self) -> &[u16]
        ensures { result.now ≡ self.now }
    {
        self.numbers.as_slice()
    }
}

/// What an LSP asks for: bandwidth for its repair, of one of these bypasses (RFC 4090, 4.3).
#[derive(Debug, Drop)]
pub struct Wish {
    /// Bytes per second.
    pub rate: u64,
    /// The bypasses that it may be assigned bandwidth of, the best first. Each has a capacity above 0.
    pub bypasses: Candidates,
}
