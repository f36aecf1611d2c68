//! Moves of chance: the same for the same seed.

/// The multiplier and the increment of a linear congruential generator of 64 bits (Knuth, MMIX).
const MULTIPLIER: u64 = 6_364_136_223_846_793_005;

const INCREMENT: u64 = 1_442_695_040_888_963_407;

/// How many low bits of a number aren't used: they vary least.
const LOW_BITS: u32 = 33;

/// Numbers of chance.
#[derive(Drop)]
pub(crate) struct Chance {
    state: u64,
}

impl Chance {
    /// Those of this seed.
    pub(crate) fn new(seed: u64) -> Chance {
        Chance { state: seed }
    }

    /// The next one below the bound; 0 where there is none.
    pub(crate) fn below(&mut self, bound: usize) -> usize {
        self.state = self.state.wrapping_mul(MULTIPLIER).wrapping_add(INCREMENT);
        ((self.state >> LOW_BITS) as usize)
            .checked_rem(bound)
            .unwrap_or(0)
    }
}
