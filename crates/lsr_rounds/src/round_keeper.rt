//! Who keeps a journal, and ends a round with each segment.
ghost use Rattle.std.specs.Prelude.{◌≡◌};

use lsr_serve::RoundFlag;
use lsr_serve::workers::{KeepSegments, NotKept, Segment};

/// Gives each segment to who keeps the journal, and ends the round: so a round has few segments, and what it left is given up soon.
#[derive(Drop)]
pub struct RoundKeeper<'a, K: KeepSegments + Drop> {
    /// Who keeps the journal.
    pub keeper: K,
    /// The round that ends.
    pub round: &'a RoundFlag,
}

impl<'a, K: KeepSegments + Drop> RoundKeeper<'a, K> {
    /// Gives segments to this one.
    pub fn new(keeper: K, round: &'a RoundFlag) -> RoundKeeper<'a, K>
        ensures { result.keeper ≡ keeper }
    {
        RoundKeeper { keeper, round }
    }
}

impl<K: KeepSegments + Drop> KeepSegments for RoundKeeper<'_, K> {
    ghost given = { λ k. K.given k.keeper };

    fn keep(&mut self, number: u64, segment: &Segment) -> Result<(), NotKept> {
        self.round.end();
        self.keeper.keep(number, segment)
    }
}
