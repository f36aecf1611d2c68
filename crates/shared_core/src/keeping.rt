//! Who keeps a router's journal, and its segments.

ghost use Rattle.std.specs.Prelude.{◌≡◌, ◌+◌, ℕ, true, OnErr, OnOk};
ghost use Rattle.shared_core.specs.Kept.{IsGiven};

use crate::booked::CoreSegment;
use run_journal::Segment;
use std::marker::Model;
use std::sync::ledger::Ledger;
use thiserror::Error;

/// A segment of the journal wasn't kept.
#[derive(Clone, Copy, Debug, PartialEq, Eq, Error)]
#[error("the segment wasn't kept")]
pub struct NotKept;

/// Who keeps the journal of a router, for instance as files.
pub trait KeepSegments {
    // how many segments it has
    ghost given: { Self → ℕ };

    /// Keeps the next segment, whose number is how many there are with it. The error is that it can't be kept: then there are as many
    /// as before.
    fn keep(&mut self, number: u64, segment: &Segment) -> Result<(), NotKept>
        requires { number ≡ given self.old + 1 }
        ensures kept { OnOk result (given self.new ≡ number) }
        ensures unkept { OnErr result (given self.new ≡ given self.old) };
}

/// Counts segments, and lets them go.
#[derive(Clone, Copy, Debug, PartialEq, Eq)]
pub struct SegmentCount {
    /// How many there were.
    pub segments: u64,
}

impl SegmentCount {
    /// None yet.
    pub fn new() -> SegmentCount
        ensures { result.segments ≡ 0 }
    {
        SegmentCount { segments: 0 }
    }
}

impl KeepSegments for SegmentCount {
    ghost given = { λ count. count.segments };

    /// Counts it.
    fn keep(&mut self, number: u64, _segment: &Segment) -> Result<(), NotKept> {
        self.segments = number;
        Ok(())
    }
}

/// A segment that was taken from a router's journal, before it is handed out. It can't be let go: [`KeptJournal::give`] alone takes it.
pub(crate) struct TakenSegment<L: Ledger> {
    segment: CoreSegment<L>,
}

impl<L: Ledger> TakenSegment<L> {
    /// This segment was taken.
    pub(crate) fn new(segment: CoreSegment<L>) -> TakenSegment<L>
        ensures { result.segment ≡ segment }
    {
        TakenSegment { segment }
    }
}

/// Who keeps the segments of a router's journal. Contracts see how many of those that were taken are kept, the first so many, and whether
/// they are all.
#[derive(Drop)]
pub(crate) struct KeptJournal<K: KeepSegments> {
    keeper: K,
    kept: u64,
    are_all: bool,
}

impl<K: KeepSegments> Model for KeptJournal<K> {
    ghost use Rattle.std.specs.Prelude.{◌≡◌};
    ghost use Rattle.shared_core.specs.Kept.{Kept};

    ghost Value = { Kept };

    ghost view = { λ j. record { kept = j.kept; are_all = j.are_all } };

    ghost invariant = { λ j. K.given j.keeper ≡ j.kept };
}

impl<K: KeepSegments> KeptJournal<K> {
    /// No segment was taken yet.
    pub(crate) fn new(keeper: K) -> KeptJournal<K>
        requires { K.given keeper ≡ 0 }
        ensures { (result.kept ≡ 0) × (result.are_all ≡ true) }
    {
        KeptJournal {
            keeper,
            kept: 0,
            are_all: true,
        }
    }

    /// Gives the next segment to who keeps them, by its number, where all before it are kept, and hands it out.
    pub(crate) fn give<L: Ledger>(&mut self, taken: TakenSegment<L>) -> CoreSegment<L>
        ensures given { IsGiven self.old self.new }
        ensures segment { result ≡ taken.segment }
    {
        let TakenSegment { segment } = taken;
        if self.are_all {
            self.offer(segment.as_segment());
        }
        segment
    }

    /// Gives the next segment to who keeps them, by its number.
    fn offer(&mut self, segment: &Segment)
        requires { self.old.are_all ≡ true }
        ensures { IsGiven self.old self.new }
    {
        let Some(number) = self.kept.checked_add(1) else {
            self.are_all = false;
            return;
        };
        match self.keeper.keep(number, segment) {
            Ok(()) => self.kept = number,
            Err(_) => self.are_all = false,
        }
    }

    /// Who keeps the segments, and how many are kept.
    pub(crate) fn into_keeper(self) -> (K, u64)
        ensures keeper { K.given result.0 ≡ result.1 }
        ensures kept { result.1 ≡ self.kept }
    {
        let KeptJournal {
            keeper,
            kept,
            are_all: _,
        } = self;
        (keeper, kept)
    }
}
