//! Whether a round of a run is over.

use std::sync::atomic::{AtomicU64, Ordering};

/// A round goes on.
const GOES_ON: u64 = 0;
/// A round is over.
const OVER: u64 = 1;

/// Whether a round of a run is over, as all threads that serve in it see it. Whoever has done enough in the round ends it for all.
#[derive(Drop)]
pub struct RoundFlag {
    word: AtomicU64,
}

impl RoundFlag {
    /// A round goes on.
    pub fn new() -> RoundFlag {
        RoundFlag {
            word: AtomicU64::new(GOES_ON),
        }
    }

    /// The next round begins.
    pub fn begin(&self) {
        self.word.store(GOES_ON, Ordering::SeqCst);
    }

    /// The round is over.
    pub fn end(&self) {
        self.word.store(OVER, Ordering::SeqCst);
    }

    /// Whether the round is over.
    pub fn is_over(&self) -> bool {
        self.word.load(Ordering::SeqCst) == OVER
    }
}
