//! The moments of a router's clock, as real time goes by.
ghost use Rattle.std.specs.Prelude.{◌≡◌};

use lsr_serve::TICK_MS;
use std::io;
use std::time::{Clock, Instant};

/// The moments of a router's clock, 100 milliseconds apart by the system's. A moment that is late is made up for.
#[derive(Drop)]
pub struct Pace {
    started: Instant,
    /// The moment that comes next, in milliseconds since the start.
    next: u64,
    /// Whether the clock couldn't be read.
    failed: bool,
}

impl Pace {
    /// It starts now; the first moment is 100 milliseconds from now. The error is that the clock can't be read.
    pub fn start<C: Clock>(clock: &C) -> io::Result<Pace> {
        Ok(Pace {
            started: Instant::now(clock)?,
            next: TICK_MS,
            failed: false,
        })
    }

    /// The moment that comes next, in milliseconds since the start.
    pub fn next(&self) -> u64
        ensures { result ≡ self.now.next }
    {
        self.next
    }

    /// How long the next moment is away, in milliseconds: 0 where it has come. Where the clock can't be read it is as long as between two
    /// moments, and [`Pace::has_failed`] from then on.
    pub fn wait_ms<C: Clock>(&mut self, clock: &C) -> u64 {
        let Ok(gone) = self.started.elapsed(clock) else {
            self.failed = true;
            return TICK_MS;
        };
        match u64::try_from(gone.as_millis()) {
            Ok(gone_ms) => self.next.saturating_sub(gone_ms),
            Err(_) => 0,
        }
    }

    /// Whether the clock couldn't be read: then no moment comes any more.
    pub fn has_failed(&self) -> bool
        ensures { result ≡ self.now.failed }
    {
        self.failed
    }

    /// The next moment comes: which it is, in milliseconds since the start.
    pub fn pass(&mut self) -> u64
        ensures { result ≡ self.old.next }
    {
        let moment = self.next;
        self.next = moment.saturating_add(TICK_MS);
        moment
    }
}
