//! What became of what a worker took, and how it is counted.

ghost use Rattle.std.specs.Prelude.{◌≡◌, ◌+◌, ◌-◌, ◌^◌, ◌<◌};
ghost use Rattle.worker_tallies.specs.Tallies.{counted, handled_for, no_tally, with_lost};

use lsr_facts::Refusal;

/// The least number of a refusal for the router's own reasons: no memory.
const FIRST_OWN_REASON: u8 = 40;
/// The greatest one: the port is another one's.
const LAST_OWN_REASON: u8 = 43;

/// What became of what a worker's turn took.
#[derive(Clone, Copy, Debug, PartialEq, Eq)]
pub enum Handled {
    /// Nothing came.
    Nothing,
    /// The wire failed that was asked for a frame, and gave nothing.
    WireFailed,
    /// An event was fed: its receipt is kept.
    Fed,
    /// A datagram or an event was dropped for its fault: numbers 1 to 9, 13 and 14.
    Dropped(Refusal),
    /// A datagram or an event was refused for the router's own reasons, numbers 40 to 43.
    Refused(Refusal),
    /// A labelled frame was sent on.
    Forwarded,
    /// A payload has arrived.
    Delivered,
    /// A labelled frame was dropped: its reader wasn't shown the label table.
    NotShown,
    /// A labelled frame was dropped: the wire didn't carry it on.
    NotCarried,
}

impl Handled {
    /// What becomes of what is refused so.
    pub fn of_refusal(refusal: Refusal) -> Handled
        ensures { result ≡ handled_for refusal }
    {
        let number = refusal.number();
        if FIRST_OWN_REASON <= number && number <= LAST_OWN_REASON {
            Handled::Refused(refusal)
        } else {
            Handled::Dropped(refusal)
        }
    }
}

/// How many datagrams and events became what, and how many frames the wire failed to carry. Each datagram is counted as one of dropped,
/// passed, fed and refused.
#[derive(Clone, Copy, Debug, PartialEq, Eq)]
pub struct Tally {
    /// How many datagrams came; of a port without a wire, how many events were handed in.
    pub datagrams: u64,
    /// How many of them were dropped: for their faults (refusals 1 to 9, 13 and 14), since the label table wasn't shown, or since the wire
    /// didn't carry them on.
    pub dropped: u64,
    /// How many went on by their labels, or have arrived as payloads.
    pub passed: u64,
    /// How many were fed: each has a receipt.
    pub fed: u64,
    /// How many were refused for the router's own reasons (40 to 43).
    pub refused: u64,
    /// How many frames the wire was given and failed to carry.
    pub lost: u64,
    /// How often the wire failed that was asked for a frame.
    pub faults: u64,
}

impl Tally {
    /// Nothing is counted yet.
    pub fn new() -> Tally
        ensures { result ≡ no_tally }
    {
        Tally {
            datagrams: 0,
            dropped: 0,
            passed: 0,
            fed: 0,
            refused: 0,
            lost: 0,
            faults: 0,
        }
    }

    /// Counts what was taken by what became of it.
    pub fn count(&mut self, handled: Handled)
        requires sum { self.old.datagrams ≡ self.old.dropped + self.old.passed + self.old.fed + self.old.refused }
        requires room { self.old.datagrams < 2 ^ 64 - 1 }
        ensures { self.new ≡ counted self.old handled }
    {
        match handled {
            Handled::Nothing => {}
            Handled::WireFailed => self.faults = self.faults.saturating_add(1),
            Handled::Fed => {
                self.datagrams += 1;
                self.fed += 1;
            }
            Handled::Refused(_) => {
                self.datagrams += 1;
                self.refused += 1;
            }
            Handled::Forwarded | Handled::Delivered => {
                self.datagrams += 1;
                self.passed += 1;
            }
            Handled::Dropped(_) | Handled::NotShown | Handled::NotCarried => {
                self.datagrams += 1;
                self.dropped += 1;
            }
        }
    }

    /// Counts frames that are lost.
    pub fn lose(&mut self, lost: u64)
        ensures { self.new ≡ with_lost self.old lost }
    {
        self.lost = self.lost.saturating_add(lost);
    }
}
