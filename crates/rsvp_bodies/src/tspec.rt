ghost use Rattle.std.specs.Prelude.{◌≡◌, length, OnOk};
ghost use Rattle.rsvp_bodies.specs.Traffic.{rate_asked, rate_word, tspec_rate};

use crate::{Description, RateWord, TrafficFault, shape, traffic_numbers};
use byteorder::{BigEndian, ByteOrder};

/// The side that sends.
#[derive(Debug, Drop)]
pub struct Sender;

/// A SENDER_TSPEC (class 12, C-Type 2): what a sender says of its traffic (RFC 2210, 3.1).
pub type Tspec = Description<Sender>;

impl Tspec {
    /// The token bucket rate in whole bytes per second, rounded up. The only error is
    /// [`TrafficFault::BadTspec`]: a wrong shape, or a rate that [`RateWord::whole`] refuses.
    ///
    /// [`RateWord::whole`]: crate::RateWord::whole
    #[tactic(auto, unfolding(crate::specs::Traffic::tspec_rate))]
    pub fn rate(&self) -> Result<u64, TrafficFault>
        ensures rate { result ≡ tspec_rate self.now }
        ensures whole { OnOk result (length self.now ≡ 32) }
    {
        shape::rate(self.as_slice(), traffic_numbers::GENERIC_SERVICE).ok_or(TrafficFault::BadTspec)
    }

    /// The rate word, whatever stands beside it (RFC 2210, 3.1). It asks for a body of 32 bytes.
    pub fn rate_word(&self) -> RateWord
        requires { length self.now ≡ 32 }
        ensures { result ≡ rate_word self.now }
    {
        RateWord::from_bits(BigEndian::read_u32(&self.as_slice()[traffic_numbers::RATE_AT..]))
    }

    /// The rate that its word asks for, in whole bytes per second, whatever stands beside it: 0 where the word stands for
    /// none. It asks for a body of 32 bytes.
    pub fn rate_asked(&self) -> u64
        requires { length self.now ≡ 32 }
        ensures { result ≡ rate_asked self.now }
    {
        match self.rate_word().whole() {
            Some(rate) => rate,
            None => 0,
        }
    }
}
