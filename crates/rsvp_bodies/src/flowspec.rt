ghost use Rattle.std.specs.Prelude.{◌≡◌, ◌≤◌, ℕ, length, IfOk, Ok, OnOk};
ghost use Rattle.rsvp_bodies.specs.Traffic.{flowspec_of, flowspec_rate, tspec_rate};

use crate::{Body, Description, TrafficFault, Tspec, shape, traffic_numbers};
use std::alloc::{AllocError, Global};

/// The side that receives.
#[derive(Debug, Drop)]
pub struct Receiver;

/// A FLOWSPEC (class 9, C-Type 2): what a receiver asks for (RFC 2210, 3.2).
pub type Flowspec = Description<Receiver>;

impl Flowspec {
    /// The FLOWSPEC that asks for controlled load for the traffic of a SENDER_TSPEC: the same body with
    /// that service. The only error is out of memory.
    pub fn of_tspec(alloc: Global, tspec: &Tspec) -> Result<Flowspec, AllocError>
        // Two words: the second names the service.
        requires { 8 ≤ length tspec.now }
        ensures body { IfOk result (λ flowspec. flowspec ≡ flowspec_of tspec.now) }
        ensures rate { IfOk result (λ flowspec. (rate : ℕ) → tspec_rate tspec.now ≡ Ok rate → flowspec_rate flowspec ≡ Ok rate) }
    {
        let mut bytes = Vec::from_slice(alloc, tspec.as_slice())?;
        bytes[traffic_numbers::SERVICE_AT] = traffic_numbers::CONTROLLED_LOAD;
        Ok(Flowspec::from_body(Body::from_vec(bytes)))
    }

    /// The token bucket rate in whole bytes per second, rounded up. Another service than controlled load
    /// is [`TrafficFault::ServiceUnsupported`]; it is looked at before the rest of the shape. Fewer than
    /// two words, which name no service, another wrong shape, and a rate that [`RateWord::whole`] refuses
    /// are [`TrafficFault::BadFlowspec`].
    ///
    /// [`RateWord::whole`]: crate::RateWord::whole
    #[tactic(auto, unfolding(crate::specs::Traffic::flowspec_rate))]
    pub fn rate(&self) -> Result<u64, TrafficFault>
        ensures rate { result ≡ flowspec_rate self.now }
        ensures whole { OnOk result (length self.now ≡ 32) }
    {
        let body = self.as_slice();
        if body.len() < traffic_numbers::LEN_WITH_SERVICE {
            return Err(TrafficFault::BadFlowspec);
        }
        if body[traffic_numbers::SERVICE_AT] != traffic_numbers::CONTROLLED_LOAD {
            return Err(TrafficFault::ServiceUnsupported);
        }
        shape::rate(body, traffic_numbers::CONTROLLED_LOAD).ok_or(TrafficFault::BadFlowspec)
    }
}
