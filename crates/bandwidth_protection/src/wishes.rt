//! What LSPs ask for whose heads want their bandwidth protected (RFC 4090, 4.3).

ghost use Rattle.std.specs.Prelude.{◌≡◌, ◌&&◌, None, Some, if◌then◌else◌};
ghost use Rattle.abstract_paths.specs.Tears.{leaves_by};
ghost use Rattle.abstract_router.specs.Assigning.{rate_in, wants_bandwidth};

use lsr_facts::{PathFact, ResvFact};
use message_rules::leaves_by;

/// The flag of SESSION_ATTRIBUTE that bandwidth protection is desired (RFC 4090, 4.3).
const BANDWIDTH_PROTECTION: u8 = 0x08;

/// Whether the head wants the LSP's bandwidth protected.
#[tactic(auto, using(crate::proofs::Flags::bandwidth_flag))]
pub(crate) fn wants_bandwidth(path: &PathFact) -> bool
    ensures { result ≡ wants_bandwidth path.now }
{
    match &path.attr {
        Some(attr) => attr.flags & BANDWIDTH_PROTECTION != 0,
        None => false,
    }
}

/// The rate that a reservation is for, in bytes per second.
fn rate_in(resv: &ResvFact) -> u64
    ensures { result ≡ rate_in resv.now }
{
    match resv.flowspec.rate() {
        Ok(rate) => rate,
        Err(_) => 0,
    }
}

/// The rate that an LSP asks for, in bytes per second: that of its reservation, where its head wants its bandwidth protected, and
/// its path leaves by the link of its reservation.
pub(crate) fn asked_rate(resv: &ResvFact, path: &PathFact) -> Option<u64>
    ensures { result ≡ if wants_bandwidth path.now && leaves_by resv.now.link path.now then Some (rate_in resv.now) else None }
{
    if !wants_bandwidth(path) || !leaves_by(resv.link, path) {
        return None;
    }
    Some(rate_in(resv))
}
