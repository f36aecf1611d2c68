//! An error of a reservation, as it is told.

ghost use Rattle.std.specs.Prelude.{◌≡◌};
ghost use Rattle.abstract_router.specs.Outcomes.{reservation_error};
ghost use Rattle.abstract_router.specs.Reserving.{traffic_error};

use crate::messages::found_here;
use lsr_facts::{Router, RsvpError};
use rsvp_bodies::TrafficFault;
use rsvp_objects::ErrorSpec;

/// The flag of an error that the LSP is reserved still (RFC 2205, A.5).
const IN_PLACE: u8 = 0x01;

/// The error of a FLOWSPEC that has no rate.
pub fn traffic_error(fault: TrafficFault) -> RsvpError
    ensures { result ≡ traffic_error fault }
{
    match fault {
        TrafficFault::ServiceUnsupported => RsvpError::UNSUPPORTED_SERVICE,
        TrafficFault::BadFlowspec => RsvpError::BAD_FLOWSPEC,
        TrafficFault::BadTspec => RsvpError::BAD_FLOWSPEC,
    }
}

/// An error that this router found, of an LSP that is reserved still, or isn't (RFC 2205, A.5).
pub fn reservation_error(router: &Router, is_reserved: bool, error: RsvpError) -> ErrorSpec
    ensures { result ≡ reservation_error router.now is_reserved error }
{
    ErrorSpec {
        flags: if is_reserved { IN_PLACE } else { 0 },
        ..found_here(router, error)
    }
}
