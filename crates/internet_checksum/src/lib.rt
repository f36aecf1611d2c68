//! The checksum of an RSVP message (RFC 2205, 3.1.1), in the one's complement arithmetic of RFC 1071.
#![tactic(auto)]

mod laws;
mod message;
mod ones;

pub use laws::{
    changed_bytes_are_found, checksums_are_modular, good_messages_sum_to_ones,
    written_checksums_are_good,
};
pub use message::{checksum, has_good_checksum};
