ghost use Rattle.std.specs.Prelude.{◌≡◌, ◌≤◌, length};
ghost use Rattle.std.specs.Option.{IfNone};
ghost use Rattle.rsvp_contents.specs.Spelling.{is_read_type, header_fault};

use byteorder::{BigEndian, ByteOrder};
use internet_checksum::has_good_checksum;
use rsvp_contents::Dropped;
use rsvp_contents::numbers::{HEADER_LEN, MAX_MESSAGE_LEN, TYPE_PATH, TYPE_RESV_TEAR, VERSION};

/// Where the length field of the common header stands (RFC 2205, 3.1.1).
const LENGTH_FIELD: usize = 6;
/// The version stands above this many bits of flags (RFC 2205, 3.1.1).
const FLAG_BITS: u32 = 4;

/// Whether messages of this type are read here.
fn is_read_type(kind: u8) -> bool
    ensures { result ≡ is_read_type kind }
{
    kind >= TYPE_PATH && kind <= TYPE_RESV_TEAR
}

/// The first fault of the message's common header (RFC 2205, 3.1.1).
#[tactic(auto, unfolding(rsvp_contents::specs::Spelling::header_fault))]
pub fn header_fault(bytes: &[u8]) -> Option<Dropped>
    ensures fault { result ≡ header_fault bytes.now }
    ensures enough { IfNone result (8 ≤ length bytes.now) }
{
    if bytes.len() < HEADER_LEN {
        return Some(Dropped::Short);
    }
    if bytes[0] >> FLAG_BITS != VERSION {
        return Some(Dropped::Version);
    }
    if bytes.len() > MAX_MESSAGE_LEN {
        return Some(Dropped::TooLong);
    }
    if usize::from(BigEndian::read_u16(&bytes[LENGTH_FIELD..])) != bytes.len() {
        return Some(Dropped::LengthField);
    }
    if !has_good_checksum(bytes) {
        return Some(Dropped::Checksum);
    }
    if !is_read_type(bytes[1]) {
        return Some(Dropped::KindUnsupported);
    }
    None
}
