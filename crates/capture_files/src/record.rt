ghost use Rattle.std.specs.Prelude.{◌≡◌, ◌≤◌, ◌+◌, length, None, Some, IfErr, IfOk};
ghost use Rattle.capture_files.specs.Packets.{seen};
ghost use Rattle.capture_files.specs.Records.{captured_len, classic_in, header_fault, magic_in, record_fault, record_in};

use crate::endian::Endian;
use crate::fault::Damage;
use crate::packet::Packet;
use byteorder::{BigEndian, ByteOrder};
use std::time::Duration;

/// Bytes of a record before its packet (draft-ietf-opsawg-pcap, 5).
pub(crate) const RECORD_HEADER_LEN: usize = 16;
/// The magic number of a file whose times are in microseconds, written by a machine with the highest byte first.
const MICROS_BIG: u32 = 0xa1b2_c3d4;
/// The same, with the lowest byte first.
const MICROS_LITTLE: u32 = 0xd4c3_b2a1;
/// The magic number of a file whose times are in nanoseconds, with the highest byte first.
const NANOS_BIG: u32 = 0xa1b2_3c4d;
/// The same, with the lowest byte first.
const NANOS_LITTLE: u32 = 0x4d3c_b2a1;
/// Nanoseconds of a microsecond.
const NANOS_PER_MICRO: u16 = 1_000;
/// Nanoseconds of a second.
const NANOS_PER_SECOND: u64 = 1_000_000_000;
/// Where the fraction of the second stands in a record.
const FRACTION_FIELD: usize = 4;
/// Where the captured length stands in a record.
const CAPTURED_FIELD: usize = 8;
/// Where the original length stands in a record.
const ORIGINAL_FIELD: usize = 12;

/// What the header of a classic pcap file says of its records.
#[derive(Clone, Copy)]
pub(crate) struct Classic {
    /// The byte order of its numbers.
    pub endian: Endian,
    /// The nanoseconds of a unit of the fraction of a second: 1000 or 1.
    pub unit: u16,
    /// The link type of its packets.
    pub link_type: u16,
}

/// The byte order, and the nanoseconds of a unit of the fraction of a second, by the magic number. None where the file is no
/// classic pcap file.
pub(crate) fn magic_of(bytes: &[u8]) -> Option<(Endian, u16)>
    requires { 4 ≤ length bytes.now }
    ensures { result ≡ magic_in bytes.now }
{
    match BigEndian::read_u32(bytes) {
        MICROS_BIG => Some((Endian::Big, NANOS_PER_MICRO)),
        MICROS_LITTLE => Some((Endian::Little, NANOS_PER_MICRO)),
        NANOS_BIG => Some((Endian::Big, 1)),
        NANOS_LITTLE => Some((Endian::Little, 1)),
        _ => None,
    }
}

/// The packet of the first record, which gets this number.
#[tactic(auto, unfolding(crate::specs::Records::record_fault))]
pub(crate) fn read_record(form: Classic, number: usize, bytes: &[u8]) -> Result<Packet<'_>, Damage>
    ensures fault { IfErr result (λ damage. record_fault form bytes.now ≡ Some damage) }
    ensures packet { IfOk result (λ p. (record_fault form bytes.now ≡ None) × (seen p ≡ record_in form bytes.now)) }
    ensures number { IfOk result (λ p. p.number ≡ number) }
    ensures len { IfOk result (λ p. length p.bytes.now ≡ captured_len form bytes.now) }
    ensures fits { IfOk result (λ p. 16 + length p.bytes.now ≤ length bytes.now) }
{
    if bytes.len() < RECORD_HEADER_LEN {
        return Err(Damage::Short);
    }
    let (_, rest) = bytes.split_at(RECORD_HEADER_LEN);
    let captured_len = form.endian.read_u32(&bytes[CAPTURED_FIELD..]) as usize;
    if rest.len() < captured_len {
        return Err(Damage::Short);
    }
    let seconds = u64::from(form.endian.read_u32(bytes));
    let fraction = u64::from(form.endian.read_u32(&bytes[FRACTION_FIELD..]));
    let nanos = seconds * NANOS_PER_SECOND + fraction * u64::from(form.unit);
    Ok(Packet {
        number,
        time: Some(Duration::from_nanos(nanos)),
        link_type: form.link_type,
        bytes: &rest[..captured_len],
        original_len: form.endian.read_u32(&bytes[ORIGINAL_FIELD..]),
    })
}
