ghost use Rattle.std.specs.Prelude.{◌≡◌, Some, IfOk, length};
ghost use Rattle.rsvp_bodies.specs.TokenBuckets.{rate_word_of};
ghost use Rattle.rsvp_bodies.specs.Finding.{Finds};
ghost use Rattle.rsvp_bodies.specs.RateWords.{IsRateText, tspec_with};

use crate::{Body, RateWord, Tspec, traffic_numbers};
use std::alloc::{AllocError, Global};

/// How many digits write a rate.
const RATE_DIGITS: usize = 8;

/// The base that they are written in.
const HEX: u32 = 16;

/// What may stand before a number that is parsed, but not before a rate.
const PLUS: char = '+';

/// What stands before the rate in a description of traffic: how many words are after each of its three headers (RFC 2210,
/// 3.1).
const HEADERS: [u8; 12] = [
    traffic_numbers::FORMAT_VERSION,
    0,
    0,
    traffic_numbers::OVERALL_WORDS as u8,
    traffic_numbers::GENERIC_SERVICE,
    0,
    0,
    traffic_numbers::SERVICE_WORDS as u8,
    traffic_numbers::TOKEN_BUCKET,
    0,
    0,
    traffic_numbers::TOKEN_BUCKET_WORDS as u8,
];

/// A peak rate that is infinite, as the bits of an IEEE 754 number (RFC 2215, 3.6).
const NO_PEAK: [u8; 4] = [0x7f, 0x80, 0, 0];

/// The least size that a packet counts as, 64 bytes, and the greatest that one has, 1,500 bytes.
const PACKET_SIZES: [u8; 8] = [0, 0, 0, 64, 0, 0, 5, 0xdc];

/// The rate that the text writes: the eight hexadecimal digits of its 32 bits, of either case.
pub fn read_rate(text: &str) -> Option<RateWord>
    ensures { Finds (IsRateText text.now) result }
{
    if text.len() != RATE_DIGITS || text.starts_with(PLUS) {
        return None;
    }
    match u32::from_str_radix(text, HEX) {
        Ok(bits) => Some(RateWord::from_bits(bits)),
        Err(_) => None,
    }
}

/// What a sender says of traffic of this rate, in bytes per second: a token bucket with it as its rate and its size, no
/// peak, and packets of 64 to 1,500 bytes (RFC 2210, 3.1). The only error is out of memory.
pub fn tspec_of(alloc: Global, rate: RateWord) -> Result<Tspec, AllocError>
    ensures bytes { IfOk result (λ tspec. tspec ≡ tspec_with rate) }
    ensures rate { IfOk result (λ tspec. rate_word_of 1 tspec ≡ Some rate) }
    ensures whole { IfOk result (λ tspec. length tspec ≡ 32) }
{
    let rate = rate.to_bits().to_be_bytes();
    let mut bytes = Vec::new(alloc);
    bytes.extend_from_slice(&HEADERS)?;
    bytes.extend_from_slice(&rate)?;
    bytes.extend_from_slice(&rate)?;
    bytes.extend_from_slice(&NO_PEAK)?;
    bytes.extend_from_slice(&PACKET_SIZES)?;
    Ok(Tspec::from_body(Body::from_vec(bytes)))
}
