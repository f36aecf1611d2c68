//! The shape that both traffic descriptions have, each for a service of its own.

ghost use Rattle.std.specs.Prelude.{◌≡◌, length, OnSome};
ghost use Rattle.std.specs.Bool.{OnTrue};
ghost use Rattle.rsvp_bodies.specs.TokenBuckets.{has_shape, rate_word_of, token_rate};

use crate::{RateWord, traffic_numbers};
use byteorder::{BigEndian, ByteOrder};

/// Whether the body is a token bucket for this service. Bits outside the tested fields are free.
#[tactic(auto, unfolding(crate::specs::TokenBuckets::has_shape))]
fn has_shape(body: &[u8], service: u8) -> bool
    ensures shape { result ≡ has_shape service body.now }
    ensures whole { OnTrue result (length body.now ≡ 32) }
{
    body.len() == traffic_numbers::BODY_LEN
        && body[traffic_numbers::VERSION_AT] >> traffic_numbers::VERSION_SHIFT
            == traffic_numbers::FORMAT_VERSION
        && BigEndian::read_u16(&body[traffic_numbers::OVERALL_WORDS_AT..])
            == traffic_numbers::OVERALL_WORDS
        && body[traffic_numbers::SERVICE_AT] == service
        && BigEndian::read_u16(&body[traffic_numbers::SERVICE_WORDS_AT..])
            == traffic_numbers::SERVICE_WORDS
        && body[traffic_numbers::PARAMETER_AT] == traffic_numbers::TOKEN_BUCKET
        && BigEndian::read_u16(&body[traffic_numbers::PARAMETER_WORDS_AT..])
            == traffic_numbers::TOKEN_BUCKET_WORDS
}

/// The token bucket rate of a body of the service's shape, as the wire has it.
#[tactic(auto, unfolding(crate::specs::TokenBuckets::rate_word_of))]
pub(crate) fn rate_word(body: &[u8], service: u8) -> Option<RateWord>
    ensures word { result ≡ rate_word_of service body.now }
    ensures whole { OnSome result (length body.now ≡ 32) }
{
    if !has_shape(body, service) {
        return None;
    }
    let bits = BigEndian::read_u32(&body[traffic_numbers::RATE_AT..]);
    Some(RateWord::from_bits(bits))
}

/// That rate in whole bytes per second, rounded up.
#[tactic(auto, unfolding(crate::specs::TokenBuckets::token_rate))]
pub(crate) fn rate(body: &[u8], service: u8) -> Option<u64>
    ensures rate { result ≡ token_rate service body.now }
    ensures whole { OnSome result (length body.now ≡ 32) }
{
    rate_word(body, service)?.whole()
}
