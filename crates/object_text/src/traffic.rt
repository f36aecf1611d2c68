//! What a SENDER_TSPEC and a FLOWSPEC say (RFC 2210, 3.1 and 3.2).
ghost use Rattle.std.specs.Prelude.{◌≡◌, ◌+◌, ◌++◌, ◌≤◌, OnOk, length, string_bytes};
ghost use Rattle.object_text.specs.Traffic.{amount_text, amount_words, bucket_words, rate_bytes, service_name, service_words, sizes_words, traffic_words, word_at};

use crate::words::{push_next, push_word};
use byteorder::{BigEndian, ByteOrder};
use rsvp_bodies::RateWord;
use std::alloc::{AllocError, Global};
use std::fmt::Write;

/// The length of a body that is a token bucket, in bytes (RFC 2210, 3.1).
const BODY_LEN: usize = 32;
/// Where the service stands in it.
const SERVICE_AT: usize = 4;
/// Where the token bucket rate r stands.
const RATE_AT: usize = 12;
/// The bytes of a rate.
const RATE_LEN: usize = 4;
/// Where the bucket's size b stands.
const BUCKET_AT: usize = 16;
/// Where the peak rate p stands.
const PEAK_AT: usize = 20;
/// Where the minimum policed unit m stands.
const MIN_AT: usize = 24;
/// Where the maximum packet size M stands.
const MAX_AT: usize = 28;
/// The IEEE 754 word of plus infinity.
const INFINITY: u32 = 0x7f80_0000;

/// The bytes of the token bucket rate in the body of a SENDER_TSPEC or a FLOWSPEC; fewer where the body ends before.
pub fn rate_bytes(body: &[u8]) -> &[u8]
    ensures { result.now ≡ rate_bytes body.now }
{
    let start = body.len().min(RATE_AT);
    let end = body.len().min(RATE_AT + RATE_LEN);
    &body[start..end]
}

/// Appends what the word stands for, as a whole number, rounded up.
#[tactic(auto, unfolding(crate::specs::Traffic::amount_text))]
fn push_amount_text(text: &mut String, word: RateWord) -> Result<(), AllocError>
    ensures { OnOk result (string_bytes text.new ≡ string_bytes text.old ++ amount_text word) }
{
    if word.to_bits() == INFINITY {
        return text.push_str("infinite");
    }
    match word.whole() {
        Some(number) => write!(text, "{number}"),
        None => text.push_str("none"),
    }
}

/// Appends a rate or a size under its name: the word's hexadecimal digits, and what it stands for in bytes.
#[tactic(auto, unfolding(crate::specs::Traffic::amount_words))]
pub(crate) fn push_amount(
    alloc: Global,
    text: &mut String,
    name: &str,
    word: RateWord,
) -> Result<(), AllocError>
    ensures { OnOk result (string_bytes text.new ≡ string_bytes text.old ++ amount_words name.now word) }
{
    write!(text, " {name} ")?;
    push_word(alloc, text, word.to_bits())?;
    text.push_str(" ")?;
    push_amount_text(text, word)
}

/// The name of the service (RFC 2210, 3.1; RFC 2211; RFC 2212); empty where it isn't known.
#[tactic(auto, unfolding(crate::specs::Traffic::service_name))]
fn service_name(service: u8) -> &'static str
    ensures { result.now ≡ service_name service }
{
    match service {
        1 => "general",
        2 => "guaranteed",
        5 => "controlled-load",
        _ => "",
    }
}

/// Appends the service.
#[tactic(auto, unfolding(crate::specs::Traffic::service_words))]
fn push_service(text: &mut String, service: u8) -> Result<(), AllocError>
    ensures { OnOk result (string_bytes text.new ≡ string_bytes text.old ++ service_words service) }
{
    write!(text, " service {service}")?;
    push_next(text, service_name(service))
}

/// Appends the amount of the word at this place of the body.
fn push_amount_at(
    alloc: Global,
    text: &mut String,
    name: &str,
    body: &[u8],
    place: usize,
) -> Result<(), AllocError>
    requires { place + 4 ≤ length body.now }
    ensures { OnOk result (string_bytes text.new ≡ string_bytes text.old ++ amount_words name.now (word_at place body.now)) }
{
    let word = BigEndian::read_u32(&body[place..]);
    push_amount(alloc, text, name, RateWord::from_bits(word))
}

/// Appends the token bucket's rates and its size.
#[tactic(auto, unfolding(crate::specs::Traffic::bucket_words))]
fn push_bucket(alloc: Global, text: &mut String, body: &[u8]) -> Result<(), AllocError>
    requires { length body.now ≡ 32 }
    ensures { OnOk result (string_bytes text.new ≡ string_bytes text.old ++ bucket_words body.now) }
{
    push_amount_at(alloc, text, "rate", body, RATE_AT)?;
    push_amount_at(alloc, text, "bucket", body, BUCKET_AT)?;
    push_amount_at(alloc, text, "peak", body, PEAK_AT)
}

/// Appends the sizes of packets, in bytes.
#[tactic(auto, unfolding(crate::specs::Traffic::sizes_words))]
fn push_sizes(text: &mut String, body: &[u8]) -> Result<(), AllocError>
    requires { length body.now ≡ 32 }
    ensures { OnOk result (string_bytes text.new ≡ string_bytes text.old ++ sizes_words body.now) }
{
    let min = BigEndian::read_u32(&body[MIN_AT..]);
    let max = BigEndian::read_u32(&body[MAX_AT..]);
    write!(text, " min {min} max {max}")
}

/// Appends what the body of a SENDER_TSPEC or a FLOWSPEC says; of a body that is no token bucket its length in bytes.
#[tactic(auto, unfolding(crate::specs::Traffic::traffic_words))]
pub(crate) fn push_traffic(alloc: Global, text: &mut String, body: &[u8]) -> Result<(), AllocError>
    ensures { OnOk result (string_bytes text.new ≡ string_bytes text.old ++ traffic_words body.now) }
{
    let len = body.len();
    if len != BODY_LEN {
        return write!(text, " length {len}");
    }
    push_service(text, body[SERVICE_AT])?;
    push_bucket(alloc, text, body)?;
    push_sizes(text, body)
}
