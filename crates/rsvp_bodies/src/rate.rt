ghost use Rattle.std.specs.Prelude.{◌≡◌, ◌≤◌, ◌<◌, ◌^◌, ◌↔◌, IfSome, IsTrue};
ghost use Rattle.rsvp_bodies.specs.Rates.{exponent_of, fraction_of, rate_of, scaled_up, sign_of};

use std::marker::Model;

/// A token bucket rate as the wire has it: an IEEE 754 single precision number of bytes per second, in
/// 32 bits (RFC 2215, 3.6). Contracts see the word as a number.
#[derive(Clone, Copy, Debug, PartialEq, Eq)]
pub struct RateWord {
    bits: u32,
}

impl Model for RateWord {
    ghost use Rattle.std.specs.Prelude.{ℕ};

    ghost Value = { ℕ };

    ghost view = { λ word. word.bits };

    ghost inverse = { λ bits. record { bits = bits } };
}

impl RateWord {
    /// The greatest rate that a word can stand for, in bytes per second: that of the word 0x587fffff.
    pub const MAX_RATE: u64 = 1_125_899_839_733_760;

    /// The word with these bits.
    pub fn from_bits(bits: u32) -> RateWord
        ensures { result ≡ bits }
    {
        RateWord { bits }
    }

    /// The bits of the word.
    pub fn to_bits(self) -> u32
        ensures { result ≡ self }
    {
        self.bits
    }

    /// The rate in whole bytes per second, rounded up. None where the number is negative, or where it
    /// is 2^50 or more, an infinity or no number. A zero of either sign is the rate 0.
    #[tactic(auto, unfolding(crate::specs::Rates::rate_of))]
    pub fn whole(self) -> Option<u64>
        ensures rate { result ≡ rate_of self }
        ensures bound { IfSome result (λ rate. rate ≤ RateWord.MAX_RATE) }
    {
        let exponent = exponent(self.bits);
        let fraction = fraction(self.bits);
        if exponent == 0 && fraction == 0 {
            return Some(0);
        }
        if is_negative(self.bits) || exponent > MAX_EXPONENT {
            return None;
        }
        if exponent == 0 {
            return Some(1);
        }
        Some(scaled_up(HIDDEN_BIT + u64::from(fraction), exponent))
    }
}

/// The bits of the fraction, below those of the exponent (IEEE 754, 3.4).
const FRACTION_BITS: u32 = 23;
/// The fraction's bits in a word.
const FRACTION_MASK: u32 = 0x7f_ffff;
/// The exponent's bits, once they stand lowest.
const EXPONENT_MASK: u32 = 0xff;
/// The place of the sign.
const SIGN_BIT: u32 = 31;
/// The bit above the fraction, which a word leaves out: it is set in each number whose exponent isn't 0.
const HIDDEN_BIT: u64 = 0x80_0000;
/// The exponent of a number whose fraction counts ones: the bias 127 and the fraction's 23 bits.
const EXPONENT_OF_ONES: u32 = 150;
/// The greatest exponent of a rate: the number is below 2^50.
const MAX_EXPONENT: u32 = 176;

fn is_negative(word: u32) -> bool
    ensures { IsTrue result ↔ (sign_of word ≡ 1) }
{
    word >> SIGN_BIT == 1
}

fn exponent(word: u32) -> u32
    ensures { result ≡ exponent_of word }
{
    (word >> FRACTION_BITS) & EXPONENT_MASK
}

fn fraction(word: u32) -> u32
    ensures { result ≡ fraction_of word }
{
    word & FRACTION_MASK
}

/// `significand * 2^(exponent - 150)`, rounded up. Of a significand that is not 0 and has at most 24
/// bits, nothing but a part of 1 is left after a shift by 24 or more.
#[tactic(auto, using(crate::proofs::Rounding::part_of_one, crate::proofs::Rounding::shifted_le))]
fn scaled_up(significand: u64, exponent: u32) -> u64
    requires some { 0 < significand }
    requires fits { significand < 2 ^ 24 }
    requires defined { exponent ≤ 176 }
    ensures rate { result ≡ scaled_up significand exponent }
    ensures bound { result ≤ RateWord.MAX_RATE }
{
    if exponent >= EXPONENT_OF_ONES {
        return significand << (exponent - EXPONENT_OF_ONES);
    }
    let shift = EXPONENT_OF_ONES - exponent;
    if shift > FRACTION_BITS {
        return 1;
    }
    significand.div_ceil(1 << shift)
}
