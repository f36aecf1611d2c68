ghost use Rattle.std.specs.Prelude.{◌≡◌, ◌<◌, ◌^◌, ◌++◌, OnOk};
ghost use Rattle.byteorder.specs.Endian.{big_bytes};
ghost use Rattle.body_fields.specs.Protection.{sets_bytes, sets_of};

use crate::octets::{put_byte, put_three};
use field_bytes::{Byte, Field, Made, Making, Pair, Put, ReadFault, Word, Writing};
use rsvp_bodies::{Affinities, RateWord};
use rsvp_objects::FastReroute;
use std::alloc::{AllocError, Global};

/// How protection is spelled: as in the body of a FAST_REROUTE.
pub struct ProtectionParts;

/// Protection that is asked for: the body of a FAST_REROUTE (RFC 4090, 4.1).
pub type ProtectionField = Made<ProtectionParts>;

/// Include-any, exclude-any and include-all.
type Sets = Pair<Word, Pair<Word, Word>>;

impl Making for ProtectionParts {
    ghost use Rattle.std.specs.Prelude.{refl};
    ghost use Rattle.rsvp_objects.specs.Values.{fast_reroute_body};
    ghost use Rattle.body_fields.specs.Protection.{protection_parts, protection_told};

    type Parts = Pair<Byte, Pair<Byte, Pair<Byte, Pair<Byte, Pair<Word, Sets>>>>>;

    type Whole = FastReroute;

    ghost Allows = { λ protection. Unit {0} };

    ghost back = { protection_parts };

    ghost spelling = { fast_reroute_body };

    ghost told = { protection_told };

    ghost spelled = { λ protection. refl };

    fn make(
        _alloc: Global,
        parts: (u8, (u8, (u8, (u8, (u32, (u32, (u32, u32))))))),
    ) -> Result<FastReroute, ReadFault> {
        let (setup, (hold, (hop_limit, (flags, (rate, sets))))) = parts;
        let (include_any, (exclude_any, include_all)) = sets;
        Ok(FastReroute {
            setup,
            hold,
            hop_limit,
            flags,
            bandwidth: RateWord::from_bits(rate),
            affinities: Affinities {
                exclude_any,
                include_any,
                include_all,
            },
        })
    }
}

/// Appends the three sets of affinities.
fn put_sets(affinities: Affinities, out: &mut Vec<u8>) -> Result<(), AllocError>
    ensures ok { OnOk result (out.new.items ≡ out.old.items ++ sets_bytes affinities) }
    ensures fits { OnOk result (⟦<Sets as Field>⟧.Fits (sets_of affinities)) }
{
    Word::put(&affinities.include_any, out)?;
    Word::put(&affinities.exclude_any, out)?;
    Word::put(&affinities.include_all, out)
}

/// Appends a rate word.
fn put_rate(rate: RateWord, out: &mut Vec<u8>) -> Result<(), AllocError>
    ensures ok { OnOk result (out.new.items ≡ out.old.items ++ big_bytes 4 rate) }
    ensures fits { rate < 2 ^ 32 }
{
    let bits = rate.to_bits();
    Word::put(&bits, out)
}

/// Appends the rate and the sets of affinities.
fn put_traffic(protection: &FastReroute, out: &mut Vec<u8>) -> Result<(), AllocError>
    ensures ok { OnOk result (out.new.items ≡ out.old.items ++ (big_bytes 4 protection.now.bandwidth ++ sets_bytes protection.now.affinities)) }
    ensures fits { OnOk result (⟦<Pair<Word, Sets> as Field>⟧.Fits (protection.now.bandwidth, sets_of protection.now.affinities)) }
{
    put_rate(protection.bandwidth, out)?;
    put_sets(protection.affinities, out)
}

impl Writing for ProtectionParts {
    fn put_parts(protection: &FastReroute, out: &mut Vec<u8>) -> Result<(), AllocError> {
        put_three(protection.setup, protection.hold, protection.hop_limit, out)?;
        put_byte(protection.flags, out)?;
        put_traffic(protection, out)
    }
}
