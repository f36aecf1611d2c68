ghost use Rattle.std.specs.Prelude.{◌≡◌, ◌/◌, length, option_map};
ghost use Rattle.capture_files.specs.Options.{first_option, option_among, option_in};

use crate::endian::Endian;

/// Bytes of an option before its value (draft-ietf-opsawg-pcapng, 3.5).
const OPTION_HEADER_LEN: usize = 4;
/// Where the length of its value stands in an option.
const LENGTH_FIELD: usize = 2;
/// The bytes of a word: lengths of blocks count whole ones, and values of options are filled up to them.
pub(crate) const WORD_LEN: usize = 4;
/// The code that ends the options.
const END_CODE: u16 = 0;

/// An option where it lies, and what follows it.
#[derive(Clone, Copy)]
struct OptionParts<'a> {
    /// Its code.
    code: u16,
    /// Its value.
    value: &'a [u8],
    /// What follows it.
    rest: &'a [u8],
}

/// The first option, if there is one.
#[tactic(auto, unfolding(crate::specs::Options::first_option))]
fn first_option(endian: Endian, bytes: &[u8]) -> Option<OptionParts<'_>>
    ensures { option_map (λ o. record { code = o.code; value = o.value.now; rest = o.rest.now }) result
        ≡ first_option endian bytes.now }
{
    if bytes.len() < OPTION_HEADER_LEN {
        return None;
    }
    let code = endian.read_u16(bytes);
    let value_len = usize::from(endian.read_u16(&bytes[LENGTH_FIELD..]));
    let len = OPTION_HEADER_LEN + (value_len + WORD_LEN - 1) / WORD_LEN * WORD_LEN;
    if bytes.len() < len {
        return None;
    }
    if code == END_CODE {
        return None;
    }
    let (_, rest) = bytes.split_at(OPTION_HEADER_LEN);
    Some(OptionParts {
        code,
        value: &rest[..value_len],
        rest: &bytes[len..],
    })
}

/// The value of the first option of this code.
pub(crate) fn option_of(endian: Endian, code: u16, options: &[u8]) -> Option<&[u8]>
    ensures { option_map (λ value. value.now) result ≡ option_in endian code options.now }
{
    let mut left = options.len() / OPTION_HEADER_LEN;
    let mut rest = options;
    while left > 0 {
        left -= 1;
        let parts = first_option(endian, rest)?;
        if parts.code == code {
            return Some(parts.value);
        }
        rest = parts.rest;
    }
    None
}
