ghost use Rattle.rsvp_bodies.specs.Finding.{Finds};
ghost use Rattle.rsvp_bodies.specs.RouteWords.{IsLengthText, IsPrefixText};

use crate::Prefix;

/// What stands between the address of a prefix and its length.
const SLASH: char = '/';

/// What may stand before a number that is parsed, but not before a length.
const PLUS: char = '+';

/// The prefix that the text writes: an IPv4 address, a slash and a length in bits, as `10.0.0.0/24`. Bits of the address
/// past the length stay as they are written, and so does a length above 32.
pub fn read_prefix(text: &str) -> Option<Prefix>
    ensures { Finds (IsPrefixText text.now) result }
{
    let (address, digits) = text.split_once(SLASH)?;
    let Ok(address) = address.parse() else {
        return None;
    };
    let length = read_length(digits)?;
    Some(Prefix { address, length })
}

/// The length, in bits, that decimal digits write: leading zeros taken, at most 255.
fn read_length(digits: &str) -> Option<u8>
    ensures { Finds (IsLengthText digits.now) result }
{
    if digits.starts_with(PLUS) {
        return None;
    }
    digits.parse().ok()
}
