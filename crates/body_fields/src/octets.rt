ghost use Rattle.std.specs.Prelude.{◌≡◌, ◌<◌, ◌^◌, ◌++◌, ◌∷◌, [], OnOk};

use std::alloc::AllocError;

/// Appends three bytes. The only error is out of memory.
pub(crate) fn put_three(a: u8, b: u8, c: u8, out: &mut Vec<u8>) -> Result<(), AllocError>
    ensures ok { OnOk result (out.new.items ≡ out.old.items ++ (a ∷ b ∷ c ∷ [])) }
    ensures first { a < 2 ^ 8 }
    ensures second { b < 2 ^ 8 }
    ensures third { c < 2 ^ 8 }
{
    out.extend_from_slice(&[a, b, c])
}

/// Appends one byte. The only error is out of memory.
pub fn put_byte(byte: u8, out: &mut Vec<u8>) -> Result<(), AllocError>
    ensures ok { OnOk result (out.new.items ≡ out.old.items ++ byte ∷ []) }
    ensures fits { byte < 2 ^ 8 }
{
    out.extend_from_slice(&[byte])
}
