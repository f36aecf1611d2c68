ghost use Rattle.std.specs.Prelude.{◌≡◌, ◌<◌, ◌^◌, ◌++◌, OnOk, length};
ghost use Rattle.journal_bytes.specs.Events.{counted_bytes};

use std::alloc::AllocError;

/// Appends the bytes, and before them how many they are.
pub(crate) fn put_counted(bytes: &[u8], out: &mut Vec<u8>) -> Result<(), AllocError>
    requires { length bytes.now < 2 ^ 32 }
    ensures ok { OnOk result (out.new.items ≡ out.old.items ++ counted_bytes bytes.now) }
{
    let count = bytes.len() as u32;
    out.extend_from_slice(&count.to_be_bytes())?;
    out.extend_from_slice(bytes)
}
