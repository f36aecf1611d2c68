ghost use Rattle.field_bytes.specs.OptionLaws.{OptionFits, option_bytes};
ghost use Rattle.std.specs.Prelude.{◌≡◌, ◌++◌, OnOk};

use body_fields::put_byte;
use field_bytes::Put;
use std::alloc::AllocError;

/// Stands where something is absent, and before something that is there.
const ABSENT: u8 = 0;

const PRESENT: u8 = 1;

/// Appends what may be absent: 0, or 1 and the field. The only errors are out of memory, and a value without a spelling.
pub fn put_option<A: Put>(value: &Option<A::Value>, out: &mut Vec<u8>) -> Result<(), AllocError>
    ensures ok { OnOk result (out.new.items ≡ out.old.items ++ option_bytes A.spelling value.now) }
    ensures fits { OnOk result (OptionFits A.Fits value.now) }
{
    match value {
        None => put_byte(ABSENT, out),
        Some(value) => {
            put_byte(PRESENT, out)?;
            A::put(value, out)
        }
    }
}
