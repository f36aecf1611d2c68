ghost use Rattle.field_bytes.specs.Wholes.{ReadsWhole};

use crate::fault::ReadFault;
use crate::field::Field;
use std::alloc::Global;

/// The value that all these bytes spell. The fault is [`ReadFault::Format`] exactly where they spell none, also where something follows what
/// does; or memory ran out.
pub fn read_whole<F: Field>(alloc: Global, bytes: &[u8]) -> Result<F::Value, ReadFault>
    ensures { ReadsWhole F.Fits F.spelling bytes.now result }
{
    let (value, rest) = F::read(alloc, bytes)?;
    if !rest.is_empty() {
        return Err(ReadFault::Format);
    }
    Ok(value)
}
