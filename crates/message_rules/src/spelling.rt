//! Whether routes, or records, are the same by their bytes.

ghost use Rattle.std.specs.Cmp.Lexicographic.{pointwise};
ghost use Rattle.std.specs.List.{flat_map};
ghost use Rattle.std.specs.Option.{option_eq};
ghost use Rattle.std.specs.Prelude.{◌≡◌, IfOk, nat_eq};

use rsvp_bodies::{Subobject, Subobjects};
use std::alloc::{AllocError, Global};

/// The bytes that the subobjects are written as.
fn bytes_of<T: Subobject>(alloc: Global, items: &[T]) -> Result<Vec<u8>, AllocError>
    ensures { IfOk result (λ bytes. bytes.items ≡ flat_map T.spelling items.now) }
{
    let mut bytes = Vec::new(alloc);
    for item in items {
        item.write(&mut bytes)?;
    }
    Ok(bytes)
}

/// Whether the subobjects of two objects are equal: their bytes are, or both objects are absent. The only error
/// is out of memory.
pub(crate) fn is_same<T: Subobject>(
    alloc: Global,
    a: &Option<Subobjects<T>>,
    b: &Option<Subobjects<T>>,
) -> Result<bool, AllocError>
    ensures { IfOk result (λ same. same ≡ option_eq
        (λ x y. pointwise nat_eq (flat_map T.spelling x) (flat_map T.spelling y)) a.now b.now) }
{
    match (a, b) {
        // The same subobjects are written as the same bytes.
        (Some(a), Some(b)) if a == b => Ok(true),
        (Some(a), Some(b)) => {
            let first = bytes_of(alloc, a.as_slice())?;
            let second = bytes_of(alloc, b.as_slice())?;
            Ok(first == second)
        }
        (None, None) => Ok(true),
        (Some(_), None) => Ok(false),
        (None, Some(_)) => Ok(false),
    }
}
