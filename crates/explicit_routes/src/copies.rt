//! Copies of the parts of routes and records.

ghost use Rattle.std.specs.List.{flat_map};
ghost use Rattle.std.specs.Prelude.{◌≡◌, ◌≤◌, ◌∷◌, length, IfOk};

use rsvp_bodies::{Subobject, Subobjects};
use std::alloc::{AllocError, Global};

/// A copy of subobjects that fit an object. The only error is out of memory.
pub fn copy_of<T: Subobject>(alloc: Global, items: &[T]) -> Result<Subobjects<T>, AllocError>
    requires { length (flat_map T.spelling items.now) ≤ 65528 }
    ensures { IfOk result (λ copy. copy ≡ items.now) }
{
    let copy = Vec::from_clones(alloc, items)?;
    Ok(Subobjects::from_vec(copy))
}

/// A copy of subobjects with one more before them, which fit an object together. The only error is out of
/// memory.
pub fn copy_behind<T: Subobject>(
    alloc: Global,
    first: T,
    items: &[T],
) -> Result<Subobjects<T>, AllocError>
    requires { length (flat_map T.spelling (first ∷ items.now)) ≤ 65528 }
    ensures { IfOk result (λ copy. copy ≡ first ∷ items.now) }
{
    let mut copy = Vec::with_capacity(alloc, items.len().saturating_add(1))?;
    copy.push(first)?;
    for item in items {
        copy.push(item.clone()?)?;
    }
    Ok(Subobjects::from_vec(copy))
}
