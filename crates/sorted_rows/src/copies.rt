// Copies of rows.
ghost use Rattle.std.specs.Prelude.{◌≡◌, IfOk};

use std::alloc::{AllocError, Global};

/// A value that can be copied where there is memory for it.
pub trait TryCopy {
    /// A copy, equal to its source. Fails only when out of memory.
    fn try_copy(&self, alloc: Global) -> Result<Self, AllocError>
        ensures { IfOk result (λ copy. copy ≡ self.now) };
}

impl TryCopy for () {
    fn try_copy(&self, _alloc: Global) -> Result<(), AllocError> {
        Ok(())
    }
}

impl TryCopy for bool {
    fn try_copy(&self, _alloc: Global) -> Result<bool, AllocError> {
        Ok(*self)
    }
}

impl TryCopy for u8 {
    fn try_copy(&self, _alloc: Global) -> Result<u8, AllocError> {
        Ok(*self)
    }
}

impl TryCopy for u16 {
    fn try_copy(&self, _alloc: Global) -> Result<u16, AllocError> {
        Ok(*self)
    }
}

impl TryCopy for u32 {
    fn try_copy(&self, _alloc: Global) -> Result<u32, AllocError> {
        Ok(*self)
    }
}

impl TryCopy for u64 {
    fn try_copy(&self, _alloc: Global) -> Result<u64, AllocError> {
        Ok(*self)
    }
}

impl TryCopy for usize {
    fn try_copy(&self, _alloc: Global) -> Result<usize, AllocError> {
        Ok(*self)
    }
}

impl<T: TryCopy> TryCopy for Option<T> {
    fn try_copy(&self, alloc: Global) -> Result<Option<T>, AllocError> {
        match self {
            Some(value) => Ok(Some(value.try_copy(alloc)?)),
            None => Ok(None),
        }
    }
}

/// A copy of rows whose values own memory. Fails only when out of memory.
pub fn copy_rows<K: Copy, V: TryCopy + Drop>(
    alloc: Global,
    rows: &[(K, V)],
) -> Result<Vec<(K, V)>, AllocError>
    ensures copied { IfOk result (λ copy. copy.items ≡ rows.now) }
{
    let mut copy = Vec::with_capacity(alloc, rows.len())?;
    for row in rows {
        copy.push((row.0, row.1.try_copy(alloc)?))?;
    }
    Ok(copy)
}

/// A copy of rows whose values are `Copy`. Fails only when out of memory.
pub fn copy_plain_rows<K: Copy, V: Copy>(
    alloc: Global,
    rows: &[(K, V)],
) -> Result<Vec<(K, V)>, AllocError>
    ensures copied { IfOk result (λ copy. copy.items ≡ rows.now) }
{
    Vec::from_slice(alloc, rows)
}
