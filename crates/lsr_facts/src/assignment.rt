use sorted_rows::TryCopy;
use std::alloc::{AllocError, Global};

/// What an LSP is promised of a bypass's bandwidth for its repair (RFC 4090, 4.3: bandwidth protection).
#[derive(Clone, Copy, Debug, PartialEq, Eq)]
pub struct Assignment {
    /// The number of the bypass.
    pub bypass: u16,
    /// Bytes per second.
    pub rate: u64,
}

impl TryCopy for Assignment {
    fn try_copy(&self, _alloc: Global) -> Result<Assignment, AllocError> {
        Ok(*self)
    }
}
