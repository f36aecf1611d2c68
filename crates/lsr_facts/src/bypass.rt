use sorted_rows::TryCopy;
use std::alloc::{AllocError, Global};

/// A bypass (RFC 4090, 3.2): a tunnel that begins here and that is to carry the traffic of a link's LSPs when the link goes
/// down.
#[derive(Clone, Copy, Debug, PartialEq, Eq)]
pub struct Bypass {
    /// The number of the tunnel.
    pub tunnel: u16,
    /// The number of the link that it protects.
    pub link: u16,
    /// The bandwidth that it has for repairs, in bytes per second; 0 where none is said (RFC 4090, 4.3).
    pub capacity: u64,
}

impl TryCopy for Bypass {
    fn try_copy(&self, _alloc: Global) -> Result<Bypass, AllocError> {
        Ok(*self)
    }
}
