ghost use Rattle.std.specs.Prelude.{◌≡◌};
ghost use Rattle.rsvp_bodies.specs.declared.fault.ObjectFault.TheVariants.{Memory};

use std::alloc::{AllocError, AllocFailed};
use thiserror::Error;

/// Why bytes were not read as an object.
#[derive(Clone, Copy, Debug, PartialEq, Eq, Error)]
pub enum ObjectFault {
    /// The bytes spell no object: a length below 4, no multiple of 4, past the end of the bytes or
    /// wrong for the object's class and C-Type (RFC 2205, 3.1.2), or a subobject or a name in it that
    /// doesn't fit (RFC 3209, 4.3.3, 4.4.1 and 4.7.1).
    #[error("a length is wrong: an object's, or one in it, is below 4, no multiple of 4, past the end, or not its type's")]
    Length,
    /// There is no memory for what was read. The bytes may be good: read them again later.
    #[error("out of memory while an object was read: free some and read it again")]
    Memory,
}

impl From<AllocError> for ObjectFault {
    ghost from_gives = { λ _ fault. fault ≡ Memory };

    fn from(_error: AllocError) -> ObjectFault {
        ObjectFault::Memory
    }
}

impl<T: Drop> From<AllocFailed<T>> for ObjectFault {
    ghost from_gives = { λ _ fault. fault ≡ Memory };

    fn from(_error: AllocFailed<T>) -> ObjectFault {
        ObjectFault::Memory
    }
}
