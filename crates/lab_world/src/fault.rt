//! Why there is no world.

ghost use Rattle.std.specs.Prelude.{◌≡◌};

use std::alloc::AllocError;
use thiserror::Error;

/// Why no world is made of configurations and joints.
#[derive(Clone, Copy, Debug, PartialEq, Eq, Error)]
pub enum WorldFault {
    /// There isn't memory enough for it.
    #[error("there is not memory enough for the routers")]
    Memory,
    /// There is no router, or there are more than [`crate::MAX_ROUTERS`].
    #[error("a world has 1 to 16 routers")]
    Routers,
    /// The joint of this number can't be put up beside those before it; the first joint has number 1. A router that it names
    /// isn't there or has no such link, the link is joined by a joint before it, or it is joined to itself.
    #[error("joint {0} names a link that is not there, or that is joined already")]
    Joint(usize),
}

impl From<AllocError> for WorldFault {
    ghost use Rattle.lab_world.specs.declared.fault.WorldFault.TheVariants.{Memory};

    ghost from_gives = { λ _ fault. fault ≡ Memory };

    fn from(_error: AllocError) -> WorldFault {
        WorldFault::Memory
    }
}
