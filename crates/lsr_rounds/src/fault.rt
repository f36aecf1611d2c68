//! Why a run of rounds ends.

use lsr_serve::ServeFault;
use lsr_serve::reconciler::Mismatch;
use lsr_serve::workers::OpenFault;
use std::alloc::AllocError;

/// Why a run of rounds ends before it is told to.
#[derive(Clone, Copy, PartialEq, Eq)]
pub enum RunFault {
    /// A round isn't one run with those before it.
    Mismatch(Mismatch),
    /// The sockets can't be had, there is too little memory, or a segment of the journal wasn't kept.
    Serve(ServeFault),
    /// The system's clock can't be read.
    Clock,
}

impl From<AllocError> for RunFault {
    fn from(_: AllocError) -> RunFault {
        RunFault::Serve(ServeFault::Memory)
    }
}

impl From<OpenFault> for RunFault {
    fn from(_: OpenFault) -> RunFault {
        RunFault::Serve(ServeFault::Memory)
    }
}

impl From<Mismatch> for RunFault {
    fn from(mismatch: Mismatch) -> RunFault {
        RunFault::Mismatch(mismatch)
    }
}

impl From<ServeFault> for RunFault {
    fn from(fault: ServeFault) -> RunFault {
        RunFault::Serve(fault)
    }
}
