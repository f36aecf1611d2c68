//! What ends the check of files of recorded runs.

use crate::recorded::{Recorded, Unread};
use run_checker::RunFault;

/// What is wrong with a recorded run that stands after others.
#[derive(Debug, Drop)]
pub enum Flaw {
    /// It doesn't begin where the one before it ended.
    Gap,
    /// It is no run.
    Fault(RunFault),
}

/// Why no further file is looked at.
#[derive(Debug, Drop)]
pub enum Stop {
    /// This one has no recorded run.
    Unread(Unread),
    /// Something is wrong with the one that it has.
    Flawed(Recorded, Flaw),
}
