//! What some flow descriptors of a Resv have led to that came back from the end of a bypass.

ghost use Rattle.std.specs.Prelude.{◌≡◌, [], None, false};

use abstract_paths::Outputs;
use lsr_facts::{Key, Repair, RsvpError};
use sorted_rows::Table;
use std::alloc::Global;

/// What some of a Resv's flow descriptors have led to.
#[derive(Debug, Drop)]
pub struct RepairProgress {
    /// Of LSPs what is known of their repairs from now on.
    pub edits: Table<Key, Option<Repair>>,
    /// The errors that are told, in the order found.
    pub errors: Outputs,
    /// The first error of a descriptor.
    pub first: Option<RsvpError>,
    /// Whether one was granted.
    pub has_granted: bool,
}

impl RepairProgress {
    /// Nothing has changed. Takes no memory.
    pub fn new(alloc: Global) -> RepairProgress
        ensures { result ≡ record { edits = []; errors = []; first = None; has_granted = false } }
    {
        RepairProgress {
            edits: Table::new(alloc),
            errors: Outputs::new(alloc),
            first: None,
            has_granted: false,
        }
    }
}
