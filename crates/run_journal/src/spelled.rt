//! An event as a journal holds it, written before its step.

ghost use Rattle.std.specs.Prelude.{◌≡◌, IfOk, IfSome};
ghost use Rattle.abstract_paths.specs.declared.events.Event.{Event};
ghost use Rattle.journal_bytes.specs.Events.{event_bytes};
ghost use Rattle.run_journal.specs.Spelled.{IsSpelled, IsWritten};

use abstract_paths::Event;
use journal_bytes::{Bytes, written_event};
use std::alloc::{AllocError, Global};

/// An event as a journal holds it, written before its step: for its entry, and for its receipt. So neither is done while others wait
/// for the router.
#[derive(Debug, Drop)]
pub struct SpelledEvent {
    /// For the entry.
    pub(crate) entry: Bytes,
    /// For the receipt.
    pub(crate) receipt: Bytes,
}

impl SpelledEvent {
    /// What the event is as a journal holds it. The only error is out of memory.
    pub fn of(alloc: Global, event: &Event) -> Result<SpelledEvent, AllocError>
        ensures { IfOk result (IsSpelled event.now) }
    {
        let entry = written_event(alloc, event)?;
        let receipt = entry.clone()?;
        Ok(SpelledEvent { entry, receipt })
    }

    /// The bytes for the entry, and those for the receipt.
    pub(crate) fn parts(spelled: Option<SpelledEvent>) -> (Option<Bytes>, Option<Bytes>)
        ensures entry { (event : Event) → IfSome spelled (IsSpelled event) → IfSome result.0 (IsWritten event) }
        ensures receipt { (event : Event) → IfSome spelled (IsSpelled event) → IfSome result.1 (λ bytes. bytes ≡ event_bytes event) }
    {
        match spelled {
            Some(SpelledEvent { entry, receipt }) => (Some(entry), Some(receipt)),
            None => (None, None),
        }
    }
}
