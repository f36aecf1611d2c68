//! A stretch of the journal.

ghost use Rattle.std.specs.Prelude.{◌≡◌, List};
ghost use Rattle.abstract_paths.specs.declared.events.Made.{Made};
ghost use Rattle.abstract_router.specs.Steps.{Run};
ghost use Rattle.run_journal.specs.Entries.{AreEntriesOf};
ghost use Rattle.run_journal.specs.Journals.{IsSegment};

use crate::counts::JournalCounts;
use crate::entry::CountedEntry;
use lsr_facts::{Router, State};
use std::marker::Model;

/// A stretch of the journal: what the router knew before it, its entries, and what the router knew after it. Contracts see
/// these; the entries record a run from the one to the other, and both are sound.
#[derive(Debug)]
pub struct Segment {
    pub(crate) router: Router,
    pub(crate) base: State,
    pub(crate) from: JournalCounts,
    pub(crate) entries: Vec<CountedEntry>,
    pub(crate) end: State,
}

/// Written out, so that it is dropped by one call, whatever it holds.
impl Drop for Segment {
    fn drop(self) {
        let Segment {
            router: _router,
            base: _base,
            from: _from,
            entries: _entries,
            end: _end,
        } = self;
    }
}

impl Model for Segment {
    ghost use Rattle.run_journal.specs.Journals.{IsSegment, Stretch};

    ghost Value = { Stretch };

    ghost view = { λ s. record { router = s.router; base = s.base; from = s.from; entries = s.entries.items; end = s.end } };

    ghost invariant = { λ s. IsSegment (record { router = s.router; base = s.base; from = s.from; entries = s.entries.items; end = s.end }) };
}

impl Segment {
    /// What never changes of the router.
    pub fn router(&self) -> &Router
        ensures { result.now ≡ self.now.router }
    {
        &self.router
    }

    /// What the router knew before the first entry.
    pub fn base(&self) -> &State
        ensures { result.now ≡ self.now.base }
    {
        &self.base
    }

    /// The numbers before the first entry.
    pub fn from(&self) -> &JournalCounts
        ensures { result.now ≡ self.now.from }
    {
        &self.from
    }

    /// The entries.
    pub fn entries(&self) -> &[CountedEntry]
        ensures { result.now ≡ self.now.entries }
    {
        self.entries.as_slice()
    }

    /// What the router knew after the last entry.
    pub fn end(&self) -> &State
        ensures { result.now ≡ self.now.end }
    {
        &self.end
    }

    /// The entries record a run of the router, from what it knew before to what it knew after, and both are sound. A law: it
    /// does nothing when it runs.
    pub fn is_run(&self)
        ensures segment { IsSegment self.now }
        ensures steps { (made : List Made) × AreEntriesOf made self.now.entries ×
            Run self.now.router self.now.base made self.now.end }
    {
        let _entries = &self.entries;
    }
}
