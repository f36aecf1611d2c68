//! Recorded runs, and where they are found.

ghost use Rattle.std.specs.Prelude.{◌≡◌, IfErr, IfOk, List, ℕ};
ghost use Rattle.lsr_check.specs.Following.{end_of};
ghost use Rattle.lsr_check.specs.declared.recorded.Recorded.{Recorded};
ghost use Rattle.lsr_check.specs.declared.recorded.Unread.{Unread};

use field_bytes::Items;
use journal_bytes::Entry;
use line_streams::InputFault;
use lsr_config::Config;
use lsr_facts::State;
use std::alloc::Global;

/// A recorded run.
#[derive(Debug, Drop)]
pub struct Recorded {
    /// The configuration that the router ran with.
    pub config: Config,
    /// What it knew before the first entry.
    pub base: State,
    /// What it did, one event after the other.
    pub entries: Items<Entry>,
}

/// Where a recorded run ends.
#[derive(Debug, Drop)]
pub struct RunEnd {
    /// The configuration that the router ran with.
    pub config: Config,
    /// What it knew after the last entry.
    pub state: State,
}

impl Recorded {
    /// Where it ends, where it leads to a state. Takes no memory.
    pub(crate) fn end(self, state: State) -> RunEnd
        ensures { result ≡ end_of self state }
    {
        let Recorded {
            config,
            base: _base,
            entries: _entries,
        } = self;
        RunEnd { config, state }
    }
}

/// Why there is no recorded run.
#[derive(Clone, Copy, Debug)]
pub enum Unread {
    /// The file can't be read.
    Input(InputFault),
    /// Its bytes spell none.
    Format,
    /// There was no memory for what they spell.
    Memory,
}

/// Recorded runs that are found by the names of files. `spells` says which a name stands for, `fails` why there may be none.
pub trait RunsByName {
    ghost spells: { Self → List ℕ → Recorded → Type 0 };

    ghost fails: { Self → List ℕ → Unread → Type 0 };

    /// The recorded run of the file of this name.
    fn read(&self, alloc: Global, name: &str) -> Result<Recorded, Unread>
        ensures run { IfOk result (spells self.now name.now) }
        ensures fault { IfErr result (fails self.now name.now) };
}
