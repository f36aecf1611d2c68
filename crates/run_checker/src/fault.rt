//! What is wrong with a recorded run.

ghost use Rattle.std.specs.Prelude.{◌≡◌};
ghost use Rattle.run_checker.specs.Faulty.{fault_at};

use journal_bytes::Frames;
use lsr_facts::{Key, Refusal, Reply};
use plain_soundness::Clause;
use sorted_rows::Table;
use std::alloc::AllocError;

/// What is wrong with an entry, and what it should say instead.
#[derive(Debug, Drop)]
pub enum EntryFault {
    /// Its bytes spell no event.
    Unread,
    /// What happened has no step: the router refuses it without one, for this.
    Event(Refusal),
    /// The labels may not be chosen: not exactly the LSPs that are new have one, or one isn't free. These may be.
    Choice(Table<Key, u32>),
    /// It is answered something else: this.
    Reply(Reply),
    /// Something else is sent: these frames.
    Output(Frames),
}

/// Why recorded entries are no run from a base.
#[derive(Debug, Drop)]
pub enum RunFault {
    /// There was no memory to tell.
    Memory,
    /// The base isn't sound: this clause is broken.
    Base(Clause),
    /// This is wrong with the entry of this number, from 1. Those before it are a run.
    Entry(usize, EntryFault),
}

/// Why it isn't told what an entry leads to.
#[derive(Debug, Drop)]
pub(crate) enum Stop {
    /// There was no memory.
    Memory,
    /// This is wrong with the entry.
    Wrong(EntryFault),
}

impl From<AllocError> for RunFault {
    ghost use Rattle.std.specs.Prelude.{◌≡◌};
    ghost use Rattle.run_checker.specs.declared.fault.RunFault.TheVariants.{Memory};

    ghost from_gives = { λ _ fault. fault ≡ Memory };

    fn from(_error: AllocError) -> RunFault {
        RunFault::Memory
    }
}

impl From<AllocError> for Stop {
    ghost use Rattle.std.specs.Prelude.{◌≡◌};
    ghost use Rattle.run_checker.specs.declared.fault.Stop.TheVariants.{Memory};

    ghost from_gives = { λ _ stop. stop ≡ Memory };

    fn from(_error: AllocError) -> Stop {
        Stop::Memory
    }
}

impl Stop {
    /// The fault of a run that stops so at the entry of a number.
    pub(crate) fn at(self, number: usize) -> RunFault
        ensures { result ≡ fault_at number self }
    {
        match self {
            Stop::Memory => RunFault::Memory,
            Stop::Wrong(fault) => RunFault::Entry(number, fault),
        }
    }
}
