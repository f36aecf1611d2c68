//! What is wrong with a recorded run, in words.

ghost use Rattle.std.specs.Prelude.{◌≡◌};
ghost use Rattle.run_checker.specs.Names.{entry_fault_name, fault_name, fault_number};

use crate::fault::{EntryFault, RunFault};
use std::fmt;

impl EntryFault {
    /// The fault's name: `Event`, `Choice` or `Output`.
    pub fn name(&self) -> &'static str
        ensures { result.now ≡ entry_fault_name self.now }
    {
        match self {
            EntryFault::Unread | EntryFault::Event(_) => "Event",
            EntryFault::Choice(_) => "Choice",
            EntryFault::Reply(_) | EntryFault::Output(_) => "Output",
        }
    }
}

impl RunFault {
    /// The number of the entry that is at fault, from 1; or 0 where none is.
    pub fn number(&self) -> usize
        ensures { result ≡ fault_number self.now }
    {
        match self {
            RunFault::Memory | RunFault::Base(_) => 0,
            RunFault::Entry(number, _) => *number,
        }
    }

    /// The fault's name: `Memory`, `Base`, or that of what is wrong with an entry.
    pub fn name(&self) -> &'static str
        ensures { result.now ≡ fault_name self.now }
    {
        match self {
            RunFault::Memory => "Memory",
            RunFault::Base(_) => "Base",
            RunFault::Entry(_, fault) => fault.name(),
        }
    }
}

/// `entry NUMBER: FAULT`.
impl fmt::Display for RunFault {
    ghost use Rattle.std.specs.Prelude.{Some};
    ghost use Rattle.run_checker.specs.Names.{fault_words};

    ghost output = { λ fault. Some (fault_words fault) };

    fn fmt<W: fmt::Write>(&self, f: &mut fmt::Formatter<W>) -> fmt::Result {
        let number = self.number();
        let name = self.name();
        write!(f, "entry {number}: {name}")
    }
}
