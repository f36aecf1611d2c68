//! The numbers of a journal.

ghost use Rattle.std.specs.Prelude.{◌≡◌, ◌<◌, ◌≤◌, ◌-◌, ◌^◌, All, IfOk, IfSome, length};
ghost use Rattle.run_journal.specs.Marks.{Counts, IsWithin, counted, first_counts, first_marks, is_known, mark_after, receipt_of};

use crate::entry::CountedEntry;
use crate::mark::Mark;
use crate::receipt::Receipt;
use journal_bytes::Bytes;
use sorted_rows::TryCopy;
use std::alloc::{AllocError, Global};
use std::marker::Model;

/// How many entries there were since the router was opened, how many of them changed what is forwarded, and each port's mark.
#[derive(Debug, Drop)]
pub struct JournalCounts {
    number: u64,
    published: u64,
    marks: Vec<Mark>,
}

impl Model for JournalCounts {
    ghost use Rattle.run_journal.specs.Marks.{Counts};

    ghost Value = { Counts };

    ghost view = { λ t. record { number = t.number; published = t.published; marks = t.marks.items } };
}

/// The index of a port's mark.
fn index_of(port: u16) -> usize
    ensures { result ≡ port - 1 }
{
    port.saturating_sub(1) as usize
}

impl JournalCounts {
    /// The numbers as a router with so many ports is opened. The only error is out of memory.
    pub(crate) fn new(alloc: Global, ports: u16) -> Result<JournalCounts, AllocError>
        ensures { IfOk result (λ counts. counts ≡ first_counts ports) }
    {
        let mut marks = Vec::with_capacity(alloc, ports as usize)?;
        for port in 0..ports {
            marks.push(Mark {
                port: port + 1,
                place: 0,
                entry: 0,
                published: 0,
            })?;
        }
        Ok(JournalCounts {
            number: 0,
            published: 0,
            marks,
        })
    }

    /// How many entries there were.
    pub fn number(&self) -> u64
        ensures { result ≡ self.now.number }
    {
        self.number
    }

    /// How many of them changed what is forwarded.
    pub fn published(&self) -> u64
        ensures { result ≡ self.now.published }
    {
        self.published
    }

    /// Each port's mark, that of port 1 first.
    pub fn marks(&self) -> &[Mark]
        ensures { result.now ≡ self.now.marks }
    {
        self.marks.as_slice()
    }

    /// Whether the mark is that of its port.
    pub fn is_known(&self, mark: Mark) -> bool
        ensures { result ≡ is_known self.now mark }
    {
        match self.marks.get(index_of(mark.port)) {
            Some(known) => mark.is_same(*known),
            None => false,
        }
    }

    /// The mark of an entry's port after it.
    pub(crate) fn mark_after(&self, entry: &CountedEntry) -> Mark
        requires port { entry.now.entry.port - 1 < length self.now.marks }
        requires low { self.now.number < 2 ^ 62 }
        requires published { self.now.published ≤ self.now.number }
        requires within { All (IsWithin self.now) self.now.marks }
        ensures { result ≡ mark_after self.now entry.now }
    {
        let known = self.marks[index_of(entry.entry.port)];
        Mark {
            port: entry.entry.port,
            place: known.place + 1,
            entry: self.number + 1,
            published: self.published + u64::from(entry.changes_table),
        }
    }

    /// What an entry's port is told of it, by the event's bytes where these are there already. The only error is out of memory.
    pub(crate) fn receipt(
        &self,
        alloc: Global,
        entry: &CountedEntry,
        bytes: Option<Bytes>,
    ) -> Result<Receipt, AllocError>
        requires bytes { IfSome bytes (λ bytes. bytes ≡ entry.now.entry.event) }
        requires port { entry.now.entry.port - 1 < length self.now.marks }
        requires low { self.now.number < 2 ^ 62 }
        requires published { self.now.published ≤ self.now.number }
        requires within { All (IsWithin self.now) self.now.marks }
        ensures { IfOk result (λ receipt. receipt ≡ receipt_of self.now entry.now) }
    {
        Ok(Receipt {
            mark: self.mark_after(entry),
            event: match bytes {
                Some(bytes) => bytes,
                None => entry.entry.event.clone()?,
            },
            reply: entry.entry.reply,
            outputs: entry.entry.outputs.try_copy(alloc)?,
        })
    }

    /// Counts an entry.
    pub(crate) fn count(&mut self, entry: &CountedEntry)
        requires port { entry.now.entry.port - 1 < length self.old.marks }
        requires low { self.old.number < 2 ^ 62 }
        requires published { self.old.published ≤ self.old.number }
        requires within { All (IsWithin self.old) self.old.marks }
        ensures { self.new ≡ counted self.old entry.now }
    {
        let mark = self.mark_after(entry);
        self.number = mark.entry;
        self.published = mark.published;
        self.marks[index_of(entry.entry.port)] = mark;
    }
}

impl TryCopy for JournalCounts {
    fn try_copy(&self, alloc: Global) -> Result<JournalCounts, AllocError> {
        Ok(JournalCounts {
            number: self.number,
            published: self.published,
            marks: Vec::from_slice(alloc, self.marks.as_slice())?,
        })
    }
}
