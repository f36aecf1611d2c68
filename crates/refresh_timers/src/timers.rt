ghost use Rattle.std.specs.FinMap.Entries.{find, is_sorted, put, where_key};
ghost use Rattle.std.specs.Option.{option_copied};
ghost use Rattle.std.specs.Ordering.{is_eq};
ghost use Rattle.std.specs.declared.cmp.Ordering.TheVariants.{Equal};
ghost use Rattle.std.specs.Prelude.{◌≡◌, ◌≤◌, T, [], IfOk, length, not, slice_get};
ghost use Rattle.sorted_rows.specs.Edits.{edited};
ghost use Rattle.lsr_facts.specs.Lifetimes.{due_items};

use crate::refresh::Refresh;
use lsr_facts::{KeyNumber, Numbered};
use sorted_rows::{Table, TryCopy};
use std::alloc::{AllocError, Global};
use std::marker::Model;
use timed_rows::TimedTable;

/// When each message that a router keeps alive was last sent (RFC 2205, 3.7): at most `MOST` messages, in the order of
/// their items. Contracts see the refresh period, and the list of items and moments. Moments are in milliseconds.
#[derive(Debug, Drop)]
pub struct RefreshTimers<I: Numbered, const MOST: usize> {
    rows: TimedTable<I, u64, Refresh, KeyNumber, MOST>,
}

impl<I: Numbered, const MOST: usize> Model for RefreshTimers<I, MOST> {
    ghost use Rattle.refresh_timers.specs.Timers.{Timers};

    ghost Value = { Timers I };

    ghost view = { λ t. record { refresh_ms = t.rows.timing.period_ms; sent = t.rows.rows } };
}

impl<I: Numbered + Copy + Drop, const MOST: usize> RefreshTimers<I, MOST> {
    /// No messages, to be sent again every so many milliseconds. It reserves the memory of all messages that it may
    /// ever hold; the only error is that there is too little memory.
    pub fn new(alloc: Global, refresh_ms: u32) -> Result<RefreshTimers<I, MOST>, AllocError>
        ensures { IfOk result (λ timers. timers ≡ record { refresh_ms = refresh_ms; sent = [] }) }
    {
        let timing = Refresh {
            period_ms: refresh_ms,
        };
        Ok(RefreshTimers {
            rows: TimedTable::new(alloc, timing)?,
        })
    }

    /// How many messages are kept.
    pub fn len(&self) -> usize
        ensures { result ≡ length self.now.sent }
    {
        self.rows.len()
    }

    /// The message at a place, in the order of the items, from 0 on, and the moment at which it was last sent; `None`
    /// past the last.
    pub fn row(&self, place: usize) -> Option<&(I, u64)>
        ensures { option_copied result ≡ slice_get self.now.sent place }
    {
        self.rows.row(place)
    }

    /// The items rise, and there are at most `MOST` messages. It does nothing when it runs.
    pub fn rows_are_in_order(&self)
        ensures sorted { T (is_sorted I.cmp self.now.sent) }
        ensures few { length self.now.sent ≤ MOST }
    {
        self.rows.rows_are_in_order();
    }

    /// The messages and the moments at which they were last sent, as a table of their own: a copy. The only error is out
    /// of memory.
    pub fn copied(&self, alloc: Global) -> Result<Table<I, u64>, AllocError>
        ensures { IfOk result (λ sent. sent ≡ self.now.sent) }
    {
        self.rows.copied(alloc)
    }

    /// The moment at which a message was last sent, or `None` where it isn't kept.
    pub fn sent_at(&self, item: &I) -> Option<u64>
        ensures { result ≡ find I.cmp item.now self.now.sent }
    {
        self.rows.get(item).copied()
    }

    /// This message was sent at this moment, whenever it was sent before. It asks that at most `MOST`
    /// messages are kept then. Takes no memory.
    pub fn set(&mut self, item: I, moment: u64)
        requires { length (put I.cmp item moment self.old.sent) ≤ MOST }
        ensures { self.new ≡ record self.old { sent = put I.cmp item moment self.old.sent } }
    {
        self.rows.set(item, moment);
    }

    /// This message is kept no more. Where it wasn't kept, nothing changes. Takes no memory.
    pub fn clear(&mut self, item: &I)
        ensures { self.new ≡ record self.old {
          sent = where_key I.cmp (λ i. not (is_eq (I.cmp item.now i))) self.old.sent;
        } }
    {
        self.rows.remove(item);
    }

    /// Makes edits: each message that they name was sent last at this moment, or is kept no more. It asks that at most
    /// `MOST` messages are kept then, and for an order that tells all items apart. Takes no memory.
    pub fn edit(&mut self, edits: Table<I, Option<u64>>)
        requires exact { (a b : I) → I.cmp a b ≡ Equal → a ≡ b }
        requires room { length (edited I.cmp edits self.old.sent) ≤ MOST }
        ensures { self.new ≡ record self.old { sent = edited I.cmp edits self.old.sent } }
    {
        self.rows.edit(edits);
    }

    /// No message is kept any more. Takes no memory.
    pub fn clear_all(&mut self)
        ensures { self.new ≡ record self.old { sent = [] } }
    {
        self.rows.clear();
    }

    /// Lets the timers come as far as to `now`, or to the first message before it that is due. Nothing that they say
    /// changes: `due` has less to go over then.
    pub fn advance(&mut self, now: u64)
        ensures { self.new ≡ self.old }
    {
        self.rows.advance(now);
    }

    /// The messages that were last sent a refresh period ago or longer, in the order of the items. The only error
    /// is being out of memory.
    pub fn due(&self, alloc: Global, now: u64) -> Result<Vec<I>, AllocError>
        ensures { IfOk result (λ items. items.items ≡ due_items self.now.refresh_ms self.now.sent now) }
    {
        self.rows.come(alloc, now)
    }
}

impl<I: Numbered + Copy + Drop, const MOST: usize> TryCopy for RefreshTimers<I, MOST> {
    fn try_copy(&self, alloc: Global) -> Result<RefreshTimers<I, MOST>, AllocError> {
        Ok(RefreshTimers {
            rows: self.rows.try_copy(alloc)?,
        })
    }
}
