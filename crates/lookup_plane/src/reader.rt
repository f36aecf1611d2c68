//! A reader's side.

ghost use Rattle.std.specs.Prelude.{◌≡◌, ◌≤◌, ◌<◌, IfErr, IfOk, MatchResult, length, max};
ghost use Rattle.forwarding_table.specs.Forwarding.{forward_of};
ghost use Rattle.left_right.specs.Sides.{view};
ghost use Rattle.lookup_plane.specs.Changes.{StartsWith, look, look_tunnel};
ghost use Rattle.lookup_plane.specs.declared.closed.Closed.TheVariants.{Behind};

use crate::closed::Closed;
use crate::lookups::{Inquiry, Lookups, begin};
use crate::rule::TableReader;
use forwarding_table::{Action, Forwarding};
use label_stacks::Stack;
use std::marker::Model;

/// A reader of a published label table, in any thread. No call waits for the writer or for another reader. Contracts see
/// the published changes that it has seen, and how many it has learnt that there are.
///
/// Each answer is by one list of published changes. It begins with those that the reader saw before, and is no shorter
/// than each number that it has learnt.
#[derive(Drop)]
pub struct LookupReader {
    reader: Option<TableReader>,
    at_least: u64,
}

impl Model for LookupReader {
    ghost use Rattle.std.specs.Prelude.{[], IsSome};
    ghost use Rattle.left_right.specs.Sides.{view as view_of};
    ghost use Rattle.lookup_plane.specs.Changes.{Reader};
    ghost use Rattle.lookup_plane.specs.Published.{read_or};

    ghost Value = { Reader };

    ghost view = { λ r. record {
      seen = read_or r.reader [] (λ reader. (view_of reader.place).seen);
      at_least = r.at_least;
      table = read_or r.reader 0 (λ reader. reader.place.table_id.views_name);
    } };

    ghost invariant = { λ r. IsSome r.reader };
}

impl LookupReader {
    /// A reader that has learnt that there are at least this many changes.
    pub(crate) fn new(reader: TableReader, at_least: u64) -> LookupReader
        ensures { result ≡ record { seen = (view reader.place).seen; at_least = at_least; table = reader.place.table_id.views_name } }
    {
        LookupReader {
            reader: Some(reader),
            at_least,
        }
    }

    /// There are at least this many published changes: from now on answers are by no fewer.
    pub fn learn(&mut self, published: u64)
        ensures { self.new ≡ record self.old { at_least = max self.old.at_least published } }
    {
        self.at_least = self.at_least.max(published);
    }

    /// What is done with a label, or `None` where nothing is.
    pub fn look(&mut self, label: u32) -> Result<Option<Action>, Closed>
        ensures later { StartsWith self.new.seen self.old.seen }
        ensures learnt { self.new.at_least ≡ self.old.at_least }
        ensures answer { IfOk result (λ action. (action ≡ look self.new.seen label)
            × (self.old.at_least ≤ length self.new.seen)) }
        ensures behind { IfErr result (λ closed. closed ≡ Behind → length self.new.seen < self.old.at_least) }
    {
        let reader = self.reader.take().unwrap();
        match begin(reader, self.at_least) {
            Ok(lookups) => {
                let action = lookups.look(label);
                self.reader = Some(lookups.end().0);
                Ok(action)
            }
            Err((reader, closed)) => {
                self.reader = Some(reader);
                Err(closed)
            }
        }
    }

    /// What is done with the traffic of a tunnel, by its number, or `None` where nothing is.
    pub fn look_tunnel(&mut self, number: u16) -> Result<Option<Action>, Closed>
        ensures later { StartsWith self.new.seen self.old.seen }
        ensures learnt { self.new.at_least ≡ self.old.at_least }
        ensures answer { IfOk result (λ action. (action ≡ look_tunnel self.new.seen number)
            × (self.old.at_least ≤ length self.new.seen)) }
        ensures behind { IfErr result (λ closed. closed ≡ Behind → length self.new.seen < self.old.at_least) }
    {
        let reader = self.reader.take().unwrap();
        match begin(reader, self.at_least) {
            Ok(lookups) => {
                let action = lookups.look_tunnel(number);
                self.reader = Some(lookups.end().0);
                Ok(action)
            }
            Err((reader, closed)) => {
                self.reader = Some(reader);
                Err(closed)
            }
        }
    }

    /// What becomes of a stack of labels (RFC 3031, 3.10 to 3.13), with all its labels looked up by the same list of
    /// changes. Takes no memory.
    pub fn forward(&mut self, stack: &Stack) -> Result<Forwarding, Closed>
        ensures later { StartsWith self.new.seen self.old.seen }
        ensures learnt { self.new.at_least ≡ self.old.at_least }
        ensures answer { IfOk result (λ forwarding. (forwarding ≡ forward_of (look self.new.seen) stack.now)
            × (self.old.at_least ≤ length self.new.seen)) }
        ensures behind { IfErr result (λ closed. closed ≡ Behind → length self.new.seen < self.old.at_least) }
    {
        let reader = self.reader.take().unwrap();
        match begin(reader, self.at_least) {
            Ok(lookups) => {
                let forwarding = lookups.forward(stack);
                self.reader = Some(lookups.end().0);
                Ok(forwarding)
            }
            Err((reader, closed)) => {
                self.reader = Some(reader);
                Err(closed)
            }
        }
    }

    /// What is answered to this, by one list of changes.
    pub fn ask<Q: Inquiry>(&mut self, inquiry: &Q) -> Result<Q::Answer, Closed>
        ensures later { StartsWith self.new.seen self.old.seen }
        ensures learnt { self.new.at_least ≡ self.old.at_least }
        ensures answer { IfOk result (λ answer. Q.answered inquiry.now self.new.seen answer
            × (self.old.at_least ≤ length self.new.seen)) }
        ensures behind { IfErr result (λ closed. closed ≡ Behind → length self.new.seen < self.old.at_least) }
    {
        let reader = self.reader.take().unwrap();
        match begin(reader, self.at_least) {
            Ok(lookups) => {
                let answer = inquiry.ask(&lookups);
                self.reader = Some(lookups.end().0);
                Ok(answer)
            }
            Err((reader, closed)) => {
                self.reader = Some(reader);
                Err(closed)
            }
        }
    }

    /// Begins to read, for several look-ups by one list of changes, as long as each number that was learnt says. Where
    /// there is no answer the reader comes back, with why.
    pub fn enter(self) -> Result<Lookups, (LookupReader, Closed)>
        ensures { MatchResult result
            (λ lookups. StartsWith lookups.seen self.seen × (lookups.at_least ≡ self.at_least)
            × (self.at_least ≤ length lookups.seen))
            (λ back. StartsWith back.0.seen self.seen × (back.0.at_least ≡ self.at_least)
            × (back.1 ≡ Behind → length back.0.seen < self.at_least)) }
    {
        let Self { reader, at_least } = self;
        match begin(reader.unwrap(), at_least) {
            Ok(lookups) => Ok(lookups),
            Err((reader, closed)) => Err((LookupReader::new(reader, at_least), closed)),
        }
    }
}

impl Lookups {
    /// The reader, which reads no more.
    pub fn leave(self) -> LookupReader
        ensures { (result.seen ≡ self.seen) × (result.at_least ≡ self.at_least) }
    {
        let (reader, at_least) = self.end();
        LookupReader::new(reader, at_least)
    }
}
