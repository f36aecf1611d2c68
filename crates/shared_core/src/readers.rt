//! Readers of a core's label table.

ghost use Rattle.std.specs.Prelude.{◌≡◌, ◌≤◌, ◌<◌, IfErr, IfOk, MatchResult, length, max};
ghost use Rattle.forwarding_table.specs.Forwarding.{forward_of};
ghost use Rattle.lookup_plane.specs.Changes.{StartsWith, look, look_tunnel};
ghost use Rattle.lookup_plane.specs.declared.closed.Closed.TheVariants.{Behind};

use crate::booked::{CoreReceipt, Port};
use forwarding_table::{Action, Forwarding};
use label_stacks::Stack;
use lookup_plane::{Closed, LookupReader, Lookups};
use std::alloc::{AllocError, Global};
use std::marker::{Model, PhantomData};
use std::sync::ledger::Ledger;

/// A reader of a core's label table, in any thread, with the name of that core: only [`crate::open`] makes it, and it learns from
/// the core's own ports and receipts alone. No call waits. Contracts see the published changes that it has seen, and how many it has learnt that
/// there are.
#[derive(Drop)]
pub struct CoreReader<L: Ledger> {
    reader: LookupReader,
    name: PhantomData<L>,
}

impl<L: Ledger> Model for CoreReader<L> {
    ghost use Rattle.lookup_plane.specs.Changes.{Reader};

    ghost Value = { Reader };

    ghost view = { λ r. r.reader };
}

/// Look-ups by one list of changes of a core's label table, with the name of that core: a reader of it makes them. Contracts see the list, and
/// how many changes the reader has learnt that there are.
#[derive(Drop)]
pub struct CoreLookups<L: Ledger> {
    lookups: Lookups,
    name: PhantomData<L>,
}

impl<L: Ledger> Model for CoreLookups<L> {
    ghost use Rattle.lookup_plane.specs.Changes.{Learnt};

    ghost Value = { Learnt };

    ghost view = { λ l. l.lookups };
}

impl<L: Ledger> CoreReader<L> {
    /// This reader, with the name of its core.
    fn named(reader: LookupReader) -> CoreReader<L>
        ensures { result ≡ reader }
    {
        CoreReader {
            reader,
            name: PhantomData,
        }
    }

    /// From now on answers are by at least as many changes as the last receipt of the port says.
    pub fn learn(&mut self, port: &Port<L>)
        ensures { self.new ≡ record self.old { at_least = max self.old.at_least port.now.mark.published } }
    {
        self.reader.learn(port.mark().published);
    }

    /// From now on answers are by at least as many changes as this receipt says, which any port of the core was given.
    pub fn learn_of(&mut self, receipt: &CoreReceipt<L>)
        ensures { self.new ≡ record self.old { at_least = max self.old.at_least receipt.now.mark.published } }
    {
        self.reader.learn(receipt.as_receipt().mark().published);
    }

    /// What is done with a label, or `None` where nothing is.
    pub fn look(&mut self, label: u32) -> Result<Option<Action>, Closed>
        ensures later { StartsWith self.new.seen self.old.seen }
        ensures learnt { self.new.at_least ≡ self.old.at_least }
        ensures answer { IfOk result (λ action. (action ≡ look self.new.seen label)
            × (self.old.at_least ≤ length self.new.seen)) }
        ensures behind { IfErr result (λ closed. closed ≡ Behind → length self.new.seen < self.old.at_least) }
    {
        self.reader.look(label)
    }

    /// What is done with the traffic of a tunnel, by its number, or `None` where nothing is.
    pub fn look_tunnel(&mut self, number: u16) -> Result<Option<Action>, Closed>
        ensures later { StartsWith self.new.seen self.old.seen }
        ensures learnt { self.new.at_least ≡ self.old.at_least }
        ensures answer { IfOk result (λ action. (action ≡ look_tunnel self.new.seen number)
            × (self.old.at_least ≤ length self.new.seen)) }
        ensures behind { IfErr result (λ closed. closed ≡ Behind → length self.new.seen < self.old.at_least) }
    {
        self.reader.look_tunnel(number)
    }

    /// What becomes of a stack of labels (RFC 3031, 3.10 to 3.13), with all its labels looked up by the same list of changes. Takes
    /// no memory.
    pub fn forward(&mut self, stack: &Stack) -> Result<Forwarding, Closed>
        ensures later { StartsWith self.new.seen self.old.seen }
        ensures learnt { self.new.at_least ≡ self.old.at_least }
        ensures answer { IfOk result (λ forwarding. (forwarding ≡ forward_of (look self.new.seen) stack.now)
            × (self.old.at_least ≤ length self.new.seen)) }
        ensures behind { IfErr result (λ closed. closed ≡ Behind → length self.new.seen < self.old.at_least) }
    {
        self.reader.forward(stack)
    }

    /// Begins to read, as [`LookupReader::enter`].
    pub fn enter(self) -> Result<CoreLookups<L>, CoreReader<L>>
        ensures { MatchResult result
            (λ lookups. StartsWith lookups.seen self.seen × (lookups.at_least ≡ self.at_least)
            × (self.at_least ≤ length lookups.seen))
            (λ reader. StartsWith reader.seen self.seen × (reader.at_least ≡ self.at_least)) }
    {
        let Self { reader, name: _ } = self;
        match reader.enter() {
            Ok(lookups) => Ok(CoreLookups {
                lookups,
                name: PhantomData,
            }),
            Err((reader, _)) => Err(CoreReader::named(reader)),
        }
    }
}

impl<L: Ledger> CoreLookups<L> {
    /// The look-ups, without the name of the core.
    pub fn as_lookups(&self) -> &Lookups
        ensures { result.now ≡ self.now }
    {
        &self.lookups
    }

    /// The reader, which reads no more.
    pub fn leave(self) -> CoreReader<L>
        ensures { (result.seen ≡ self.seen) × (result.at_least ≡ self.at_least) }
    {
        let Self { lookups, name: _ } = self;
        CoreReader::named(lookups.leave())
    }
}

/// These readers, with the name of their core. The only error is out of memory.
pub(crate) fn named_readers<L: Ledger>(
    alloc: Global,
    readers: Vec<LookupReader>,
) -> Result<Vec<CoreReader<L>>, AllocError>
    ensures { IfOk result (λ named. named.items ≡ readers.items) }
{
    let mut named = Vec::with_capacity(alloc, readers.len())?;
    for reader in readers {
        named.push(CoreReader::named(reader))?;
    }
    Ok(named)
}
