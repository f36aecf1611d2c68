//! What stands under a core's lock, its ports, and what they are handed with the core's name.

ghost use Rattle.std.specs.Prelude.{◌≡◌, ◌+◌, ◌<◌, ◌≤◌, All, IfOk, IfSome, OnErr, OnOk, length, map};
ghost use Rattle.abstract_router.specs.States.{State};
ghost use Rattle.lookup_plane.specs.Changes.{new_reader};
ghost use Rattle.run_journal.specs.Journals.{IsAnswered, rotated, stretch_of};
ghost use Rattle.run_journal.specs.Marks.{Follows, first_marks};
ghost use Rattle.run_journal.specs.Spelled.{IsSpelled};
ghost use Rattle.shared_core.specs.Names.{IsKnown, IsReceiptOf, IsSegmentOf, opened};
ghost use Rattle.shared_core.specs.Answered.{IsAnsweredBy};

use crate::asking::Question;
use crate::keeping::TakenSegment;
use crate::names::CoreName;
use crate::readers::{CoreReader, named_readers};
use abstract_paths::Event;
use journal_bytes::Frames;
use lookup_plane::OpenFault;
use lsr_config::Config;
use lsr_facts::{Refusal, Router, State};
use run_journal::{Locked, MAX_PORTS, Mark, Receipt, Segment, SpelledEvent};
use std::alloc::{AllocError, Global};
use std::marker::{Model, PhantomData};
use std::sync::Wait;
use std::sync::ledger::{Blank, Book, Ledger, Share};

/// A receipt of an entry of the core of this name: what is under that core's lock makes it, and nobody else. Contracts see the receipt.
#[derive(Drop)]
pub struct CoreReceipt<L: Ledger> {
    receipt: Receipt,
    name: PhantomData<L>,
}

impl<L: Ledger> Model for CoreReceipt<L> {
    ghost use Rattle.run_journal.specs.declared.receipt.Receipt.{Receipt};

    ghost Value = { Receipt };

    ghost view = { λ r. r.receipt };
}

impl<L: Ledger> CoreReceipt<L> {
    /// The receipt.
    pub fn as_receipt(&self) -> &Receipt
        ensures { result.now ≡ self.now }
    {
        &self.receipt
    }

    /// What is to be sent.
    pub fn outputs(&self) -> &Frames
        ensures { result.now ≡ self.now.outputs }
    {
        self.receipt.outputs()
    }

    /// The receipt, without the name of its core.
    pub fn into_receipt(self) -> Receipt
        ensures { result ≡ self }
    {
        let CoreReceipt { receipt, name: _ } = self;
        receipt
    }
}

/// A segment of the journal of the core of this name: what is under that core's lock makes it, and nobody else. Contracts see the segment.
#[derive(Drop)]
pub struct CoreSegment<L: Ledger> {
    segment: Segment,
    name: PhantomData<L>,
}

impl<L: Ledger> Model for CoreSegment<L> {
    ghost use Rattle.run_journal.specs.Journals.{Stretch};

    ghost Value = { Stretch };

    ghost view = { λ s. s.segment };
}

impl<L: Ledger> CoreSegment<L> {
    /// The segment.
    pub fn as_segment(&self) -> &Segment
        ensures { result.now ≡ self.now }
    {
        &self.segment
    }

    /// The segment, without the name of its core.
    pub fn into_segment(self) -> Segment
        ensures { result ≡ self }
    {
        let CoreSegment { segment, name: _ } = self;
        segment
    }
}

/// Who feeds a core: the numbers of its last entry, how many segments it took, and its share of the core's ledger, in which each of its
/// entries and each of these segments counts as one.
#[derive(Drop)]
pub struct Port<L: Ledger> {
    mark: Mark,
    taken: u64,
    share: Share<L>,
    ghost counted: { share.amount ≡ mark.place + taken },
    ghost backed: { 0 < share.parts },
}

impl<L: Ledger> Port<L> {
    /// The numbers of its last entry.
    pub fn mark(&self) -> Mark
        ensures { result ≡ self.now.mark }
    {
        self.mark
    }
}

/// The ports of the numbers 1 to `ports`, each with a part of what is left of the ledger. The only error is out of memory.
pub(crate) fn ports_of<L: Ledger>(
    alloc: Global,
    rest: &mut Share<L>,
    ports: u16,
) -> Result<Vec<Port<L>>, AllocError>
    requires parts { ports ≤ rest.old.parts }
    requires amount { rest.old.amount ≡ 0 }
    ensures { IfOk result (λ all. map (λ port. port.mark) all.items ≡ first_marks ports) }
{
    let mut all = Vec::with_capacity(alloc, ports as usize)?;
    for index in 0..ports {
        let mark = Mark {
            port: index + 1,
            place: 0,
            entry: 0,
            published: 0,
        };
        let share = rest.split_off(1, 0);
        all.push(Port {
            mark,
            taken: 0,
            share,
        })?;
    }
    Ok(all)
}

/// A router with its journal, how many segments ports took of it, and the one book of its ledger: as many entries were made, and segments
/// taken, as the ports have in all. It is the router of its name's configuration, as it was opened; and since there is one book of a name,
/// so is there one router. Receipts, segments and readers
/// with the name are made here alone.
#[derive(Drop)]
pub(crate) struct Booked<L: CoreName, R: Wait + Drop> {
    locked: Locked<R>,
    segments: u64,
    calls: Book<L>,
    ghost counted: { locked.counts.number + segments ≡ calls.total },
    ghost router: { locked.router ≡ L.config.router },
    ghost opening: { locked.opening ≡ (opened L.config).state },
}

/// A router that was just opened, what its ports have of its ledger, and the readers of its label table.
#[derive(Drop)]
pub(crate) struct Beginning<L: CoreName, R: Wait + Drop> {
    /// The router, with no entry.
    pub(crate) booked: Booked<L, R>,
    /// The ledger, but for its book.
    pub(crate) rest: Share<L>,
    /// The readers, with the name of the router.
    pub(crate) readers: Vec<CoreReader<L>>,
}

impl<L: CoreName, R: Wait + Drop> Booked<L, R> {
    /// The router of a configuration, as [`crate::open`] opens it.
    pub(crate) fn open(
        alloc: Global,
        rt: R,
        blank: Blank,
        config: Config,
        ports: u16,
        readers: usize,
    ) -> Result<Beginning<L, R>, OpenFault>
        requires name { blank.name ≡ L.name }
        requires parts { blank.parts ≡ L.parts }
        requires config { config ≡ L.config }
        requires ports { ports ≤ MAX_PORTS }
        requires readers { readers ≤ 64 }
        ensures rest { IfOk result (λ begun. (begun.rest.parts ≡ blank.parts) × (begun.rest.amount ≡ 0)) }
        ensures readers { IfOk result (λ begun. length begun.readers.items ≡ readers) }
        ensures own { IfOk result (λ begun. All (λ reader. reader ≡ new_reader begun.booked.locked.table) begun.readers.items) }
    {
        let (locked, readers) = Locked::new(alloc, rt, config, ports, readers)?;
        let readers = named_readers(alloc, readers)?;
        let (calls, rest) = blank.open::<L>();
        Ok(Beginning {
            booked: Booked {
                locked,
                segments: 0,
                calls,
            },
            rest,
            readers,
        })
    }

    /// What never changes of the router.
    pub(crate) fn router(&self) -> &Router
        ensures { result.now ≡ L.config.router }
    {
        self.locked.router()
    }

    /// Applies an event of a port, which may have been written as the journal holds it before. What is refused changes neither.
    pub(crate) fn apply(
        &mut self,
        alloc: Global,
        port: &mut Port<L>,
        event: &Event,
        spelled: Option<SpelledEvent>,
    ) -> Result<CoreReceipt<L>, Refusal>
        requires { IfSome spelled (IsSpelled event.now) }
        ensures answered { IsAnswered self.old.locked port.old.mark event.now result self.new.locked }
        ensures follows { IfOk result (λ receipt. Follows port.old.mark receipt × (port.new.mark ≡ receipt.mark)) }
        ensures counted { OnOk result (port.new.share.amount ≡ port.old.share.amount + 1) }
        ensures taken { port.new.taken ≡ port.old.taken }
        ensures own { IfOk result (IsReceiptOf L.config) }
        ensures journal { IsAnsweredBy L.config port.old.mark event.now result }
        ensures kept { OnErr result (port.new ≡ port.old) }
    {
        self.locked.knew();
        self.locked.soundness();
        match self.locked.apply_spelled(alloc, port.mark, event, spelled) {
            Ok(receipt) => {
                self.calls.add(&mut port.share, 1);
                port.mark = receipt.mark();
                Ok(CoreReceipt {
                    receipt,
                    name: PhantomData,
                })
            }
            Err(refusal) => Err(refusal),
        }
    }

    /// Takes the entries away, as a segment that has to be given to who keeps them, and counts it as one that the port took. The error is
    /// out of memory, also where 2^64 - 1 segments were taken, and then nothing changed.
    pub(crate) fn take(
        &mut self,
        alloc: Global,
        port: &mut Port<L>,
    ) -> Result<TakenSegment<L>, AllocError>
        ensures segment { IfOk result (λ taken. taken.segment ≡ stretch_of self.old.locked) }
        ensures rotated { OnOk result (self.new.locked ≡ rotated self.old.locked) }
        ensures own { IfOk result (λ taken. IsSegmentOf L.config taken.segment) }
        ensures taken { OnOk result (port.new.taken ≡ port.old.taken + 1) }
        ensures counted { OnOk result (port.new.share.amount ≡ port.old.share.amount + 1) }
        ensures mark { port.new.mark ≡ port.old.mark }
        ensures kept { OnErr result ((self.new.locked ≡ self.old.locked) × (port.new ≡ port.old)) }
    {
        self.locked.knew();
        self.locked.soundness();
        let segments = self.segments.checked_add(1).ok_or(AllocError)?;
        let taken = port.taken.checked_add(1).ok_or(AllocError)?;
        let segment = self.locked.rotate(alloc)?;
        self.calls.add(&mut port.share, 1);
        self.segments = segments;
        port.taken = taken;
        Ok(TakenSegment::new(CoreSegment {
            segment,
            name: PhantomData,
        }))
    }

    /// The entries that are left, as the last segment, which has to be given to who keeps them. The only error is out of memory.
    pub(crate) fn into_last(self, alloc: Global) -> Result<TakenSegment<L>, AllocError>
        ensures segment { IfOk result (λ taken. taken.segment ≡ stretch_of self.locked) }
        ensures own { IfOk result (λ taken. IsSegmentOf L.config taken.segment) }
    {
        let Booked {
            mut locked,
            segments: _,
            calls: _calls,
        } = self;
        locked.knew();
        locked.soundness();
        let segment = locked.rotate(alloc)?;
        Ok(TakenSegment::new(CoreSegment {
            segment,
            name: PhantomData,
        }))
    }

    /// The answer of the router as it stands.
    pub(crate) fn ask<Q: Question>(&self, question: &Q) -> Q::Answer
        ensures { (s : State) × IsKnown L.config s × Q.answered question.now (record { router = L.config.router; state = s }) result }
    {
        self.locked.knew();
        self.locked.soundness();
        question.ask(self.locked.machine())
    }

    /// What the router knows: a copy. The only error is out of memory.
    pub(crate) fn export(&self, alloc: Global) -> Result<State, AllocError>
        ensures { IfOk result (IsKnown L.config) }
    {
        self.locked.knew();
        self.locked.soundness();
        self.locked.export(alloc)
    }
}
