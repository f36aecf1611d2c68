//! A router with its journal, as it stands under a lock.

ghost use Rattle.std.specs.Prelude.{◌≡◌, ◌<◌, ◌≤◌, ◌-◌, ◌+◌, ◌^◌, ◌++◌, ◌∷◌, [], All, IfErr, IfOk, IfSome, List, MatchResult, None, OnErr, OnOk, false, length};
ghost use Rattle.router_core.specs.States.{opened};
ghost use Rattle.router_core.specs.Readies.{IsReady};
ghost use Rattle.lookup_plane.specs.Changes.{IsChangeOf, StartsWith, new_reader, opening_changes};
ghost use Rattle.lookup_plane.specs.declared.change.TableChange.{TableChange};
ghost use Rattle.run_journal.specs.Entries.{Knew};
ghost use Rattle.run_journal.specs.Journals.{IsAnnounced, IsAnswered, IsChangeFor, IsEntered, IsEntryFor, IsKept, IsMarked, IsOpening, IsRefused, IsSegment, IsTableOnce, LeadToTable, early_refusal, opened_journal, rotated, router_in, stretch_of};
ghost use Rattle.run_journal.specs.Marks.{Follows, first_counts};
ghost use Rattle.run_journal.specs.Spelled.{IsSpelled, IsWritten};

use crate::counts::JournalCounts;
use crate::entry::CountedEntry;
use crate::mark::Mark;
use crate::receipt::Receipt;
use crate::segment::Segment;
use crate::spelled::SpelledEvent;
use crate::{MAX_ENTRIES, MAX_NUMBER, MAX_PORTS};
use abstract_paths::Event;
use journal_bytes::{Bytes, Entry, Listed, written_event, written_frames};
use lookup_plane::{LookupReader, OpenFault, Plane, TableChange};
use lsr_config::Config;
use lsr_facts::{Refusal, Router, State};
use router_core::{Machine, Ready};
use sorted_rows::{Table, TryCopy};
use std::alloc::{AllocError, Global};
use std::marker::Model;
use std::mem;
use std::sync::Wait;

/// A router with its journal, as it stands under a lock. Contracts see the router, what it knew as it was opened and at the base, the
/// entries since, and what it knows now. At any moment the entries record a run from the base to what the router knows, both are sound,
/// and the numbers are what the entries make of those at the base.
pub struct Locked<R: Wait + Drop> {
    machine: Machine,
    opening: State,
    base: State,
    from: JournalCounts,
    entries: Vec<CountedEntry>,
    counts: JournalCounts,
    plane: Plane<R>,
}

/// Written out, so that it is dropped by one call, whatever it holds.
impl<R: Wait + Drop> Drop for Locked<R> {
    fn drop(self) {
        let Locked {
            machine: _machine,
            opening: _opening,
            base: _base,
            from: _from,
            entries: _entries,
            counts: _counts,
            plane: _plane,
        } = self;
    }
}

impl<R: Wait + Drop> Model for Locked<R> {
    ghost use Rattle.std.specs.Prelude.{◌≤◌, vec_capacity};
    ghost use Rattle.run_journal.specs.Journals.{IsKept, IsPlaneOf, Journal, journal_of};

    ghost Value = { Journal };

    ghost view = { λ l. journal_of l.machine l.opening l.base l.from l.entries.items l.counts l.plane };

    ghost invariant = { λ l.
        IsKept (journal_of l.machine l.opening l.base l.from l.entries.items l.counts l.plane) × (4096 ≤ vec_capacity l.entries) × IsPlaneOf l.machine.router l.plane };
}

/// The event as the journal holds it: as it was written before, or written now. The only error is out of memory.
fn bytes_of(alloc: Global, event: &Event, written: Option<Bytes>) -> Result<Bytes, AllocError>
    requires { IfSome written (IsWritten event.now) }
    ensures { IfOk result (IsWritten event.now) }
{
    match written {
        Some(bytes) => Ok(bytes),
        None => written_event(alloc, event),
    }
}

/// The entry of a step that is made ready, with the event as it was written before, if it was. The only error is out of memory.
fn entry_of(
    alloc: Global,
    port: u16,
    event: &Event,
    written: Option<Bytes>,
    ready: &Ready,
) -> Result<CountedEntry, AllocError>
    requires { IfSome written (IsWritten event.now) }
    ensures { IfOk result (IsEntryFor port event.now ready.now) }
{
    Ok(CountedEntry {
        entry: Entry {
            port,
            event: bytes_of(alloc, event, written)?,
            chosen: Listed::from_vec(Vec::from_slice(alloc, ready.chosen())?),
            reply: ready.reply(),
            outputs: written_frames(alloc, ready.outputs())?,
        },
        changes_table: ready.changes_table(),
    })
}

/// No change of the label table.
fn no_change(alloc: Global) -> TableChange
    ensures { result ≡ record { cleared = false; labels = []; tunnels = [] } }
{
    TableChange {
        cleared: false,
        labels: Table::new(alloc),
        tunnels: Table::new(alloc),
    }
}

/// The change of the label table that a step makes which is made ready. The only error is out of memory.
fn table_change(alloc: Global, ready: &Ready) -> Result<TableChange, AllocError>
    ensures { IfOk result (IsChangeFor ready.now) }
{
    match ready {
        Ready::Plan(plan) => match plan.table_edits() {
            Some((labels, tunnels)) => TableChange::of_edits(alloc, labels, tunnels),
            None => Ok(no_change(alloc)),
        },
        Ready::Start => Ok(no_change(alloc)),
        Ready::Restart { .. } => Ok(TableChange::restart(alloc)),
    }
}

/// Announces the change of a step to the plane, where it changes the label table: readers see it once it is published. It asks
/// for a step of a router that is sound before and after it. The only error is out of memory, and then nothing changed.
fn announce<R: Wait + Drop>(
    alloc: Global,
    plane: &mut Plane<R>,
    ready: &Ready,
    changes_table: bool,
) -> Result<(), AllocError>
    requires { (change : TableChange) → IsChangeFor ready.now change → IsChangeOf plane.old.first_label plane.old.last_label change }
    ensures { MatchResult result
        (λ _. IsAnnounced changes_table ready.now plane.old plane.new)
        (λ _. plane.new ≡ plane.old) }
{
    if !changes_table {
        return Ok(());
    }
    match plane.append(table_change(alloc, ready)?) {
        Ok(()) => Ok(()),
        Err(_) => Err(AllocError),
    }
}

/// Shows readers what was announced, where the label table changes. It asks that this leads to the label table of the router as
/// it stands: so nothing is shown before its step is made. Waits for readers that look at the table just now.
fn show<R: Wait + Drop>(plane: &mut Plane<R>, machine: &Machine, changes_table: bool)
    requires made { LeadToTable machine.now.router machine.now.state (plane.old.published ++ plane.old.pending) }
    requires few { length plane.old.published + length plane.old.pending < 2 ^ 64 }
    requires none { changes_table ≡ false → plane.old.pending ≡ [] }
    ensures { plane.new ≡ record plane.old { published = plane.old.published ++ plane.old.pending; pending = []; table = plane.new.table } }
{
    if changes_table {
        plane.publish();
    }
}

impl<R: Wait + Drop> Locked<R> {
    /// The router of a configuration as it is opened, with ports of the numbers 1 to `ports`, at most [`MAX_PORTS`], no entry, and so many
    /// readers of its label table. It reserves the memory of all LSPs that the router may ever know, of the entries of a segment, and of
    /// the table. It keeps `rt`, to wait for readers. The fault is that there is too little memory, or no place for a reader.
    pub fn new(
        alloc: Global,
        rt: R,
        config: Config,
        ports: u16,
        readers: usize,
    ) -> Result<(Locked<R>, Vec<LookupReader>), OpenFault>
        requires ports { ports ≤ MAX_PORTS }
        requires readers { readers ≤ 64 }
        ensures locked { IfOk result (λ made. made.0 ≡ opened_journal (opened config) (first_counts ports) made.0.table) }
        ensures readers { IfOk result (λ made. (length made.1.items ≡ readers) × All (λ reader. reader ≡ new_reader made.0.table) made.1.items) }
    {
        let machine = Machine::open(alloc, config)?;
        machine.soundness();
        let labels = machine.router().labels;
        let (plane, all) = Plane::new(alloc, rt, labels.first, labels.last, readers)?;
        let locked = Locked::over(alloc, machine, ports, plane)?;
        Ok((locked, all))
    }

    /// A router that was just opened, with no entry, and with a plane that shows nothing yet. The only error is out of memory.
    fn over(
        alloc: Global,
        machine: Machine,
        ports: u16,
        plane: Plane<R>,
    ) -> Result<Locked<R>, AllocError>
        requires opening { IsOpening machine.router machine.state }
        requires plane { plane ≡ opening_changes machine.router.labels.first machine.router.labels.last plane.table }
        ensures { IfOk result (λ locked. locked ≡ opened_journal machine (first_counts ports) plane.table) }
    {
        machine.soundness();
        let entries = Vec::with_capacity(alloc, MAX_ENTRIES)?;
        let counts = JournalCounts::new(alloc, ports)?;
        let from = counts.try_copy(alloc)?;
        let opening = machine.export(alloc)?;
        let base = machine.export(alloc)?;
        Ok(Locked {
            machine,
            opening,
            base,
            from,
            entries,
            counts,
            plane,
        })
    }

    /// Why an event of a port is refused before it is looked at, if it is: its mark isn't the port's
    /// ([`Refusal::WrongPort`]); the router is cold, and it is no start ([`Refusal::IsCold`]); the journal is full
    /// ([`Refusal::JournalFull`]).
    fn early_refusal(&self, mark: Mark, event: &Event) -> Option<Refusal>
        ensures { result ≡ early_refusal self.now mark event.now }
    {
        if !self.counts.is_known(mark) {
            return Some(Refusal::WrongPort);
        }
        if self.machine.is_cold() && !matches!(event, Event::Start) {
            return Some(Refusal::IsCold);
        }
        if self.entries.len() >= MAX_ENTRIES || self.counts.number() >= MAX_NUMBER {
            return Some(Refusal::JournalFull);
        }
        None
    }

    /// Makes a step that is made ready, puts its entry to the others, and shows readers what it changes of the label table. It
    /// asks for a step of this router as it stands, for the entry of that step, and for room. The only error is out of memory,
    /// and then nothing changed.
    fn record(
        &mut self,
        alloc: Global,
        event: &Event,
        ready: Ready,
        entry: CountedEntry,
    ) -> Result<(), AllocError>
        requires ready { IsReady (router_in self.old) event.now ready }
        requires entry { IsEntryFor entry.entry.port event.now ready entry }
        requires port { entry.entry.port - 1 < length self.old.counts.marks }
        requires room { length self.old.entries < 4096 }
        requires low { self.old.counts.number < 2 ^ 62 }
        ensures entered { OnOk result (IsEntered self.old event.now entry self.new) }
        ensures kept { OnErr result (self.new ≡ self.old) }
    {
        self.soundness();
        announce(alloc, &mut self.plane, &ready, entry.changes_table)?;
        self.machine.make(alloc, ready);
        self.machine.soundness();
        show(&mut self.plane, &self.machine, entry.changes_table);
        self.counts.count(&entry);
        self.entries.push_reserved(entry);
        Ok(())
    }

    /// The step of an event of a port, made ready, and the entry of it, with the event as it was written before, if it was; or why the
    /// event is refused. Nothing changes yet.
    fn prepare(
        &self,
        alloc: Global,
        mark: Mark,
        event: &Event,
        written: Option<Bytes>,
    ) -> Result<(Ready, CountedEntry), Refusal>
        requires { IfSome written (IsWritten event.now) }
        ensures taken { OnOk result (early_refusal self.now mark event.now ≡ None) }
        ensures ready { IfOk result (λ made. IsReady (router_in self.now) event.now made.0) }
        ensures entry { IfOk result (λ made. IsEntryFor mark.port event.now made.0 made.1) }
        ensures refused { IfErr result (IsRefused (early_refusal self.now mark event.now) self.now event.now) }
    {
        if let Some(refusal) = self.early_refusal(mark, event) {
            return Err(refusal);
        }
        let ready = self.machine.ready(alloc, event)?;
        let entry = entry_of(alloc, mark.port, event, written, &ready)?;
        Ok((ready, entry))
    }

    /// Applies an event of a port, and tells the port of its entry. It is refused, in this order, where the mark isn't the
    /// one that the journal has for its port ([`Refusal::WrongPort`]); where the router is cold, and it is no start
    /// ([`Refusal::IsCold`]); where the segment has 4,096 entries, or there were 2^62 in all ([`Refusal::JournalFull`]); and
    /// where it is a message for another router whose limit ran out ([`Refusal::HopLimit`]). Else the only error is
    /// [`Refusal::NoMemory`]. What is refused changes nothing. Where the label table changes it waits for readers that look at it just
    /// now.
    pub fn apply(&mut self, alloc: Global, mark: Mark, event: &Event) -> Result<Receipt, Refusal>
        ensures answered { IsAnswered self.old mark event.now result self.new }
        ensures follows { IfOk result (Follows mark) }
    {
        self.apply_spelled(alloc, mark, event, None)
    }

    /// Applies an event of a port as [`Locked::apply`] does, which may have been written as the journal holds it before: so less is done
    /// while others wait for the router.
    pub fn apply_spelled(
        &mut self,
        alloc: Global,
        mark: Mark,
        event: &Event,
        spelled: Option<SpelledEvent>,
    ) -> Result<Receipt, Refusal>
        requires { IfSome spelled (IsSpelled event.now) }
        ensures answered { IsAnswered self.old mark event.now result self.new }
        ensures follows { IfOk result (Follows mark) }
    {
        self.soundness();
        let (written, told) = SpelledEvent::parts(spelled);
        let (ready, entry) = self.prepare(alloc, mark, event, written)?;
        let receipt = self.counts.receipt(alloc, &entry, told)?;
        self.record(alloc, event, ready, entry)?;
        Ok(receipt)
    }

    /// Applies an event of a port as [`Locked::apply`] does, and gives of the port's receipt the mark alone: what was answered and what is
    /// to be sent stand in the last entry, and nothing is copied of it.
    pub fn enter(&mut self, alloc: Global, mark: Mark, event: &Event) -> Result<Mark, Refusal>
        ensures { IsMarked self.old mark event.now result self.new }
    {
        let (ready, entry) = self.prepare(alloc, mark, event, None)?;
        let after = self.counts.mark_after(&entry);
        self.record(alloc, event, ready, entry)?;
        Ok(after)
    }

    /// Takes the entries away as a segment; what the router knows now is the new base. The memory of the next segment's
    /// entries is reserved; the only error is out of memory, and then nothing changed.
    pub fn rotate(&mut self, alloc: Global) -> Result<Segment, AllocError>
        ensures segment { IfOk result (λ segment. segment ≡ stretch_of self.old) }
        ensures rotated { IfOk result (λ segment. self.new ≡ rotated self.old) }
        ensures kept { OnErr result (self.new ≡ self.old) }
    {
        self.soundness();
        let entries = Vec::with_capacity(alloc, MAX_ENTRIES)?;
        let from = self.counts.try_copy(alloc)?;
        let router = self.machine.router().try_copy(alloc)?;
        let end = self.machine.export(alloc)?;
        let base = end.try_copy(alloc)?;
        Ok(Segment {
            router,
            base: mem::replace(&mut self.base, base),
            from: mem::replace(&mut self.from, from),
            entries: mem::replace(&mut self.entries, entries),
            end,
        })
    }

    /// What the router knows, as a value: a copy. The only error is out of memory.
    pub fn export(&self, alloc: Global) -> Result<State, AllocError>
        ensures { IfOk result (λ state. state ≡ self.now.state) }
    {
        self.machine.export(alloc)
    }

    /// What the router knew before the first entry that isn't taken away.
    pub fn base(&self) -> &State
        ensures { result.now ≡ self.now.base }
    {
        &self.base
    }

    /// The entries that aren't taken away, from the base on.
    pub fn entries(&self) -> &[CountedEntry]
        ensures { result.now ≡ self.now.entries }
    {
        self.entries.as_slice()
    }

    /// The router as it stands, to be looked at.
    pub fn machine(&self) -> &Machine
        ensures { result.now ≡ router_in self.now }
    {
        &self.machine
    }

    /// What never changes of the router.
    pub fn router(&self) -> &Router
        ensures { result.now ≡ self.now.router }
    {
        self.machine.router()
    }

    /// Each beginning of the changes that readers are shown was the label table of the router once, since it was opened: so what a
    /// reader answers is what the router forwarded by in a state that it was in. A law: it does nothing when it runs.
    pub fn tables_were(&self)
        ensures { (seen : List TableChange) → StartsWith self.now.shown seen → IsTableOnce self.now.router self.now.opening seen }
    {
        self.soundness();
    }

    /// What the router knew at the base, and what it knows now, it came to know by steps that it made since it was opened. A law: it does
    /// nothing when it runs.
    pub fn knew(&self)
        ensures base { Knew self.now.router self.now.opening self.now.base }
        ensures state { Knew self.now.router self.now.opening self.now.state }
    {
        self.soundness();
    }

    /// The entries that aren't taken away are a segment as they stand. A law: it does nothing when it runs.
    pub fn is_segment(&self)
        ensures { IsSegment (stretch_of self.now) }
    {
        self.soundness();
    }

    /// The entries record a run of the router from the base to what it knows, both are sound, and the numbers are theirs. A
    /// law: it does nothing when it runs.
    pub fn soundness(&self)
        ensures { IsKept self.now }
    {
        let _entries = &self.entries;
    }
}
