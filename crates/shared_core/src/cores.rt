//! A router under its lock, which many threads feed.

ghost use Rattle.std.specs.Prelude.{◌≡◌, ◌+◌, ◌≤◌, ℕ, All, IfOk, IfSome, OnErr, OnOk, length, map};
ghost use Rattle.abstract_router.specs.States.{State};
ghost use Rattle.journal_bytes.specs.Events.{event_bytes};
ghost use Rattle.lookup_plane.specs.Changes.{new_reader};
ghost use Rattle.run_journal.specs.Marks.{Follows, first_marks};
ghost use Rattle.run_journal.specs.Spelled.{IsSpelled};
ghost use Rattle.shared_core.specs.Names.{IsKnown, IsReceiptOf, IsSegmentOf};
ghost use Rattle.shared_core.specs.Answered.{IsAnsweredBy};

use crate::asking::Question;
use crate::booked::{Beginning, Booked, CoreReceipt, CoreSegment, Port, ports_of};
use crate::keeping::{KeepSegments, KeptJournal, SegmentCount};
use crate::names::CoreName;
use crate::readers::CoreReader;
use abstract_paths::Event;
use lookup_plane::OpenFault;
use lsr_config::Config;
use lsr_facts::{Refusal, Router, State};
use run_journal::{MAX_PORTS, Segment, SpelledEvent};
use sorted_rows::TryCopy;
use std::alloc::{AllocError, Global};
use std::sync::ledger::Blank;
use std::sync::{Mutex, MutexGuard, Wait};

/// A router that many threads feed, each by a port of its own, and a `K` that keeps the segments of its journal. Its name is that of its
/// ledger: no other core has it; and it knows the configuration, which is this router's. The router's lock is taken within the journal's,
/// and never the other way round.
pub struct Core<L: CoreName, R: Wait + Drop, K: KeepSegments + Drop = SegmentCount> {
    lock: Mutex<Booked<L, R>>,
    journal: Mutex<KeptJournal<K>>,
    router: Router,
    ghost configured: { router ≡ L.config.router },
}

/// Written out, so that it is dropped by one call, whatever it holds.
impl<L: CoreName, R: Wait + Drop, K: KeepSegments + Drop> Drop for Core<L, R, K> {
    fn drop(self) {
        let Core {
            lock: _lock,
            journal: _journal,
            router: _router,
        } = self;
    }
}

/// A core whose router is kept by a thread: nobody else uses it meanwhile.
pub struct HeldCore<'a, L: CoreName, R: Wait + Drop> {
    guard: MutexGuard<'a, Booked<L, R>>,
}

/// Written out, so that it is dropped by one call, whatever it holds.
impl<L: CoreName, R: Wait + Drop> Drop for HeldCore<'_, L, R> {
    fn drop(self) {
        let HeldCore { guard: _guard } = self;
    }
}

impl<L: CoreName, R: Wait + Drop> HeldCore<'_, L, R> {
    /// Feeds an event of a port, as [`Core::feed_spelled`] does, without waiting for others.
    pub fn feed(
        &mut self,
        alloc: Global,
        port: &mut Port<L>,
        event: &Event,
        spelled: Option<SpelledEvent>,
    ) -> Result<CoreReceipt<L>, Refusal>
        requires { IfSome spelled (IsSpelled event.now) }
        ensures follows { IfOk result (λ receipt. Follows port.old.mark receipt × (port.new.mark ≡ receipt.mark)) }
        ensures event { IfOk result (λ receipt. receipt.event ≡ event_bytes event.now) }
        ensures taken { port.new.taken ≡ port.old.taken }
        ensures own { IfOk result (IsReceiptOf L.config) }
        ensures answered { IsAnsweredBy L.config port.old.mark event.now result }
        ensures kept { OnErr result (port.new ≡ port.old) }
    {
        self.guard.apply(alloc, port, event, spelled)
    }
}

/// A core with its ports, and readers of its label table.
#[derive(Drop)]
pub struct Opened<L: CoreName, R: Wait + Drop, K: KeepSegments + Drop = SegmentCount> {
    /// The core.
    pub core: Core<L, R, K>,
    /// Its ports, in the order of their numbers.
    pub ports: Vec<Port<L>>,
    /// The readers, with the name of the core.
    pub readers: Vec<CoreReader<L>>,
}

/// What a core leaves when its run is over.
#[derive(Drop)]
pub struct Finished<K: KeepSegments + Drop> {
    /// The last segment of its journal.
    pub last: Segment,
    /// Who keeps the journal.
    pub keeper: K,
    /// How many segments are kept: all, or those before the first that couldn't be.
    pub kept: u64,
}

impl<L: CoreName, R: Wait + Drop, K: KeepSegments + Drop> Core<L, R, K> {
    /// Feeds an event of a port, and tells the port of its entry: the port's next place, a later entry than its last one, and
    /// the event that was fed, in an entry of the router of the configuration. Waits for others who use the core. It is answered as
    /// [`Locked::apply`] answers it, by the journal as it stood then; where it is refused the port is as it was.
    pub fn feed<W: Wait>(
        &self,
        rt: &W,
        alloc: Global,
        port: &mut Port<L>,
        event: &Event,
    ) -> Result<CoreReceipt<L>, Refusal>
        ensures follows { IfOk result (λ receipt. Follows port.old.mark receipt × (port.new.mark ≡ receipt.mark)) }
        ensures event { IfOk result (λ receipt. receipt.event ≡ event_bytes event.now) }
        ensures counted { OnOk result (port.new.share.amount ≡ port.old.share.amount + 1) }
        ensures taken { port.new.taken ≡ port.old.taken }
        ensures own { IfOk result (IsReceiptOf L.config) }
        ensures answered { IsAnsweredBy L.config port.old.mark event.now result }
        ensures kept { OnErr result (port.new ≡ port.old) }
    {
        self.feed_spelled(rt, alloc, port, event, None)
    }

    /// Feeds an event of a port, as [`Core::feed`] does, which may have been written as the journal holds it before.
    pub fn feed_spelled<W: Wait>(
        &self,
        rt: &W,
        alloc: Global,
        port: &mut Port<L>,
        event: &Event,
        spelled: Option<SpelledEvent>,
    ) -> Result<CoreReceipt<L>, Refusal>
        requires { IfSome spelled (IsSpelled event.now) }
        ensures follows { IfOk result (λ receipt. Follows port.old.mark receipt × (port.new.mark ≡ receipt.mark)) }
        ensures event { IfOk result (λ receipt. receipt.event ≡ event_bytes event.now) }
        ensures counted { OnOk result (port.new.share.amount ≡ port.old.share.amount + 1) }
        ensures taken { port.new.taken ≡ port.old.taken }
        ensures own { IfOk result (IsReceiptOf L.config) }
        ensures answered { IsAnsweredBy L.config port.old.mark event.now result }
        ensures kept { OnErr result (port.new ≡ port.old) }
    {
        let mut guard = self.lock.lock(rt);
        guard.apply(alloc, port, event, spelled)
    }

    /// The core with its router kept, until that is let go. Waits for others who use the core.
    pub fn hold<W: Wait>(&self, rt: &W) -> HeldCore<'_, L, R> {
        HeldCore {
            guard: self.lock.lock(rt),
        }
    }

    /// The core with its router kept, where nobody else uses the core just now. Waits for nobody.
    pub fn try_hold(&self) -> Option<HeldCore<'_, L, R>> {
        let guard = self.lock.try_lock()?;
        Some(HeldCore { guard })
    }

    /// Takes the entries that were made since the last time, once, and counts them as a segment that the port took, in the core's ledger too.
    /// The segment is given to who keeps the journal before it is handed out, and before anyone takes another one: so the numbers of segments
    /// are in the order of their entries. It is one of the router of the configuration, which is fed meanwhile. Waits for others who use the
    /// core; the error is out of memory, also where 2^64 - 1 segments were taken, and then nothing changed.
    pub fn rotate<W: Wait>(
        &self,
        rt: &W,
        alloc: Global,
        port: &mut Port<L>,
    ) -> Result<CoreSegment<L>, AllocError>
        ensures taken { OnOk result (port.new.taken ≡ port.old.taken + 1) }
        ensures counted { OnOk result (port.new.share.amount ≡ port.old.share.amount + 1) }
        ensures mark { port.new.mark ≡ port.old.mark }
        ensures own { IfOk result (IsSegmentOf L.config) }
        ensures kept { OnErr result (port.new ≡ port.old) }
    {
        let mut journal = self.journal.lock(rt);
        let taken = self.lock.lock(rt).take(alloc, port)?;
        Ok(journal.give(taken))
    }

    /// Takes the entries that are left, as the last segment, which is given to who keeps the journal. The only error is out of memory.
    pub fn finish(self, alloc: Global) -> Result<Finished<K>, AllocError>
        ensures given { IfOk result (λ finished. K.given finished.keeper ≡ finished.kept) }
        ensures own { IfOk result (λ finished. IsSegmentOf L.config finished.last) }
    {
        let Core {
            lock,
            journal,
            router: _router,
        } = self;
        let booked = lock.into_inner();
        let mut journal = journal.into_inner();
        let last = journal.give(booked.into_last(alloc)?).into_segment();
        let (keeper, kept) = journal.into_keeper();
        Ok(Finished { last, keeper, kept })
    }

    /// What the router of the configuration knows: a copy, and sound. Waits for others who use the core; the only error is out of memory.
    pub fn inspect<W: Wait>(&self, rt: &W, alloc: Global) -> Result<State, AllocError>
        ensures { IfOk result (IsKnown L.config) }
    {
        let guard = self.lock.lock(rt);
        guard.export(alloc)
    }

    /// The answer of the router, as it knew things once, to a question. Waits for others who use the core, and they wait until it is
    /// answered.
    pub fn ask<W: Wait, Q: Question>(&self, rt: &W, question: &Q) -> Q::Answer
        ensures { (s : State) × IsKnown L.config s × Q.answered question.now (record { router = L.config.router; state = s }) result }
    {
        let guard = self.lock.lock(rt);
        guard.ask(question)
    }

    /// What never changes of the router, as the configuration says it.
    pub fn router(&self) -> &Router
        ensures router { result.now ≡ self.now.router }
        ensures configured { result.now ≡ L.config.router }
    {
        &self.router
    }
}

/// Opens the router of a configuration, with ports of the numbers 1 to `ports`, at most [`MAX_PORTS`], so many readers of its label table,
/// and who keeps its journal, and has no segment yet. The blank names the core, and has a part for each port; the name knows the
/// configuration. The core keeps `rt`, to wait for readers. The fault is that there is too little memory, or no place for a reader.
pub fn open<L: CoreName, R: Wait + Drop, K: KeepSegments + Drop>(
    alloc: Global,
    rt: R,
    blank: Blank,
    config: Config,
    ports: u16,
    readers: usize,
    keeper: K,
) -> Result<Opened<L, R, K>, OpenFault>
    requires name { blank.name ≡ L.name }
    requires parts { blank.parts ≡ L.parts }
    requires config { config ≡ L.config }
    requires enough { ports ≤ blank.parts }
    requires ports { ports ≤ MAX_PORTS }
    requires readers { readers ≤ 64 }
    requires none { K.given keeper ≡ 0 }
    ensures ports { IfOk result (λ opened. map (λ port. port.mark) opened.ports.items ≡ first_marks ports) }
    ensures readers { IfOk result (λ opened. length opened.readers.items ≡ readers) }
    ensures fresh { IfOk result (λ opened. (table : ℕ) × All (λ reader. reader ≡ new_reader table) opened.readers.items) }
{
    let Beginning {
        booked,
        mut rest,
        readers,
    } = Booked::open(alloc, rt, blank, config, ports, readers)?;
    let router = booked.router().try_copy(alloc)?;
    let ports = ports_of(alloc, &mut rest, ports)?;
    Ok(Opened {
        core: Core {
            lock: Mutex::new(booked),
            journal: Mutex::new(KeptJournal::new(keeper)),
            router,
        },
        ports,
        readers,
    })
}
