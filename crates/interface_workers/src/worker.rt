//! A worker: it takes frames from a link's wire, feeds the core what they say, and sends what the core answers.

ghost use Rattle.std.specs.Prelude.{◌≡◌, ◌+◌, ◌-◌, ◌^◌, ◌<◌, ◌≤◌, ◌⊎◌, ◌∷◌, ℕ, All, false, true, [], IfErr, IfOk, IfSome, List, OnErr, length, vec_capacity};
ghost use Rattle.lsr_facts.specs.declared.refusal.Refusal.TheVariants.{JournalFull};
ghost use Rattle.interface_workers.specs.Chains.{AddsUp, AreHandedOut, HasRoom, IsChain, IsFed, IsFedOnce, IsWorkOf, StaysWorkOf, WorkGoesOn};
ghost use Rattle.shared_core.specs.Names.{IsReceiptOf, IsSegmentOf};
ghost use Rattle.worker_tallies.specs.Tallies.{counted, with_lost};
ghost use Rattle.interface_workers.specs.Turns.{AreAmongFailures, HasSent, IsEventServed, IsFullAgain, IsFullAgainFor, IsNoWork, IsPassedOn, IsRunOf, IsServed, IsTaken, IsTallyOf, IsTurn, IsUnlabelled};
ghost use Rattle.interface_workers.specs.Wires.{AreSent, Arrival, Sending, after};
ghost use Rattle.interface_workers.specs.Next.{StandsFor};
ghost use Rattle.link_frames.specs.Frames.{frame_bytes};
ghost use Rattle.link_frames.specs.declared.frame.Frame.{Frame};
ghost use Rattle.datagrams.specs.declared.datagram.Passed.TheVariants as passes;
ghost use Rattle.lookup_plane.specs.Changes.{StartsWith};
ghost use Rattle.shared_core.specs.Below.journal.Spelled.{IsSpelled};

use crate::early::{EarlyEvent, EarlyReads};
use crate::gate::Gate;
use crate::next::Next;
use crate::reading::read_next;
use crate::wire::Wire;
use abstract_paths::Event;
use frame_rewriting::ROOM;
use journal_bytes::WrittenFrame;
use lsr_facts::Refusal;
use rsvp_messages::frame_bytes;
use shared_core::{
    Core, CoreName, CoreReader, CoreReceipt, Datagram, HeldCore, KeepSegments, Passed, Port,
    Receipt, Segment, SpelledEvent,
};
use std::alloc::{AllocError, Global};
use std::sync::Wait;
use worker_tallies::{Handled, Tally};

/// The most bytes of a datagram.
const MAX_DATAGRAM_LEN: usize = 65_536;

/// What a worker did: the receipts of its entries, the segments that it took where the journal was full, how many of the datagrams that
/// it took became what, and how many turns it made.
#[derive(Debug, Drop)]
pub struct Work {
    /// The receipts, in the order of its entries.
    pub receipts: Vec<Receipt>,
    /// The segments, in the order in which it took them.
    pub segments: Vec<Segment>,
    /// How many of the datagrams became what.
    pub tally: Tally,
    /// How many turns were made: in each of them the wire was asked for a frame once.
    pub turns: u32,
}

impl Work {
    /// No work yet, with room for that of so many events. The only error is out of memory.
    pub fn new(alloc: Global, events: u32) -> Result<Work, AllocError>
        ensures none { IfOk result IsNoWork }
        ensures receipts { IfOk result (λ work. events ≤ vec_capacity work.receipts) }
        ensures segments { IfOk result (λ work. events ≤ vec_capacity work.segments) }
    {
        Ok(Work {
            receipts: Vec::with_capacity(alloc, events as usize)?,
            segments: Vec::with_capacity(alloc, events as usize)?,
            tally: Tally::new(),
            turns: 0,
        })
    }
}

/// Whether a wire has failed as often as can be counted.
fn is_spent<W: Wire>(wire: &W) -> bool
    ensures spent { result ≡ true → (W.history wire.now).failed ≡ 2 ^ 64 - 1 }
    ensures not_yet { result ≡ false → (W.history wire.now).failed < 2 ^ 64 - 1 }
{
    wire.failures() == u64::MAX
}

/// Gives frames to a wire, each in its turn, also after one that is lost. A wire that failed as often as can be counted is given no more.
fn send_all<W: Wire>(wire: &mut W, frames: &[WrittenFrame])
    ensures { (sendings : List Sending) × AreSent frames.now sendings (W.history wire.old) (W.history wire.new) }
{
    for frame in frames {
        if is_spent(wire) {
            return;
        }
        let _ = wire.send(frame.link, frame.bytes.as_slice());
    }
}

/// Carries a frame that is passed on by its labels, over the link of this number.
fn send_on<W: Wire>(wire: &mut W, link: u16, bytes: &[u8]) -> Handled
    ensures { (frame : Frame) → bytes.now ≡ frame_bytes frame
        → HasSent (IsPassedOn (passes.Sent link frame) result) (W.history wire.old) (W.history wire.new) }
{
    if is_spent(wire) {
        return Handled::NotCarried;
    }
    match wire.send(link, bytes) {
        Ok(()) => Handled::Forwarded,
        Err(_) => Handled::NotCarried,
    }
}

/// Carries a frame that is passed on by its labels, where there is memory for its bytes. A payload that has arrived goes no further.
fn pass_on<W: Wire>(alloc: Global, wire: &mut W, passed: &Passed) -> Handled
    ensures { HasSent (IsPassedOn passed.now result) (W.history wire.old) (W.history wire.new) }
{
    let Passed::Sent { link, frame } = passed else {
        return Handled::Delivered;
    };
    match frame_bytes(alloc, frame) {
        Ok(bytes) => send_on(wire, *link, bytes.as_slice()),
        Err(_) => Handled::Refused(Refusal::NoMemory),
    }
}

/// What a turn took from its wire.
pub(crate) enum Taken {
    /// Nothing came in the wire's time.
    Nothing,
    /// The wire failed, and gave nothing.
    WireFailed,
    /// A labelled frame came, and the reader wasn't shown the label table.
    NotShown,
    /// A datagram came: what it is, or why it is refused.
    Came(Result<Datagram, Refusal>),
}

/// Written out, so that it is dropped by one call, whatever it holds.
impl Drop for Taken {
    fn drop(self) {
        match self {
            Taken::Nothing | Taken::WireFailed | Taken::NotShown => {}
            Taken::Came(_answer) => {}
        }
    }
}

impl Taken {
    /// Whether it is an event, which is fed.
    pub(crate) fn is_event(&self) -> bool {
        match self {
            Taken::Came(answer) => is_fed(answer),
            Taken::Nothing | Taken::WireFailed | Taken::NotShown => false,
        }
    }
}

/// Whether a datagram says an event.
fn is_fed(answer: &Result<Datagram, Refusal>) -> bool {
    match answer {
        Ok(Datagram::Event(_)) => true,
        Ok(Datagram::Passed(_)) | Err(_) => false,
    }
}

/// Where a worker stands: the core that it feeds, the gate between them, and what it waits and takes memory by.
#[derive(Drop)]
struct Station<'a, L: CoreName, R: Wait + Drop, K: KeepSegments + Drop, T: Wait, G: Gate> {
    rt: &'a T,
    alloc: Global,
    core: &'a Core<L, R, K>,
    gate: &'a G,
}

impl<'a, L: CoreName, R: Wait + Drop, K: KeepSegments + Drop, T: Wait, G: Gate> Station<
    'a,
    L,
    R,
    K,
    T,
    G,
> {
    /// Whether the router isn't kept, and would be for what the wire has more.
    fn may_keep<W: Wire>(&self, held: &Option<HeldCore<'a, L, R>>, wire: &W) -> bool {
        held.is_none() && wire.ahead(0).is_some() && !self.gate.may_hold()
    }

    /// Keeps the router for an event and for what came together with it, where nobody else uses it just now. Else what came is read before
    /// the router is waited for, so that nobody waits while it is read.
    fn read_early<W: Wire>(
        &self,
        held: &mut Option<HeldCore<'a, L, R>>,
        early: &mut EarlyReads<L>,
        link: u16,
        wire: &W,
        next: &Next<'_>,
    ) {
        if !next.is_event() || !self.may_keep(held, wire) {
            return;
        }
        *held = self.core.try_hold();
        if held.is_none() {
            early.fill(self.alloc, self.core.router(), link, wire);
        }
    }

    /// Keeps the router where the wire has more that is fed without waiting: so what came together is fed under one taking of the lock.
    fn hold_for_more<W: Wire>(&self, held: &mut Option<HeldCore<'a, L, R>>, wire: &W) {
        if self.may_keep(held, wire) {
            *held = Some(self.core.hold(self.rt));
        }
    }

    /// Feeds an event once, between the two words of the gate.
    fn feed_once(
        &self,
        held: &mut Option<HeldCore<'a, L, R>>,
        port: &mut Port<L>,
        event: &Event,
        spelled: Option<SpelledEvent>,
    ) -> Result<CoreReceipt<L>, Refusal>
        requires { IfSome spelled (IsSpelled event.now) }
        ensures fed { IsFedOnce L.config port.old.mark event.now result port.new.mark }
        ensures taken { port.new.taken ≡ port.old.taken }
        ensures own { IfOk result (IsReceiptOf L.config) }
    {
        let mark = port.mark();
        let call = mark.place.saturating_add(1);
        self.gate.enter(mark.port, call);
        let answer = match held {
            Some(held) => held.feed(self.alloc, port, event, spelled),
            None => self
                .core
                .feed_spelled(self.rt, self.alloc, port, event, spelled),
        };
        self.gate.leave(mark.port, call);
        answer
    }

    /// Feeds an event. Where the journal is full its entries are taken and put to the segments, and the event is fed once
    /// more. The journal's lock is taken before the router's, so a router that is kept is let go first.
    fn feed_rotating(
        &self,
        held: &mut Option<HeldCore<'a, L, R>>,
        port: &mut Port<L>,
        segments: &mut Vec<Segment>,
        event: &Event,
        spelled: Option<SpelledEvent>,
    ) -> Result<CoreReceipt<L>, Refusal>
        requires room { length segments.old.items < vec_capacity segments.old }
        requires spelled { IfSome spelled (IsSpelled event.now) }
        ensures fed { IsFed L.config port.old.mark event.now result port.new.mark }
        ensures segments { length segments.new.items ≤ length segments.old.items + 1 }
        ensures room { vec_capacity segments.new ≡ vec_capacity segments.old }
        ensures handed_out { AreHandedOut port.old.taken segments.old.items port.new.taken segments.new.items }
        ensures full { IfErr result (λ refusal. refusal ≡ JournalFull → length segments.new.items ≡ length segments.old.items + 1) }
        ensures own { IfOk result (IsReceiptOf L.config) }
        ensures stays { All (IsSegmentOf L.config) segments.old.items → All (IsSegmentOf L.config) segments.new.items }
    {
        match self.feed_once(held, port, event, spelled) {
            Err(Refusal::JournalFull) => {
                *held = None;
                segments.push_reserved(self.core.rotate(self.rt, self.alloc, port)?.into_segment());
                self.feed_once(held, port, event, None)
            }
            answer => answer,
        }
    }

    /// Feeds an event, keeps its receipt, and sends what the core answers. What is refused leaves no receipt; as full it is
    /// only where it was so again, after the entries were taken. Nothing is counted yet.
    fn serve_event<W: Wire>(
        &self,
        held: &mut Option<HeldCore<'a, L, R>>,
        port: &mut Port<L>,
        wire: &mut W,
        work: &mut Work,
        event: &Event,
        spelled: Option<SpelledEvent>,
    ) -> Handled
        requires room { HasRoom work.old }
        requires spelled { IfSome spelled (IsSpelled event.now) }
        ensures goes_on { WorkGoesOn work.old port.old.mark work.new port.new.mark }
        ensures handed_out { AreHandedOut port.old.taken work.old.segments.items port.new.taken work.new.segments.items }
        ensures own { StaysWorkOf L.config work.old work.new }
        ensures served { HasSent (IsEventServed L.config port.old.mark event.now result work.old.receipts.items work.new.receipts.items) (W.history wire.old) (W.history wire.new) }
        ensures full { IsFullAgain result work.old.segments.items work.new.segments.items }
        ensures tally { (work.new.tally ≡ work.old.tally) × (work.new.turns ≡ work.old.turns) }
    {
        self.hold_for_more(held, wire);
        match self.feed_rotating(held, port, &mut work.segments, event, spelled) {
            Ok(receipt) => {
                send_all(wire, receipt.outputs().as_slice());
                work.receipts.push_reserved(receipt.into_receipt());
                Handled::Fed
            }
            Err(refusal) => Handled::of_refusal(refusal),
        }
    }

    /// Asks the wire for a frame once: what the turn is to serve, as it came over the link. The label table is asked for labelled frames
    /// alone. The reader comes back: it has seen no less, and nothing more but for a labelled frame.
    fn receive<'b, W: Wire>(
        &self,
        early: &mut EarlyReads<L>,
        reader: CoreReader<L>,
        link: u16,
        wire: &mut W,
        buffer: &'b mut [u8],
    ) -> (Next<'b>, CoreReader<L>)
        requires failed { (W.history wire.old).failed < 2 ^ 64 - 1 }
        requires room { ROOM ≤ length buffer.old }
        ensures took { (arrival : Arrival) × (taken : Taken) × StandsFor result.0 taken × IsTaken L.config.router result.1.seen link arrival taken
            × (W.history wire.new ≡ after (W.history wire.old) (arrival ∷ []) []) × (IsUnlabelled arrival → result.1 ≡ reader) }
        ensures later { StartsWith result.1.seen reader.seen }
        ensures learnt { result.1.at_least ≡ reader.at_least }
    {
        match wire.receive(&mut buffer[ROOM..]) {
            Ok(Some(len)) => {
                let router = self.core.router();
                read_next(
                    self.alloc,
                    router,
                    early,
                    reader,
                    link,
                    &mut buffer[..ROOM + len],
                )
            }
            Ok(None) => (Next::Taken(Taken::Nothing), reader),
            Err(_) => (Next::Taken(Taken::WireFailed), reader),
        }
    }

    /// Feeds an event that came, and the reader learns of its receipt. Nothing is counted yet.
    fn serve_arrived<W: Wire>(
        &self,
        held: &mut Option<HeldCore<'a, L, R>>,
        port: &mut Port<L>,
        reader: &mut CoreReader<L>,
        wire: &mut W,
        work: &mut Work,
        event: &Event,
        spelled: Option<SpelledEvent>,
    ) -> Handled
        requires room { HasRoom work.old }
        requires spelled { IfSome spelled (IsSpelled event.now) }
        ensures goes_on { WorkGoesOn work.old port.old.mark work.new port.new.mark }
        ensures handed_out { AreHandedOut port.old.taken work.old.segments.items port.new.taken work.new.segments.items }
        ensures own { StaysWorkOf L.config work.old work.new }
        ensures served { HasSent (IsEventServed L.config port.old.mark event.now result work.old.receipts.items work.new.receipts.items) (W.history wire.old) (W.history wire.new) }
        ensures full { IsFullAgain result work.old.segments.items work.new.segments.items }
        ensures tally { (work.new.tally ≡ work.old.tally) × (work.new.turns ≡ work.old.turns) }
        ensures seen { reader.new.seen ≡ reader.old.seen }
        ensures learnt { reader.old.at_least ≤ reader.new.at_least }
    {
        let handled = self.serve_event(held, port, wire, work, event, spelled);
        reader.learn(port);
        handled
    }

    /// Serves what was taken, if anything was. Nothing is counted yet.
    fn serve_taken<W: Wire>(
        &self,
        held: &mut Option<HeldCore<'a, L, R>>,
        port: &mut Port<L>,
        reader: &mut CoreReader<L>,
        wire: &mut W,
        work: &mut Work,
        taken: &Taken,
    ) -> Handled
        requires { HasRoom work.old }
        ensures goes_on { WorkGoesOn work.old port.old.mark work.new port.new.mark }
        ensures handed_out { AreHandedOut port.old.taken work.old.segments.items port.new.taken work.new.segments.items }
        ensures own { StaysWorkOf L.config work.old work.new }
        ensures served { HasSent (IsServed L.config port.old.mark taken.now result work.old.receipts.items work.new.receipts.items) (W.history wire.old) (W.history wire.new) }
        ensures full { IsFullAgainFor taken.now result work.old.segments.items work.new.segments.items }
        ensures tally { (work.new.tally ≡ work.old.tally) × (work.new.turns ≡ work.old.turns) }
        ensures seen { reader.new.seen ≡ reader.old.seen }
        ensures learnt { reader.old.at_least ≤ reader.new.at_least }
    {
        match taken {
            Taken::Nothing => Handled::Nothing,
            Taken::WireFailed => Handled::WireFailed,
            Taken::NotShown => Handled::NotShown,
            Taken::Came(answer) => self.serve_answer(held, port, reader, wire, work, answer),
        }
    }

    /// Serves a datagram: a message is fed, and the reader learns of its receipt; a labelled frame is passed on. Nothing is counted yet.
    fn serve_answer<W: Wire>(
        &self,
        held: &mut Option<HeldCore<'a, L, R>>,
        port: &mut Port<L>,
        reader: &mut CoreReader<L>,
        wire: &mut W,
        work: &mut Work,
        answer: &Result<Datagram, Refusal>,
    ) -> Handled
        requires { HasRoom work.old }
        ensures goes_on { WorkGoesOn work.old port.old.mark work.new port.new.mark }
        ensures handed_out { AreHandedOut port.old.taken work.old.segments.items port.new.taken work.new.segments.items }
        ensures own { StaysWorkOf L.config work.old work.new }
        ensures served { HasSent (IsServed L.config port.old.mark (Taken.Came answer.now) result work.old.receipts.items work.new.receipts.items) (W.history wire.old) (W.history wire.new) }
        ensures full { IsFullAgainFor (Taken.Came answer.now) result work.old.segments.items work.new.segments.items }
        ensures tally { (work.new.tally ≡ work.old.tally) × (work.new.turns ≡ work.old.turns) }
        ensures seen { reader.new.seen ≡ reader.old.seen }
        ensures learnt { reader.old.at_least ≤ reader.new.at_least }
    {
        match answer {
            Ok(Datagram::Event(event)) => {
                self.serve_arrived(held, port, reader, wire, work, event, None)
            }
            Ok(Datagram::Passed(passed)) => {
                *held = None;
                pass_on(self.alloc, wire, passed)
            }
            Err(refusal) => Handled::of_refusal(*refusal),
        }
    }

    /// Serves what a turn is to serve. Nothing is counted yet.
    fn serve_next<W: Wire>(
        &self,
        held: &mut Option<HeldCore<'a, L, R>>,
        early: &mut EarlyReads<L>,
        port: &mut Port<L>,
        reader: &mut CoreReader<L>,
        wire: &mut W,
        work: &mut Work,
        next: Next<'_>,
    ) -> Handled
        requires { HasRoom work.old }
        ensures goes_on { WorkGoesOn work.old port.old.mark work.new port.new.mark }
        ensures handed_out { AreHandedOut port.old.taken work.old.segments.items port.new.taken work.new.segments.items }
        ensures own { StaysWorkOf L.config work.old work.new }
        ensures served { (taken : Taken) → StandsFor next.entry taken
            → HasSent (IsServed L.config port.old.mark taken result work.old.receipts.items work.new.receipts.items) (W.history wire.old) (W.history wire.new) }
        ensures full { (taken : Taken) → StandsFor next.entry taken → IsFullAgainFor taken result work.old.segments.items work.new.segments.items }
        ensures tally { (work.new.tally ≡ work.old.tally) × (work.new.turns ≡ work.old.turns) }
        ensures seen { reader.new.seen ≡ reader.old.seen }
        ensures learnt { reader.old.at_least ≤ reader.new.at_least }
    {
        match next {
            Next::Taken(taken) => self.serve_taken(held, port, reader, wire, work, &taken),
            Next::Early(EarlyEvent { event, spelled }) => {
                let spelled = Some(spelled);
                let handled = self.serve_arrived(held, port, reader, wire, work, &event, spelled);
                early.retire(event);
                handled
            }
            Next::Rewritten { link, bytes } => {
                *held = None;
                send_on(wire, link, bytes)
            }
        }
    }

    /// A turn: asks the wire for a frame once, as one that came over the link, serves it, and counts what became of it. The reader comes
    /// back: it has seen and learnt no less. A router that is kept for what came together is let go with the last of it.
    fn turn<W: Wire>(
        &self,
        held: &mut Option<HeldCore<'a, L, R>>,
        early: &mut EarlyReads<L>,
        port: &mut Port<L>,
        reader: CoreReader<L>,
        link: u16,
        wire: &mut W,
        work: &mut Work,
        buffer: &mut [u8],
    ) -> CoreReader<L>
        requires room { HasRoom work.old }
        requires turns { work.old.turns < 2 ^ 32 - 1 }
        requires failed { (W.history wire.old).failed < 2 ^ 64 - 1 }
        requires buffer { ROOM ≤ length buffer.old }
        ensures buffer { length buffer.new ≡ length buffer.old }
        ensures turn { IsTurn L.config link
            (record { work = work.old; mark = port.old.mark; seen = reader.seen; history = W.history wire.old })
            (record { work = work.new; mark = port.new.mark; seen = result.seen; history = W.history wire.new }) }
        ensures learnt { reader.at_least ≤ result.at_least }
        ensures handed_out { AreHandedOut port.old.taken work.old.segments.items port.new.taken work.new.segments.items }
        ensures own { StaysWorkOf L.config work.old work.new }
    {
        let (next, mut reader) = self.receive(early, reader, link, wire, buffer);
        self.read_early(held, early, link, wire, &next);
        let failures = wire.failures();
        let handled = self.serve_next(held, early, port, &mut reader, wire, work, next);
        if wire.ahead(0).is_none() {
            *held = None;
        }
        work.tally.lose(wire.failures() - failures);
        work.tally.count(handled);
        work.turns += 1;
        reader
    }
}

/// Feeds an event, keeps its receipt, and sends what the core answers. What is refused leaves no receipt; as full it is only where it was so
/// again, after the entries were taken. Which it was is counted, as of a datagram, and so are the frames that the wire lost. Work that was of the router of the core's configuration stays so.
pub fn serve_event<L: CoreName, R: Wait + Drop, K: KeepSegments + Drop, T: Wait, W: Wire, G: Gate>(
    rt: &T,
    alloc: Global,
    core: &Core<L, R, K>,
    port: &mut Port<L>,
    wire: &mut W,
    gate: &G,
    work: &mut Work,
    event: &Event,
) -> Handled
    requires { HasRoom work.old }
    ensures goes_on { WorkGoesOn work.old port.old.mark work.new port.new.mark }
    ensures handed_out { AreHandedOut port.old.taken work.old.segments.items port.new.taken work.new.segments.items }
    ensures own { StaysWorkOf L.config work.old work.new }
    ensures served { HasSent (IsEventServed L.config port.old.mark event.now result work.old.receipts.items work.new.receipts.items) (W.history wire.old) (W.history wire.new) }
    ensures full { IsFullAgain result work.old.segments.items work.new.segments.items }
    ensures tally { (lost : ℕ) × (work.new.tally ≡ counted (with_lost work.old.tally lost) result)
        × ((W.history wire.new).failed ≡ (W.history wire.old).failed + lost) }
    ensures adds_up { AddsUp work.new }
    ensures datagrams { work.new.tally.datagrams ≡ work.old.tally.datagrams + 1 }
    ensures turns { work.new.turns ≡ work.old.turns }
{
    let station = Station {
        rt,
        alloc,
        core,
        gate,
    };
    let failures = wire.failures();
    let handled = station.serve_event(&mut None, port, wire, work, event, None);
    work.tally.lose(wire.failures() - failures);
    work.tally.count(handled);
    handled
}

/// The room for the work of so many turns, and for a datagram with more labels than it comes with. The only error is out of memory.
fn make_room(alloc: Global, turns: u32) -> Result<(Work, Vec<u8>), AllocError>
    ensures none { IfOk result (λ room. IsNoWork room.0) }
    ensures receipts { IfOk result (λ room. turns ≤ vec_capacity room.0.receipts) }
    ensures segments { IfOk result (λ room. turns ≤ vec_capacity room.0.segments) }
    ensures buffer { IfOk result (λ room. ROOM ≤ length room.1.items) }
{
    Ok((
        Work::new(alloc, turns)?,
        vec![in alloc; 0_u8; ROOM + MAX_DATAGRAM_LEN]?,
    ))
}

/// A worker's run: so many turns, each of which asks the wire for a frame once and serves it, as one that came over the link. Labelled
/// frames go by what the reader sees of the label table, which waits for nobody; the reader comes back. It ends before where the wire
/// failed as often as can be counted. The room for its work is made first: the only error is out of memory, and then no turn was
/// made. Its receipts are those of the port's entries, each after the other, and its segments are all that the core handed out to the
/// port; all are of the router of the core's configuration.
pub fn serve_link<L: CoreName, R: Wait + Drop, K: KeepSegments + Drop, T: Wait, W: Wire, G: Gate>(
    rt: &T,
    alloc: Global,
    core: &Core<L, R, K>,
    port: &mut Port<L>,
    reader: CoreReader<L>,
    link: u16,
    wire: &mut W,
    gate: &G,
    turns: u32,
) -> (CoreReader<L>, Result<Work, AllocError>)
    ensures chain { IfOk result.1 (λ work. IsChain port.old.mark work.receipts.items port.new.mark) }
    ensures few { IfOk result.1 (λ work. (length work.receipts.items ≤ turns) × (length work.segments.items ≤ turns)) }
    ensures adds_up { IfOk result.1 AddsUp }
    ensures turns { IfOk result.1 (λ work. (work.turns ≡ turns) ⊎ ((W.history wire.new).failed ≡ 2 ^ 64 - 1)) }
    ensures asked { IfOk result.1 (λ work. IsTallyOf work.tally work.turns (W.history wire.old) (W.history wire.new)) }
    ensures failures { IfOk result.1 (λ work. AreAmongFailures work.tally (W.history wire.old) (W.history wire.new)) }
    ensures run { IfOk result.1 (λ work. IsRunOf L.config link work.turns port.old.mark reader.seen (W.history wire.old)
        (record { work = work; mark = port.new.mark; seen = result.0.seen; history = W.history wire.new })) }
    ensures later { StartsWith result.0.seen reader.seen }
    ensures learnt { reader.at_least ≤ result.0.at_least }
    ensures handed_out { IfOk result.1 (λ work. port.new.taken ≡ port.old.taken + length work.segments.items) }
    ensures own { IfOk result.1 (IsWorkOf L.config) }
    ensures kept { OnErr result.1 ((port.new ≡ port.old) × (wire.new ≡ wire.old) × (result.0 ≡ reader)) }
{
    let station = Station {
        rt,
        alloc,
        core,
        gate,
    };
    let (mut work, mut buffer) = match make_room(alloc, turns) {
        Ok(room) => room,
        Err(error) => return (reader, Err(error)),
    };
    let mut reader = reader;
    let mut held = None;
    let mut early = EarlyReads::new(alloc);
    for _turn in 0..turns {
        if is_spent(wire) {
            return (reader, Ok(work));
        }
        reader = station.turn(
            &mut held,
            &mut early,
            port,
            reader,
            link,
            wire,
            &mut work,
            &mut buffer,
        );
    }
    (reader, Ok(work))
}
