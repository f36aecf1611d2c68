//! What a datagram is, by what readers of the label table see.

ghost use Rattle.std.specs.Prelude.{◌≡◌, ◌≢◌, ◌≤◌, IfNone, IfSome, drop, length};
ghost use Rattle.forwarding_table.specs.Forwarding.{forward_of};
ghost use Rattle.datagrams.specs.Datagrams.{IsDatagram};
ghost use Rattle.link_frames.specs.Frames.{kind_of};
ghost use Rattle.lookup_plane.specs.Changes.{StartsWith, look};
ghost use Rattle.interface_workers.specs.Next.{StandsFor};
ghost use Rattle.interface_workers.specs.Turns.{IsTaken};
ghost use Rattle.interface_workers.specs.Wires.Arrival.{Came};
ghost use Rattle.interface_workers.specs.declared.worker.Taken.{Taken};

use crate::early::EarlyReads;
use crate::next::Next;
use crate::worker::Taken;
use datagrams::{Datagram, Forwards, read_datagram, read_unlabelled};
use forwarding_table::Forwarding;
use frame_rewriting::{ROOM, rewrite};
use label_stacks::Stack;
use lookup_plane::Lookups;
use lsr_facts::{Refusal, Router};
use shared_core::{CoreName, CoreReader};
use std::alloc::Global;
use std::sync::ledger::Ledger;

/// The label table, as a reader sees it.
#[derive(Drop)]
struct Seen<'a> {
    lookups: &'a Lookups,
}

impl<'a> Forwards for Seen<'a> {
    ghost use Rattle.forwarding_table.specs.Forwarding.{forward_of};
    ghost use Rattle.lookup_plane.specs.Changes.{look};

    ghost forwarded = { λ s. forward_of (look s.lookups.now.seen) };

    fn forward(&self, stack: &Stack) -> Forwarding {
        self.lookups.forward(stack)
    }
}

/// What a labelled frame is that came over a link, by the label table that the reader sees; none where that isn't shown. The reader comes
/// back: it has seen no less.
fn read_labelled<L: Ledger>(
    alloc: Global,
    router: &Router,
    reader: CoreReader<L>,
    link: u16,
    bytes: &[u8],
) -> (Option<Result<Datagram, Refusal>>, CoreReader<L>)
    ensures answer { IfSome result.0 (IsDatagram router.now (forward_of (look result.1.seen)) link bytes.now) }
    ensures later { StartsWith result.1.seen reader.seen }
    ensures learnt { result.1.at_least ≡ reader.at_least }
{
    match reader.enter() {
        Ok(lookups) => {
            let seen = Seen {
                lookups: lookups.as_lookups(),
            };
            let answer = read_datagram(alloc, router, &seen, link, bytes);
            (Some(answer), lookups.leave())
        }
        Err(reader) => (None, reader),
    }
}

/// What a datagram is that came over a link: a labelled frame by the label table that the reader sees, all its labels by one; any
/// other whatever the reader sees. It waits for nobody. None for a labelled frame where the reader's table isn't shown any more, or
/// not yet what it has learnt. The reader comes back: it has seen no less, and of any other datagram nothing more.
pub fn read_by<L: Ledger>(
    alloc: Global,
    router: &Router,
    reader: CoreReader<L>,
    link: u16,
    bytes: &[u8],
) -> (Option<Result<Datagram, Refusal>>, CoreReader<L>)
    ensures answer { IfSome result.0 (IsDatagram router.now (forward_of (look result.1.seen)) link bytes.now) }
    ensures labelled { IfNone result.0 (kind_of bytes.now ≡ 2) }
    ensures unlabelled { kind_of bytes.now ≢ 2 → result.1 ≡ reader }
    ensures later { StartsWith result.1.seen reader.seen }
    ensures learnt { result.1.at_least ≡ reader.at_least }
{
    match read_unlabelled(alloc, router, link, bytes) {
        Some(answer) => (Some(answer), reader),
        None => read_labelled(alloc, router, reader, link, bytes),
    }
}

/// What a turn serves of a labelled frame, which stands in the buffer after room for more labels: where it goes on, it is rewritten there,
/// and takes no memory.
fn next_labelled<'a, L: Ledger>(
    alloc: Global,
    router: &Router,
    reader: CoreReader<L>,
    link: u16,
    buffer: &'a mut [u8],
) -> (Next<'a>, CoreReader<L>)
    requires room { ROOM ≤ length buffer.old }
    requires labelled { kind_of (drop ROOM buffer.old) ≡ 2 }
    ensures took { (taken : Taken) × StandsFor result.0 taken × IsTaken router.now result.1.seen link (Came (drop ROOM buffer.old)) taken }
    ensures later { StartsWith result.1.seen reader.seen }
    ensures learnt { result.1.at_least ≡ reader.at_least }
{
    let lookups = match reader.enter() {
        Ok(lookups) => lookups,
        Err(reader) => return (Next::Taken(Taken::NotShown), reader),
    };
    let seen = Seen {
        lookups: lookups.as_lookups(),
    };
    let next = match rewrite(&seen, buffer) {
        Some(sent) => Next::Rewritten {
            link: sent.link,
            bytes: &buffer[sent.start..],
        },
        None => Next::Taken(Taken::Came(read_datagram(
            alloc,
            router,
            &seen,
            link,
            &buffer[ROOM..],
        ))),
    };
    (next, lookups.leave())
}

/// What a turn serves of a datagram that came over a link, to the router of the reader's name, and stands in the buffer after room for more
/// labels: as it was read before its turn, if it was.
pub(crate) fn read_next<'a, L: CoreName>(
    alloc: Global,
    router: &Router,
    early: &mut EarlyReads<L>,
    reader: CoreReader<L>,
    link: u16,
    buffer: &'a mut [u8],
) -> (Next<'a>, CoreReader<L>)
    requires router { router.now ≡ L.config.router }
    requires room { ROOM ≤ length buffer.old }
    ensures took { (taken : Taken) × StandsFor result.0 taken × IsTaken router.now result.1.seen link (Came (drop ROOM buffer.old)) taken }
    ensures unlabelled { kind_of (drop ROOM buffer.old) ≢ 2 → result.1 ≡ reader }
    ensures later { StartsWith result.1.seen reader.seen }
    ensures learnt { result.1.at_least ≡ reader.at_least }
{
    if let Some(event) = early.take(link, &buffer[ROOM..]) {
        return (Next::Early(event), reader);
    }
    match read_unlabelled(alloc, router, link, &buffer[ROOM..]) {
        Some(answer) => (Next::Taken(Taken::Came(answer)), reader),
        None => next_labelled(alloc, router, reader, link, buffer),
    }
}
