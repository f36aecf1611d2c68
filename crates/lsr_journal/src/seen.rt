//! What a datagram is, by what a reader of the label table sees.
ghost use Rattle.std.specs.Prelude.{◌≡◌};
ghost use Rattle.lsr_journal.specs.Recorded.{IsRead};

use datagrams::{Datagram, Forwards, read_datagram, read_unlabelled};
use forwarding_table::Forwarding;
use label_stacks::Stack;
use lookup_plane::{Inquiry, LookupReader, Lookups};
use lsr_facts::{Refusal, Router};
use std::alloc::Global;

/// The label table, as a reader sees it.
#[derive(Drop)]
struct Seen<'a> {
    lookups: &'a Lookups,
}

impl<'a> Forwards for Seen<'a> {
    ghost use Rattle.forwarding_table.specs.Forwarding.{forward_of};
    ghost use Rattle.lookup_plane.specs.Changes.{look};

    ghost forwarded = { λ s. forward_of (look s.lookups.now.seen) };

    fn forward(&self, stack: &Stack) -> Forwarding {
        self.lookups.forward(stack)
    }
}

/// A datagram that came over a link, to be read by what a reader sees.
#[derive(Drop)]
struct Arrived<'a> {
    alloc: Global,
    router: &'a Router,
    link: u16,
    bytes: &'a [u8],
}

impl<'a> Inquiry for Arrived<'a> {
    ghost use Rattle.forwarding_table.specs.Forwarding.{forward_of};
    ghost use Rattle.lookup_plane.specs.Changes.{look};
    ghost use Rattle.datagrams.specs.Datagrams.{IsDatagram};

    type Answer = Result<Datagram, Refusal>;

    ghost answered = { λ a seen answer. IsDatagram a.router.now (forward_of (look seen)) a.link a.bytes.now answer };

    fn ask(&self, lookups: &Lookups) -> Result<Datagram, Refusal> {
        read_datagram(
            self.alloc,
            self.router,
            &Seen { lookups },
            self.link,
            self.bytes,
        )
    }
}

/// What a datagram is that came over a link: a labelled frame by the label table that the reader sees, all its labels by one list
/// of changes; any other whatever the reader sees. A labelled frame is refused as where memory ran out, if the reader's table isn't
/// shown any more, or not yet what it has learnt.
pub(crate) fn read_seen(
    alloc: Global,
    router: &Router,
    reader: &mut LookupReader,
    link: u16,
    bytes: &[u8],
) -> Result<Datagram, Refusal>
    ensures { IsRead router.now reader.old link bytes.now result reader.new }
{
    if let Some(answer) = read_unlabelled(alloc, router, link, bytes) {
        return answer;
    }
    let arrived = Arrived {
        alloc,
        router,
        link,
        bytes,
    };
    match reader.ask(&arrived) {
        Ok(answer) => answer,
        Err(_) => Err(Refusal::NoMemory),
    }
}
