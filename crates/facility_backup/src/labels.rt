//! The label under which a router takes an LSP, by what its Resv recorded (RFC 4090, 6.4.1).

ghost use Rattle.std.specs.Prelude.{◌≡◌};
ghost use Rattle.abstract_router.specs.Protecting.{first_label, label_after, names_router};

use forwarding_table::is_label;
use rsvp_bodies::Trace;
use std::net::Ipv4Addr;

/// The flag of a recorded label that its router takes it on every link (RFC 3209, 4.4.1.3).
const GLOBAL_LABEL: u8 = 0x01;

/// Whether an entry of a record names the router of this address.
fn names_router(address: Ipv4Addr, entry: &Trace) -> bool
    ensures { result ≡ names_router address entry.now }
{
    match entry {
        Trace::Ipv4 { prefix, .. } => prefix.address == address,
        Trace::Label { .. } => false,
        Trace::Other(_) => false,
    }
}

/// The label that a record begins with, where its router takes it on every link.
#[tactic(auto, using(crate::proofs::Flags::global_flag))]
fn first_label(entries: &[Trace]) -> Option<u32>
    ensures { result ≡ first_label entries.now }
{
    match entries {
        [Trace::Label { flags, label }, ..] if *flags & GLOBAL_LABEL != 0 && is_label(*label) => {
            Some(*label)
        }
        _ => None,
    }
}

/// The label that stands directly after the router of this address in a record.
#[tactic(auto, unfolding(abstract_router::specs::Protecting::label_after))]
pub(crate) fn label_after(address: Ipv4Addr, entries: &[Trace]) -> Option<u32>
    ensures { result ≡ label_after address entries.now }
{
    let mut rest = entries;
    while let [entry, after @ ..] = rest {
        if names_router(address, entry)
            && let Some(label) = first_label(after)
        {
            return Some(label);
        }
        rest = after;
    }
    None
}
