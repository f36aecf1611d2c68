//! The priorities of an LSP (RFC 3209, 4.7.1).

ghost use Rattle.std.specs.Option.{option_copied};
ghost use Rattle.std.specs.Prelude.{◌≡◌, ◌≤◌};
ghost use Rattle.lsr_facts.specs.Priorities.{counted, holding_of, setup_of};

use rsvp_bodies::Attr;

/// The worst priority; 0 is the best.
pub const WORST_PRIORITY: u8 = 7;

/// A priority as it counts: one above the worst counts as that.
fn counted(priority: u8) -> u8
    ensures { result ≡ counted priority }
{
    priority.min(WORST_PRIORITY)
}

/// The priority, 0 (best) to 7, at which an LSP takes bandwidth from others.
#[tactic(auto, unfolding(crate::specs::Priorities::setup_of))]
pub fn setup_of(attr: Option<&Attr>) -> u8
    ensures setup { result ≡ setup_of (option_copied attr.entry) }
    ensures most { result ≤ 7 }
{
    match attr {
        Some(attr) => counted(attr.setup),
        None => WORST_PRIORITY,
    }
}

/// The priority, 0 (best) to 7, at which an LSP keeps the bandwidth that it has: the better of the two that it
/// names.
#[tactic(auto, unfolding(crate::specs::Priorities::holding_of))]
pub fn holding_of(attr: Option<&Attr>) -> u8
    ensures holding { result ≡ holding_of (option_copied attr.entry) }
    ensures most { result ≤ 7 }
{
    match attr {
        Some(attr) => counted(attr.setup).min(counted(attr.hold)),
        None => WORST_PRIORITY,
    }
}
