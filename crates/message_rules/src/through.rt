//! What goes through a bypass: messages under its label, and how they name the LSP (RFC 4090, 3.2 and 6.4.3).

ghost use Rattle.std.specs.Prelude.{◌≡◌, true};
ghost use Rattle.forwarding_table.specs.Labels.{is_label};
ghost use Rattle.abstract_router.specs.Through.{head_through, hop_through, labelled_by, stack_under};

use arrayvec::ArrayVec;
use explicit_routes::{Frame, Output};
use forwarding_table::IMPLICIT_NULL;
use label_stacks::{Stack, StackEntry};
use link_frames::Payload;
use lsr_facts::{Link, Over, Repair, Router};
use rsvp_contents::Message;
use rsvp_objects::{Hop, Template};

/// The TTL of a message that this router sends under a label (RFC 3032, 2.4.1).
const MESSAGE_TTL: u8 = 255;

/// The stack of a message through a bypass, by the label that its next hop gave: one entry, and none where that is
/// implicit null (RFC 3032, 2.1). It asks for a number that may stand for a label.
#[tactic(auto, using(crate::proofs::Stacks::none_is_stack, crate::proofs::Stacks::one_is_stack))]
pub fn stack_under(label: u32) -> Stack
    requires { is_label label ≡ true }
    ensures { result ≡ stack_under label }
{
    let mut entries = ArrayVec::new();
    if label == IMPLICIT_NULL {
        return Stack::new(entries);
    }
    entries.push(StackEntry {
        label,
        class: 0,
        ttl: MESSAGE_TTL,
    });
    Stack::new(entries)
}

/// A message through a bypass that runs over this. It asks for a number that may stand for a label.
pub fn labelled_by(over: Over, message: Message) -> Output
    requires { is_label over.label ≡ true }
    ensures { result ≡ labelled_by over message }
{
    Output {
        link: over.link,
        frame: Frame::Labelled(stack_under(over.label), Payload::Message(message)),
    }
}

/// This router as the bypass's end sees it: its id, and the link that is protected as the interface (RFC 4090, 6.4.3).
pub fn hop_through(router: &Router, repair: &Repair) -> Hop
    ensures { result ≡ hop_through router.now repair.now }
{
    Hop {
        address: router.id,
        interface: u32::from(repair.resv.link),
    }
}

/// The head and the LSP ID as the bypass's end sees them: the sender is this router's address on the link that is
/// protected (RFC 4090, 6.4.3).
pub fn head_through(sender: Template, link: &Link) -> Template
    ensures { result ≡ head_through sender link.now }
{
    Template {
        sender: link.address,
        ..sender
    }
}
