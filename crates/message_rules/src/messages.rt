//! Parts of the messages that a router sends, and what they are about.

ghost use Rattle.std.specs.Prelude.{◌≡◌};
ghost use Rattle.explicit_routes.specs.Below.paths.Outcomes.{found_here, lsp, routed_by, sent_back, sent_by};
ghost use Rattle.explicit_routes.specs.Below.paths.Places.{place_at};

use explicit_routes::{Frame, Output, route_to};
use lsr_facts::{Key, Node, Router, RsvpError, Via};
use rsvp_contents::Message;
use rsvp_objects::{ErrorSpec, Session, Template};
use std::net::Ipv4Addr;

/// The limit of a Routed frame that this router makes: each router that passes it on takes one off, down to 1.
const ROUTED_LIMIT: u8 = 64;

/// The LSP of a session that has this head and LSP ID (RFC 3209, 4.6).
pub fn lsp(session: Session, sender: Template) -> Key
    ensures { result ≡ lsp session sender }
{
    Key { session, sender }
}

/// An error that this router found: its node is the router's id, and no flag is set (RFC 2205, A.5).
pub fn found_here(router: &Router, error: RsvpError) -> ErrorSpec
    ensures { result ≡ found_here router.now error }
{
    ErrorSpec {
        node: router.id,
        flags: 0,
        code: error.code,
        value: error.value,
    }
}

/// A message that goes out by the link of this number, from neighbour to neighbour.
pub fn sent_by(link: u16, message: Message) -> Output
    ensures { result ≡ sent_by link message }
{
    Output {
        link,
        frame: Frame::Hop(message),
    }
}

/// A message that goes out by the link of this number, on its way to the router of an address, in a Routed frame.
pub fn routed_by(link: u16, to: Ipv4Addr, message: Message) -> Output
    ensures { result ≡ routed_by link to message }
{
    Output {
        link,
        frame: Frame::Routed {
            to,
            limit: ROUTED_LIMIT,
            message,
        },
    }
}

/// A message that goes back to an origin: to a neighbour over its link; to the head of a bypass by the way that leads to
/// its address, and nothing where none does.
pub fn sent_back(node: &Node, via: Via, to: Ipv4Addr, message: Message) -> Option<Output>
    ensures { result ≡ sent_back (place_at node.now) via to message }
{
    match via {
        Via::Link(link) => Some(sent_by(link, message)),
        Via::Stack => {
            let link = route_to(node, to)?;
            Some(routed_by(link, to, message))
        }
    }
}
