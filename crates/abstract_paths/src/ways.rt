//! Messages that come: what they were read as, or where they are to go.

ghost use Rattle.std.specs.Prelude.{◌≡◌, true};
ghost use Rattle.abstract_paths.specs.Ways.{rejects_unknown, takes, takes_content};

use link_frames::{Data, Reading};
use rsvp_contents::{Content, Message};
use sorted_rows::TryCopy;
use std::alloc::{AllocError, Global};
use std::net::Ipv4Addr;

/// The way in which a message for this router came.
#[derive(Clone, Copy, Debug, PartialEq, Eq)]
pub enum ArrivalWay {
    /// From a neighbour, in a Hop frame.
    Hop,
    /// Through a stack of labels that ends here (RFC 4090, 6.4.3).
    Stack,
    /// In a Routed frame for an address of this router.
    Routed,
}

/// A message for this router. Its way takes its type: a Hop frame every one, a stack of labels a Path, a ResvErr and a
/// PathTear, a Routed frame a Resv, a PathErr and a ResvTear. Only a Path or a Resv has an object that it doesn't know.
#[derive(Debug, Drop)]
pub struct Arrive {
    /// The number of the link that it came over.
    pub link: u16,
    /// How it came.
    pub way: ArrivalWay,
    /// What it was read as.
    pub reading: Reading,
    ghost taken: { takes way reading ≡ true },
}

/// A message for another router, in a Routed frame.
#[derive(Debug, Drop)]
pub struct Relay {
    /// The number of the link that it came over.
    pub link: u16,
    /// The address that it is to go to.
    pub to: Ipv4Addr,
    /// How many routers may pass it on, this one among them.
    pub limit: u8,
    /// The message, unread.
    pub message: Data,
}

/// Whether messages of this type come that way.
fn takes_content(way: ArrivalWay, content: &Content) -> bool
    ensures { result ≡ takes_content way content.now }
{
    match content {
        Content::Path(_) | Content::ResvErr(_) | Content::PathTear(_) => way != ArrivalWay::Routed,
        Content::Resv(_) | Content::PathErr(_) | Content::ResvTear(_) => way != ArrivalWay::Stack,
    }
}

/// Whether a message that is read with an object that it doesn't know is in error for it: a Path and a Resv are
/// (RFC 2205, 3.10).
fn rejects_unknown(message: &Message) -> bool
    ensures { result ≡ rejects_unknown message.now }
{
    matches!(message.content(), Content::Path(_) | Content::Resv(_))
}

/// Whether the way takes what a message was read as.
pub fn takes(way: ArrivalWay, reading: &Reading) -> bool
    ensures { result ≡ takes way reading.now }
{
    match reading {
        Reading::Whole(message) => takes_content(way, message.content()),
        Reading::Unknown(message, ..) => {
            rejects_unknown(message) && takes_content(way, message.content())
        }
    }
}

impl TryCopy for Arrive {
    fn try_copy(&self, _alloc: Global) -> Result<Arrive, AllocError> {
        Ok(Arrive {
            link: self.link,
            way: self.way,
            reading: self.reading.clone()?,
        })
    }
}

impl TryCopy for Relay {
    fn try_copy(&self, _alloc: Global) -> Result<Relay, AllocError> {
        Ok(Relay {
            link: self.link,
            to: self.to,
            limit: self.limit,
            message: self.message.clone()?,
        })
    }
}
