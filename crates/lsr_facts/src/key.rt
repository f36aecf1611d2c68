ghost use Rattle.std.specs.Prelude.{◌≡◌};

use rsvp_contents::{Session, Template};

/// What tells one LSP from all others: its session, and its head and LSP ID (RFC 3209, 4.6). Keys stand in
/// the order of endpoint, tunnel, extended tunnel ID, sender, LSP ID.
#[derive(Clone, Copy, Debug, PartialEq, Eq, PartialOrd, Ord)]
pub struct Key {
    /// The tunnel.
    pub session: Session,
    /// The LSP's head and number.
    pub sender: Template,
}

/// A Path that the state wants kept alive at a neighbour, by what it is for. Items stand in the order of
/// their kinds, in each by key and then by what is left.
#[derive(Clone, Copy, Debug, PartialEq, Eq, PartialOrd, Ord)]
pub enum Item {
    /// The Path of an LSP, downstream over this link.
    Down(Key, u16),
    /// The Path of a repaired LSP, through the bypass of this number (RFC 4090, 6.4.3).
    Backup(Key, u16),
}

impl Item {
    ghost use Rattle.lsr_facts.specs.Orders.{key_of_item};

    /// The LSP that it is of.
    pub fn key(&self) -> &Key
        ensures { result.now ≡ key_of_item self.now }
    {
        match self {
            Item::Down(key, _) | Item::Backup(key, _) => key,
        }
    }
}
