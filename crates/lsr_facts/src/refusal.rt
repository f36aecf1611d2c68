ghost use Rattle.std.specs.Prelude.{◌≡◌};

use rsvp_contents::Dropped;
use std::alloc::AllocError;
use thiserror::Error;

/// Why a datagram, an event or a call was refused. Each has a number, which operators see.
#[derive(Clone, Copy, Debug, PartialEq, Eq, Error)]
pub enum Refusal {
    /// 1 to 9, and 40: the datagram was dropped unread, or there was no memory to read it.
    #[error("{0}")]
    Unread(Dropped),
    /// 10: nothing here matches it.
    #[error("no match: no path or reservation here is the one that it speaks of")]
    NoMatch,
    /// 11: no path merges with it, or more than one does.
    #[error("no merge: not exactly one path here is the one that this backup joins, or it has no room")]
    NoMerge,
    /// 12: it came over a link that is down.
    #[error("link down: it came over a link that is down; take the link up first")]
    LinkDown,
    /// 13: it has been passed on too often.
    #[error("hop limit: it was passed on as often as it may be, so it may be going round in a loop")]
    HopLimit,
    /// 14: no action for its label.
    #[error("no label: nothing is done here with frames under its label; show table lists the labels")]
    NoLabel,
    /// 20: there is no such tunnel.
    #[error("unknown tunnel: no tunnel or bypass has this number")]
    UnknownTunnel,
    /// 21: the tunnel's number is taken.
    #[error("tunnel exists: a tunnel has this number; drop it or take another number")]
    TunnelExists,
    /// 22: the route can't be taken, or another word of the command is out of its range.
    #[error("bad route: no way leads on by the route, it ends here, no such static route stands, or a word is out of its range")]
    BadRoute,
    /// 23: the tunnel is being changed.
    #[error("change pending: the tunnel's last change isn't over; wait for it or cancel it")]
    ChangePending,
    /// 24: there is no such link.
    #[error("unknown link: no link has this number; show links lists them")]
    UnknownLink,
    /// 25: the bypass's number is taken.
    #[error("bypass exists: a bypass has this number; drop it or take another number")]
    BypassExists,
    /// 26: the bypass runs over the link that it is to protect.
    #[error("bypass on its link: its tunnel runs over the link that it is to protect")]
    BypassOnItsLink,
    /// 27: there are as many as there can be.
    #[error("full: there are as many of this kind as the router keeps: drop one first; or the tunnel has used all its LSP IDs: add another")]
    Full,
    /// 28: it is in use.
    #[error("in use: a bypass runs in this tunnel, or LSPs run over this bypass; end that first")]
    InUse,
    /// 29: the moment is below the last one.
    #[error("late: the moment is below the one that the router was told last")]
    Late,
    /// 30: the moment is above 2^62.
    #[error("bad moment: a moment is at most 2^62 milliseconds")]
    BadMoment,
    /// 31: the bypass's tunnel doesn't carry so much.
    #[error("bad capacity: the bypass's tunnel doesn't carry so much; ask for less, or let the tunnel carry more first")]
    BadCapacity,
    /// 40: no memory.
    #[error("no memory: there was none for what this needs; nothing changed, so try it again")]
    NoMemory,
    /// 41: the journal's segment is full.
    #[error("journal full: the segment has all the entries that it can hold; rotate it and try again")]
    JournalFull,
    /// 42: the router is cold.
    #[error("cold: the router was restarted; start it first")]
    IsCold,
    /// 43: the port is another one's.
    #[error("wrong port: this port isn't the one that the router knows by its number")]
    WrongPort,
    /// 50: there is no such frame.
    #[error("no frame: no frame of this number was sent, or its link leads nowhere")]
    NoFrame,
    /// 51: there is no such router.
    #[error("no router: no router has this name")]
    NoRouter,
}

impl Refusal {
    ghost use Rattle.lsr_facts.specs.Refusals.{number_of};

    /// The refusal's number: 1 to 14 for what came over a link, 20 to 31 for commands, links and moments, 40
    /// to 43 for the engine, 50 and 51 for a world of routers.
    pub fn number(self) -> u8
        ensures { result ≡ number_of self }
    {
        match self {
            Refusal::Unread(dropped) => dropped.number(),
            Refusal::NoMatch => 10,
            Refusal::NoMerge => 11,
            Refusal::LinkDown => 12,
            Refusal::HopLimit => 13,
            Refusal::NoLabel => 14,
            Refusal::UnknownTunnel => 20,
            Refusal::TunnelExists => 21,
            Refusal::BadRoute => 22,
            Refusal::ChangePending => 23,
            Refusal::UnknownLink => 24,
            Refusal::BypassExists => 25,
            Refusal::BypassOnItsLink => 26,
            Refusal::Full => 27,
            Refusal::InUse => 28,
            Refusal::Late => 29,
            Refusal::BadMoment => 30,
            Refusal::BadCapacity => 31,
            Refusal::NoMemory => 40,
            Refusal::JournalFull => 41,
            Refusal::IsCold => 42,
            Refusal::WrongPort => 43,
            Refusal::NoFrame => 50,
            Refusal::NoRouter => 51,
        }
    }
}

impl From<AllocError> for Refusal {
    ghost use Rattle.lsr_facts.specs.declared.refusal.Refusal.TheVariants.{NoMemory};

    ghost from_gives = { λ _ refusal. refusal ≡ NoMemory };

    fn from(_error: AllocError) -> Refusal {
        Refusal::NoMemory
    }
}
