ghost use Rattle.std.specs.Prelude.{◌≡◌, nat_lt, true};
ghost use Rattle.lsr_facts.specs.Conflicts.{is_same_style};
ghost use Rattle.lsr_facts.specs.Reservations.{resv_lives_past, style_bits, style_of, style_word, timeless_resv};

use crate::{Passing, Same};
use rsvp_bodies::{Flowspec, Record};
use rsvp_contents::{FIXED_FILTER, SHARED_EXPLICIT, is_fixed, is_shared};
use rsvp_objects::Style;
use sorted_rows::TryCopy;
use std::alloc::{AllocError, Global};

/// How the LSPs of a session reserve (RFC 2205, 1.3; RFC 3209, 2.4).
#[derive(Clone, Copy, Debug, PartialEq, Eq)]
pub enum ResvStyle {
    /// Fixed filter, FF: each LSP has bandwidth of its own.
    FixedFilter,
    /// Shared explicit, SE: the LSPs of the session share what the greatest of them asks for.
    SharedExplicit,
}

impl ResvStyle {
    /// The style that an object says, or `None` for another style than these two (RFC 2205, A.7).
    pub fn of(style: Style) -> Option<ResvStyle>
        ensures { result ≡ style_of style }
    {
        if is_fixed(style) {
            Some(ResvStyle::FixedFilter)
        } else if is_shared(style) {
            Some(ResvStyle::SharedExplicit)
        } else {
            None
        }
    }

    /// The bits that name the style (RFC 2205, A.7).
    pub fn bits(self) -> u16
        ensures { result ≡ style_bits self }
    {
        match self {
            ResvStyle::FixedFilter => FIXED_FILTER,
            ResvStyle::SharedExplicit => SHARED_EXPLICIT,
        }
    }

    /// STYLE as this router writes it (RFC 2205, A.7).
    pub fn word(self) -> Style
        ensures { result ≡ style_word self }
    {
        Style {
            word: u32::from(self.bits()),
        }
    }
}

/// Whether both styles share what is reserved, or neither does.
pub fn is_same_style(style: ResvStyle, other: ResvStyle) -> bool
    ensures { result ≡ is_same_style style other }
{
    match style {
        ResvStyle::FixedFilter => matches!(other, ResvStyle::FixedFilter),
        ResvStyle::SharedExplicit => matches!(other, ResvStyle::SharedExplicit),
    }
}

/// What the router knows of one LSP's reservation: reservation state (RFC 2205, 2.3; RFC 3209, 2).
#[derive(Debug)]
pub struct ResvFact {
    /// The number of the link that it is on: the one that its path leaves by.
    pub link: u16,
    /// Whether the LSPs of the session share it.
    pub style: ResvStyle,
    /// The traffic that is reserved for.
    pub flowspec: Flowspec,
    /// The label that the next hop takes the LSP with.
    pub label: u32,
    /// The route that its Resv took so far, where that is recorded.
    pub recorded: Option<Record>,
    /// Objects that are passed on unread.
    pub passing: Passing,
    /// The moment in milliseconds at which it counts no more, unless it is refreshed before.
    pub expiry: u64,
}

/// Written out, so that it is dropped by one call, whatever it holds.
impl Drop for ResvFact {
    fn drop(self) {
        let ResvFact {
            link: _link,
            style: _style,
            flowspec: _flowspec,
            label: _label,
            recorded: _recorded,
            passing: _passing,
            expiry: _expiry,
        } = self;
    }
}

impl ResvFact {
    /// Whether its expiry is yet to come at a moment, in milliseconds.
    pub fn lives_past(&self, moment: u64) -> bool
        ensures { result ≡ resv_lives_past moment self.now }
    {
        moment < self.expiry
    }

    /// Whether another reservation is the same, but for when it expires.
    pub fn is_same_but_expiry(&self, other: &ResvFact) -> bool
        ensures { result ≡ true → timeless_resv self.now ≡ timeless_resv other.now }
    {
        self.link == other.link
            && self.style == other.style
            && self.label == other.label
            && self.flowspec.is_same(&other.flowspec)
            && self.recorded.is_same(&other.recorded)
            && self.passing.is_same(&other.passing)
    }
}

impl TryCopy for ResvFact {
    fn try_copy(&self, _alloc: Global) -> Result<ResvFact, AllocError> {
        Ok(ResvFact {
            link: self.link,
            style: self.style,
            flowspec: self.flowspec.clone()?,
            label: self.label,
            recorded: self.recorded.clone()?,
            passing: self.passing.clone()?,
            expiry: self.expiry,
        })
    }
}
