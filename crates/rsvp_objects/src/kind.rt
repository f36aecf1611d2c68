ghost use Rattle.std.specs.Prelude.{◌≡◌, if◌then◌else◌};
ghost use Rattle.rsvp_objects.specs.Kinds.{kind_of, treatment_of, is_kept};

use crate::numbers::*;
use rsvp_bodies::attr_numbers::{CTYPE_LSP_TUNNEL, CTYPE_LSP_TUNNEL_RA};

/// What a router does with an object whose class it doesn't know, by the two top bits of the class
/// (RFC 2205, 3.10).
#[derive(Clone, Copy, Debug, PartialEq, Eq)]
pub enum Treatment {
    /// `0bbbbbbb`: the whole message is refused, and its sender told so.
    Reject,
    /// `10bbbbbb`: the object is ignored.
    Ignore,
    /// `11bbbbbb`: the object is sent on as it came.
    Forward,
}

impl Treatment {
    /// What the class asks for where it isn't known.
    pub fn of(class: u8) -> Treatment
        ensures { result ≡ treatment_of class }
    {
        match class {
            0..UNKNOWN_IGNORED => Treatment::Reject,
            UNKNOWN_IGNORED..UNKNOWN_FORWARDED => Treatment::Ignore,
            _ => Treatment::Forward,
        }
    }
}

/// What an object is, by its Class-Num and C-Type.
#[derive(Clone, Copy, Debug, PartialEq, Eq)]
pub enum Kind {
    /// Class 0, of any C-Type: to be ignored (RFC 2205, 3.1.2).
    Null,
    /// 1/7: SESSION of an LSP tunnel over IPv4 (RFC 3209, 4.6.1.1).
    Session,
    /// 3/1: RSVP_HOP over IPv4 (RFC 2205, A.2).
    Hop,
    /// Class 4, of any C-Type (RFC 2205, A.3).
    Integrity,
    /// 5/1: TIME_VALUES (RFC 2205, A.4).
    TimeValues,
    /// 6/1: ERROR_SPEC over IPv4 (RFC 2205, A.5).
    ErrorSpec,
    /// Class 7, of any C-Type (RFC 2205, A.6).
    Scope,
    /// 8/1: STYLE (RFC 2205, A.7).
    Style,
    /// 9/2: FLOWSPEC of Integrated Services (RFC 2210, 3.2).
    Flowspec,
    /// 10/7: FILTER_SPEC of an LSP tunnel over IPv4 (RFC 3209, 4.6.3.1).
    FilterSpec,
    /// 11/7: SENDER_TEMPLATE of an LSP tunnel over IPv4 (RFC 3209, 4.6.2.1).
    SenderTemplate,
    /// 12/2: SENDER_TSPEC of Integrated Services (RFC 2210, 3.1).
    SenderTspec,
    /// Class 13, of any C-Type (RFC 2205, A.12).
    Adspec,
    /// Class 14, of any C-Type (RFC 2205, A.13).
    PolicyData,
    /// Class 15, of any C-Type (RFC 2205, A.14).
    ResvConfirm,
    /// 16/1: LABEL (RFC 3209, 4.1).
    Label,
    /// 19/1: LABEL_REQUEST without a label range (RFC 3209, 4.2.1).
    LabelRequest,
    /// 20/1: EXPLICIT_ROUTE (RFC 3209, 4.3).
    ExplicitRoute,
    /// 21/1: RECORD_ROUTE (RFC 3209, 4.4).
    RecordRoute,
    /// 205/1: FAST_REROUTE (RFC 4090, 4.1).
    FastReroute,
    /// 207/7: SESSION_ATTRIBUTE without resource affinities (RFC 3209, 4.7.1).
    SessionAttribute,
    /// 207/1: SESSION_ATTRIBUTE with resource affinities (RFC 3209, 4.7.2).
    SessionAttributeRa,
    /// A class that is known, with a C-Type that isn't listed here.
    Unlisted,
    /// A class that isn't known.
    Unknown(Treatment),
}

impl Kind {
    /// What an object of this Class-Num and C-Type is.
    #[tactic(auto, unfolding(crate::specs::Kinds::kind_of))]
    pub fn of(class: u8, ctype: u8) -> Kind
        ensures { result ≡ kind_of class ctype }
    {
        match class {
            CLASS_NULL => Kind::Null,
            CLASS_SESSION => Kind::listed(ctype == CTYPE_LSP_TUNNEL_IPV4, Kind::Session),
            CLASS_RSVP_HOP => Kind::listed(ctype == CTYPE_FIRST, Kind::Hop),
            CLASS_INTEGRITY => Kind::Integrity,
            CLASS_TIME_VALUES => Kind::listed(ctype == CTYPE_FIRST, Kind::TimeValues),
            CLASS_ERROR_SPEC => Kind::listed(ctype == CTYPE_FIRST, Kind::ErrorSpec),
            CLASS_SCOPE => Kind::Scope,
            CLASS_STYLE => Kind::listed(ctype == CTYPE_FIRST, Kind::Style),
            CLASS_FLOWSPEC => Kind::listed(ctype == CTYPE_INTSERV, Kind::Flowspec),
            CLASS_FILTER_SPEC => Kind::listed(ctype == CTYPE_LSP_TUNNEL_IPV4, Kind::FilterSpec),
            CLASS_SENDER_TEMPLATE => Kind::listed(
                ctype == CTYPE_LSP_TUNNEL_IPV4,
                Kind::SenderTemplate,
            ),
            CLASS_SENDER_TSPEC => Kind::listed(ctype == CTYPE_INTSERV, Kind::SenderTspec),
            CLASS_ADSPEC => Kind::Adspec,
            CLASS_POLICY_DATA => Kind::PolicyData,
            CLASS_RESV_CONFIRM => Kind::ResvConfirm,
            CLASS_LABEL => Kind::listed(ctype == CTYPE_FIRST, Kind::Label),
            CLASS_LABEL_REQUEST => Kind::listed(ctype == CTYPE_FIRST, Kind::LabelRequest),
            CLASS_EXPLICIT_ROUTE => Kind::listed(ctype == CTYPE_FIRST, Kind::ExplicitRoute),
            CLASS_RECORD_ROUTE => Kind::listed(ctype == CTYPE_FIRST, Kind::RecordRoute),
            CLASS_FAST_REROUTE => Kind::listed(ctype == CTYPE_FIRST, Kind::FastReroute),
            CLASS_SESSION_ATTRIBUTE if ctype == CTYPE_LSP_TUNNEL_RA => Kind::SessionAttributeRa,
            CLASS_SESSION_ATTRIBUTE => Kind::listed(
                ctype == CTYPE_LSP_TUNNEL,
                Kind::SessionAttribute,
            ),
            _ => Kind::Unknown(Treatment::of(class)),
        }
    }

    /// The kind where the C-Type is the one listed for it.
    fn listed(is_listed: bool, kind: Kind) -> Kind
        ensures { result ≡ (if is_listed then kind else Kind.Unlisted) }
    {
        if is_listed { kind } else { Kind::Unlisted }
    }

    /// True where an object of this kind is kept as its class, C-Type and body.
    pub fn is_kept(self) -> bool
        ensures { result ≡ is_kept self }
    {
        matches!(
            self,
            Kind::Null
                | Kind::Integrity
                | Kind::Scope
                | Kind::Adspec
                | Kind::PolicyData
                | Kind::ResvConfirm
                | Kind::Unlisted
                | Kind::Unknown(_)
        )
    }
}
