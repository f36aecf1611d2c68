//! The errors of RSVP.

ghost use Rattle.std.specs.Prelude.{◌≡◌};
ghost use Rattle.lsr_facts.specs.Errors.{style_conflict};

use crate::resv_fact::ResvStyle;

/// An error of RSVP: an error code and its value (RFC 2205, B).
#[derive(Clone, Copy, Debug, PartialEq, Eq)]
pub struct RsvpError {
    /// What is wrong.
    pub code: u8,
    /// More of it, by the code.
    pub value: u16,
}

/// The code of an object of an unknown class; its value is 256 times the Class-Num and the C-Type (RFC 2205,
/// B, 13).
pub const UNKNOWN_CLASS: u8 = 13;
/// The code of an object of a known class with an unknown C-Type; its value is as for [`UNKNOWN_CLASS`]
/// (RFC 2205, B, 14).
pub const UNKNOWN_CTYPE: u8 = 14;

impl RsvpError {
    /// 1/2: there isn't so much bandwidth (RFC 2205, B, 1).
    pub const NO_BANDWIDTH: RsvpError = RsvpError { code: 1, value: 2 };
    /// 3/0: no path of the session is known (RFC 2205, B, 3).
    pub const NO_PATH: RsvpError = RsvpError { code: 3, value: 0 };
    /// 4/0: no path of the LSP is known (RFC 2205, B, 4).
    pub const NO_SENDER: RsvpError = RsvpError { code: 4, value: 0 };
    /// 6/0: the style is neither FF nor SE (RFC 2205, B, 6).
    pub const UNKNOWN_STYLE: RsvpError = RsvpError { code: 6, value: 0 };
    /// 12/0: another LSP took the bandwidth (RFC 2205, B, 12).
    pub const PREEMPTED: RsvpError = RsvpError { code: 12, value: 0 };
    /// 21/2: a FLOWSPEC asks for another service than controlled load (RFC 2205, B, 21).
    pub const UNSUPPORTED_SERVICE: RsvpError = RsvpError { code: 21, value: 2 };
    /// 21/3: a FLOWSPEC can't be taken (RFC 2205, B, 21).
    pub const BAD_FLOWSPEC: RsvpError = RsvpError { code: 21, value: 3 };
    /// 21/4: the traffic descriptor of a Path can't be taken (RFC 2205, B, 21).
    pub const BAD_TSPEC: RsvpError = RsvpError { code: 21, value: 4 };
    /// 23/0: the router has no room for another LSP (RFC 2205, B, 23).
    pub const SYSTEM_ERROR: RsvpError = RsvpError { code: 23, value: 0 };
    /// 24/1: the explicit route can't be read as one of nodes (RFC 3209, 7.3).
    pub const BAD_EXPLICIT_ROUTE: RsvpError = RsvpError { code: 24, value: 1 };
    /// 24/2: a strict step is no neighbour (RFC 3209, 7.3).
    pub const BAD_STRICT_NODE: RsvpError = RsvpError { code: 24, value: 2 };
    /// 24/3: no way leads to a loose step (RFC 3209, 7.3).
    pub const BAD_LOOSE_NODE: RsvpError = RsvpError { code: 24, value: 3 };
    /// 24/4: the explicit route doesn't begin here (RFC 3209, 7.3).
    pub const BAD_INITIAL_SUBOBJECT: RsvpError = RsvpError { code: 24, value: 4 };
    /// 24/5: no way leads to the endpoint (RFC 3209, 7.3).
    pub const NO_ROUTE: RsvpError = RsvpError { code: 24, value: 5 };
    /// 24/6: a label can't be sent with (RFC 3209, 7.3).
    pub const UNACCEPTABLE_LABEL: RsvpError = RsvpError { code: 24, value: 6 };
    /// 24/7: the recorded route has been here before (RFC 3209, 7.3).
    pub const ROUTING_LOOP: RsvpError = RsvpError { code: 24, value: 7 };
    /// 24/9: no label is free (RFC 3209, 7.3).
    pub const NO_LABEL: RsvpError = RsvpError { code: 24, value: 9 };
    /// 24/10: the LSP is to carry what this router doesn't (RFC 3209, 7.3).
    pub const UNSUPPORTED_L3PID: RsvpError = RsvpError {
        code: 24,
        value: 10,
    };
    /// 25/1: the recorded route is too long to be passed on (RFC 3209, 7.3).
    pub const RECORD_TOO_LONG: RsvpError = RsvpError { code: 25, value: 1 };
    /// 25/3: an LSP runs over a bypass (RFC 4090, 6.5: tunnel locally repaired).
    pub const LOCALLY_REPAIRED: RsvpError = RsvpError { code: 25, value: 3 };
}

/// The code of an error that another LSP of the session is reserved in another style (RFC 2205, B, 5).
const STYLE_CONFLICT: u8 = 5;

/// The error that another LSP of the session is reserved on the link in this style: its value is that style's bits
/// (RFC 2205, B, 5).
pub fn style_conflict(style: ResvStyle) -> RsvpError
    ensures { result ≡ style_conflict style }
{
    RsvpError {
        code: STYLE_CONFLICT,
        value: style.bits(),
    }
}
