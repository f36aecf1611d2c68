//! The numbers of the protocol, each in one place: Class-Nums, C-Types and lengths of bodies in bytes.

pub use rsvp_bodies::attr_numbers::{AFFINITIES_LEN, HEAD_LEN as ATTRIBUTE_HEAD_LEN};

/// Bytes of an object's header: length 16 bits, Class-Num 8, C-Type 8 (RFC 2205, 3.1.2).
pub const HEADER_LEN: usize = 4;

/// Every object's length is a multiple of this many bytes (RFC 2205, 3.1.2).
pub const WORD_LEN: usize = 4;

/// NULL (RFC 2205, 3.1.2): of any C-Type, ignored.
pub const CLASS_NULL: u8 = 0;
/// SESSION (RFC 2205, A.1).
pub const CLASS_SESSION: u8 = 1;
/// RSVP_HOP (RFC 2205, A.2).
pub const CLASS_RSVP_HOP: u8 = 3;
/// INTEGRITY (RFC 2205, A.3; RFC 2747).
pub const CLASS_INTEGRITY: u8 = 4;
/// TIME_VALUES (RFC 2205, A.4).
pub const CLASS_TIME_VALUES: u8 = 5;
/// ERROR_SPEC (RFC 2205, A.5).
pub const CLASS_ERROR_SPEC: u8 = 6;
/// SCOPE (RFC 2205, A.6).
pub const CLASS_SCOPE: u8 = 7;
/// STYLE (RFC 2205, A.7).
pub const CLASS_STYLE: u8 = 8;
/// FLOWSPEC (RFC 2205, A.8).
pub const CLASS_FLOWSPEC: u8 = 9;
/// FILTER_SPEC (RFC 2205, A.9).
pub const CLASS_FILTER_SPEC: u8 = 10;
/// SENDER_TEMPLATE (RFC 2205, A.10).
pub const CLASS_SENDER_TEMPLATE: u8 = 11;
/// SENDER_TSPEC (RFC 2205, A.11).
pub const CLASS_SENDER_TSPEC: u8 = 12;
/// ADSPEC (RFC 2205, A.12).
pub const CLASS_ADSPEC: u8 = 13;
/// POLICY_DATA (RFC 2205, A.13).
pub const CLASS_POLICY_DATA: u8 = 14;
/// RESV_CONFIRM (RFC 2205, A.14).
pub const CLASS_RESV_CONFIRM: u8 = 15;
/// LABEL (RFC 3209, 4.1).
pub const CLASS_LABEL: u8 = 16;
/// LABEL_REQUEST (RFC 3209, 4.2).
pub const CLASS_LABEL_REQUEST: u8 = 19;
/// EXPLICIT_ROUTE (RFC 3209, 4.3).
pub const CLASS_EXPLICIT_ROUTE: u8 = 20;
/// RECORD_ROUTE (RFC 3209, 4.4).
pub const CLASS_RECORD_ROUTE: u8 = 21;
/// FAST_REROUTE (RFC 4090, 4.1).
pub const CLASS_FAST_REROUTE: u8 = 205;
/// SESSION_ATTRIBUTE (RFC 3209, 4.7).
pub const CLASS_SESSION_ATTRIBUTE: u8 = 207;

/// The IPv4 form of RSVP_HOP and ERROR_SPEC, LABEL_REQUEST without a label range, and the one form that is
/// read of TIME_VALUES, STYLE, LABEL, EXPLICIT_ROUTE, RECORD_ROUTE and FAST_REROUTE.
pub const CTYPE_FIRST: u8 = 1;
/// The Integrated Services form of FLOWSPEC and SENDER_TSPEC (RFC 2210, 3).
pub const CTYPE_INTSERV: u8 = 2;
/// The form for LSP tunnels over IPv4 of SESSION, FILTER_SPEC and SENDER_TEMPLATE (RFC 3209, 4.6).
pub const CTYPE_LSP_TUNNEL_IPV4: u8 = 7;

/// Bytes of the body of SESSION.
pub const SESSION_LEN: usize = 12;
/// Bytes of the body of RSVP_HOP.
pub const HOP_LEN: usize = 8;
/// Bytes of the body of TIME_VALUES.
pub const TIME_VALUES_LEN: usize = 4;
/// Bytes of the body of ERROR_SPEC.
pub const ERROR_SPEC_LEN: usize = 8;
/// Bytes of the body of STYLE.
pub const STYLE_LEN: usize = 4;
/// Bytes of the body of FILTER_SPEC and of SENDER_TEMPLATE.
pub const TEMPLATE_LEN: usize = 8;
/// Bytes of the body of LABEL.
pub const LABEL_LEN: usize = 4;
/// Bytes of the body of LABEL_REQUEST.
pub const LABEL_REQUEST_LEN: usize = 4;
/// Bytes of the body of FAST_REROUTE.
pub const FAST_REROUTE_LEN: usize = 20;

/// The least class that, where it isn't known, doesn't refuse its message: `10bbbbbb` (RFC 2205, 3.10).
pub const UNKNOWN_IGNORED: u8 = 0x80;
/// The least class that, where it isn't known, is sent on: `11bbbbbb` (RFC 2205, 3.10).
pub const UNKNOWN_FORWARDED: u8 = 0xc0;
