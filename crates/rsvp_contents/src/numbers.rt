//! The numbers of messages, each in one place.

/// Bytes of the common header (RFC 2205, 3.1.1).
pub const HEADER_LEN: usize = 8;
/// Bytes of an IPv4 address.
pub const ADDRESS_LEN: usize = 4;
/// The version of RSVP (RFC 2205, 3.1.1).
pub const VERSION: u8 = 1;
/// The most bytes of a message that the router reads or writes.
pub const MAX_MESSAGE_LEN: usize = 4_096;
/// The Send_TTL of a written message (RFC 2205, 3.1.1).
pub const SEND_TTL: u8 = 255;

/// Path (RFC 2205, 3.1.3).
pub const TYPE_PATH: u8 = 1;
/// Resv (RFC 2205, 3.1.4).
pub const TYPE_RESV: u8 = 2;
/// PathErr (RFC 2205, 3.1.7).
pub const TYPE_PATH_ERR: u8 = 3;
/// ResvErr (RFC 2205, 3.1.8).
pub const TYPE_RESV_ERR: u8 = 4;
/// PathTear (RFC 2205, 3.1.5).
pub const TYPE_PATH_TEAR: u8 = 5;
/// ResvTear (RFC 2205, 3.1.6).
pub const TYPE_RESV_TEAR: u8 = 6;

/// The most subobjects of an explicit route.
pub const MAX_STEPS: usize = 32;
/// The most bytes of an explicit route's subobjects together.
pub const MAX_ROUTE_LEN: usize = 512;
/// The most entries of a recorded route.
pub const MAX_TRACES: usize = 64;
/// The most bytes of a recorded route's entries together.
pub const MAX_RECORD_LEN: usize = 1_024;
/// The most objects of a message that are passed on unread.
pub const MAX_PASSING: usize = 8;
/// The most bytes of the body of one of these.
pub const MAX_PASSING_BODY_LEN: usize = 512;
/// The most bytes of their bodies together.
pub const MAX_PASSING_LEN: usize = 2_048;
