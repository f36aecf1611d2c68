//! The numbers of SESSION_ATTRIBUTE (RFC 3209, 4.7).

/// The C-Type without resource affinities, LSP_TUNNEL (RFC 3209, 4.7.1).
pub const CTYPE_LSP_TUNNEL: u8 = 7;
/// The C-Type with resource affinities, LSP_TUNNEL_RA (RFC 3209, 4.7.2).
pub const CTYPE_LSP_TUNNEL_RA: u8 = 1;

/// The most bytes that a name has: its length is a number of 8 bits (RFC 3209, 4.7.1).
pub const MAX_NAME_LEN: usize = 255;

/// Bytes of the three affinity words.
pub const AFFINITIES_LEN: usize = 12;
/// Bytes of the priorities, the flags and the name's length, which stand before the name.
pub const HEAD_LEN: usize = 4;
/// A name is filled up with zeros to a multiple of this many bytes.
pub const WORD_LEN: usize = 4;
