//! The numbers of the formats (RFC 3209, 4.3.3 and 4.4.1).

/// The top bit of a step's first byte, L: the step is loose.
pub const LOOSE: u8 = 0x80;

/// The type of an IPv4 prefix, in both kinds of route.
pub const IPV4_TYPE: u8 = 1;

/// The type of a label in a recorded route.
pub const LABEL_TYPE: u8 = 3;

/// The C-Type that a label in a recorded route has here: that of a LABEL object.
pub const LABEL_C_TYPE: u8 = 1;

/// The bytes of an IPv4 prefix, with its type and its length.
pub const IPV4_LEN: u8 = 8;

/// The bytes of a label of that C-Type, with its type and its length.
pub const LABEL_LEN: u8 = 8;

/// The bytes of a subobject before its body: its type and its length.
pub const HEAD_LEN: usize = 2;

/// The bytes after the address of an IPv4 prefix: the prefix length, and one that is reserved in a step and
/// has flags in an entry.
pub const PREFIX_TAIL_LEN: usize = 2;

/// The fewest bytes of a subobject, and what its length is a multiple of.
pub const WORD_LEN: usize = 4;
