use std::time::Duration;

/// A packet of a capture file.
#[derive(Clone, Copy)]
pub struct Packet<'a> {
    /// Its place among the file's packets, from 1.
    pub number: usize,
    /// When it was captured, since the beginning of 1970 (UTC), rounded down to a nanosecond. None where the file doesn't
    /// say it, says it finer than in steps of 10^-19 or 2^-63 seconds, or counts from another moment (if_tsoffset).
    pub time: Option<Duration>,
    /// The link type of its interface, which says what its bytes begin with: 1 is Ethernet, 101 is raw IP.
    pub link_type: u16,
    /// The bytes that were captured, where they lie in the file.
    pub bytes: &'a [u8],
    /// How many bytes it had on its link. More than were captured, where it was cut.
    pub original_len: u32,
}
