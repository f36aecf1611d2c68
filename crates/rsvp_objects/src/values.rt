use rsvp_bodies::{Affinities, RateWord};
use std::net::Ipv4Addr;

/// SESSION of an LSP tunnel (RFC 3209, 4.6.1.1): what all LSPs of a tunnel share.
#[derive(Clone, Copy, Debug, PartialEq, Eq, PartialOrd, Ord)]
pub struct Session {
    /// The tunnel's end.
    pub endpoint: Ipv4Addr,
    /// The tunnel's number.
    pub tunnel: u16,
    /// The extended tunnel ID: the address of the tunnel's head, or 0.0.0.0.
    pub extended: Ipv4Addr,
}

/// RSVP_HOP (RFC 2205, A.2): the neighbour that sent a message.
#[derive(Clone, Copy, Debug, PartialEq, Eq)]
pub struct Hop {
    /// The neighbour's address.
    pub address: Ipv4Addr,
    /// The logical interface handle (LIH): set by the upstream node for its outgoing link, and given back
    /// upstream unread.
    pub interface: u32,
}

/// TIME_VALUES (RFC 2205, A.4).
#[derive(Clone, Copy, Debug, PartialEq, Eq)]
pub struct TimeValues {
    /// How often the sender refreshes its state, in milliseconds.
    pub refresh_ms: u32,
}

/// ERROR_SPEC (RFC 2205, A.5).
#[derive(Clone, Copy, Debug, PartialEq, Eq)]
pub struct ErrorSpec {
    /// The node that found the error.
    pub node: Ipv4Addr,
    /// 0x01 is InPlace, 0x02 NotGuilty.
    pub flags: u8,
    /// What is wrong (RFC 2205, B).
    pub code: u8,
    /// More of it, by the code.
    pub value: u16,
}

/// STYLE (RFC 2205, A.7), whole as it came.
#[derive(Clone, Copy, Debug, PartialEq, Eq)]
pub struct Style {
    /// 8 bits of flags, then 24 bits of option vector.
    pub word: u32,
}

/// SENDER_TEMPLATE and FILTER_SPEC of an LSP tunnel (RFC 3209, 4.6.2.1 and 4.6.3.1): one LSP of a session.
#[derive(Clone, Copy, Debug, PartialEq, Eq, PartialOrd, Ord)]
pub struct Template {
    /// The address of the LSP's head.
    pub sender: Ipv4Addr,
    /// The LSP ID.
    pub lsp: u16,
}

/// LABEL (RFC 3209, 4.1): the number as it came, whether or not it is an MPLS label.
#[derive(Clone, Copy, Debug, PartialEq, Eq)]
pub struct Label {
    /// The label's number.
    pub number: u32,
}

/// LABEL_REQUEST without a label range (RFC 3209, 4.2.1).
#[derive(Clone, Copy, Debug, PartialEq, Eq)]
pub struct LabelRequest {
    /// The EtherType of what the LSP is to carry: 0x0800 for IPv4.
    pub l3pid: u16,
}

/// FAST_REROUTE (RFC 4090, 4.1): what protection of an LSP is asked for.
#[derive(Clone, Copy, Debug, PartialEq, Eq)]
pub struct FastReroute {
    /// The backup's setup priority, 0 (best) to 7.
    pub setup: u8,
    /// The backup's holding priority, 0 (best) to 7.
    pub hold: u8,
    /// How many nodes the backup may have between the point of repair and the point where it merges.
    pub hop_limit: u8,
    /// 0x01 asks for one-to-one backup, 0x02 for facility backup.
    pub flags: u8,
    /// The backup's bandwidth, a rate word in bytes per second.
    pub bandwidth: RateWord,
    /// The backup's affinities.
    pub affinities: Affinities,
}
