use crate::Key;
use std::net::Ipv4Addr;

/// A Resv that is kept alive at a neighbour upstream (RFC 2205, 3.1.4 and 3.7). They stand in the order of key,
/// sender, link, neighbour.
#[derive(Clone, Copy, Debug, PartialEq, Eq, PartialOrd, Ord)]
pub struct Upstream {
    /// The LSP.
    pub key: Key,
    /// The sender that the neighbour's Path named.
    pub sender: Ipv4Addr,
    /// The number of the link that the neighbour is on.
    pub link: u16,
    /// The neighbour.
    pub hop: Ipv4Addr,
}
