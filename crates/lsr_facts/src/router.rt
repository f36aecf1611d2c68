use sorted_rows::{Table, TryCopy};
use std::alloc::{AllocError, Global};
use std::net::Ipv4Addr;

/// A link to a neighbour, as it is configured.
#[derive(Clone, Copy, Debug, PartialEq, Eq)]
pub struct Link {
    /// The router's own address on the link.
    pub address: Ipv4Addr,
    /// The neighbour's address on the link.
    pub peer: Ipv4Addr,
    /// The neighbour's router id.
    pub peer_router: Ipv4Addr,
    /// The most bandwidth that is reserved on the link, in bytes per second: 0 to 2^50.
    pub limit: u64,
    /// Whether the link is up when the router is opened.
    pub up: bool,
}

/// The labels that the router gives out: all from the first to the last, both of 16 to 1,048,575
/// (RFC 3032, 2.1), at most 4,096 of them.
#[derive(Clone, Copy, Debug, PartialEq, Eq)]
pub struct LabelRange {
    /// The least.
    pub first: u32,
    /// The greatest.
    pub last: u32,
}

/// What of a router never changes while it runs.
#[derive(Debug)]
pub struct Router {
    /// The router id, an address of its own.
    pub id: Ipv4Addr,
    /// How often it refreshes its state at its neighbours, in milliseconds.
    pub refresh_ms: u32,
    /// The labels that it gives out.
    pub labels: LabelRange,
    /// How long a label rests once it is free, before it is given out again, in milliseconds: 0 where it doesn't.
    pub label_rest_ms: u32,
    /// Its links, by number.
    pub links: Table<u16, Link>,
}

impl TryCopy for Link {
    fn try_copy(&self, _alloc: Global) -> Result<Link, AllocError> {
        Ok(*self)
    }
}

/// Written out, so that it is dropped by one call.
impl Drop for Router {
    fn drop(self) {
        let Router {
            id: _id,
            refresh_ms: _refresh_ms,
            labels: _labels,
            label_rest_ms: _label_rest_ms,
            links: _links,
        } = self;
    }
}

impl TryCopy for Router {
    fn try_copy(&self, alloc: Global) -> Result<Router, AllocError> {
        Ok(Router {
            id: self.id,
            refresh_ms: self.refresh_ms,
            labels: self.labels,
            label_rest_ms: self.label_rest_ms,
            links: self.links.try_copy(alloc)?,
        })
    }
}
