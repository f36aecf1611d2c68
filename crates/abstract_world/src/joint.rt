//! Wires.

/// A link of a router of a world.
#[derive(Clone, Copy, Debug, PartialEq, Eq)]
pub struct End {
    /// The place of the router among the routers of the world: the first one has place 0.
    pub router: usize,
    /// The number of its link.
    pub link: u16,
}

/// A wire, which joins two links: what is sent over one may come to the other.
#[derive(Clone, Copy, Debug, PartialEq, Eq)]
pub struct Joint {
    /// One of them.
    pub one: End,
    /// The other one.
    pub other: End,
}
