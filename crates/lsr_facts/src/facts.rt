use crate::bypass::Bypass;
use crate::key::{Item, Key};
use crate::path_fact::PathFact;
use crate::tunnel::Tunnel;
use rsvp_contents::Prefix;
use sorted_rows::{Table, TryCopy};
use std::alloc::{AllocError, Global};

/// What a router knows of links, static routes, time, tunnels, bypasses and paths, and that events change.
#[derive(Debug)]
pub struct Facts {
    /// Whether it is cold: it was restarted, and not started yet.
    pub cold: bool,
    /// The moment that it was told last, in milliseconds: 0 to 2^62.
    pub moment: u64,
    /// Of each link whether it is up.
    pub up: Table<u16, bool>,
    /// The static routes: the number of the link to each prefix.
    pub routes: Table<Prefix, u16>,
    /// The tunnels that begin here, by number.
    pub tunnels: Table<u16, Tunnel>,
    /// The bypasses of its links, by number.
    pub bypasses: Table<u16, Bypass>,
    /// The paths, by LSP.
    pub paths: Table<Key, PathFact>,
    /// Of each Path that is kept alive at a neighbour the moment when it was sent last, in milliseconds.
    pub sent: Table<Item, u64>,
}

/// Written out, so that they are dropped by one call, whatever they hold.
impl Drop for Facts {
    fn drop(self) {
        let Facts {
            cold: _cold,
            moment: _moment,
            up: _up,
            routes: _routes,
            tunnels: _tunnels,
            bypasses: _bypasses,
            paths: _paths,
            sent: _sent,
        } = self;
    }
}

impl TryCopy for Facts {
    fn try_copy(&self, alloc: Global) -> Result<Facts, AllocError> {
        Ok(Facts {
            cold: self.cold,
            moment: self.moment,
            up: self.up.try_copy(alloc)?,
            routes: self.routes.try_copy(alloc)?,
            tunnels: self.tunnels.try_copy(alloc)?,
            bypasses: self.bypasses.try_copy(alloc)?,
            paths: self.paths.try_copy(alloc)?,
            sent: self.sent.try_copy(alloc)?,
        })
    }
}
