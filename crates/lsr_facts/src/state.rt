//! All that a router knows, as a value.

use crate::assignment::Assignment;
use crate::repair::Repair;
use crate::resv_fact::ResvFact;
use crate::upstream::Upstream;
use crate::{Facts, Key};
use sorted_rows::{Table, TryCopy};
use std::alloc::{AllocError, Global};

/// All that a label switching router knows and that events change.
#[derive(Debug)]
pub struct State {
    /// What it knows of links, static routes, time and paths.
    pub facts: Facts,
    /// The reservations, by LSP.
    pub resvs: Table<Key, ResvFact>,
    /// The repairs in use, by LSP.
    pub repairs: Table<Key, Repair>,
    /// The label of each LSP that doesn't begin here.
    pub labels: Table<Key, u32>,
    /// What LSPs are promised of the bandwidth of bypasses, by LSP.
    pub assignments: Table<Key, Assignment>,
    /// The labels that rest since they were freed: of each the moment until which, in milliseconds.
    pub resting: Table<u32, u64>,
    /// Of each Resv that is kept alive at a neighbour the moment when it was sent last, in milliseconds.
    pub sent_upstream: Table<Upstream, u64>,
}

/// Written out, so that it is dropped by one call, whatever it holds.
impl Drop for State {
    fn drop(self) {
        let State {
            facts: _facts,
            resvs: _resvs,
            repairs: _repairs,
            labels: _labels,
            assignments: _assignments,
            resting: _resting,
            sent_upstream: _sent_upstream,
        } = self;
    }
}

impl TryCopy for State {
    fn try_copy(&self, alloc: Global) -> Result<State, AllocError> {
        Ok(State {
            facts: self.facts.try_copy(alloc)?,
            resvs: self.resvs.try_copy(alloc)?,
            repairs: self.repairs.try_copy(alloc)?,
            labels: self.labels.try_copy(alloc)?,
            assignments: self.assignments.try_copy(alloc)?,
            resting: self.resting.try_copy(alloc)?,
            sent_upstream: self.sent_upstream.try_copy(alloc)?,
        })
    }
}
