//! The bandwidth of bypasses that LSPs are promised (RFC 4090, 4.3).

ghost use Rattle.std.specs.List.{AllByRecursion};
ghost use Rattle.std.specs.Prelude.{◌≡◌, ◌≤◌, ◌↔◌, IsTrue};
ghost use Rattle.lsr_facts.specs.Orders.{key_cmp};
ghost use Rattle.bypass_shares.specs.Shares.{IsWithin, assigned_of, capacity_in};
ghost use Rattle.abstract_router.specs.Assigning.{rate_in};
ghost use Rattle.abstract_router.specs.Soundness.{AreAssigned, IsOfCapacity};

use crate::checks::{Check, holds_of_all};
use lsr_facts::{Assignment, Bypass, Key, Repair, ResvFact, State};
use sorted_rows::Table;

/// The rate that a reservation is for, in bytes per second: 0 where it has none.
fn rate_in(resv: &ResvFact) -> u64
    ensures { result ≡ rate_in resv.now }
{
    resv.flowspec.rate().unwrap_or(0)
}

/// The capacity of a bypass, in bytes per second: 0 where there is no such bypass.
fn capacity_in(bypasses: &Table<u16, Bypass>, number: u16) -> u64
    ensures { result ≡ capacity_in bypasses.now number }
{
    match bypasses.get(&number) {
        Some(bypass) => bypass.capacity,
        None => 0,
    }
}

/// A promise to an LSP that is reserved for that rate, or that is repaired over that bypass for no more.
#[derive(Drop)]
struct HoldingCheck<'a> {
    state: &'a State,
}

impl Check<(Key, Assignment)> for HoldingCheck<'_> {
    ghost use Rattle.abstract_router.specs.Soundness.{IsHolding};

    ghost Holds = { λ c given. IsHolding c.state.now given };

    fn holds(&self, given: &(Key, Assignment)) -> bool {
        if let Some(resv) = self.state.resvs.get(&given.0) {
            if rate_in(resv) == given.1.rate {
                return true;
            }
        }
        match self.state.repairs.get(&given.0) {
            Some(repair) => {
                rate_in(&repair.resv) <= given.1.rate && repair.bypass == given.1.bypass
            }
            None => false,
        }
    }
}

/// A promise of a bypass that has bandwidth to promise.
#[derive(Drop)]
struct CapableCheck<'a> {
    bypasses: &'a Table<u16, Bypass>,
}

impl Check<(Key, Assignment)> for CapableCheck<'_> {
    ghost use Rattle.abstract_router.specs.Soundness.{IsOfCapacity};

    ghost Holds = { λ c given. IsOfCapacity c.bypasses.now given };

    fn holds(&self, given: &(Key, Assignment)) -> bool {
        capacity_in(self.bypasses, given.1.bypass) >= 1
    }
}

/// Whether no more is promised of a bypass than this, in bytes per second.
fn is_within(capacity: u64, number: u16, assignments: &[(Key, Assignment)]) -> bool
    ensures { IsTrue result ↔ (assigned_of number assignments.now ≤ capacity) }
{
    let mut left = capacity;
    for given in assignments {
        if given.1.bypass == number {
            if given.1.rate > left {
                return false;
            }
            left -= given.1.rate;
        }
    }
    true
}

/// A bypass of which no more is promised than its capacity.
#[derive(Drop)]
struct WithinCheck<'a> {
    assignments: &'a [(Key, Assignment)],
}

impl Check<(u16, Bypass)> for WithinCheck<'_> {
    ghost use Rattle.std.specs.Prelude.{◌≤◌};
    ghost use Rattle.bypass_shares.specs.Shares.{assigned_of};

    ghost Holds = { λ c bypass. assigned_of bypass.0 c.assignments.now ≤ bypass.1.capacity };

    fn holds(&self, bypass: &(u16, Bypass)) -> bool {
        is_within(bypass.1.capacity, bypass.0, self.assignments)
    }
}

/// Whether no bypass is assigned above its capacity. It asks that each promise is of a bypass that has one.
fn are_within(bypasses: &Table<u16, Bypass>, assignments: &[(Key, Assignment)]) -> bool
    requires { AllByRecursion (IsOfCapacity bypasses.now) assignments.now }
    ensures { IsTrue result ↔ IsWithin key_cmp (capacity_in bypasses.now) assignments.now }
{
    holds_of_all(&WithinCheck { assignments }, bypasses.as_slice())
}

/// A repair over a bypass that has no bandwidth to promise, or of an LSP that is promised some of it.
#[derive(Drop)]
struct ServedCheck<'a> {
    state: &'a State,
}

impl Check<(Key, Repair)> for ServedCheck<'_> {
    ghost use Rattle.abstract_router.specs.Soundness.{IsServed};

    ghost Holds = { λ c repair. IsServed c.state.now repair };

    fn holds(&self, repair: &(Key, Repair)) -> bool {
        if capacity_in(&self.state.facts.bypasses, repair.1.bypass) == 0 {
            return true;
        }
        match self.state.assignments.get(&repair.0) {
            Some(given) => given.bypass == repair.1.bypass,
            None => false,
        }
    }
}

/// Whether no bypass promises more than it has, each promise is held by an LSP, and no repair takes bandwidth that its LSP
/// wasn't promised.
pub(crate) fn are_assigned(state: &State) -> bool
    ensures { IsTrue result ↔ AreAssigned state.now }
{
    let bypasses = &state.facts.bypasses;
    let assignments = state.assignments.as_slice();
    holds_of_all(&HoldingCheck { state }, assignments)
        && holds_of_all(&CapableCheck { bypasses }, assignments)
        && are_within(bypasses, assignments)
        && holds_of_all(&ServedCheck { state }, state.repairs.as_slice())
}
