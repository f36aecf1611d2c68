//! The whole decision.

ghost use Rattle.std.specs.List.{AllByRecursion};
ghost use Rattle.std.specs.Prelude.{◌≡◌, ◌↔◌, IfOk, IfSome, IsTrue, MatchOption, is_none, true};
ghost use Rattle.abstract_paths.specs.Soundness.{IsStanding};
ghost use Rattle.abstract_router.specs.Soundness.{AreHeld, IsSound};
ghost use Rattle.abstract_router.specs.Standing.{stands};
ghost use Rattle.state_views.specs.KnownLsps.{AreLsps};
ghost use Rattle.plain_soundness.specs.Clauses.{AreLspsSound, AreMomentsSound, AreSharesSound, IsBroken};

use crate::assignments::are_assigned;
use crate::checks::{Check, holds_of_all};
use crate::clause::Clause;
use crate::labels::{are_labelled, are_resting};
use crate::resvs::{ResvCheck, are_of_one_style, are_repaired};
use crate::sent::{are_sent, are_sent_upstream};
use crate::standing::is_standing;
use facility_backup::{repair_stands, stands};
use lsr_facts::{Key, Repair, ResvFact, Router, State};
use plain_bandwidth::are_within;
use plain_views::Known;
use std::alloc::{AllocError, Global};

/// A reservation that stands on its path.
#[derive(Drop)]
struct StandCheck<'a> {
    known: Known<'a>,
}

impl Check<(Key, ResvFact)> for StandCheck<'_> {
    ghost use Rattle.std.specs.Prelude.{◌≡◌, true};
    ghost use Rattle.abstract_router.specs.Standing.{stands};

    ghost Holds = { λ c resv. stands c.known.state.now.facts resv ≡ true };

    fn holds(&self, resv: &(Key, ResvFact)) -> bool {
        stands(&self.known, &resv.0, &resv.1)
    }
}

/// A repair that stands on its path, and on a bypass that is up.
#[derive(Drop)]
struct RepairStandCheck<'a> {
    known: Known<'a>,
}

impl Check<(Key, Repair)> for RepairStandCheck<'_> {
    ghost use Rattle.std.specs.Prelude.{◌≡◌, true};
    ghost use Rattle.abstract_router.specs.Repairing.{repair_stands};

    ghost Holds = { λ c repair. repair_stands c.known.router.now c.known.state.now repair ≡ true };

    fn holds(&self, repair: &(Key, Repair)) -> bool {
        repair_stands(&self.known, &repair.0, &repair.1)
    }
}

/// Whether each reservation is as it should be, of one style with others, and within the limits of its link. It asks that
/// they stand. The only error is out of memory.
fn are_held(alloc: Global, known: &Known<'_>) -> Result<bool, AllocError>
    requires facts { IsStanding known.now.router.now known.now.state.now.facts }
    requires standing { AllByRecursion (λ resv. stands known.now.state.now.facts resv ≡ true) known.now.state.now.resvs }
    ensures { IfOk result (λ yes. IsTrue yes ↔ AreHeld known.now.router.now known.now.state.now) }
{
    let state = known.state;
    let moment = state.facts.moment;
    let rows = state.resvs.as_slice();
    let is_within = are_within(alloc, known.router, state)?;
    if !is_within {
        return Ok(false);
    }
    if !holds_of_all(&ResvCheck { moment }, rows) {
        return Ok(false);
    }
    Ok(are_of_one_style(&state.resvs))
}

/// The first clause about reservations and repairs that is broken, none where all hold. The only error is out of memory.
fn broken_lsps(alloc: Global, known: &Known<'_>) -> Result<Option<Clause>, AllocError>
    requires { IsStanding known.now.router.now known.now.state.now.facts }
    ensures { IfOk result (λ found. MatchOption found (AreLspsSound known.now.router.now known.now.state.now)
        (λ clause. IsBroken clause known.now.router.now known.now.state.now)) }
{
    let state = known.state;
    if !holds_of_all(&StandCheck { known: *known }, state.resvs.as_slice()) {
        return Ok(Some(Clause::Standing));
    }
    if !are_held(alloc, known)? {
        return Ok(Some(Clause::Held));
    }
    if !are_repaired(state) {
        return Ok(Some(Clause::Repaired));
    }
    if !holds_of_all(
        &RepairStandCheck { known: *known },
        state.repairs.as_slice(),
    ) {
        return Ok(Some(Clause::RepairsStanding));
    }
    Ok(None)
}

/// The first clause about labels and bandwidth of bypasses that is broken, none where all hold. The only error is out of memory.
fn broken_shares(alloc: Global, known: &Known<'_>) -> Result<Option<Clause>, AllocError>
    ensures { IfOk result (λ found. MatchOption found (AreSharesSound known.now.router.now known.now.state.now)
        (λ clause. IsBroken clause known.now.router.now known.now.state.now)) }
{
    let state = known.state;
    if !are_labelled(alloc, known.router, state)? {
        return Ok(Some(Clause::Labels));
    }
    if !are_assigned(state) {
        return Ok(Some(Clause::Assigned));
    }
    if !are_resting(known.router.labels, state) {
        return Ok(Some(Clause::Resting));
    }
    Ok(None)
}

/// The first clause about what was sent that is broken, none where both hold. The only error is out of memory.
fn broken_moments(alloc: Global, known: &Known<'_>) -> Result<Option<Clause>, AllocError>
    requires { AreLsps known.now.router.now known.now.state.now }
    ensures { IfOk result (λ found. MatchOption found (AreMomentsSound known.now.router.now known.now.state.now)
        (λ clause. IsBroken clause known.now.router.now known.now.state.now)) }
{
    if !are_sent(alloc, known)? {
        return Ok(Some(Clause::Sent));
    }
    if !are_sent_upstream(alloc, known)? {
        return Ok(Some(Clause::SentUpstream));
    }
    Ok(None)
}

/// The first clause that is broken, none where the state is sound. The only error is out of memory.
fn first_broken(alloc: Global, known: &Known<'_>) -> Result<Option<Clause>, AllocError>
    ensures { IfOk result (λ found. MatchOption found (IsSound known.now.router.now known.now.state.now)
        (λ clause. IsBroken clause known.now.router.now known.now.state.now)) }
{
    if !is_standing(known) {
        return Ok(Some(Clause::Paths));
    }
    if let Some(clause) = broken_lsps(alloc, known)? {
        return Ok(Some(clause));
    }
    if let Some(clause) = broken_shares(alloc, known)? {
        return Ok(Some(clause));
    }
    if let Some(clause) = broken_moments(alloc, known)? {
        return Ok(Some(clause));
    }
    Ok(None)
}

/// A clause of soundness that is broken, none where the state is sound. The only error is out of memory.
///
/// What bounds a list is tried before what compares its rows: [`Clause::Standing`] before [`Clause::Held`].
pub fn unsound(alloc: Global, router: &Router, state: &State) -> Result<Option<Clause>, AllocError>
    ensures sound { IfOk result (λ found. IsTrue (is_none found) ↔ IsSound router.now state.now) }
    ensures clause { IfOk result (λ found. IfSome found (λ clause. IsBroken clause router.now state.now)) }
{
    first_broken(alloc, &Known { router, state })
}
