//! What comes of a flow descriptor (RFC 2205, 3.1.4 and 3.1.8; RFC 3209, 4.7.3).

ghost use Rattle.std.specs.FinMap.Entries.{find};
ghost use Rattle.std.specs.List.{AllByRecursion};
ghost use Rattle.std.specs.Option.{option_and_then, option_to_list};
ghost use Rattle.std.specs.Prelude.{◌≡◌, ◌≢◌, ◌∷◌, ◌++◌, [], IfOk, IsOk, OnErr, false, fold};
ghost use Rattle.lsr_facts.specs.Orders.{key_cmp};
ghost use Rattle.sorted_rows.specs.Edits.{edited};
ghost use Rattle.rsvp_bodies.specs.Traffic.{flowspec_rate};
ghost use Rattle.abstract_router.specs.Preempting.{request_of, told_preempted};
ghost use Rattle.abstract_router.specs.Reserving as reserving;
ghost use Rattle.abstract_router.specs.Reserving.{carried_on, named, next_descriptor, verdict_of};
ghost use Rattle.message_rules.specs.Rooms.{HaveRoom};
ghost use Rattle.resv_arrivals.specs.Progresses.{IsOwn, IsReached, IsRenewed, fact_at, reached, told_of};

use crate::asked::Asked;
use crate::claims::{claims_for_next, giving_way};
use crate::descriptors::{named, resv_by};
use crate::edits::edits_with;
use crate::progress::{Progress, is_held_now, resv_now};
use crate::replies::with_told;
use crate::verdicts::{Verdict, verdict_of};
use abstract_paths::{Output, Outputs};
use lsr_facts::{Key, Request, ResvFact, RsvpError};
use message_rules::{reservation_error, told_downstream, told_preempted};
use sorted_rows::Table;
use state_views::{StateView, WholeState};
use std::alloc::{AllocError, Global};

/// A flow descriptor is in error: that goes back over the link that the Resv came by, and changes nothing. It says in
/// place where the LSP is reserved or repaired (RFC 2205, A.5).
fn failed<V: WholeState>(
    alloc: Global,
    view: &V,
    progress: Progress,
    asked: &Asked,
    error: RsvpError,
) -> Result<Progress, AllocError>
    requires reached { IsReached (V.router view.now) (V.state view.now) progress }
    requires own { IsOwn asked.now }
    requires room { HaveRoom (named asked.now.descriptor.now ∷ []) }
    ensures carried { IfOk result (λ now. reached (V.state view.now) now
        ≡ carried_on (V.router view.now) asked.now.link asked.now.resv.now asked.now.descriptor.now
        (fact_at (V.state view.now).facts.moment asked.now) (reached (V.state view.now) progress)
        (reserving.Failed error)) }
    ensures reached { IfOk result (IsReached (V.router view.now) (V.state view.now)) }
{
    let Asked {
        link,
        resv,
        descriptor,
        key,
        ..
    } = *asked;
    let router = view.node().router;
    let in_place = is_held_now(view, &progress.edits, &key);
    let found = reservation_error(router, in_place, error);
    let told = told_downstream(
        alloc,
        router,
        link,
        resv.session,
        found,
        resv.style,
        Some(named(descriptor)?),
    )?;
    Ok(Progress {
        errors: with_told(progress.errors, told)?,
        first: progress.first.or(Some(error)),
        ..progress
    })
}

/// An LSP that loses its reservation to another: its next hop is told.
fn told_preempted_at<V: StateView>(
    alloc: Global,
    view: &V,
    edits: &Table<Key, Option<ResvFact>>,
    key: &Key,
) -> Result<Option<Output>, AllocError>
    requires { AllByRecursion (λ resv. IsOk (flowspec_rate resv.1.flowspec))
        (edited key_cmp edits.now (V.state view.now).resvs) }
    ensures { IfOk result (λ told. told ≡ option_and_then (told_preempted (V.router view.now) key.now)
        (find key_cmp key.now (edited key_cmp edits.now (V.state view.now).resvs))) }
{
    match resv_now(view, edits, key) {
        Some(fact) => told_preempted(alloc, view.node().router, key, fact),
        None => Ok(None),
    }
}

/// Errors with that of an LSP that loses its reservation to another.
#[tactic(auto, unfolding(crate::specs::Progresses::told_of))]
fn with_one<V: StateView>(
    alloc: Global,
    view: &V,
    edits: &Table<Key, Option<ResvFact>>,
    errors: Outputs,
    key: &Key,
) -> Result<Outputs, AllocError>
    requires { AllByRecursion (λ resv. IsOk (flowspec_rate resv.1.flowspec))
        (edited key_cmp edits.now (V.state view.now).resvs) }
    ensures { IfOk result (λ now. now ≡ told_of (V.router view.now) (edited key_cmp edits.now (V.state view.now).resvs)
        errors key.now) }
{
    let told = told_preempted_at(alloc, view, edits, key)?;
    with_told(errors, told)
}

/// Errors with those of LSPs that lose their reservations to another.
fn with_preempted<V: StateView>(
    alloc: Global,
    view: &V,
    edits: &Table<Key, Option<ResvFact>>,
    errors: Outputs,
    gone: &[Key],
) -> Result<Outputs, AllocError>
    requires { AllByRecursion (λ resv. IsOk (flowspec_rate resv.1.flowspec))
        (edited key_cmp edits.now (V.state view.now).resvs) }
    ensures { IfOk result (λ now. now ≡ fold (told_of (V.router view.now)
        (edited key_cmp edits.now (V.state view.now).resvs)) errors gone.now) }
{
    let mut now = errors;
    for key in gone {
        now = with_one(alloc, view, edits, now, key)?;
    }
    Ok(now)
}

/// A flow descriptor is granted, and its LSP claims that already: its reservation is put.
fn renewed<V: WholeState>(
    view: &V,
    progress: Progress,
    asked: &Asked,
) -> Result<Progress, AllocError>
    requires reached { IsReached (V.router view.now) (V.state view.now) progress }
    requires own { IsOwn asked.now }
    requires granted { verdict_of (V.router view.now)
        (reached (V.state view.now) progress).state asked.now.key
        (fact_at (V.state view.now).facts.moment asked.now) ≡ reserving.Granted }
    requires renewed { IsRenewed (V.router view.now) (V.state view.now) progress asked.now }
    ensures carried { IfOk result (λ now. reached (V.state view.now) now
        ≡ carried_on (V.router view.now) asked.now.link asked.now.resv.now asked.now.descriptor.now
        (fact_at (V.state view.now).facts.moment asked.now) (reached (V.state view.now) progress)
        reserving.Granted) }
    ensures reached { IfOk result (IsReached (V.router view.now) (V.state view.now)) }
{
    let fact = resv_by(
        view.moment(),
        asked.link,
        asked.style,
        asked.resv,
        asked.descriptor,
    )?;
    let mut edits = progress.edits;
    edits.set(asked.key, Some(fact))?;
    Ok(Progress {
        edits,
        has_granted: true,
        ..progress
    })
}

/// A flow descriptor is granted, be it the last or not: its reservation is put, once those who give way have lost theirs.
fn granted<V: WholeState>(
    alloc: Global,
    view: &V,
    progress: Progress,
    asked: &Asked,
    request: &Request,
    is_last: bool,
) -> Result<Progress, AllocError>
    requires reached { IsReached (V.router view.now) (V.state view.now) progress }
    requires own { IsOwn asked.now }
    requires granted { verdict_of (V.router view.now)
        (reached (V.state view.now) progress).state asked.now.key
        (fact_at (V.state view.now).facts.moment asked.now) ≡ reserving.Granted }
    requires request { request.now ≡ request_of (V.state view.now).facts.paths asked.now.key
        (fact_at (V.state view.now).facts.moment asked.now) }
    ensures carried { IfOk result (λ now. reached (V.state view.now) now
        ≡ carried_on (V.router view.now) asked.now.link asked.now.resv.now asked.now.descriptor.now
        (fact_at (V.state view.now).facts.moment asked.now) (reached (V.state view.now) progress)
        reserving.Granted) }
    ensures reached { IfOk result (λ now. is_last ≡ false → IsReached (V.router view.now) (V.state view.now) now) }
{
    let gone = giving_way(alloc, view, &progress, request)?;
    let fact = resv_by(
        view.moment(),
        asked.link,
        asked.style,
        asked.resv,
        asked.descriptor,
    )?;
    let Progress {
        claims,
        edits,
        errors,
        first,
        ..
    } = progress;
    let errors = with_preempted(alloc, view, &edits, errors, &gone)?;
    let claims = claims_for_next(alloc, view, claims, &gone, request, is_last)?;
    Ok(Progress {
        claims,
        edits: edits_with(edits, gone, request.key, fact)?,
        errors,
        first,
        has_granted: true,
    })
}

/// What comes of the next flow descriptor, be it the last or not.
pub fn next_descriptor<V: WholeState>(
    alloc: Global,
    view: &V,
    progress: Progress,
    asked: &Asked,
    is_last: bool,
) -> Result<Progress, AllocError>
    requires reached { IsReached (V.router view.now) (V.state view.now) progress }
    requires own { IsOwn asked.now }
    requires room { HaveRoom (named asked.now.descriptor.now ∷ []) }
    ensures carried { IfOk result (λ now. reached (V.state view.now) now
        ≡ next_descriptor (V.router view.now) asked.now.link asked.now.style asked.now.resv.now
        (reached (V.state view.now) progress) asked.now.descriptor.now) }
    ensures reached { IfOk result (λ now. is_last ≡ false → IsReached (V.router view.now) (V.state view.now) now) }
    ensures memory { OnErr result (verdict_of (V.router view.now)
        (reached (V.state view.now) progress).state asked.now.key
        (fact_at (V.state view.now).facts.moment asked.now) ≢ reserving.PassedOver) }
{
    match verdict_of(view, &progress, asked) {
        Verdict::Failed(error) => failed(alloc, view, progress, asked, error),
        Verdict::PassedOver => Ok(progress),
        Verdict::Renewed => renewed(view, progress, asked),
        Verdict::Granted(request) => granted(alloc, view, progress, asked, &request, is_last),
    }
}
