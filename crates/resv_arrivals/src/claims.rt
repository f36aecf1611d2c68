//! What is asked of all that reservations claim, and what they claim once a request is granted. Where nothing of it has
//! changed the view is asked, and nothing is copied.

ghost use Rattle.std.specs.FinMap.Entries.{find, put};
ghost use Rattle.std.specs.Option.{option_map, unwrap_or};
ghost use Rattle.std.specs.Prelude.{◌≡◌, ◌^◌, ◌≤◌, ◌↔◌, IfOk, IsOk, IsTrue, MatchOption, Some, false, find as find_first, fold};
ghost use Rattle.lsr_facts.specs.Orders.{key_cmp};
ghost use Rattle.lsr_facts.specs.Admission as admission;
ghost use Rattle.lsr_facts.specs.Admission.{granted, without};
ghost use Rattle.lsr_facts.specs.Claims.{claim_of};
ghost use Rattle.lsr_facts.specs.Priorities.{holding_of};
ghost use Rattle.rsvp_bodies.specs.Traffic.{flowspec_rate};
ghost use Rattle.abstract_router.specs.Preempting.{attr_at, claims_of, limit_of};
ghost use Rattle.abstract_router.specs.Reserving.{conflicts};
ghost use Rattle.resv_arrivals.specs.Progresses.{AreClaimed, IsReached, claims_at, resvs_at, without_row};

use crate::asked::Asked;
use crate::progress::{Progress, resv_now};
use crate::requests::{conflicting_style, limit_of};
use admission::{reserved_with, victims_of};
use lsr_facts::{Claim, Key, Request, ResvFact, ResvStyle, is_same_style};
use sorted_rows::Table;
use state_views::WholeState;
use std::alloc::{AllocError, Global};

/// What reservations claim now, in the order of their keys, where that has changed.
fn changed<'a, V: WholeState>(_view: &V, progress: &'a Progress) -> Option<&'a [(Key, Claim)]>
    requires { IsReached (V.router _view.now) (V.state _view.now) progress.now }
    ensures { MatchOption result
        (claims_of (V.state _view.now).facts.paths (V.state _view.now).resvs ≡ claims_at (V.state _view.now) progress.now)
        (λ claims. AreClaimed (V.state _view.now) progress.now claims.now) }
{
    match &progress.claims {
        Some(claims) => Some(claims.as_slice()),
        None => None,
    }
}

/// How another LSP of the session is reserved on the link, where that is in the other style.
pub fn style_in_conflict<V: WholeState>(
    view: &V,
    progress: &Progress,
    asked: &Asked,
) -> Option<ResvStyle>
    requires { IsReached (V.router view.now) (V.state view.now) progress.now }
    ensures { result ≡ option_map (λ other. other.1.style)
        (find_first (conflicts asked.now.link asked.now.style asked.now.key) (resvs_at (V.state view.now) progress.now)) }
{
    match changed(view, progress) {
        Some(claims) => conflicting_style(asked.link, asked.style, &asked.key, claims),
        None => view.conflicting_style(asked.link, asked.style, &asked.key),
    }
}

/// Whether a request fits its link's limit (RFC 3209, 4.7.3). It asks for a rate of at most 2^50 bytes per second.
#[tactic(auto, unfolding(lsr_facts::specs::Admission::fits))]
pub fn fits<V: WholeState>(view: &V, progress: &Progress, request: &Request) -> bool
    requires reached { IsReached (V.router view.now) (V.state view.now) progress.now }
    requires most { request.now.claim.rate ≤ 2 ^ 50 }
    ensures { result ≡ admission.fits (limit_of (V.router view.now) request.now.claim.link) request.now
        (claims_at (V.state view.now) progress.now) }
{
    match changed(view, progress) {
        Some(claims) => {
            let limit = limit_of(view.node().router, request.claim.link);
            reserved_with(request, claims, request.setup) <= limit
        }
        None => view.fits(request),
    }
}

/// Those who give way to a request, in the order in which they are taken. It asks for a rate of at most 2^50 bytes per
/// second; the only error is out of memory.
pub fn giving_way<V: WholeState>(
    alloc: Global,
    view: &V,
    progress: &Progress,
    request: &Request,
) -> Result<Vec<Key>, AllocError>
    requires reached { IsReached (V.router view.now) (V.state view.now) progress.now }
    requires most { request.now.claim.rate ≤ 2 ^ 50 }
    ensures { IfOk result (λ gone. gone.items ≡ admission.victims_of (limit_of (V.router view.now) request.now.claim.link)
        request.now (claims_at (V.state view.now) progress.now)) }
{
    match changed(view, progress) {
        Some(claims) => {
            let limit = limit_of(view.node().router, request.claim.link);
            victims_of(alloc, limit, request, claims)
        }
        None => view.victims(alloc, request),
    }
}

/// Whether a reservation claims this, at whatever priority it is kept. It asks that the rate of the reservation is
/// defined.
fn takes(fact: &ResvFact, claim: &Claim) -> bool
    requires { IsOk (flowspec_rate fact.now.flowspec) }
    ensures { IsTrue result ↔ claim_of fact.now claim.now.holding ≡ claim.now }
{
    fact.link == claim.link
        && is_same_style(fact.style, claim.style)
        && fact.flowspec.rate().unwrap() == claim.rate
}

/// Whether an LSP claims just what it asks for already. It asks for the holding priority that its path names.
pub fn is_claimed<V: WholeState>(view: &V, progress: &Progress, request: &Request) -> bool
    requires reached { IsReached (V.router view.now) (V.state view.now) progress.now }
    requires holding { request.now.claim.holding ≡ holding_of (attr_at (V.state view.now).facts.paths request.now.key) }
    ensures { IsTrue result ↔ find key_cmp request.now.key (claims_at (V.state view.now) progress.now)
        ≡ Some request.now.claim }
{
    match resv_now(view, &progress.edits, &request.key) {
        Some(fact) => takes(fact, &request.claim),
        None => false,
    }
}

/// The claims without that of an LSP.
#[tactic(auto, unfolding(crate::specs::Progresses::without_row))]
fn without(claims: Table<Key, Claim>, key: &Key) -> Table<Key, Claim>
    ensures { result ≡ without_row claims key.now }
{
    let mut left = claims;
    left.remove(key);
    left
}

/// The claims without those of these LSPs.
fn left_of(claims: Table<Key, Claim>, gone: &[Key]) -> Table<Key, Claim>
    ensures { result ≡ fold without_row claims gone.now }
{
    let mut left = claims;
    for key in gone {
        left = without(left, key);
    }
    left
}

/// The claims as a table to change: those that are there already, or a copy of those that the view has. The only error
/// is out of memory.
fn owned<V: WholeState>(
    alloc: Global,
    view: &V,
    claims: Option<Table<Key, Claim>>,
) -> Result<Table<Key, Claim>, AllocError>
    ensures { IfOk result (λ owned. owned ≡ unwrap_or claims
        (claims_of (V.state view.now).facts.paths (V.state view.now).resvs)) }
{
    match claims {
        Some(claims) => Ok(claims),
        None => view.claims(alloc),
    }
}

/// What reservations claim once these LSPs have lost theirs, and a request is granted. The only error is out of memory.
#[tactic(auto, using(crate::proofs::Gone::rows_without))]
fn claims_with<V: WholeState>(
    alloc: Global,
    view: &V,
    claims: Option<Table<Key, Claim>>,
    gone: &[Key],
    request: &Request,
) -> Result<Table<Key, Claim>, AllocError>
    ensures { IfOk result (λ now. now ≡ granted request.now (without gone.now
        (unwrap_or claims (claims_of (V.state view.now).facts.paths (V.state view.now).resvs)))) }
{
    let mut now = left_of(owned(alloc, view, claims)?, gone);
    now.set(request.key, request.claim)?;
    Ok(now)
}

/// What reservations claim for the next flow descriptor, once these LSPs have lost theirs and a request is granted;
/// `None` after the last descriptor, where nobody asks. The only error is out of memory.
pub fn claims_for_next<V: WholeState>(
    alloc: Global,
    view: &V,
    claims: Option<Table<Key, Claim>>,
    gone: &[Key],
    request: &Request,
    is_last: bool,
) -> Result<Option<Table<Key, Claim>>, AllocError>
    ensures { IfOk result (λ now. is_last ≡ false → now ≡ Some (granted request.now (without gone.now
        (unwrap_or claims (claims_of (V.state view.now).facts.paths (V.state view.now).resvs))))) }
{
    if is_last {
        return Ok(None);
    }
    Ok(Some(claims_with(alloc, view, claims, gone, request)?))
}
