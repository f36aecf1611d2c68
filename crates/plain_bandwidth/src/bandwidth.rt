//! The bandwidth that is reserved on links.

ghost use Rattle.std.specs.FinMap.Entries.{is_sorted};
ghost use Rattle.std.specs.List.{AllByRecursion};
ghost use Rattle.std.specs.Prelude.{◌≡◌, ◌≤◌, ◌^◌, ◌==◌, ℕ, ◌↔◌, IfOk, IsTrue, T, find as find_first, length, true};
ghost use Rattle.lsr_facts.specs.Admission.{granted};
ghost use Rattle.lsr_facts.specs.Claims.{reserved_of};
ghost use Rattle.lsr_facts.specs.Limits.{max_lsps};
ghost use Rattle.lsr_facts.specs.Orders.{key_cmp};
ghost use Rattle.admission.specs.Bandwidths.{AreRated};
ghost use Rattle.abstract_router.specs.ClaimsLaws.{claim_at};
ghost use Rattle.abstract_paths.specs.Soundness.{IsStanding};
ghost use Rattle.abstract_router.specs.Preempting.{claims_of};
ghost use Rattle.abstract_router.specs.Standing.{stands};
ghost use Rattle.plain_bandwidth.specs.Limits.{AreWithinLimits, IsWithinAt};
ghost use Rattle.std.specs.Option.{option_copied};

use admission::reserved_with;
use lsr_facts::{
    Claim, Key, Link, PathFact, Request, ResvFact, Router, State, WORST_PRIORITY, holding_of,
};
use sorted_rows::Table;
use std::alloc::{AllocError, Global};

/// What a reservation claims, at the priority at which its LSP's path has it kept.
fn claim_at(paths: &Table<Key, PathFact>, resv: &(Key, ResvFact)) -> (Key, Claim)
    ensures { result ≡ claim_at paths.now resv.now }
{
    let attr = paths.get(&resv.0).and_then(|path| path.attr.as_ref());
    let claim = Claim {
        link: resv.1.link,
        style: resv.1.style,
        rate: resv.1.flowspec.rate().unwrap_or(0),
        holding: holding_of(attr),
    };
    (resv.0, claim)
}

/// What reservations claim. The only error is out of memory.
#[tactic(auto, unfolding(abstract_router::specs::Preempting::claims_of))]
fn claims_of(
    alloc: Global,
    paths: &Table<Key, PathFact>,
    resvs: &[(Key, ResvFact)],
) -> Result<Vec<(Key, Claim)>, AllocError>
    ensures { IfOk result (λ claims. claims.items ≡ claims_of paths.now resvs.now) }
{
    resvs
        .iter()
        .map(|resv| claim_at(paths, resv))
        .collect(alloc)
}

/// The priorities of an LSP: 0 (best) to 7.
const PRIORITIES: u8 = WORST_PRIORITY + 1;

/// Whether no more is reserved on the link of a request than a limit, at any priority, once the request is granted.
fn is_within(limit: u64, request: &Request, claims: &[(Key, Claim)]) -> bool
    requires sorted { T (is_sorted key_cmp claims.now) }
    requires rated { AreRated claims.now }
    requires few { length claims.now ≤ max_lsps }
    requires most { request.now.claim.rate ≤ 2 ^ 50 }
    ensures { IsTrue result ↔ ((priority : ℕ) → priority ≤ 7
        → reserved_of request.now.claim.link priority (granted request.now claims.now) ≤ limit) }
{
    for priority in 0..PRIORITIES {
        if reserved_with(request, claims, priority) > limit {
            return false;
        }
    }
    true
}

/// The first of the claims on a link.
fn first_on(claims: &[(Key, Claim)], link: u16) -> Option<&(Key, Claim)>
    ensures { option_copied result ≡ find_first (λ claim. claim.1.link == link) claims.now }
{
    claims.iter().find(|claim| claim.1.link == link)
}

/// Whether no more is reserved on a link, at any priority, than its limit.
fn is_within_at(claims: &[(Key, Claim)], link: &(u16, Link)) -> bool
    requires sorted { T (is_sorted key_cmp claims.now) }
    requires rated { AreRated claims.now }
    requires few { length claims.now ≤ max_lsps }
    ensures { IsTrue result ↔ IsWithinAt claims.now link.now }
{
    let Some(claim) = first_on(claims, link.0) else {
        return true;
    };
    // What an LSP has is granted already: it changes nothing.
    let request = Request {
        key: claim.0,
        claim: claim.1,
        setup: WORST_PRIORITY,
    };
    is_within(link.1.limit, &request, claims)
}

/// Whether no more is reserved on any of these links, at any priority, than its limit.
fn are_each_within(claims: &[(Key, Claim)], links: &[(u16, Link)]) -> bool
    requires sorted { T (is_sorted key_cmp claims.now) }
    requires rated { AreRated claims.now }
    requires few { length claims.now ≤ max_lsps }
    ensures { IsTrue result ↔ AllByRecursion (IsWithinAt claims.now) links.now }
{
    for link in links {
        if !is_within_at(claims, link) {
            return false;
        }
    }
    true
}

/// Whether on each link, at each priority, no more is reserved than its limit (RFC 3209, 4.7.3). It asks that reservations
/// stand. The only error is out of memory.
pub fn are_within(alloc: Global, router: &Router, state: &State) -> Result<bool, AllocError>
    requires facts { IsStanding router.now state.now.facts }
    requires standing { AllByRecursion (λ resv. stands state.now.facts resv ≡ true) state.now.resvs }
    ensures { IfOk result (λ yes. IsTrue yes ↔ AreWithinLimits router.now state.now) }
{
    let claims = claims_of(alloc, &state.facts.paths, state.resvs.as_slice())?;
    Ok(are_each_within(claims.as_slice(), router.links.as_slice()))
}
