//! What plain reservations claim of links, what may be claimed of one, and which stand in each other's way.

ghost use Rattle.std.specs.Prelude.{◌≡◌, IfOk};
ghost use Rattle.lsr_facts.specs.declared.key.Key.{Key};
ghost use Rattle.abstract_router.specs.ClaimsLaws.{claim_at};
ghost use Rattle.abstract_router.specs.Preempting.{claims_of, limit_of};
ghost use Rattle.abstract_router.specs.Reserving.{conflicts};

use lsr_facts::{
    Claim, Key, PathFact, ResvFact, ResvStyle, Router, holding_of, is_same_session, is_same_style,
};
use sorted_rows::Table;
use std::alloc::{AllocError, Global};

/// How much of a link may be reserved, in bytes per second: nothing of a link that the router doesn't have.
#[tactic(auto, unfolding(lsr_facts::specs::Routers::link_at))]
pub(crate) fn limit_of(router: &Router, link: u16) -> u64
    ensures { result ≡ limit_of router.now link }
{
    match router.links.get(&link) {
        Some(link) => link.limit,
        None => 0,
    }
}

/// Whether a reservation is that of another LSP of the session, on the link, in the other style.
pub(crate) fn conflicts(link: u16, style: ResvStyle, key: &Key, resv: &(Key, ResvFact)) -> bool
    ensures { result ≡ conflicts link style key.now resv.now }
{
    is_same_session(&key.session, &resv.0.session)
        && key.cmp(&resv.0).is_ne()
        && resv.1.link == link
        && !is_same_style(style, resv.1.style)
}

/// What a reservation claims, at the priority at which its LSP's path has it kept.
fn claim_at(paths: &Table<Key, PathFact>, resv: &(Key, ResvFact)) -> (Key, Claim)
    ensures { result ≡ claim_at paths.now resv.now }
{
    let attr = paths.get(&resv.0).and_then(|path| path.attr.as_ref());
    let claim = Claim {
        link: resv.1.link,
        style: resv.1.style,
        rate: resv.1.flowspec.rate().unwrap_or(0),
        holding: holding_of(attr),
    };
    (resv.0, claim)
}

/// What these reservations claim. The only error is out of memory.
#[tactic(auto, unfolding(abstract_router::specs::Preempting::claims_of))]
fn claims_of_rows(
    alloc: Global,
    paths: &Table<Key, PathFact>,
    resvs: &[(Key, ResvFact)],
) -> Result<Vec<(Key, Claim)>, AllocError>
    ensures { IfOk result (λ claims. claims.items ≡ claims_of paths.now resvs.now) }
{
    resvs
        .iter()
        .map(|resv| claim_at(paths, resv))
        .collect(alloc)
}

/// What reservations claim, each at the priority at which its LSP's path has it kept. The only error is out of memory.
pub(crate) fn claims_of(
    alloc: Global,
    paths: &Table<Key, PathFact>,
    resvs: &Table<Key, ResvFact>,
) -> Result<Table<Key, Claim>, AllocError>
    ensures { IfOk result (λ claims. claims ≡ claims_of paths.now resvs.now) }
{
    Ok(Table::from_rows(claims_of_rows(alloc, paths, resvs.as_slice())?))
}
