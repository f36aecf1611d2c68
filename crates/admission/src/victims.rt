//! Who gives way to a request (RFC 3209, 4.7.3).

ghost use Rattle.std.specs.FinMap.Entries.{is_sorted, where_key};
ghost use Rattle.std.specs.Ordering.{is_eq};
ghost use Rattle.std.specs.Prelude.{◌≡◌, ◌^◌, ◌≤◌, ◌++◌, T, [], All, IfOk, OnOk, false, filter, length, map, not, take};
ghost use Rattle.lsr_facts.specs.Limits.{max_lsps};
ghost use Rattle.lsr_facts.specs.Orders.{key_cmp};
ghost use Rattle.lsr_facts.specs.Admission.{can_give_way, granted, held_at, in_turn, is_enough, shortest, victims_of};
ghost use Rattle.lsr_facts.specs.Claims.{is_of, reserved_of};
ghost use Rattle.admission.specs.Bandwidths.{AreRated};

use crate::reserved::reserved_with;
use crate::run::{part_of, run_of, start_of};
use lsr_facts::{Claim, Key, Request, WORST_PRIORITY};
use rsvp_objects::Session;
use std::alloc::{AllocError, Global};

/// Whether a claim can be taken away for a request: it is another LSP's, on the same link, and kept at a worse
/// priority than the request is set up at.
fn can_give_way(request: &Request, row: &(Key, Claim)) -> bool
    ensures { result ≡ can_give_way request.now row.now }
{
    row.1.link == request.claim.link
        && request.setup < row.1.holding
        && request.key.cmp(&row.0).is_ne()
}

/// Adds the LSPs that may have to give way and keep what they have at one priority, the greater keys first. The only
/// error is out of memory.
fn push_held(
    keys: &mut Vec<Key>,
    request: &Request,
    claims: &[(Key, Claim)],
    holding: u8,
) -> Result<(), AllocError>
    ensures { OnOk result (keys.new.items ≡
        keys.old.items ++ map (λ claim. claim.0) (held_at holding (filter (can_give_way request.now) claims.now))) }
{
    for row in claims.iter().rev() {
        if row.1.holding == holding && can_give_way(request, row) {
            keys.push(row.0)?;
        }
    }
    Ok(())
}

/// The LSPs that may have to give way, in turn: those kept at the worst priority first. The only error is out of
/// memory.
fn in_turn(
    alloc: Global,
    request: &Request,
    claims: &[(Key, Claim)],
) -> Result<Vec<Key>, AllocError>
    ensures { IfOk result (λ keys. keys.items ≡ in_turn request.now claims.now) }
{
    let mut keys = Vec::new(alloc);
    for holding in (0..=WORST_PRIORITY).rev() {
        push_held(&mut keys, request, claims, holding)?;
    }
    Ok(keys)
}

/// What the claims of a session reserve on a link at the worst priority, in bytes per second. It looks first at a place
/// and at the next for where they begin.
fn own_part(claims: &[(Key, Claim)], near: usize, session: &Session, link: u16) -> u64
    requires sorted { T (is_sorted key_cmp claims.now) }
    requires rated { AreRated claims.now }
    requires few { length claims.now ≤ 1025 }
    ensures { result ≡ reserved_of link 7 (filter (is_of session.now) claims.now) }
{
    part_of(run_of(claims, near, session), session, link, WORST_PRIORITY)
}

/// Takes an LSP's claim away, and gives what is reserved of a link then, in bytes per second: the total before, without
/// what the LSP's session took, and with what it takes now.
fn take_away(left: &mut Vec<(Key, Claim)>, key: &Key, link: u16, total: u64) -> u64
    requires sorted { T (is_sorted key_cmp left.old.items) }
    requires rated { AreRated left.old.items }
    requires few { length left.old.items ≤ 1025 }
    requires total { total ≡ reserved_of link 7 left.old.items }
    ensures left { left.new.items ≡ where_key key_cmp (λ k. not (is_eq (key_cmp key.now k))) left.old.items }
    ensures total { result ≡ reserved_of link 7 left.new.items }
{
    let start = start_of(left, 0, &key.session);
    let others = total - own_part(left, start, &key.session, link);
    sorted_rows::remove(left, key);
    others + own_part(left, start, &key.session, link)
}

/// How many of these LSPs have to give way, from the first on, so that it is enough for a request: all, where it never
/// is. It asks for what is reserved at the worst priority with the request granted, in bytes per second. The only error
/// is out of memory.
#[tactic(auto, unfolding(lsr_facts::specs::Admission::is_enough))]
fn count_needed(
    alloc: Global,
    limit: u64,
    request: &Request,
    claims: &[(Key, Claim)],
    keys: &[Key],
    total: u64,
) -> Result<usize, AllocError>
    requires sorted { T (is_sorted key_cmp claims.now) }
    requires rated { AreRated claims.now }
    requires few { length claims.now ≤ max_lsps }
    requires most { request.now.claim.rate ≤ 2 ^ 50 }
    requires apart { All (λ key. is_eq (key_cmp key request.now.key) ≡ false) keys.now }
    requires total { total ≡ reserved_of request.now.claim.link 7 (granted request.now claims.now) }
    ensures { IfOk result (λ count. take count keys.now ≡ shortest (is_enough limit request.now claims.now) [] keys.now) }
{
    let mut left = Vec::from_slice(alloc, claims)?;
    sorted_rows::set(&mut left, request.key, request.claim)?;
    let mut reserved = total;
    for (count, key) in keys.iter().enumerate() {
        if reserved <= limit {
            return Ok(count);
        }
        reserved = take_away(&mut left, key, request.claim.link, reserved);
    }
    Ok(keys.len())
}

/// Those who give way to a request, as [`victims_of`] says it, from what is reserved of its link at the worst priority
/// with it granted, in bytes per second.
#[tactic(auto, unfolding(lsr_facts::specs::Admission::victims_of))]
pub fn victims_from(
    alloc: Global,
    limit: u64,
    request: &Request,
    claims: &[(Key, Claim)],
    total: u64,
) -> Result<Vec<Key>, AllocError>
    requires sorted { T (is_sorted key_cmp claims.now) }
    requires rated { AreRated claims.now }
    requires few { length claims.now ≤ max_lsps }
    requires most { request.now.claim.rate ≤ 2 ^ 50 }
    requires total { total ≡ reserved_of request.now.claim.link 7 (granted request.now claims.now) }
    ensures { IfOk result (λ keys. keys.items ≡ victims_of limit request.now claims.now) }
{
    if total <= limit {
        return Ok(Vec::new(alloc));
    }
    let mut keys = in_turn(alloc, request, claims)?;
    let count = count_needed(alloc, limit, request, claims, &keys, total)?;
    keys.truncate(count);
    Ok(keys)
}

/// Those who give way to a request on a link with this limit, in the order in which they are taken: nobody, where there
/// is room as it is. It asks for a rate of at most 2^50 bytes per second; the only error is out of memory. It copies the
/// claims once, and goes over those of its session for each of them.
pub fn victims_of(
    alloc: Global,
    limit: u64,
    request: &Request,
    claims: &[(Key, Claim)],
) -> Result<Vec<Key>, AllocError>
    requires sorted { T (is_sorted key_cmp claims.now) }
    requires rated { AreRated claims.now }
    requires few { length claims.now ≤ max_lsps }
    requires most { request.now.claim.rate ≤ 2 ^ 50 }
    ensures { IfOk result (λ keys. keys.items ≡ victims_of limit request.now claims.now) }
{
    let total = reserved_with(request, claims, WORST_PRIORITY);
    victims_from(alloc, limit, request, claims, total)
}
