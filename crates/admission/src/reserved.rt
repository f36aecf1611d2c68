//! The bandwidth that is reserved on a link, as it is and with a request granted.

ghost use Rattle.std.specs.FinMap.Entries.{is_sorted, put};
ghost use Rattle.std.specs.Prelude.{◌≡◌, ◌^◌, ◌≤◌, ◌∷◌, ◌++◌, T, length};
ghost use Rattle.lsr_facts.specs.Limits.{max_lsps};
ghost use Rattle.lsr_facts.specs.Orders.{key_cmp};
ghost use Rattle.lsr_facts.specs.Admission.{granted};
ghost use Rattle.lsr_facts.specs.Claims.{reserved_of};
ghost use Rattle.lsr_facts.specs.declared.claim.Claim.{Claim};
ghost use Rattle.admission.specs.Bandwidths.{AreRated};

use crate::sum::Sum;
use lsr_facts::{Claim, Key, Request};

/// The bandwidth that is reserved on a link at a priority, in bytes per second.
#[tactic(auto, unfolding(lsr_facts::specs::Claims::reserved_of))]
pub fn reserved(claims: &[(Key, Claim)], link: u16, priority: u8) -> u64
    requires sorted { T (is_sorted key_cmp claims.now) }
    requires rated { AreRated claims.now }
    requires few { length claims.now ≤ max_lsps }
    ensures { result ≡ reserved_of link priority claims.now }
{
    let mut sum = Sum::new();
    sum.add_counting(claims, link, priority);
    sum.total()
}

/// The claims before an LSP's place in the order of keys, and those after it.
fn around<'a>(claims: &'a [(Key, Claim)], key: &Key) -> (&'a [(Key, Claim)], &'a [(Key, Claim)])
    requires { T (is_sorted key_cmp claims.now) }
    ensures { (claim : Claim) → put key_cmp key.now claim claims.now ≡ result.0.now ++ (key.now, claim) ∷ result.1.now }
{
    match claims.binary_search_by(|row| row.0.cmp(key)) {
        Ok(at) => (&claims[..at], &claims[at + 1..]),
        Err(at) => (&claims[..at], &claims[at..]),
    }
}

/// The bandwidth that is reserved on a request's link at a priority once the request is granted, in bytes per second.
#[tactic(auto, unfolding(lsr_facts::specs::Claims::reserved_of))]
pub fn reserved_with(request: &Request, claims: &[(Key, Claim)], priority: u8) -> u64
    requires sorted { T (is_sorted key_cmp claims.now) }
    requires rated { AreRated claims.now }
    requires few { length claims.now ≤ max_lsps }
    requires most { request.now.claim.rate ≤ 2 ^ 50 }
    ensures { result ≡ reserved_of request.now.claim.link priority (granted request.now claims.now) }
{
    let link = request.claim.link;
    let (before, behind) = around(claims, &request.key);
    let mut sum = Sum::new();
    sum.add_counting(before, link, priority);
    sum.add_counting(&[(request.key, request.claim)], link, priority);
    sum.add_counting(behind, link, priority);
    sum.total()
}
