//! The claims of one session.

ghost use Rattle.std.specs.FinMap.Entries.{is_sorted};
ghost use Rattle.std.specs.List.{AllByRecursion, HoldsAt};
ghost use Rattle.std.specs.List.Sorted.{IsPartitionPoint};
ghost use Rattle.std.specs.Ordering.{is_le};
ghost use Rattle.std.specs.Prelude.{◌≡◌, ◌+◌, ◌^◌, ◌<◌, ◌≤◌, max, T, IfSome, IsFalse, IsTrue, false, filter, if◌then◌else◌, length, true};
ghost use Rattle.lsr_facts.specs.Orders.{key_cmp, session_cmp};
ghost use Rattle.lsr_facts.specs.Claims.{is_fixed, is_of, is_shared, reserved_of};
ghost use Rattle.admission.specs.Bandwidths.{AreRated};
ghost use Rattle.admission.specs.Runs.{IsStart, comes_before};

use crate::sum::counts;
use lsr_facts::{Claim, Key, ResvStyle};
use rsvp_objects::Session;

/// How many of the claims, from the first one on, are of a session or of those before it. It goes over these alone.
fn count_upto(claims: &[(Key, Claim)], session: &Session) -> usize
    requires { T (is_sorted key_cmp claims.now) }
    ensures bound { result ≤ length claims.now }
    ensures upto { IsPartitionPoint (λ row. is_le (session_cmp row.0.session session.now) ≡ true)
        (λ row. is_le (session_cmp row.0.session session.now) ≡ false) claims.now result }
{
    for (count, row) in claims.iter().enumerate() {
        if row.0.session.cmp(session).is_gt() {
            return count;
        }
    }
    claims.len()
}

/// Whether there is a claim of a lesser session at a place.
fn is_lesser_at(claims: &[(Key, Claim)], place: usize, session: &Session) -> bool
    ensures lesser { IsTrue result → (place < length claims.now)
        × HoldsAt (λ row. comes_before session.now row ≡ true) claims.now place }
    ensures other { IsFalse result → place < length claims.now →
        HoldsAt (λ row. comes_before session.now row ≡ false) claims.now place }
{
    if place < claims.len() {
        claims[place].0.session.cmp(session).is_lt()
    } else {
        false
    }
}

/// The place where the claims of a session begin, if it is this one or the next.
fn start_beside(claims: &[(Key, Claim)], near: usize, session: &Session) -> Option<usize>
    requires { T (is_sorted key_cmp claims.now) }
    ensures { IfSome result (λ start. (start ≤ length claims.now) × IsStart session.now claims.now start) }
{
    if is_lesser_at(claims, near, session) {
        if is_lesser_at(claims, near + 1, session) {
            return None;
        }
        return Some(near + 1);
    }
    if near == 0 || is_lesser_at(claims, near - 1, session) {
        return Some(near);
    }
    None
}

/// The place where the claims of a session begin, or would begin if it had any. It looks first at a place and at the
/// next; where it is neither, a binary search.
pub fn start_of(claims: &[(Key, Claim)], near: usize, session: &Session) -> usize
    requires { T (is_sorted key_cmp claims.now) }
    ensures bound { result ≤ length claims.now }
    ensures start { IsStart session.now claims.now result }
{
    match start_beside(claims, near, session) {
        Some(start) => start,
        None => claims.partition_point(|row| row.0.session.cmp(session).is_lt()),
    }
}

/// The claims of a session, which stand together in the order of keys, from the place on where they begin. It goes over
/// these alone.
pub fn run_from<'a>(
    claims: &'a [(Key, Claim)],
    start: usize,
    session: &Session,
) -> &'a [(Key, Claim)]
    requires sorted { T (is_sorted key_cmp claims.now) }
    requires rated { AreRated claims.now }
    requires bound { start ≤ length claims.now }
    requires start { IsStart session.now claims.now start }
    ensures run { result.now ≡ filter (is_of session.now) claims.now }
    ensures sorted { T (is_sorted key_cmp result.now) }
    ensures rated { AreRated result.now }
    ensures few { length result.now ≤ length claims.now }
    ensures own { AllByRecursion (λ row. is_of session.now row ≡ true) result.now }
{
    let from = &claims[start..];
    let end = count_upto(from, session);
    &from[..end]
}

/// The claims of a session. It looks first at a place and at the next for where they begin.
pub fn run_of<'a>(claims: &'a [(Key, Claim)], near: usize, session: &Session) -> &'a [(Key, Claim)]
    requires sorted { T (is_sorted key_cmp claims.now) }
    requires rated { AreRated claims.now }
    ensures run { result.now ≡ filter (is_of session.now) claims.now }
    ensures sorted { T (is_sorted key_cmp result.now) }
    ensures rated { AreRated result.now }
    ensures few { length result.now ≤ length claims.now }
    ensures own { AllByRecursion (λ row. is_of session.now row ≡ true) result.now }
{
    run_from(claims, start_of(claims, near, session), session)
}

/// What claims of one session take, in bytes per second.
#[derive(Clone, Copy, Debug, Drop)]
pub struct SessionRate {
    /// What the shared ones take together: the greatest of their rates.
    pub shared: u64,
    /// What the fixed ones take together: the sum of their rates.
    pub fixed: u64,
}

impl SessionRate {
    /// Adds a claim. It asks that the sum fits.
    fn add(&mut self, claim: &Claim)
        requires { self.old.fixed + claim.now.rate < 2 ^ 64 }
        ensures shared { self.new.shared
            ≡ (if is_shared claim.now.style then max self.old.shared claim.now.rate else self.old.shared) }
        ensures fixed { self.new.fixed
            ≡ (if is_fixed claim.now.style then self.old.fixed + claim.now.rate else self.old.fixed) }
    {
        match claim.style {
            ResvStyle::FixedFilter => self.fixed += claim.rate,
            ResvStyle::SharedExplicit => self.shared = self.shared.max(claim.rate),
        }
    }
}

/// What claims reserve on a link at a priority that are all of one session, in bytes per second. No session is compared.
pub fn part_of(run: &[(Key, Claim)], _session: &Session, link: u16, priority: u8) -> u64
    requires own { AllByRecursion (λ row. is_of _session.now row ≡ true) run.now }
    requires sorted { T (is_sorted key_cmp run.now) }
    requires rated { AreRated run.now }
    requires few { length run.now ≤ 1025 }
    ensures { result ≡ reserved_of link priority run.now }
{
    let mut rate = SessionRate {
        shared: 0,
        fixed: 0,
    };
    for row in run {
        if counts(link, priority, row) {
            rate.add(&row.1);
        }
    }
    rate.shared + rate.fixed
}
