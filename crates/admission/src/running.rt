//! Sums of what is reserved on links, which are kept while claims change: one for each link and priority.

ghost use Rattle.std.specs.FinMap.Entries.{is_sorted};
ghost use Rattle.std.specs.List.{AllByRecursion};
ghost use Rattle.std.specs.Option.{option_map_or};
ghost use Rattle.std.specs.Prelude.{◌≡◌, ◌≤◌, List, T, [], IfOk, IfSome, OnOk, length, map, true};
ghost use Rattle.lsr_facts.specs.Limits.{max_lsps};
ghost use Rattle.lsr_facts.specs.Orders.{key_cmp};
ghost use Rattle.lsr_facts.specs.declared.key.Key.{Key};
ghost use Rattle.lsr_facts.specs.Claims.{is_of, reserved_of};
ghost use Rattle.lsr_facts.specs.declared.claim.Claim.{Claim};
ghost use Rattle.admission.specs.Bandwidths.{AreRated};
ghost use Rattle.admission.specs.Running.{AreSums, anew, is_touched, less, more};

use crate::reserved::reserved;
use crate::run::part_of;
use lsr_facts::{Claim, Key, WORST_PRIORITY};
use rsvp_objects::Session;
use sorted_rows::Table;
use std::alloc::{AllocError, Global};

/// What is reserved on a link at a priority, in bytes per second.
#[derive(Clone, Copy, Debug, Drop)]
pub struct LinkSum {
    /// The number of the link.
    pub link: u16,
    /// The priority, 0 (best) to 7.
    pub priority: u8,
    /// The sum.
    pub total: u64,
}

/// The links that a change of one LSP's claim touches.
#[derive(Clone, Copy, Debug, Drop)]
pub struct Touched {
    /// The link of what it took before.
    pub before: u16,
    /// The link of what it takes now.
    pub after: u16,
}

impl Touched {
    /// The links that are touched where an LSP takes this, in place of what it took, if it took something.
    pub fn by(was: Option<Claim>, claim: &Claim) -> Touched
        ensures before { result.before ≡ option_map_or (λ old. old.link) was claim.now.link }
        ensures after { result.after ≡ claim.now.link }
    {
        let before = match was {
            Some(was) => was.link,
            None => claim.link,
        };
        Touched {
            before,
            after: claim.link,
        }
    }

    /// Whether a link is one of them.
    fn has(&self, link: u16) -> bool
        ensures { result ≡ is_touched self.now link }
    {
        link == self.before || link == self.after
    }
}

impl LinkSum {
    /// Takes off what these claims of a session reserve, where the link is touched.
    fn take_off(&mut self, claims: &[(Key, Claim)], session: &Session, touched: &Touched)
        requires own { AllByRecursion (λ row. is_of session.now row ≡ true) claims.now }
        requires sorted { T (is_sorted key_cmp claims.now) }
        requires rated { AreRated claims.now }
        requires few { length claims.now ≤ max_lsps }
        ensures { self.new ≡ less touched.now claims.now self.old }
    {
        if touched.has(self.link) {
            let part = part_of(claims, session, self.link, self.priority);
            self.total = self.total.saturating_sub(part);
        }
    }

    /// Adds what these claims of a session reserve, where the link is touched.
    fn add(&mut self, claims: &[(Key, Claim)], session: &Session, touched: &Touched)
        requires own { AllByRecursion (λ row. is_of session.now row ≡ true) claims.now }
        requires sorted { T (is_sorted key_cmp claims.now) }
        requires rated { AreRated claims.now }
        requires few { length claims.now ≤ max_lsps }
        ensures { self.new ≡ more touched.now claims.now self.old }
    {
        if touched.has(self.link) {
            let part = part_of(claims, session, self.link, self.priority);
            self.total = self.total.saturating_add(part);
        }
    }
}

/// Takes off the sums of touched links what these claims of a session reserve.
pub fn take_off(
    sums: &mut Vec<LinkSum>,
    claims: &[(Key, Claim)],
    session: &Session,
    touched: &Touched,
)
    requires own { AllByRecursion (λ row. is_of session.now row ≡ true) claims.now }
    requires sorted { T (is_sorted key_cmp claims.now) }
    requires rated { AreRated claims.now }
    requires few { length claims.now ≤ max_lsps }
    ensures { sums.new.items ≡ map (less touched.now claims.now) sums.old.items }
{
    for sum in sums.iter_mut() {
        sum.take_off(claims, session, touched);
    }
}

/// Adds to the sums of touched links what these claims of a session reserve.
pub fn add(sums: &mut Vec<LinkSum>, claims: &[(Key, Claim)], session: &Session, touched: &Touched)
    requires own { AllByRecursion (λ row. is_of session.now row ≡ true) claims.now }
    requires sorted { T (is_sorted key_cmp claims.now) }
    requires rated { AreRated claims.now }
    requires few { length claims.now ≤ max_lsps }
    ensures { sums.new.items ≡ map (more touched.now claims.now) sums.old.items }
{
    for sum in sums.iter_mut() {
        sum.add(claims, session, touched);
    }
}

/// Adds up all sums anew. It goes over the claims once for each.
pub fn add_up(sums: &mut Vec<LinkSum>, claims: &[(Key, Claim)])
    requires sorted { T (is_sorted key_cmp claims.now) }
    requires rated { AreRated claims.now }
    requires few { length claims.now ≤ max_lsps }
    ensures { sums.new.items ≡ map (anew claims.now) sums.old.items }
{
    for sum in sums.iter_mut() {
        sum.total = reserved(claims, sum.link, sum.priority);
    }
}

/// Adds the sums of a link on which nothing is reserved. The only error is out of memory.
fn push_link(sums: &mut Vec<LinkSum>, link: u16) -> Result<(), AllocError>
    requires { AreSums [] sums.old.items }
    ensures { OnOk result (AreSums [] sums.new.items) }
{
    for priority in 0..=WORST_PRIORITY {
        sums.push(LinkSum {
            link,
            priority,
            total: 0,
        })?;
    }
    Ok(())
}

/// The sums of the links that have limits, with nothing reserved. The only error is out of memory.
pub fn sums_of(alloc: Global, limits: &Table<u16, u64>) -> Result<Vec<LinkSum>, AllocError>
    ensures { IfOk result (λ sums. AreSums [] sums.items) }
{
    let mut sums = Vec::new(alloc);
    for row in limits.as_slice() {
        push_link(&mut sums, row.0)?;
    }
    Ok(sums)
}

/// The sum of a link at a priority, in bytes per second, or `None` where none is kept. A binary search.
pub fn sum_at(sums: &[LinkSum], link: u16, priority: u8) -> Option<u64>
    ensures { IfSome result (λ total. (claims : List (Key × Claim)) → AreSums claims sums.now →
        total ≡ reserved_of link priority claims) }
{
    let place = sums.binary_search_by(|sum| sum.link.cmp(&link).then(sum.priority.cmp(&priority)));
    match place {
        Ok(at) => Some(sums[at].total),
        Err(_) => None,
    }
}
