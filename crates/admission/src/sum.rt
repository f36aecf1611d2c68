//! The bandwidth that claims take together, added up in one pass.

ghost use Rattle.std.specs.Prelude.{◌≡◌, ◌+◌, ◌*◌, ◌^◌, ◌<◌, ◌≤◌, [], ◌∷◌, filter, length};
ghost use Rattle.lsr_facts.specs.Claims.{counts};
ghost use Rattle.admission.specs.Bandwidths.{AreRated};
ghost use Rattle.admission.specs.Sums.{AddsClaims, IsSumOf, shared_by};

use lsr_facts::{Claim, Key, ResvStyle, is_same_session};
use rsvp_objects::Session;

/// Whether a claim is on a link, and is kept at a priority or a better one.
pub fn counts(link: u16, priority: u8, row: &(Key, Claim)) -> bool
    ensures { result ≡ counts link priority row.now }
{
    row.1.link == link && row.1.holding <= priority
}

/// A sum of claims, which are added in the order of their keys: so those of a session come one after the other.
#[derive(Debug, Drop)]
pub struct Sum {
    /// What they take together, in bytes per second.
    total: u64,
    /// The session of the last one.
    session: Option<Session>,
    /// What that session shares, in bytes per second.
    shared: u64,
}

impl Sum {
    /// The sum of no claims.
    pub fn new() -> Sum
        ensures none { IsSumOf [] result }
        ensures zero { result.total ≡ 0 }
    {
        Sum {
            total: 0,
            session: None,
            shared: 0,
        }
    }

    /// What the claims take together, in bytes per second.
    pub fn total(&self) -> u64
        ensures { result ≡ self.now.total }
    {
        self.total
    }

    /// What a session shares so far, in bytes per second: nothing, if it isn't the one of the last claim.
    fn shared_by(&self, session: &Session) -> u64
        ensures { result ≡ shared_by self.now session.now }
    {
        match &self.session {
            Some(last) if is_same_session(last, session) => self.shared,
            _ => 0,
        }
    }

    /// Adds a claim. It asks that the sum fits.
    fn add(&mut self, row: &(Key, Claim))
        requires { self.old.total + row.now.1.rate < 2 ^ 64 }
        ensures added { AddsClaims self.old (row.now ∷ []) self.new }
        ensures most { self.new.total ≤ self.old.total + row.now.1.rate }
    {
        let (key, claim) = row;
        let shared = self.shared_by(&key.session);
        self.session = Some(key.session);
        match claim.style {
            ResvStyle::FixedFilter => {
                self.total += claim.rate;
                self.shared = shared;
            }
            ResvStyle::SharedExplicit => {
                self.total += claim.rate.saturating_sub(shared);
                self.shared = claim.rate.max(shared);
            }
        }
    }

    /// Adds those of these claims that count on a link at a priority. It asks that the sum fits.
    pub fn add_counting(&mut self, claims: &[(Key, Claim)], link: u16, priority: u8)
        requires rated { AreRated claims.now }
        requires room { self.old.total + length claims.now * 2 ^ 50 < 2 ^ 64 }
        ensures added { AddsClaims self.old (filter (counts link priority) claims.now) self.new }
        ensures most { self.new.total ≤ self.old.total + length claims.now * 2 ^ 50 }
    {
        for row in claims {
            if counts(link, priority, row) {
                self.add(row);
            }
        }
    }
}
