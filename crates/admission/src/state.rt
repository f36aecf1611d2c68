ghost use Rattle.std.specs.FinMap.Entries.{find, is_sorted, put};
ghost use Rattle.std.specs.Option.{option_copied, option_map, option_map_or};
ghost use Rattle.std.specs.Ordering.{nat_cmp};
ghost use Rattle.std.specs.Prelude.{◌≡◌, ◌^◌, ◌≤◌, T, [], false, IfOk, IsOk, filter, find as find_first, length, not, reverse, slice_get};
ghost use Rattle.rsvp_bodies.specs.Traffic.{flowspec_rate};
ghost use Rattle.lsr_facts.specs.Limits.{max_lsps};
ghost use Rattle.lsr_facts.specs.Orders.{key_cmp};
ghost use Rattle.lsr_facts.specs.Admission.{fits, victims_of};
ghost use Rattle.lsr_facts.specs.Claims.{claim_of, reserved_of};
ghost use Rattle.lsr_facts.specs.Conflicts.{conflicts};
ghost use Rattle.lsr_facts.specs.Reservations.{resv_lives_past};
ghost use Rattle.sorted_rows.specs.Edits.{edited};
ghost use Rattle.sorted_rows.specs.InTurn.{given, in_turn, taken};
ghost use Rattle.sorted_rows.specs.Rows.{keys_of};
ghost use Rattle.admission.specs.Bandwidths.{AreEdits, AreMatched, AreRated, claim_edits, left_at, resv_edits, with_edits, with_holding, with_resv, without_resv};

use crate::claims::Claims;
use crate::resv_state::ResvState;
use crate::victims::victims_from;
use lsr_facts::{Claim, Key, Request, ResvFact, ResvStyle, WORST_PRIORITY};
use sorted_rows::Table;
use std::alloc::{AllocError, Global};
use std::marker::Model;

/// The bandwidth of a router's links: the reservations (RFC 2205, 2.3), at most 1,024, beside each what it takes, and
/// the limit of each link. Rates and limits are in bytes per second; priorities are 0 (best) to 7. Contracts see the
/// three lists, in the order of their keys.
#[derive(Debug, Drop)]
pub struct Admission {
    resvs: ResvState,
    claims: Claims,
    limits: Table<u16, u64>,
}

impl Model for Admission {
    ghost use Rattle.admission.specs.Bandwidths.{AreMatched, Bandwidth};

    ghost Value = { Bandwidth };

    ghost view = { λ a. record { resvs = a.resvs; claims = a.claims; limits = a.limits } };

    ghost invariant = { λ a. AreMatched a.resvs a.claims };
}

/// What a reservation takes that is kept at a priority. It asks that its rate is defined.
fn claim_of(fact: &ResvFact, holding: u8) -> Claim
    requires { IsOk (flowspec_rate fact.now.flowspec) }
    ensures claim { result ≡ claim_of fact.now holding }
    ensures most { result.rate ≤ 2 ^ 50 }
{
    Claim {
        link: fact.link,
        style: fact.style,
        rate: fact.flowspec.rate().unwrap(),
        holding,
    }
}

impl Admission {
    /// No reservations on links with these limits. It reserves the memory of all reservations that it may ever hold;
    /// the only error is that there is too little memory.
    pub fn new(alloc: Global, limits: Table<u16, u64>) -> Result<Admission, AllocError>
        ensures { IfOk result (λ admission. admission ≡ record { resvs = []; claims = []; limits = limits }) }
    {
        Ok(Admission {
            resvs: ResvState::new(alloc)?,
            claims: Claims::new(alloc, &limits)?,
            limits,
        })
    }

    /// How many LSPs have a reservation.
    pub fn len(&self) -> usize
        ensures { result ≡ length self.now.resvs }
    {
        self.resvs.len()
    }

    /// The reservation at a place, in the order of the keys, from 0 on; `None` past the last.
    pub fn row(&self, place: usize) -> Option<&(Key, ResvFact)>
        ensures { option_copied result ≡ slice_get self.now.resvs place }
    {
        self.resvs.row(place)
    }

    /// The keys rise, there are at most 1,024 reservations, and beside each stands what it takes. It does nothing when
    /// it runs.
    pub fn rows_are_in_order(&self)
        ensures sorted { T (is_sorted key_cmp self.now.resvs) }
        ensures few { length self.now.resvs ≤ max_lsps }
        ensures matched { AreMatched self.now.resvs self.now.claims }
    {
        self.resvs.rows_are_in_order();
    }

    /// The LSPs whose reservations expire at a moment, in milliseconds (RFC 2205, 2.3), in the order of their keys.
    /// The only error is out of memory.
    pub fn expiring(&self, alloc: Global, moment: u64) -> Result<Vec<Key>, AllocError>
        ensures { IfOk result (λ keys. keys.items
            ≡ keys_of (filter (λ resv. not (resv_lives_past moment resv.1)) self.now.resvs)) }
    {
        self.resvs.expiring(alloc, moment)
    }

    /// How another LSP of the session is reserved on a link, where that is in the other style: the first of them
    /// (RFC 2205, B, 5).
    pub fn conflicting_style(&self, link: u16, style: ResvStyle, key: &Key) -> Option<ResvStyle>
        ensures { result ≡ option_map (λ other. other.1.style)
            (find_first (conflicts link style key.now) self.now.resvs) }
    {
        self.resvs.conflicting_style(link, style, key)
    }

    /// What the reservations take, in the order of the keys.
    fn claims(&self) -> &[(Key, Claim)]
        ensures claims { result.now ≡ self.now.claims }
        ensures sorted { T (is_sorted key_cmp result.now) }
        ensures rated { AreRated result.now }
        ensures few { length result.now ≤ max_lsps }
    {
        self.claims.as_slice()
    }

    /// The reservations as a table of their own: a copy. The only error is out of memory.
    pub fn resvs_copied(&self, alloc: Global) -> Result<Table<Key, ResvFact>, AllocError>
        ensures { IfOk result (λ resvs. resvs ≡ self.now.resvs) }
    {
        self.resvs.copied(alloc)
    }

    /// What the reservations take, to be changed: a copy. The only error is out of memory.
    pub fn claims_copied(&self, alloc: Global) -> Result<Table<Key, Claim>, AllocError>
        ensures { IfOk result (λ claims. claims ≡ self.now.claims) }
    {
        Ok(Table::from_rows(Vec::from_slice(alloc, self.claims())?))
    }

    /// What is known of an LSP's reservation, or `None` where the LSP has none.
    pub fn get(&self, key: &Key) -> Option<&ResvFact>
        ensures { option_copied result ≡ find key_cmp key.now self.now.resvs }
    {
        self.resvs.get(key)
    }

    /// An LSP has this reservation from now on, kept at this priority, in place of the one that it had. It asks that
    /// at most 1,024 LSPs have one then, that its rate is defined, and for a priority of 0 to 7. It doesn't ask whether
    /// it fits. Takes no memory.
    pub fn put(&mut self, key: Key, fact: ResvFact, holding: u8)
        requires room { length (put key_cmp key fact self.old.resvs) ≤ max_lsps }
        requires rate { IsOk (flowspec_rate fact.flowspec) }
        requires holding { holding ≤ 7 }
        ensures { self.new ≡ with_resv key fact holding self.old }
    {
        let claim = claim_of(&fact, holding);
        self.resvs.put(key, fact);
        self.claims.set(key, claim);
    }

    /// An LSP has no reservation any more. Where it has none, nothing changes. Takes no memory.
    pub fn remove(&mut self, key: &Key)
        ensures { self.new ≡ without_resv key.now self.old }
    {
        self.resvs.remove(key);
        self.claims.remove(key);
    }

    /// No LSP has a reservation any more. Takes no memory.
    pub fn clear(&mut self)
        ensures { self.new ≡ record self.old { resvs = []; claims = [] } }
    {
        self.resvs.clear();
        self.claims.clear();
    }

    /// Lets the wheel come up to this moment, in milliseconds, or to the first expiry before it: then
    /// [`Admission::expiring`] has less to go over. Nothing changes.
    pub fn advance(&mut self, moment: u64)
        ensures { self.new ≡ self.old }
    {
        self.resvs.advance(moment);
    }

    /// A moment comes, in milliseconds: each reservation goes whose expiry isn't above it (RFC 2205, 2.3). Takes no
    /// memory.
    pub fn expire(&mut self, moment: u64)
        ensures { self.new ≡ left_at moment self.old }
    {
        // Those claims are left that belong to what is left, because the reservations are in order.
        self.resvs.rows_are_in_order();
        self.resvs.expire(moment);
        self.claims.keep_reserving(&self.resvs);
    }

    /// An LSP keeps what it has at this priority from now on. Where it has nothing, nothing changes. It asks for a
    /// priority of 0 to 7. Takes no memory.
    pub fn set_holding(&mut self, key: &Key, holding: u8)
        requires { holding ≤ 7 }
        ensures { self.new ≡ with_holding key.now holding self.old }
    {
        // They stay matched, because the reservations are in order.
        self.resvs.rows_are_in_order();
        if let Some(claim) = self.claims.get(key).copied() {
            self.claims.set(*key, Claim { holding, ..claim });
        }
    }

    /// Makes those of the edits that take a reservation away.
    fn take(&mut self, edits: &[(Key, Option<(ResvFact, u8)>)])
        ensures resvs { self.new.resvs ≡ in_turn (taken key_cmp) (resv_edits edits.now) self.old.resvs }
        ensures claims { self.new.claims ≡ in_turn (taken key_cmp) (claim_edits edits.now) self.old.claims }
        ensures limits { self.new.limits ≡ self.old.limits }
    {
        for edit in edits {
            if edit.1.is_none() {
                self.remove(&edit.0);
            }
        }
    }

    /// Makes those of the edits that give a reservation, from the last one on. There is room for all at the end.
    fn give(&mut self, mut edits: Vec<(Key, Option<(ResvFact, u8)>)>)
        requires room { length (in_turn (given key_cmp) (resv_edits (reverse edits.items)) self.old.resvs) ≤ max_lsps }
        requires edits { AreEdits (reverse edits.items) }
        ensures resvs { self.new.resvs ≡ in_turn (given key_cmp) (resv_edits (reverse edits.items)) self.old.resvs }
        ensures claims { self.new.claims ≡ in_turn (given key_cmp) (claim_edits (reverse edits.items)) self.old.claims }
        ensures limits { self.new.limits ≡ self.old.limits }
    {
        while let Some((key, now)) = edits.pop() {
            if let Some((fact, holding)) = now {
                self.put(key, fact, holding);
            }
        }
    }

    /// Makes edits: each LSP that they name has this reservation from now on, kept at this priority, or none. It asks
    /// that at most 1,024 LSPs have one then, and of each edit what [`Admission::put`] asks. Takes no memory.
    pub fn edit(&mut self, edits: Table<Key, Option<(ResvFact, u8)>>)
        requires room { length (edited key_cmp (resv_edits edits) self.old.resvs) ≤ max_lsps }
        requires edits { AreEdits edits }
        ensures { self.new ≡ with_edits edits self.old }
    {
        // The two passes make the edits, because all rows are in order.
        self.resvs.rows_are_in_order();
        self.claims.rows_are_in_order();
        let mut edits = edits.into_rows();

        // The greatest key is taken away first, and given last: then few rows move for each.
        edits.reverse();
        self.take(&edits);
        self.give(edits);
    }

    /// The bandwidth that is reserved on a link at a priority, in bytes per second: the sum over sessions (RFC 2205,
    /// 2.2). It finds the sum where the link has a limit, and goes over all reservations where it has none. Takes no
    /// memory.
    pub fn reserved(&self, link: u16, priority: u8) -> u64
        ensures { result ≡ reserved_of link priority self.now.claims }
    {
        self.claims.reserved(link, priority)
    }

    /// Whether a request fits a limit of its link, in bytes per second: what is reserved at its setup priority, itself
    /// with it, is within that (RFC 3209, 4.7.3). It asks for a rate of at most 2^50 bytes per second. Where the link has a
    /// limit, it goes over the reservations of the request's session alone. Takes no memory.
    #[tactic(auto, unfolding(lsr_facts::specs::Admission::fits))]
    pub fn fits_within(&self, limit: u64, request: &Request) -> bool
        requires { request.now.claim.rate ≤ 2 ^ 50 }
        ensures { result ≡ fits limit request.now self.now.claims }
    {
        self.claims.reserved_with(request, request.setup) <= limit
    }

    /// Those who give way to a request on a link with this limit, in bytes per second, in the order in which they are
    /// taken: the worst priority first, and of one priority the greater key, until what is reserved then is within the
    /// limit. Where that never is, all who can: [`Admission::fits_within`] tells that before. It asks for a rate of at
    /// most 2^50 bytes per second; the only error is out of memory. Where someone gives way, it copies all reservations
    /// once, and goes over those of its session for each victim.
    pub fn victims_within(
        &self,
        alloc: Global,
        limit: u64,
        request: &Request,
    ) -> Result<Vec<Key>, AllocError>
        requires { request.now.claim.rate ≤ 2 ^ 50 }
        ensures { IfOk result (λ keys. keys.items ≡ victims_of limit request.now self.now.claims) }
    {
        let total = self.claims.reserved_with(request, WORST_PRIORITY);
        victims_from(alloc, limit, request, self.claims(), total)
    }

    /// Whether a request fits its link's limit, as [`Admission::fits_within`] says it. On a link that has no limit
    /// nothing fits.
    pub fn fits(&self, request: &Request) -> bool
        requires { request.now.claim.rate ≤ 2 ^ 50 }
        ensures { result ≡ option_map_or (λ limit. fits limit request.now self.now.claims)
            (find nat_cmp request.now.claim.link self.now.limits) false }
    {
        match self.limits.get(&request.claim.link) {
            Some(limit) => self.fits_within(*limit, request),
            None => false,
        }
    }

    /// Those who give way to a request by its link's limit, as [`Admission::victims_within`] says it. On a link that has
    /// no limit nobody gives way.
    pub fn victims(&self, alloc: Global, request: &Request) -> Result<Vec<Key>, AllocError>
        requires { request.now.claim.rate ≤ 2 ^ 50 }
        ensures { IfOk result (λ keys. keys.items ≡ option_map_or (λ limit. victims_of limit request.now self.now.claims)
            (find nat_cmp request.now.claim.link self.now.limits) []) }
    {
        match self.limits.get(&request.claim.link) {
            Some(limit) => self.victims_within(alloc, *limit, request),
            None => Ok(Vec::new(alloc)),
        }
    }
}
