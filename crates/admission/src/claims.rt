//! What reservations take of the bandwidth of links, and sums of it that are kept while it changes.

ghost use Rattle.std.specs.FinMap.Entries.{find, is_sorted, put, where_key};
ghost use Rattle.std.specs.Option.{option_copied};
ghost use Rattle.std.specs.Ordering.{is_eq};
ghost use Rattle.std.specs.Prelude.{◌≡◌, ◌↔◌, ◌^◌, ◌≤◌, T, [], IfOk, IsTrue, Some, length, not};
ghost use Rattle.lsr_facts.specs.Limits.{max_lsps};
ghost use Rattle.lsr_facts.specs.Orders.{key_cmp};
ghost use Rattle.lsr_facts.specs.Admission.{granted};
ghost use Rattle.lsr_facts.specs.Claims.{reserved_of};
ghost use Rattle.admission.specs.Bandwidths.{AreRated, claims_of};

use crate::reserved::{reserved, reserved_with};
use crate::resv_state::ResvState;
use crate::run::{part_of, run_from, run_of, start_of};
use crate::running::{LinkSum, Touched, add, add_up, sum_at, sums_of, take_off};
use lsr_facts::limits::MAX_LSPS;
use lsr_facts::{Claim, Key, Request, is_same_style};
use sorted_rows::{ReservedTable, Sweep, Table, get_ref};
use std::alloc::{AllocError, Global};
use std::marker::Model;

/// What the reservation of each LSP takes, at most 1,024 LSPs, in the order of their keys, and what is reserved of it
/// on some links at each priority. Contracts see the list of keys and claims.
#[derive(Debug, Drop)]
pub struct Claims {
    rows: ReservedTable<Key, Claim, MAX_LSPS>,
    sums: Vec<LinkSum>,
    /// Where the claims of the session that changed last began. The next change is mostly there or just after it.
    last: usize,
}

impl Model for Claims {
    ghost use Rattle.std.specs.Prelude.{List};
    ghost use Rattle.lsr_facts.specs.declared.key.Key.{Key};
    ghost use Rattle.lsr_facts.specs.declared.claim.Claim.{Claim};
    ghost use Rattle.admission.specs.Bandwidths.{AreRated};
    ghost use Rattle.admission.specs.Running.{AreSums};

    ghost Value = { List (Key × Claim) };

    ghost view = { λ c. c.rows };

    ghost invariant = { λ c. AreRated c.rows × AreSums c.rows c.sums.items };
}

/// The claims of those LSPs that have a reservation.
#[derive(Drop)]
struct Reserving<'a> {
    resvs: &'a ResvState,
}

impl Sweep<Key, Claim> for Reserving<'_> {
    ghost use Rattle.std.specs.FinMap.Entries.{find};
    ghost use Rattle.std.specs.Prelude.{is_some};
    ghost use Rattle.lsr_facts.specs.Orders.{key_cmp};

    ghost stays = { λ s row. is_some (find key_cmp row.0 s.resvs.now) };

    ghost left = { λ s claim. claim };

    fn stays(&self, row: &(Key, Claim)) -> bool {
        self.resvs.get(&row.0).is_some()
    }

    fn leave(&self, _claim: &mut Claim) {}
}

/// Whether what an LSP takes is this.
fn takes(was: Option<Claim>, claim: &Claim) -> bool
    ensures { IsTrue result ↔ was ≡ Some claim.now }
{
    match was {
        Some(was) => {
            was.link == claim.link
                && is_same_style(was.style, claim.style)
                && was.rate == claim.rate
                && was.holding == claim.holding
        }
        None => false,
    }
}

impl Claims {
    /// No claims, and sums for the links that have limits. It reserves the memory of all that it may ever hold; the
    /// only error is that there is too little memory.
    pub fn new(alloc: Global, limits: &Table<u16, u64>) -> Result<Claims, AllocError>
        ensures { IfOk result (λ claims. claims ≡ []) }
    {
        Ok(Claims {
            rows: ReservedTable::new(alloc)?,
            sums: sums_of(alloc, limits)?,
            last: 0,
        })
    }

    /// The claims, in the order of the keys.
    pub fn as_slice(&self) -> &[(Key, Claim)]
        ensures claims { result.now ≡ self.now }
        ensures sorted { T (is_sorted key_cmp result.now) }
        ensures rated { AreRated result.now }
        ensures few { length result.now ≤ max_lsps }
    {
        self.rows.as_slice()
    }

    /// The keys rise. It does nothing when it runs.
    pub fn rows_are_in_order(&self)
        ensures sorted { T (is_sorted key_cmp self.now) }
    {
        self.rows.rows_are_in_order();
    }

    /// What an LSP takes, or `None` where it takes nothing.
    pub fn get(&self, key: &Key) -> Option<&Claim>
        ensures { option_copied result ≡ find key_cmp key.now self.now }
    {
        self.rows.get(key)
    }

    /// An LSP takes this from now on. It asks that at most 1,024 LSPs take something then, and for a rate of at most
    /// 2^50 bytes per second. Where the LSP takes this already, nothing is done; else it goes over the claims of its
    /// session. Takes no memory.
    pub fn set(&mut self, key: Key, claim: Claim)
        requires room { length (put key_cmp key claim self.old) ≤ max_lsps }
        requires most { claim.rate ≤ 2 ^ 50 }
        ensures { self.new ≡ put key_cmp key claim self.old }
    {
        let start = start_of(self.rows.as_slice(), self.last, &key.session);
        let run = run_from(self.rows.as_slice(), start, &key.session);
        let was = get_ref(run, &key).copied();
        // What an LSP takes already stands in its place, because the rows are in order.
        if takes(was, &claim) {
            return;
        }
        let touched = Touched::by(was, &claim);
        take_off(&mut self.sums, run, &key.session, &touched);
        self.rows.set(key, claim);
        add(
            &mut self.sums,
            run_of(self.rows.as_slice(), start, &key.session),
            &key.session,
            &touched,
        );
        self.last = start;
    }

    /// An LSP takes nothing any more. Where it takes nothing, nothing changes; else it goes over the claims of its
    /// session. Takes no memory.
    pub fn remove(&mut self, key: &Key)
        ensures { self.new ≡ where_key key_cmp (λ k. not (is_eq (key_cmp key.now k))) self.old }
    {
        let start = start_of(self.rows.as_slice(), self.last, &key.session);
        let run = run_from(self.rows.as_slice(), start, &key.session);
        let Some(was) = get_ref(run, key).copied() else {
            return;
        };
        let touched = Touched {
            before: was.link,
            after: was.link,
        };
        take_off(&mut self.sums, run, &key.session, &touched);
        self.rows.remove(key);
        add(
            &mut self.sums,
            run_of(self.rows.as_slice(), start, &key.session),
            &key.session,
            &touched,
        );
        self.last = start;
    }

    /// No LSP takes anything any more. Takes no memory.
    pub fn clear(&mut self)
        ensures { self.new ≡ [] }
    {
        self.rows.clear();
        add_up(&mut self.sums, self.rows.as_slice());
    }

    /// Those claims stay whose LSPs have a reservation. Where one goes, all sums are added up anew. Takes no memory.
    pub fn keep_reserving(&mut self, resvs: &ResvState)
        ensures { self.new ≡ claims_of resvs.now self.old }
    {
        let count = self.rows.len();
        self.rows.sweep(&Reserving { resvs });
        if self.rows.len() < count {
            add_up(&mut self.sums, self.rows.as_slice());
        }
    }

    /// The bandwidth that is reserved on a link at a priority, in bytes per second. Where the link has sums, it finds
    /// it; else it goes over all claims. Takes no memory.
    pub fn reserved(&self, link: u16, priority: u8) -> u64
        ensures { result ≡ reserved_of link priority self.now }
    {
        match sum_at(&self.sums, link, priority) {
            Some(total) => total,
            None => reserved(self.rows.as_slice(), link, priority),
        }
    }

    /// The bandwidth that is reserved on a request's link at a priority once the request is granted, in bytes per
    /// second. It asks for a rate of at most 2^50 bytes per second. Where the link has sums, it goes over the claims of
    /// the request's session. Takes no memory.
    pub fn reserved_with(&self, request: &Request, priority: u8) -> u64
        requires { request.now.claim.rate ≤ 2 ^ 50 }
        ensures { result ≡ reserved_of request.now.claim.link priority (granted request.now self.now) }
    {
        let link = request.claim.link;
        let run = run_of(self.rows.as_slice(), self.last, &request.key.session);
        let others = self.reserved(link, priority)
            - part_of(run, &request.key.session, link, priority);
        others + reserved_with(request, run, priority)
    }
}
