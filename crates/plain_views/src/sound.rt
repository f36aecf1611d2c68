//! A router in a sound state beside what its reservations claim, as a view of all that it knows.

ghost use Rattle.std.specs.FinMap.Entries.{is_sorted};
ghost use Rattle.std.specs.Prelude.{◌≡◌, ◌≤◌, IfOk, T, length};
ghost use Rattle.lsr_facts.specs.Lifetimes.{due_items};
ghost use Rattle.lsr_facts.specs.Limits.{max_lsps};
ghost use Rattle.lsr_facts.specs.Orders.{key_cmp};
ghost use Rattle.abstract_router.specs.Preempting.{claims_of};
ghost use Rattle.abstract_router.specs.Soundness.{IsSound};
ghost use Rattle.admission.specs.Bandwidths.{AreRated};

use crate::claimed::{claims_of, conflicts, limit_of};
use crate::known::Known;
use crate::labels::first_free;
use admission::{reserved_with, victims_of};
use lsr_facts::{
    Assignment, Bypass, Claim, Item, Key, Node, PathFact, Repair, Request, ResvFact, ResvStyle,
    Router, State, Tunnel, Upstream, expires, has_waited, is_same_session,
};
use rsvp_objects::Session;
use sorted_rows::Table;
use state_views::{StateView, WholeState};
use std::alloc::{AllocError, Global};
use std::marker::Model;

/// A router in a sound state. What it is asked it answers by going over the lists of the state, and over what
/// reservations claim, which is made once. Contracts see the router and the state.
#[derive(Debug, Drop)]
pub struct SoundView<'a> {
    known: Known<'a>,
    claims: Table<Key, Claim>,
}

impl<'a> Model for SoundView<'a> {
    ghost use Rattle.std.specs.Prelude.{◌≡◌};
    ghost use Rattle.abstract_router.specs.Preempting.{claims_of};
    ghost use Rattle.abstract_router.specs.Soundness.{IsSound};
    ghost use Rattle.abstract_router.specs.States.{RouterState};

    ghost Value = { RouterState };

    ghost view = { λ v. record { router = v.known.router.now; state = v.known.state.now } };

    ghost invariant = { λ v. IsSound v.known.router.now v.known.state.now
        × (v.claims ≡ claims_of v.known.state.now.facts.paths v.known.state.now.resvs) };
}

/// The messages that are due at a moment, in milliseconds, by when each was sent last. The only error is out of memory.
fn due_items<I: Copy>(
    alloc: Global,
    refresh_ms: u32,
    sent: &[(I, u64)],
    moment: u64,
) -> Result<Vec<I>, AllocError>
    ensures { IfOk result (λ items. items.items ≡ due_items refresh_ms sent.now moment) }
{
    sent.iter()
        .filter(|row| has_waited(refresh_ms, row.1, moment))
        .map(|row| row.0)
        .collect(alloc)
}

impl<'a> SoundView<'a> {
    /// The view of a router in a sound state. The only error is out of memory.
    pub fn new(
        alloc: Global,
        router: &'a Router,
        state: &'a State,
    ) -> Result<SoundView<'a>, AllocError>
        requires { IsSound router.now state.now }
        ensures { IfOk result (λ view. view ≡ record { router = router.now; state = state.now }) }
    {
        Ok(SoundView {
            known: Known { router, state },
            claims: claims_of(alloc, &state.facts.paths, &state.resvs)?,
        })
    }

    /// The state is sound. It does nothing when it runs.
    pub fn soundness(&self)
        ensures sound { IsSound self.now.router self.now.state }
    {
        let _ = &self.known;
    }

    /// What reservations claim, in the order of the keys.
    fn claim_rows(&self) -> &[(Key, Claim)]
        ensures claims { result.now ≡ claims_of self.now.state.facts.paths self.now.state.resvs }
        ensures sorted { T (is_sorted key_cmp result.now) }
        ensures rated { AreRated result.now }
        ensures few { length result.now ≤ max_lsps }
    {
        self.claims.as_slice()
    }
}

impl StateView for SoundView<'_> {
    ghost router = { λ v. v.router };

    ghost state = { λ v. v.state };

    fn node(&self) -> Node<'_> {
        self.known.node()
    }

    fn refresh_ms(&self) -> u32 {
        self.known.refresh_ms()
    }

    fn label_rest_ms(&self) -> u32 {
        self.known.label_rest_ms()
    }

    fn moment(&self) -> u64 {
        self.known.moment()
    }

    fn tunnel(&self, number: u16) -> Option<&Tunnel> {
        self.known.tunnel(number)
    }

    fn bypasses(&self) -> &Table<u16, Bypass> {
        self.known.bypasses()
    }

    fn path(&self, key: &Key) -> Option<&PathFact> {
        self.known.path(key)
    }

    fn resv(&self, key: &Key) -> Option<&ResvFact> {
        self.known.resv(key)
    }

    fn repair(&self, key: &Key) -> Option<&Repair> {
        self.known.repair(key)
    }

    fn label(&self, key: &Key) -> Option<u32> {
        self.known.label(key)
    }

    fn assignment(&self, key: &Key) -> Option<Assignment> {
        self.known.assignment(key)
    }
}

impl WholeState for SoundView<'_> {
    fn tunnels(&self) -> &[(u16, Tunnel)] {
        self.known.state.facts.tunnels.as_slice()
    }

    fn path_count(&self) -> usize {
        self.known.state.facts.paths.as_slice().len()
    }

    fn path_at(&self, place: usize) -> Option<&(Key, PathFact)> {
        self.known.state.facts.paths.as_slice().get(place)
    }

    fn resv_count(&self) -> usize {
        self.known.state.resvs.as_slice().len()
    }

    fn resv_at(&self, place: usize) -> Option<&(Key, ResvFact)> {
        self.known.state.resvs.as_slice().get(place)
    }

    fn repair_count(&self) -> usize {
        self.known.state.repairs.as_slice().len()
    }

    fn repair_at(&self, place: usize) -> Option<&(Key, Repair)> {
        self.known.state.repairs.as_slice().get(place)
    }

    fn assignment_count(&self) -> usize {
        self.known.state.assignments.as_slice().len()
    }

    fn assignment_at(&self, place: usize) -> Option<&(Key, Assignment)> {
        self.known.state.assignments.as_slice().get(place)
    }

    /// It says no: a state that others made may be sound and promise less than it could.
    fn assignments_stand(&self) -> bool {
        false
    }

    fn sent_at(&self, item: &Item) -> Option<u64> {
        self.known.state.facts.sent.get(item).copied()
    }

    fn sent_upstream_at(&self, item: &Upstream) -> Option<u64> {
        self.known.state.sent_upstream.get(item).copied()
    }

    fn due(&self, alloc: Global, moment: u64) -> Result<Vec<Item>, AllocError> {
        let sent = self.known.state.facts.sent.as_slice();
        due_items(alloc, self.known.router.refresh_ms, sent, moment)
    }

    fn due_upstream(&self, alloc: Global, moment: u64) -> Result<Vec<Upstream>, AllocError> {
        let sent = self.known.state.sent_upstream.as_slice();
        due_items(alloc, self.known.router.refresh_ms, sent, moment)
    }

    fn expiring_paths(&self, alloc: Global, moment: u64) -> Result<Vec<Key>, AllocError> {
        let paths = self.known.state.facts.paths.as_slice();
        paths
            .iter()
            .filter(|path| expires(moment, *path))
            .map(|path| path.0)
            .collect(alloc)
    }

    fn expiring_resvs(&self, alloc: Global, moment: u64) -> Result<Vec<Key>, AllocError> {
        let resvs = self.known.state.resvs.as_slice();
        resvs
            .iter()
            .filter(|resv| !resv.1.lives_past(moment))
            .map(|resv| resv.0)
            .collect(alloc)
    }

    fn expiring_repairs(&self, alloc: Global, moment: u64) -> Result<Vec<Key>, AllocError> {
        let repairs = self.known.state.repairs.as_slice();
        repairs
            .iter()
            .filter(|repair| !repair.1.resv.lives_past(moment))
            .map(|repair| repair.0)
            .collect(alloc)
    }

    fn knows_session(&self, session: &Session) -> bool {
        let paths = self.known.state.facts.paths.as_slice();
        paths
            .iter()
            .any(|path| is_same_session(session, &path.0.session))
    }

    fn conflicting_style(&self, link: u16, style: ResvStyle, key: &Key) -> Option<ResvStyle> {
        let resvs = self.known.state.resvs.as_slice();
        resvs
            .iter()
            .find(|resv| conflicts(link, style, key, *resv))
            .map(|resv| resv.1.style)
    }

    #[tactic(auto, unfolding(lsr_facts::specs::Admission::fits))]
    fn fits(&self, request: &Request) -> bool {
        let limit = limit_of(self.known.router, request.claim.link);
        reserved_with(request, self.claim_rows(), request.setup) <= limit
    }

    fn victims(&self, alloc: Global, request: &Request) -> Result<Vec<Key>, AllocError> {
        let limit = limit_of(self.known.router, request.claim.link);
        victims_of(alloc, limit, request, self.claim_rows())
    }

    fn claims(&self, alloc: Global) -> Result<Table<Key, Claim>, AllocError> {
        Ok(Table::from_rows(Vec::from_slice(alloc, self.claim_rows())?))
    }

    fn free_label(&self) -> Option<u32> {
        let labels = self.known.state.labels.as_slice();
        first_free(self.known.router.labels, labels, &self.known.state.resting)
    }
}
