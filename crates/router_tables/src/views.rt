//! The tables of a router as a view of what it knows.

ghost use Rattle.std.specs.Prelude.{◌≡◌};
ghost use Rattle.abstract_router.specs.Preempting.{limit_of};

use crate::repairs::expiring;
use crate::tables::Tables;
use explicit_routes::link_at;
use lsr_facts::{
    Assignment, Bypass, Claim, Item, Key, Node, PathFact, Repair, Request, ResvFact, ResvStyle,
    Tunnel, Upstream,
};
use rsvp_objects::Session;
use sorted_rows::Table;
use state_views::{StateView, WholeState};
use std::alloc::{AllocError, Global};

impl StateView for Tables {
    ghost router = { λ t. t.router };

    ghost state = { λ t. t.state };

    fn node(&self) -> Node<'_> {
        Node {
            router: &self.rows.router,
            up: &self.rows.up,
            routes: &self.rows.routes,
        }
    }

    fn refresh_ms(&self) -> u32 {
        self.rows.router.refresh_ms
    }

    fn label_rest_ms(&self) -> u32 {
        self.rows.router.label_rest_ms
    }

    fn moment(&self) -> u64 {
        self.rows.moment
    }

    fn tunnel(&self, number: u16) -> Option<&Tunnel> {
        self.rows.tunnels.get(&number)
    }

    fn bypasses(&self) -> &Table<u16, Bypass> {
        &self.rows.bypasses
    }

    fn path(&self, key: &Key) -> Option<&PathFact> {
        self.rows.paths.get(key)
    }

    fn resv(&self, key: &Key) -> Option<&ResvFact> {
        self.rows.bandwidth.get(key)
    }

    fn repair(&self, key: &Key) -> Option<&Repair> {
        self.rows.repairs.get(key)
    }

    fn label(&self, key: &Key) -> Option<u32> {
        self.rows.labels.get(key)
    }

    fn assignment(&self, key: &Key) -> Option<Assignment> {
        self.rows.assignments.get(key).copied()
    }
}

impl Tables {
    /// How much of a link may be reserved, in bytes per second: nothing of one that there isn't.
    #[tactic(auto, unfolding(lsr_facts::specs::Routers::link_at))]
    fn limit_of(&self, link: u16) -> u64
        ensures { result ≡ limit_of self.now.router link }
    {
        match link_at(&self.rows.router, link) {
            Some(link) => link.limit,
            None => 0,
        }
    }
}

impl WholeState for Tables {
    fn tunnels(&self) -> &[(u16, Tunnel)] {
        self.rows.tunnels.as_slice()
    }

    fn path_count(&self) -> usize {
        self.rows.paths.len()
    }

    fn path_at(&self, place: usize) -> Option<&(Key, PathFact)> {
        self.rows.paths.row(place)
    }

    fn resv_count(&self) -> usize {
        self.rows.bandwidth.len()
    }

    fn resv_at(&self, place: usize) -> Option<&(Key, ResvFact)> {
        self.rows.bandwidth.row(place)
    }

    fn repair_count(&self) -> usize {
        self.rows.repairs.len()
    }

    fn repair_at(&self, place: usize) -> Option<&(Key, Repair)> {
        self.rows.repairs.row(place)
    }

    fn assignment_count(&self) -> usize {
        self.rows.assignments.len()
    }

    fn assignment_at(&self, place: usize) -> Option<&(Key, Assignment)> {
        self.rows.assignments.row(place)
    }

    fn assignments_stand(&self) -> bool {
        // Whoever opens the value sees its invariant: its steps leave nothing to promise.
        let _rows = &self.rows;
        true
    }

    fn sent_at(&self, item: &Item) -> Option<u64> {
        self.rows.timers.sent_at(item)
    }

    fn sent_upstream_at(&self, item: &Upstream) -> Option<u64> {
        self.rows.upstream.sent_at(item)
    }

    fn due(&self, alloc: Global, moment: u64) -> Result<Vec<Item>, AllocError> {
        self.rows.timers.due(alloc, moment)
    }

    fn due_upstream(&self, alloc: Global, moment: u64) -> Result<Vec<Upstream>, AllocError> {
        self.rows.upstream.due(alloc, moment)
    }

    fn expiring_paths(&self, alloc: Global, moment: u64) -> Result<Vec<Key>, AllocError> {
        self.rows.paths.expiring(alloc, moment)
    }

    fn expiring_resvs(&self, alloc: Global, moment: u64) -> Result<Vec<Key>, AllocError> {
        self.rows.bandwidth.expiring(alloc, moment)
    }

    fn expiring_repairs(&self, alloc: Global, moment: u64) -> Result<Vec<Key>, AllocError> {
        expiring(alloc, &self.rows.repairs, moment)
    }

    fn knows_session(&self, session: &Session) -> bool {
        self.rows.paths.knows_session(session)
    }

    fn conflicting_style(&self, link: u16, style: ResvStyle, key: &Key) -> Option<ResvStyle> {
        self.rows.bandwidth.conflicting_style(link, style, key)
    }

    fn fits(&self, request: &Request) -> bool {
        let limit = self.limit_of(request.claim.link);
        self.rows.bandwidth.fits_within(limit, request)
    }

    fn victims(&self, alloc: Global, request: &Request) -> Result<Vec<Key>, AllocError> {
        let limit = self.limit_of(request.claim.link);
        self.rows.bandwidth.victims_within(alloc, limit, request)
    }

    fn claims(&self, alloc: Global) -> Result<Table<Key, Claim>, AllocError> {
        self.rows.bandwidth.claims_copied(alloc)
    }

    fn free_label(&self) -> Option<u32> {
        self.rows.labels.free_label()
    }
}
