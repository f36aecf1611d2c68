//! What decisions ask of what a router knows.

ghost use Rattle.std.specs.FinMap.Entries.{find};
ghost use Rattle.std.specs.List.{list_any};
ghost use Rattle.std.specs.Option.{option_copied, option_map};
ghost use Rattle.std.specs.Ordering.{nat_cmp};
ghost use Rattle.std.specs.Prelude.{◌≡◌, ◌≤◌, ◌^◌, IfOk, IfSome, T, true, filter, find as find_first, is_some, length, not, slice_get};
ghost use Rattle.lsr_facts.specs.Lifetimes.{due_items, expires};
ghost use Rattle.lsr_facts.specs.Orders.{item_cmp, key_cmp};
ghost use Rattle.lsr_facts.specs.declared.router.Router.{Router};
ghost use Rattle.lsr_facts.specs.Admission.{fits, victims_of};
ghost use Rattle.lsr_facts.specs.Claims.{is_same_session};
ghost use Rattle.lsr_facts.specs.Reservations.{resv_lives_past};
ghost use Rattle.lsr_facts.specs.Upstreams.{upstream_cmp};
ghost use Rattle.sorted_rows.specs.Rows.{keys_of};
ghost use Rattle.abstract_paths.specs.Places.{place_at, place_of};
ghost use Rattle.abstract_router.specs.Assigning.{assignments_of};
ghost use Rattle.abstract_router.specs.Labels.{MayBeGiven, has_free_label};
ghost use Rattle.abstract_router.specs.Preempting.{claims_of, limit_of};
ghost use Rattle.abstract_router.specs.Reserving.{conflicts};
ghost use Rattle.abstract_router.specs.States.{State};

use lsr_facts::{
    Assignment, Bypass, Claim, Item, Key, Node, PathFact, Repair, Request, ResvFact, ResvStyle,
    Tunnel, Upstream,
};
use rsvp_objects::Session;
use sorted_rows::Table;
use std::alloc::{AllocError, Global};

/// Something that lends what a label switching router knows, however it keeps it: by LSP.
pub trait StateView {
    ghost router: { Self → Router };

    ghost state: { Self → State };

    /// Where the router stands.
    fn node(&self) -> Node<'_>
        ensures router { result.router.now ≡ router self.now }
        ensures up { result.up.now ≡ (state self.now).facts.up }
        ensures routes { result.routes.now ≡ (state self.now).facts.routes };

    /// How often the router refreshes its state at its neighbours, in milliseconds.
    fn refresh_ms(&self) -> u32
        ensures refresh { result ≡ (router self.now).refresh_ms };

    /// For how long a label rests that an LSP gave back, in milliseconds: so long it isn't given again.
    fn label_rest_ms(&self) -> u32
        ensures rest { result ≡ (router self.now).label_rest_ms };

    /// The moment that the router was told last, in milliseconds.
    fn moment(&self) -> u64
        ensures moment { result ≡ (state self.now).facts.moment };

    /// The tunnel of a number that begins here.
    fn tunnel(&self, number: u16) -> Option<&Tunnel>
        ensures tunnel { option_copied result ≡ find nat_cmp number (state self.now).facts.tunnels };

    /// The bypasses, by number.
    fn bypasses(&self) -> &Table<u16, Bypass>
        ensures bypasses { result.now ≡ (state self.now).facts.bypasses };

    /// What is known of an LSP's path.
    fn path(&self, key: &Key) -> Option<&PathFact>
        ensures path { option_copied result ≡ find key_cmp key.now (state self.now).facts.paths };

    /// What is known of an LSP's reservation.
    fn resv(&self, key: &Key) -> Option<&ResvFact>
        ensures resv { option_copied result ≡ find key_cmp key.now (state self.now).resvs };

    /// What is known of an LSP's repair, while it runs over a bypass.
    fn repair(&self, key: &Key) -> Option<&Repair>
        ensures repair { option_copied result ≡ find key_cmp key.now (state self.now).repairs };

    /// The label that an LSP has, if it has one.
    fn label(&self, key: &Key) -> Option<u32>
        ensures label { result ≡ find key_cmp key.now (state self.now).labels };

    /// What an LSP is promised of a bypass's bandwidth, if it is promised any.
    fn assignment(&self, key: &Key) -> Option<Assignment>
        ensures assignment { result ≡ find key_cmp key.now (state self.now).assignments };
}

/// What is asked of all that is known together: by place, by moment, by session, by what reservations claim.
pub trait WholeState: StateView {
    /// All tunnels that begin here, in the order of their numbers.
    fn tunnels(&self) -> &[(u16, Tunnel)]
        ensures tunnels { result.now ≡ (Self.state self.now).facts.tunnels };

    /// How many paths are known.
    fn path_count(&self) -> usize
        ensures count { result ≡ length (Self.state self.now).facts.paths };

    /// The path at a place, in the order of the LSPs; `None` past the last.
    fn path_at(&self, place: usize) -> Option<&(Key, PathFact)>
        ensures row { option_copied result ≡ slice_get (Self.state self.now).facts.paths place };

    /// How many reservations are known.
    fn resv_count(&self) -> usize
        ensures count { result ≡ length (Self.state self.now).resvs };

    /// The reservation at a place, in the order of the LSPs; `None` past the last.
    fn resv_at(&self, place: usize) -> Option<&(Key, ResvFact)>
        ensures row { option_copied result ≡ slice_get (Self.state self.now).resvs place };

    /// How many repairs are known.
    fn repair_count(&self) -> usize
        ensures count { result ≡ length (Self.state self.now).repairs };

    /// The repair at a place, in the order of the LSPs; `None` past the last.
    fn repair_at(&self, place: usize) -> Option<&(Key, Repair)>
        ensures row { option_copied result ≡ slice_get (Self.state self.now).repairs place };

    /// How many LSPs are promised bandwidth of a bypass.
    fn assignment_count(&self) -> usize
        ensures count { result ≡ length (Self.state self.now).assignments };

    /// The promise at a place, in the order of the LSPs; `None` past the last.
    fn assignment_at(&self, place: usize) -> Option<&(Key, Assignment)>
        ensures row { option_copied result ≡ slice_get (Self.state self.now).assignments place };

    /// Whether the promises, made anew of what is known, would be the same. It says no wherever that isn't plain.
    fn assignments_stand(&self) -> bool
        ensures stand { result ≡ true → assignments_of (Self.router self.now) (Self.state self.now)
            ≡ (Self.state self.now).assignments };

    /// When a Path was sent last that is kept alive at a neighbour, in milliseconds; `None` for any other.
    fn sent_at(&self, item: &Item) -> Option<u64>
        ensures sent { result ≡ find item_cmp item.now (Self.state self.now).facts.sent };

    /// When a Resv was sent last that is kept alive at a neighbour, in milliseconds; `None` for any other.
    fn sent_upstream_at(&self, item: &Upstream) -> Option<u64>
        ensures sent { result ≡ find upstream_cmp item.now (Self.state self.now).sent_upstream };

    /// The Paths that are due at a moment, in milliseconds (RFC 2205, 3.7). The only error is out of memory.
    fn due(&self, alloc: Global, moment: u64) -> Result<Vec<Item>, AllocError>
        ensures due { IfOk result (λ items. items.items
            ≡ due_items (Self.router self.now).refresh_ms (Self.state self.now).facts.sent moment) };

    /// The Resvs that are due at a moment, in milliseconds (RFC 2205, 3.7). The only error is out of memory.
    fn due_upstream(&self, alloc: Global, moment: u64) -> Result<Vec<Upstream>, AllocError>
        ensures due { IfOk result (λ items. items.items
            ≡ due_items (Self.router self.now).refresh_ms (Self.state self.now).sent_upstream moment) };

    /// The LSPs of whose paths a moment, in milliseconds, takes anything away (RFC 2205, 2.3). The only error is out of
    /// memory.
    fn expiring_paths(&self, alloc: Global, moment: u64) -> Result<Vec<Key>, AllocError>
        ensures expiring { IfOk result (λ keys. keys.items
            ≡ keys_of (filter (expires moment) (Self.state self.now).facts.paths)) };

    /// The LSPs whose reservations expire at a moment, in milliseconds. The only error is out of memory.
    fn expiring_resvs(&self, alloc: Global, moment: u64) -> Result<Vec<Key>, AllocError>
        ensures expiring { IfOk result (λ keys. keys.items
            ≡ keys_of (filter (λ resv. not (resv_lives_past moment resv.1)) (Self.state self.now).resvs)) };

    /// The LSPs whose repairs expire at a moment, in milliseconds. The only error is out of memory.
    fn expiring_repairs(&self, alloc: Global, moment: u64) -> Result<Vec<Key>, AllocError>
        ensures expiring { IfOk result (λ keys. keys.items
            ≡ keys_of (filter (λ repair. not (resv_lives_past moment repair.1.resv)) (Self.state self.now).repairs)) };

    /// Whether a path of the session is known.
    fn knows_session(&self, session: &Session) -> bool
        ensures known { result ≡ list_any (λ path. is_same_session session.now path.0.session)
            (Self.state self.now).facts.paths };

    /// How another LSP of the session is reserved on a link, where that is in the other style.
    fn conflicting_style(&self, link: u16, style: ResvStyle, key: &Key) -> Option<ResvStyle>
        ensures style { result ≡ option_map (λ other. other.1.style)
            (find_first (conflicts link style key.now) (Self.state self.now).resvs) };

    /// Whether a request fits its link's limit (RFC 3209, 4.7.3). It asks for a rate of at most 2^50 bytes per second.
    fn fits(&self, request: &Request) -> bool
        requires { request.now.claim.rate ≤ 2 ^ 50 }
        ensures fits { result ≡ fits (limit_of (Self.router self.now) request.now.claim.link) request.now
            (claims_of (Self.state self.now).facts.paths (Self.state self.now).resvs) };

    /// Those who give way to a request, in the order in which they are taken. It asks for a rate of at most 2^50 bytes per
    /// second; the only error is out of memory.
    fn victims(&self, alloc: Global, request: &Request) -> Result<Vec<Key>, AllocError>
        requires { request.now.claim.rate ≤ 2 ^ 50 }
        ensures victims { IfOk result (λ keys. keys.items
            ≡ victims_of (limit_of (Self.router self.now) request.now.claim.link) request.now
            (claims_of (Self.state self.now).facts.paths (Self.state self.now).resvs)) };

    /// What reservations claim, each at the priority at which its LSP's path has it kept, to be changed: a copy. The only
    /// error is out of memory.
    fn claims(&self, alloc: Global) -> Result<Table<Key, Claim>, AllocError>
        ensures claims { IfOk result (λ claims. claims
            ≡ claims_of (Self.state self.now).facts.paths (Self.state self.now).resvs) };

    /// A label of the router's range that no LSP has and that doesn't rest, or `None` where there is none.
    fn free_label(&self) -> Option<u32>
        ensures given { IfSome result (MayBeGiven (Self.router self.now) (Self.state self.now).labels
            (Self.state self.now).resting) }
        ensures free { is_some result ≡ has_free_label (Self.router self.now) (Self.state self.now).labels
            (Self.state self.now).resting };
}

/// Where the router stands.
pub fn node_of<V: StateView>(view: &V) -> Node<'_>
    ensures { place_at result ≡ place_of (V.router view.now) (V.state view.now).facts }
{
    view.node()
}
