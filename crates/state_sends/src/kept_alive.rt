//! What is kept alive at neighbours and at the ends of bypasses, as Paths and Resvs are: each for one LSP.

ghost use Rattle.std.specs.FinMap.Entries.{is_sorted, where_key};
ghost use Rattle.std.specs.Prelude.{◌≡◌, [], Bool, IfOk, List, T, true};
ghost use Rattle.std.specs.Cmp.{IsTotalOrder};
ghost use Rattle.std.specs.declared.cmp.Ordering.{Ordering};
ghost use Rattle.std.specs.declared.cmp.Ordering.TheVariants.{Equal};
ghost use Rattle.lsr_facts.specs.Orders.{key_cmp};
ghost use Rattle.lsr_facts.specs.declared.key.Key.{Key};
ghost use Rattle.lsr_facts.specs.declared.router.Router.{Router};
ghost use Rattle.abstract_paths.specs.declared.events.Output.{Output};
ghost use Rattle.abstract_paths.specs.Soundness.{ArePaths};
ghost use Rattle.abstract_paths.specs.Touched.{is_among};
ghost use Rattle.abstract_router.specs.Lsps.{Around, Lsp, around_of, lsps_of};
ghost use Rattle.abstract_router.specs.States.{State};
ghost use Rattle.state_views.specs.Edits.{edited};
ghost use Rattle.state_views.specs.KnownLsps.{AreLsps};
ghost use Rattle.state_sends.specs.KeptAlive.{all_said};
ghost use Rattle.state_sends.specs.Touching.{IsSaidAgain};

use crate::same::{is_same_downstream, is_same_lsp};
use crate::touched::Lsps;
use lsr_facts::laws::items_are_in_order;
use lsr_facts::{Item, Key, Upstream};
use state_views::{Edits, Output, StateView};
use std::alloc::{AllocError, Global};
use wanted_messages::{items_at_keys, upstream_at_keys};

/// What is kept alive at a neighbour, or at the end of a bypass, for one LSP.
pub(crate) trait KeptAlive: Ord + Copy + Drop {
    // its LSP
    ghost of: { Self → Key };

    // the order that they stand in
    ghost order: { Self → Self → Ordering };

    // what its messages say of an LSP
    ghost said: { Lsp → Lsp };

    // all that LSPs want, of what they share
    ghost rows: { Around → List (Key × Lsp) → List (Self × Output) };

    /// That they are compared by this order.
    fn are_in_order()
        ensures { Self.cmp ≡ order };

    /// The LSP.
    fn lsp(&self) -> Key
        ensures { result ≡ of self.now };

    /// Whether its messages say the same of an LSP before and after edits.
    fn is_same<V: StateView>(view: &V, edits: &Edits, lsp: &Key) -> bool
        ensures { result ≡ true → IsSaidAgain said
            (V.state view.now) (edited edits.now (V.state view.now)) lsp.now };

    /// All that these LSPs want, in the order of items. The paths are those of a router, and each reservation is as it
    /// should be, also one that a repair keeps. The only error is out of memory.
    fn wanted_of<V: StateView>(
        alloc: Global,
        view: &V,
        lsps: &Lsps,
    ) -> Result<Vec<(Self, Output)>, AllocError>
        requires lsps { AreLsps (V.router view.now) (V.state view.now) }
        ensures rows { IfOk result (λ wanted. wanted.items ≡ rows (around_of (V.router view.now) (V.state view.now))
            (where_key key_cmp (is_among key_cmp lsps.now) (lsps_of (V.state view.now)))) };

    // what LSPs want comes of what is said of them
    ghost from_said: { (a : Around) (lsps : List (Key × Lsp)) → rows a (all_said said lsps) ≡ rows a lsps };

    // the order is total
    ghost total: { IsTotalOrder order };

    // of no LSPs anything is wanted
    ghost none: { (a : Around) → rows a [] ≡ [] };

    // what is wanted of some LSPs comes of these
    ghost parts: { (r : Router) (s : State) (touched : Key → Bool) →
        where_key order (λ item. touched (of item)) (rows (around_of r s) (lsps_of s))
        ≡ rows (around_of r s) (where_key key_cmp touched (lsps_of s)) };

    // what is wanted stands in order
    ghost in_order: { (r : Router) (s : State) → ArePaths r s.facts.moment s.facts.paths →
        T (is_sorted order (rows (around_of r s) (lsps_of s))) };

    // items that the order doesn't tell apart are equal
    ghost exact: { (a b : Self) → order a b ≡ Equal → a ≡ b };
}

impl KeptAlive for Item {
    ghost use Rattle.lsr_facts.specs.OrderLaws.{item_exact, item_total};
    ghost use Rattle.lsr_facts.specs.Orders.{item_cmp};
    ghost use Rattle.abstract_paths.specs.Touched.{key_of_item};
    ghost use Rattle.abstract_router.specs.Wanted.{item_rows};
    ghost use Rattle.state_sends.specs.KeptAlive.{item_parts, items_in_order, items_said, no_item_rows};
    ghost use Rattle.state_sends.specs.Touching.{said_by_paths};

    ghost of = { key_of_item };

    ghost order = { item_cmp };

    ghost said = { said_by_paths };

    ghost rows = { item_rows };

    ghost from_said = { items_said };

    ghost total = { item_total };

    ghost none = { no_item_rows };

    ghost parts = { item_parts };

    ghost in_order = { items_in_order };

    ghost exact = { item_exact };

    fn are_in_order() {
        items_are_in_order();
    }

    fn lsp(&self) -> Key {
        *self.key()
    }

    fn is_same<V: StateView>(view: &V, edits: &Edits, lsp: &Key) -> bool {
        is_same_downstream(view, edits, lsp)
    }

    #[tactic(auto, unfolding(abstract_router::specs::Wanted::items_at))]
    fn wanted_of<V: StateView>(
        alloc: Global,
        view: &V,
        lsps: &Lsps,
    ) -> Result<Vec<(Item, Output)>, AllocError> {
        items_at_keys(alloc, view, lsps.as_slice())
    }
}

impl KeptAlive for Upstream {
    ghost use Rattle.lsr_facts.specs.UpstreamOrder.{upstream_exact, upstream_total};
    ghost use Rattle.lsr_facts.specs.Upstreams.{upstream_cmp};
    ghost use Rattle.state_sends.specs.KeptAlive.{no_resv_rows, resv_parts, resv_rows, resvs_in_order, resvs_said};
    ghost use Rattle.state_sends.specs.Touching.{said_by_resvs};

    ghost of = { λ u. u.key };

    ghost order = { upstream_cmp };

    ghost said = { said_by_resvs };

    ghost rows = { resv_rows };

    ghost from_said = { resvs_said };

    ghost total = { upstream_total };

    ghost none = { no_resv_rows };

    ghost parts = { resv_parts };

    ghost in_order = { resvs_in_order };

    ghost exact = { upstream_exact };

    fn are_in_order() {}

    fn lsp(&self) -> Key {
        self.key
    }

    fn is_same<V: StateView>(view: &V, edits: &Edits, lsp: &Key) -> bool {
        is_same_lsp(view, edits, lsp)
    }

    #[tactic(auto, unfolding(abstract_router::specs::Upstreams::upstream_at))]
    fn wanted_of<V: StateView>(
        alloc: Global,
        view: &V,
        lsps: &Lsps,
    ) -> Result<Vec<(Upstream, Output)>, AllocError> {
        upstream_at_keys(alloc, view, lsps.as_slice())
    }
}
