//! What the label table does with the frames of each LSP.

ghost use Rattle.std.specs.Prelude.{◌≡◌, ◌≢◌, ◌<◌, ◌≤◌, ◌-◌, ◌∷◌, ℕ, List, [], length, None, Some, false, true};
ghost use Rattle.std.specs.FinMap.Entries.{find};
ghost use Rattle.label_stacks.specs.declared.entry.StackEntry.{StackEntry};
ghost use Rattle.lsr_facts.specs.Orders.{key_cmp};
ghost use Rattle.lsr_facts.specs.Routers.{IsRouter};
ghost use Rattle.lsr_facts.specs.declared.key.Key.{Key};
ghost use Rattle.lsr_facts.specs.declared.path_fact.PathFact.{PathFact};
ghost use Rattle.lsr_facts.specs.declared.repair.Over.{Over};
ghost use Rattle.lsr_facts.specs.declared.repair.Repair.{Repair};
ghost use Rattle.lsr_facts.specs.declared.resv_fact.ResvFact.{ResvFact};
ghost use Rattle.lsr_facts.specs.declared.router.Router.{Router};
ghost use Rattle.forwarding_table.specs.Forwarding.{relabelled};
ghost use Rattle.forwarding_table.specs.Labels.{implicit_null};
ghost use Rattle.forwarding_table.specs.declared.action.Action.TheVariants.{Pop, Swap, SwapPush};
ghost use Rattle.forwarding_table.specs.declared.forwarding.Forwarding.TheVariants.{Send};
ghost use Rattle.abstract_paths.specs.Paths.{goes_on};
ghost use Rattle.abstract_router.specs.BypassTunnels.{bypass_tunnels_of, over_at};
ghost use Rattle.abstract_router.specs.Soundness.{IsSound};
ghost use Rattle.abstract_router.specs.States.{State};
ghost use Rattle.abstract_router.specs.Tables.{forwarded, look};

/// Each LSP that holds a label has its own entry under that label (RFC 3031, 3.10 to 3.13): where it ends here, the label is
/// popped; where it is reserved, the label is swapped for its next hop's, over the reservation's link; where it is repaired,
/// its bypass is up, and the label is swapped for that of the bypass's end, under the label of the bypass (RFC 4090, 3.2).
/// Where it goes on but is neither reserved nor repaired, the label has no entry.
pub fn each_lsp_has_its_entry()
    ensures ends { (r : Router) (s : State) (key : Key) (label : ℕ) (path : PathFact) → IsSound r s →
        find key_cmp key s.labels ≡ Some label → find key_cmp key s.facts.paths ≡ Some path →
        goes_on path.role ≡ false → look r s label ≡ Some Pop }
    ensures reserved { (r : Router) (s : State) (key : Key) (label : ℕ) (resv : ResvFact) → IsSound r s →
        find key_cmp key s.labels ≡ Some label → find key_cmp key s.resvs ≡ Some resv →
        look r s label ≡ Some (Swap resv.label resv.link) }
    ensures repaired { (r : Router) (s : State) (key : Key) (label : ℕ) (repair : Repair) → IsSound r s →
        find key_cmp key s.labels ≡ Some label → find key_cmp key s.repairs ≡ Some repair →
        (over : Over) × (over_at (bypass_tunnels_of r s) repair.bypass ≡ Some over)
        × (look r s label ≡ Some (SwapPush repair.resv.label over.label over.link)) }
    ensures neither { (r : Router) (s : State) (key : Key) (label : ℕ) (path : PathFact) → IsSound r s →
        find key_cmp key s.labels ≡ Some label → find key_cmp key s.facts.paths ≡ Some path →
        goes_on path.role ≡ true → find key_cmp key s.resvs ≡ None → find key_cmp key s.repairs ≡ None →
        look r s label ≡ None }
{}

/// A frame that comes with an LSP's label on top leaves with its traffic class, a TTL one less, and what stood below as it
/// came: where the LSP is reserved, under the next hop's label, over the reservation's link; where it is repaired, under
/// the label of its merge point, under that of the bypass, over the bypass (RFC 3032, 2.4.1; RFC 4090, 3.2). So does
/// each whose TTL isn't up, and that has room for the labels. For implicit null nothing is written.
pub fn frames_leave_as_their_lsp_does()
    ensures reserved { (r : Router) (s : State) (key : Key) (resv : ResvFact) (top : StackEntry)
        (below : List StackEntry) →
        IsRouter r → IsSound r s → find key_cmp key s.labels ≡ Some top.label → find key_cmp key s.resvs ≡ Some resv →
        1 < top.ttl → length below ≤ 7 →
        forwarded r s (top ∷ below) ≡ Send resv.link (relabelled (resv.label ∷ []) top below) }
    ensures repaired { (r : Router) (s : State) (key : Key) (repair : Repair) (top : StackEntry)
        (below : List StackEntry) →
        IsRouter r → IsSound r s → find key_cmp key s.labels ≡ Some top.label →
        find key_cmp key s.repairs ≡ Some repair → 1 < top.ttl → length below ≤ 6 →
        (over : Over) × (over_at (bypass_tunnels_of r s) repair.bypass ≡ Some over)
        × (forwarded r s (top ∷ below)
        ≡ Send over.link (relabelled (over.label ∷ repair.resv.label ∷ []) top below)) }
    ensures written { (outer inner : ℕ) (top : StackEntry) (below : List StackEntry) →
        outer ≢ implicit_null → inner ≢ implicit_null → relabelled (outer ∷ inner ∷ []) top below
        ≡ (record { label = outer; class = top.class; ttl = top.ttl - 1 })
        ∷ (record { label = inner; class = top.class; ttl = top.ttl - 1 }) ∷ below }
    ensures ends { (r : Router) (s : State) (key : Key) (path : PathFact) (top : StackEntry)
        (below : List StackEntry) →
        IsRouter r → IsSound r s → find key_cmp key s.labels ≡ Some top.label →
        find key_cmp key s.facts.paths ≡ Some path → goes_on path.role ≡ false →
        forwarded r s (top ∷ below) ≡ forwarded r s below }
{}
