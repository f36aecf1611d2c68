//! What holds of each step of the abstract router, and of its label table.

ghost use Rattle.std.specs.Prelude.{◌≡◌, ℕ, List, [], Option, Some, false, true};
ghost use Rattle.std.specs.FinMap.Entries.{find};
ghost use Rattle.lsr_facts.specs.Orders.{key_cmp};
ghost use Rattle.lsr_facts.specs.Routers.{IsRouter};
ghost use Rattle.lsr_facts.specs.declared.key.Key.{Key};
ghost use Rattle.lsr_facts.specs.declared.path_fact.PathFact.{PathFact};
ghost use Rattle.lsr_facts.specs.declared.refusal.Refusal.{Refusal};
ghost use Rattle.lsr_facts.specs.declared.reply.Reply.TheVariants as replies;
ghost use Rattle.lsr_facts.specs.declared.router.Router.{Router};
ghost use Rattle.lsr_facts.specs.declared.repair.Over.{Over};
ghost use Rattle.lsr_facts.specs.declared.repair.Repair.{Repair};
ghost use Rattle.forwarding_table.specs.declared.action.Action.{Action};
ghost use Rattle.forwarding_table.specs.declared.action.Action.TheVariants as actions;
ghost use Rattle.abstract_paths.specs.declared.events.Event.{Event};
ghost use Rattle.abstract_paths.specs.declared.events.Event.TheVariants as events;
ghost use Rattle.abstract_paths.specs.declared.events.Made.{Made};
ghost use Rattle.abstract_paths.specs.Places.{is_up};
ghost use Rattle.abstract_paths.specs.Relays.{exceeds_hop_limit};
ghost use Rattle.abstract_paths.specs.Tears.{leaves_by};
ghost use Rattle.abstract_router.specs.Arrivals.{outcome};
ghost use Rattle.abstract_router.specs.BypassTunnels.{bypass_tunnels_of, over_at};
ghost use Rattle.abstract_router.specs.Soundness.{IsSound};
ghost use Rattle.abstract_router.specs.States.{State, is_repaired, is_reserved};
ghost use Rattle.abstract_router.specs.Steps.{IsEvent, MayChoose, Step};
ghost use Rattle.abstract_router.specs.Tables.{IsEntry, IsTunnelEntry, look, look_tunnel};

/// A step is determined by the state, the event and the labels that are chosen: its reply, what is sent, and what is
/// known after it.
pub fn one_step()
    ensures { (r : Router) (before a b : State) (one other : Made) →
        one.event ≡ other.event → one.labels ≡ other.labels →
        Step r before one a → Step r before other b → (one ≡ other) × (a ≡ b) }
{}

/// A running router has a step for each event that can be, but for a message for another router whose limit ran out;
/// whichever labels are chosen for it that may be; and in a sound state some may: where a step makes an LSP that needs a
/// label, one is free. A cold router has no step but its start.
pub fn running_routers_take_every_event()
    ensures any { (r : Router) (before : State) (event : Event) (labels : List (Key × ℕ)) →
        before.facts.cold ≡ false → IsEvent event → exceeds_hop_limit r before.facts event ≡ false →
        MayChoose r before (outcome r before event) labels →
        (made : Made) × (made.event ≡ event) × (made.labels ≡ labels)
        × (after : State) × Step r before made after }
    ensures some { (r : Router) (before : State) (event : Event) →
        IsRouter r → IsSound r before → IsEvent event → (before.facts.cold ≡ true → event ≡ events.Start) →
        (labels : List (Key × ℕ)) × MayChoose r before (outcome r before event) labels }
    ensures limit { (r : Router) (before : State) (made : Made) (after : State) →
        Step r before made after → exceeds_hop_limit r before.facts made.event ≡ false }
    ensures cold { (r : Router) (before : State) (made : Made) (after : State) →
        before.facts.cold ≡ true → Step r before made after → made.event ≡ events.Start }
{}

/// What is refused changes nothing, and nothing is sent for it.
pub fn refusals_are_silent()
    ensures { (r : Router) (before : State) (made : Made) (after : State) (refusal : Refusal) →
        Step r before made after → made.reply ≡ replies.Refused refusal →
        (made.outputs ≡ []) × (after ≡ before) }
{}

/// Each entry of the label table stands on a path that is known: on one that ends here, or on a live reservation
/// whose link is up, or on a repair whose bypass is up, over a link that is up.
pub fn entries_stand_on_live_state()
    ensures { (r : Router) (s : State) (label : ℕ) (action : Action) →
        IsSound r s → look r s label ≡ Some action → IsEntry r s label action }
{}

/// Each entry of the table of tunnels stands on the tunnel's current LSP: on its live reservation, whose link is up, or
/// on its repair, whose bypass is up, over a link that is up.
pub fn tunnel_entries_stand_on_live_state()
    ensures { (r : Router) (s : State) (number : ℕ) (action : Action) →
        IsSound r s → look_tunnel r s number ≡ Some action → IsTunnelEntry r s number action }
{}

/// A frame leaves over a link that is up: one whose label is swapped, one that goes on through a bypass, and one that a
/// tunnel's head sends.
pub fn frames_leave_over_links_that_are_up()
    ensures swapped { (r : Router) (s : State) (label out link : ℕ) → IsSound r s →
        look r s label ≡ Some (actions.Swap out link) → is_up s.facts.up link ≡ true }
    ensures bypassed { (r : Router) (s : State) (label inner outer link : ℕ) → IsSound r s →
        look r s label ≡ Some (actions.SwapPush inner outer link) → is_up s.facts.up link ≡ true }
    ensures of_heads { (r : Router) (s : State) (number : ℕ) (inner : Option ℕ) (label link : ℕ) → IsSound r s →
        look_tunnel r s number ≡ Some (actions.PushHead inner label link) → is_up s.facts.up link ≡ true }
{}

/// No LSP is both reserved and repaired: it goes on over its own link, or over a bypass (RFC 4090, 6.4).
pub fn no_lsp_is_both_reserved_and_repaired()
    ensures { (r : Router) (s : State) (key : Key) →
        IsSound r s → is_repaired s key ≡ true → is_reserved s key ≡ false }
{}

/// Each repair stands on a bypass that is up, over a link that is up, and its LSP leaves by the link that the bypass
/// protects.
pub fn repairs_stand_on_bypasses_that_are_up()
    ensures { (r : Router) (s : State) (key : Key) (repair : Repair) →
        IsSound r s → find key_cmp key s.repairs ≡ Some repair →
        (path : PathFact) × (over : Over) × (find key_cmp key s.facts.paths ≡ Some path)
        × (leaves_by repair.resv.link path ≡ true)
        × (over_at (bypass_tunnels_of r s) repair.bypass ≡ Some over) × (is_up s.facts.up over.link ≡ true) }
{}
