//! What bypasses promise of their bandwidth (RFC 4090, 4.3), and that they keep it.

ghost use Rattle.std.specs.Prelude.{◌≡◌, ◌<◌, ◌≤◌, ◌+◌, ℕ, if◌then◌else◌, List, [], true, None, Some, filter, find as find_first};
ghost use Rattle.std.specs.FinMap.Entries.{find};
ghost use Rattle.std.specs.Option.{option_or};
ghost use Rattle.rsvp_bodies.specs.declared.prefix.Prefix.{Prefix};
ghost use Rattle.lsr_facts.specs.Bypasses.{AreBypasses};
ghost use Rattle.lsr_facts.specs.Orders.{key_cmp};
ghost use Rattle.lsr_facts.specs.Routers.{AreRoutes, IsRouter};
ghost use Rattle.lsr_facts.specs.Tunnels.{AreTunnels, AreUnchanging};
ghost use Rattle.lsr_facts.specs.declared.assignment.Assignment.{Assignment};
ghost use Rattle.lsr_facts.specs.declared.bypass.Bypass.{Bypass};
ghost use Rattle.lsr_facts.specs.declared.key.Key.{Key};
ghost use Rattle.lsr_facts.specs.declared.path_fact.PathFact.{PathFact};
ghost use Rattle.lsr_facts.specs.declared.repair.Repair.{Repair};
ghost use Rattle.lsr_facts.specs.declared.resv_fact.ResvFact.{ResvFact};
ghost use Rattle.lsr_facts.specs.declared.router.Router.{Router};
ghost use Rattle.lsr_facts.specs.declared.tunnel.Tunnel.{Tunnel};
ghost use Rattle.bypass_shares.specs.Shares.{AreShares, assigned_of, is_candidate};
ghost use Rattle.bypass_shares.specs.declared.wish.Wish.{Wish};
ghost use Rattle.abstract_paths.specs.declared.events.Event.TheVariants as events;
ghost use Rattle.abstract_paths.specs.declared.events.Made.{Made};
ghost use Rattle.abstract_router.specs.Assigning.{capacity_in, in_use_of, rate_in, wishes_of};
ghost use Rattle.abstract_router.specs.Lsps.{around_of};
ghost use Rattle.abstract_router.specs.Protecting.{is_preferred, is_protected, selected, ways_around};
ghost use Rattle.abstract_router.specs.Soundness.{IsSound};
ghost use Rattle.abstract_router.specs.States.{State};
ghost use Rattle.abstract_router.specs.Steps.{AreSettled, opening, Run, Step};
ghost use Rattle.router_soundness.specs.Assigned.{AreStanding};
ghost use Rattle.router_laws.specs.Promises.{HasNoCapacity, brought_over, came_before};

/// The LSPs that are repaired over a bypass which has bandwidth for repairs bring no more over it than that.
pub fn repairs_are_within_capacities()
    ensures { (r : Router) (s : State) (number : ℕ) →
        IsSound r s → 1 ≤ capacity_in s.facts.bypasses number →
        brought_over s number ≤ capacity_in s.facts.bypasses number }
{}

/// In the very step in which a link goes down, each LSP that is reserved on it and is promised bandwidth of a bypass is
/// repaired over that bypass, and is promised the same still (RFC 4090, 4.3 and 6.5).
pub fn promises_are_kept_when_a_link_is_lost()
    ensures { (r : Router) (before after : State) (made : Made) (n : ℕ)
        (key : Key) (resv : ResvFact) (given : Assignment) →
        IsRouter r → IsSound r before → AreSettled r before → AreStanding r before →
        Step r before made after → made.event ≡ events.LinkDown n →
        find key_cmp key before.resvs ≡ Some resv → resv.link ≡ n →
        find key_cmp key before.assignments ≡ Some given →
        (repair : Repair) × (find key_cmp key after.repairs ≡ Some repair) × (repair.bypass ≡ given.bypass)
        × (rate_in repair.resv ≡ given.rate) × (find key_cmp key after.assignments ≡ Some given) }
{}

/// Where no bypass has bandwidth for repairs, none is promised, and each LSP is repaired over the bypass that ends where its
/// head would have it, or else over the first.
pub fn no_capacity_promises_nothing()
    ensures nothing { (r : Router) (s : State) → IsSound r s → HasNoCapacity s → s.assignments ≡ [] }
    ensures selects { (r : Router) (s : State) (key : Key) (path : PathFact) (resv : ResvFact) →
        IsSound r s → HasNoCapacity s →
        selected (around_of r s) key path (find key_cmp key s.assignments) resv
        ≡ (if is_protected (around_of r s) key path
        then option_or (find_first (is_preferred path) (ways_around (around_of r s) resv))
        (find_first (λ choice. true) (ways_around (around_of r s) resv))
        else None) }
{}

/// Nothing is left to be promised, not when the router is opened, and not after any step: what bypasses promise would be the
/// same if it were promised anew. So it is after every run.
pub fn nothing_is_left_to_promise()
    ensures opening { (r : Router) (routes : List (Prefix × ℕ)) (tunnels : List (ℕ × Tunnel))
        (bypasses : List (ℕ × Bypass)) → AreStanding r (opening r routes tunnels bypasses) }
    ensures step { (r : Router) (before after : State) (made : Made) →
        IsRouter r → IsSound r before → AreStanding r before → Step r before made after → AreStanding r after }
    ensures run { (r : Router) (routes : List (Prefix × ℕ)) (tunnels : List (ℕ × Tunnel))
        (bypasses : List (ℕ × Bypass)) (run : List Made) (after : State) →
        IsRouter r → AreRoutes r routes → AreTunnels r tunnels → AreUnchanging tunnels →
        AreBypasses r tunnels bypasses →
        Run r (opening r routes tunnels bypasses) run after → AreStanding r after }
{}

/// How bypasses share out their bandwidth, which RFC 4090, 4.3 leaves open. Promises stand in the order of the LSPs' keys, and
/// within each capacity. Each is in use, or it is what its LSP asks for: its rate, of a bypass that it may be repaired over; and
/// an LSP that asks and is promised none finds no room. As long as an LSP is repaired, it is promised what it was. All others are
/// served in the order of their keys: an LSP that asks and is promised none finds no room beside what came before it, which is
/// what LSPs are promised of the bypass that they were promised before, and what LSPs of lesser keys are promised.
pub fn bandwidth_is_shared_in_turn()
    ensures shares { (r : Router) (s : State) → IsSound r s → AreStanding r s →
        AreShares key_cmp (capacity_in s.facts.bypasses) (in_use_of s) (wishes_of r s) s.assignments }
    ensures in_use { (r : Router) (before after : State) (made : Made) (key : Key) (was now : Repair) →
        IsRouter r → IsSound r before → Step r before made after →
        find key_cmp key before.repairs ≡ Some was → find key_cmp key after.repairs ≡ Some now →
        find key_cmp key after.assignments ≡ find key_cmp key before.assignments }
    ensures in_turn { (r : Router) (before after : State) (made : Made) (key : Key) (wish : Wish) (number : ℕ) →
        IsRouter r → IsSound r before → AreStanding r before → Step r before made after →
        find key_cmp key (wishes_of r after) ≡ Some wish → find key_cmp key after.assignments ≡ None →
        is_candidate wish number ≡ true →
        capacity_in after.facts.bypasses number
        < assigned_of number (filter (came_before before key) after.assignments) + wish.rate }
{}
