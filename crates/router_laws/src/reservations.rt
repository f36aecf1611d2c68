//! What becomes of reservations, step by step. Each law is the contract of a function that does nothing.

ghost use Rattle.std.specs.FinMap.Entries.{find, is_sorted};
ghost use Rattle.std.specs.List.{AllByRecursion};
ghost use Rattle.std.specs.Option.{option_and_then};
ghost use Rattle.std.specs.Ordering.{nat_cmp};
ghost use Rattle.std.specs.Prelude.{◌≡◌, ◌≢◌, ◌*◌, ◌≤◌, ◌++◌, ◌∷◌, ℕ, All, List, [], Some, T, false, length, true};
ghost use Rattle.rsvp_contents.specs.declared.messages.Content.TheVariants as contents;
ghost use Rattle.rsvp_contents.specs.declared.messages.Resv.{Resv};
ghost use Rattle.rsvp_contents.specs.declared.descriptors.FlowDescriptor.{FlowDescriptor};
ghost use Rattle.lsr_facts.specs.Lifetimes.{lives_on};
ghost use Rattle.lsr_facts.specs.Orders.{key_cmp};
ghost use Rattle.lsr_facts.specs.Tunnels.{current_key};
ghost use Rattle.lsr_facts.specs.declared.bypass.Bypass.{Bypass};
ghost use Rattle.lsr_facts.specs.declared.path_fact.PathFact.{PathFact};
ghost use Rattle.lsr_facts.specs.Reservations.{resv_lives_past, style_of};
ghost use Rattle.lsr_facts.specs.Upstreams.{upstream_cmp};
ghost use Rattle.lsr_facts.specs.declared.repair.Over.{Over};
ghost use Rattle.lsr_facts.specs.declared.repair.Repair.{Repair};
ghost use Rattle.lsr_facts.specs.declared.resv_fact.ResvFact.{ResvFact};
ghost use Rattle.lsr_facts.specs.declared.resv_fact.ResvStyle.{ResvStyle};
ghost use Rattle.router_soundness.specs.Assigned.{AreStanding};
ghost use Rattle.router_laws.specs.TouchedBy.{touched_by};
ghost use Rattle.router_laws.specs.Verdicts.{verdict_after};
ghost use Rattle.router_laws.specs.Words.{where_up};
ghost use Rattle.abstract_router.specs.BypassTunnels.{bypass_tunnels_of, over_at};
ghost use Rattle.abstract_router.specs.Reserving.{Granted, key_in, resv_by};
ghost use Rattle.lsr_facts.specs.declared.key.Key.{Key};
ghost use Rattle.lsr_facts.specs.declared.reply.Reply.TheVariants as replies;
ghost use Rattle.lsr_facts.specs.declared.router.Router.{Router};
ghost use Rattle.lsr_facts.specs.declared.tunnel.Tunnel.{Tunnel};
ghost use Rattle.abstract_paths.specs.Arrivals.{comes};
ghost use Rattle.abstract_paths.specs.declared.ways.Arrive.{Arrive};
ghost use Rattle.abstract_paths.specs.declared.events.Event.TheVariants as events;
ghost use Rattle.abstract_paths.specs.declared.events.Made.{Made};
ghost use Rattle.abstract_router.specs.Soundness.{IsSound};
ghost use Rattle.abstract_router.specs.States.{State, is_one_of};
ghost use Rattle.abstract_router.specs.Steps.{AreSettled, Step};
ghost use Rattle.abstract_router.specs.Upstreams.{upstream_of};

/// A moment takes no reservation that was refreshed in time: where its expiry is above the moment, and its path lives
/// on, it stands as it was. Nor does it take such a repair, where the bypass is up after it.
pub fn refreshed_reservations_stay()
    ensures resvs { (r : Router) (before after : State) (made : Made) (n : ℕ) (key : Key) (resv : ResvFact) (path : PathFact) →
        IsSound r before → AreSettled r before →
        Step r before made after → made.event ≡ events.Tick n → made.reply ≡ replies.Done →
        find key_cmp key before.resvs ≡ Some resv → resv_lives_past n resv ≡ true →
        find key_cmp key before.facts.paths ≡ Some path → lives_on n (key, path) ≡ true →
        find key_cmp key after.resvs ≡ Some resv }
    ensures repairs { (r : Router) (before after : State) (made : Made) (n : ℕ) (key : Key) (repair : Repair) (path : PathFact)
        (over : Over) →
        IsSound r before → AreSettled r before →
        Step r before made after → made.event ≡ events.Tick n → made.reply ≡ replies.Done →
        find key_cmp key before.repairs ≡ Some repair → resv_lives_past n repair.resv ≡ true →
        find key_cmp key before.facts.paths ≡ Some path → lives_on n (key, path) ≡ true →
        over_at (bypass_tunnels_of r after) repair.bypass ≡ Some over →
        find key_cmp key after.repairs ≡ Some repair }
{}

/// A descriptor of a neighbour's Resv that is in error, or passed over, changes nothing that is known: an old reservation of
/// its LSP stays as it was, and so do all others (RFC 2205, 3.1.8). So a Resv of which no descriptor is granted leaves all as
/// it was; and where one of several isn't granted, by what those in front of it have led to, all is as it would be if the Resv
/// had come without it.
pub fn refused_descriptors_change_nothing()
    ensures all { (r : Router) (before after : State) (made : Made) (link : ℕ) (v : Resv) (style : ResvStyle) →
        IsSound r before → AreSettled r before → AreStanding r before →
        Step r before made after → made.event ≡ comes link (contents.Resv v) → style_of v.style ≡ Some style →
        AllByRecursion (λ d. verdict_after r before link style v [] d ≢ Granted) v.descriptors →
        after ≡ before }
    ensures one { (r : Router) (before after without : State) (made other : Made) (link : ℕ) (v : Resv)
        (style : ResvStyle) (front back : List FlowDescriptor) (d : FlowDescriptor) →
        IsSound r before → AreSettled r before → AreStanding r before → style_of v.style ≡ Some style →
        v.descriptors ≡ front ++ d ∷ back → verdict_after r before link style v front d ≢ Granted →
        Step r before made after → made.event ≡ comes link (contents.Resv v) →
        Step r before other without →
        other.event ≡ comes link (contents.Resv (record v { descriptors = front ++ back })) →
        after ≡ without }
{}

/// In a step of a message every LSP but those that the message touches has the path, the reservation and the label that
/// it had, and is repaired as it was where its bypass is up still. The same links are up, and a bypass runs over what it
/// ran over, unless the message touches the current LSP of its tunnel. A Path or a PathTear touches its own LSP; a Resv
/// those of the descriptors that are granted, those that give way to them, and those that tunnels give up whose new LSPs it
/// reserves; a ResvTear those of its filters; a PathErr or a ResvErr none. Of those that come through a stack of labels a
/// Path touches the LSP of the one path that it may join, and a PathTear that of the path that it came through (RFC 4090,
/// 7.1). Of those that come in Routed frames a Resv touches the LSPs whose repairs it renews, and a ResvTear those whose
/// repairs it takes away.
pub fn a_message_touches_its_own_lsps()
    ensures others { (r : Router) (before after : State) (made : Made) (arrived : Arrive) (key : Key) →
        IsSound r before → Step r before made after → made.event ≡ events.Arrive arrived →
        is_one_of (touched_by r before arrived) key ≡ false →
        (find key_cmp key after.facts.paths ≡ find key_cmp key before.facts.paths)
        × (find key_cmp key after.resvs ≡ find key_cmp key before.resvs)
        × (find key_cmp key after.labels ≡ find key_cmp key before.labels)
        × (find key_cmp key after.repairs ≡ option_and_then (where_up r after) (find key_cmp key before.repairs)) }
    ensures links { (r : Router) (before after : State) (made : Made) (arrived : Arrive) →
        IsSound r before → Step r before made after → made.event ≡ events.Arrive arrived →
        after.facts.up ≡ before.facts.up }
    ensures bypasses { (r : Router) (before after : State) (made : Made) (arrived : Arrive)
        (number : ℕ) (bypass : Bypass) (tunnel : Tunnel) →
        IsSound r before → Step r before made after → made.event ≡ events.Arrive arrived →
        find nat_cmp number before.facts.bypasses ≡ Some bypass →
        find nat_cmp bypass.tunnel before.facts.tunnels ≡ Some tunnel →
        is_one_of (touched_by r before arrived) (current_key r (bypass.tunnel, tunnel)) ≡ false →
        over_at (bypass_tunnels_of r after) number ≡ over_at (bypass_tunnels_of r before) number }
{}

/// A Resv that asks for just what is reserved changes nothing, and nothing is sent for it: so one that comes once more
/// at the same moment, while each of its LSPs has the very reservation that it asks for.
pub fn repeated_reservations_are_silent()
    ensures { (r : Router) (before after : State) (made : Made) (link : ℕ) (v : Resv) (style : ResvStyle) →
        IsSound r before → AreSettled r before → AreStanding r before → Step r before made after →
        made.event ≡ comes link (contents.Resv v) →
        style_of v.style ≡ Some style →
        All (λ d. find key_cmp (key_in v d) before.resvs ≡ Some (resv_by before.facts.moment link style v d))
        v.descriptors →
        (after ≡ before) × (made.outputs ≡ []) }
{}

/// The Resvs that a sound state wants upstream stand in order, and there are at most four of them for each path.
pub fn wanted_resvs_stand_in_order()
    ensures in_order { (r : Router) (s : State) → IsSound r s → T (is_sorted upstream_cmp (upstream_of r s)) }
    ensures few { (r : Router) (s : State) → IsSound r s → length (upstream_of r s) ≤ 4 * length s.facts.paths }
{}
