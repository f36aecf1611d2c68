//! Tunnels that begin here, and how one is changed: first the new LSP is made, then the old one is given up
//! (make-before-break: RFC 3209, 2.5).

ghost use Rattle.std.specs.FinMap.Entries.{find, is_sorted};
ghost use Rattle.std.specs.Ordering.{nat_cmp};
ghost use Rattle.std.specs.Prelude.{◌≡◌, ◌≢◌, ℕ, List, [], None, Some, T, true};
ghost use Rattle.rsvp_contents.specs.declared.messages.Content.TheVariants as contents;
ghost use Rattle.rsvp_contents.specs.declared.messages.Path.{Path};
ghost use Rattle.rsvp_contents.specs.declared.messages.PathErr.{PathErr};
ghost use Rattle.rsvp_bodies.specs.declared.prefix.Prefix.{Prefix};
ghost use Rattle.lsr_facts.specs.Orders.{key_cmp};
ghost use Rattle.lsr_facts.specs.Routers.{HasLink, IsRouter};
ghost use Rattle.lsr_facts.specs.Tunnels.{current_key, is_head};
ghost use Rattle.lsr_facts.specs.declared.bypass.Bypass.{Bypass};
ghost use Rattle.lsr_facts.specs.declared.path_fact.PathFact.{PathFact};
ghost use Rattle.lsr_facts.specs.declared.refusal.Refusal.TheVariants.{NoMatch};
ghost use Rattle.lsr_facts.specs.declared.reply.Reply.TheVariants as replies;
ghost use Rattle.lsr_facts.specs.declared.router.Router.{Router};
ghost use Rattle.lsr_facts.specs.declared.tunnel.Tunnel.{Tunnel};
ghost use Rattle.lsr_facts.specs.declared.repair.Over.{Over};
ghost use Rattle.lsr_facts.specs.declared.repair.Repair.{Repair};
ghost use Rattle.lsr_facts.specs.declared.resv_fact.ResvFact.{ResvFact};
ghost use Rattle.forwarding_table.specs.declared.action.Action.TheVariants.{PushHead};
ghost use Rattle.lsr_facts.specs.Changes.{switched};
ghost use Rattle.abstract_paths.specs.declared.commands.Command.{Command};
ghost use Rattle.abstract_paths.specs.declared.commands.Command.TheVariants.{DropTunnel};
ghost use Rattle.abstract_paths.specs.declared.events.Event.TheVariants as events;
ghost use Rattle.abstract_paths.specs.declared.events.Made.{Made};
ghost use Rattle.abstract_paths.specs.Heads.{with_noted};
ghost use Rattle.abstract_paths.specs.Outcomes.{lsp};
ghost use Rattle.abstract_paths.specs.Paths.{key_of};
ghost use Rattle.abstract_paths.specs.Places.{is_up};
ghost use Rattle.abstract_paths.specs.Tears.{leaves_by};
ghost use Rattle.abstract_router.specs.BypassTunnels.{bypass_tunnels_of, over_at};
ghost use Rattle.abstract_router.specs.Soundness.{IsSound};
ghost use Rattle.abstract_router.specs.States.{State, with_facts};
ghost use Rattle.abstract_router.specs.Steps.{AreSettled, Run, Step, opening};
ghost use Rattle.abstract_router.specs.Tables.{look_tunnel};
ghost use Rattle.router_soundness.specs.Assigned.{AreStanding};
ghost use Rattle.router_laws.specs.Words.{comes};

/// No LSP that is to take the place of a tunnel's current one is reserved and waits: not when the router is opened, and
/// not after any step, for in the step that reserves it the tunnel goes over to it (RFC 3209, 2.5).
pub fn no_reserved_lsp_waits()
    ensures opening { (r : Router) (routes : List (Prefix × ℕ)) (tunnels : List (ℕ × Tunnel))
        (bypasses : List (ℕ × Bypass)) → AreSettled r (opening r routes tunnels bypasses) }
    ensures step { (r : Router) (before after : State) (made : Made) →
        AreSettled r before → Step r before made after → AreSettled r after }
    ensures run { (r : Router) (routes : List (Prefix × ℕ)) (tunnels : List (ℕ × Tunnel))
        (bypasses : List (ℕ × Bypass)) (run : List Made) (after : State) →
        Run r (opening r routes tunnels bypasses) run after → AreSettled r after }
{}

/// The traffic of a tunnel leaves under the label that the next hop of its current LSP reserved, by the link of that
/// reservation. Where that LSP is repaired, it leaves under the label of the bypass's end, under that of the bypass, by the
/// link that the bypass runs over (RFC 4090, 3.2). Where that LSP is neither, or there is no such tunnel, there is no
/// entry. A change of the tunnel takes no entry away (make-before-break: RFC 3209, 2.5). The tunnel goes over to its new LSP
/// in the very step in which that LSP is reserved: then the entry is that of the new LSP, and the old one goes with its
/// reservation or its repair. Until then the current LSP stays, and its entry with its reservation or its repair: a change
/// that begins or is given up touches neither its path nor its reservation nor its repair nor its entry, and no more does
/// any other command but the one that drops the tunnel.
pub fn tunnels_keep_their_entry()
    ensures entry { (r : Router) (s : State) (number : ℕ) (tunnel : Tunnel) (resv : ResvFact) →
        T (is_sorted nat_cmp s.facts.tunnels) → find nat_cmp number s.facts.tunnels ≡ Some tunnel →
        find key_cmp (current_key r (number, tunnel)) s.resvs ≡ Some resv →
        look_tunnel r s number ≡ Some (PushHead None resv.label resv.link) }
    ensures repaired { (r : Router) (s : State) (number : ℕ) (tunnel : Tunnel) (repair : Repair) →
        IsSound r s → find nat_cmp number s.facts.tunnels ≡ Some tunnel →
        find key_cmp (current_key r (number, tunnel)) s.repairs ≡ Some repair →
        (over : Over) × (over_at (bypass_tunnels_of r s) repair.bypass ≡ Some over)
        × (look_tunnel r s number ≡ Some (PushHead (Some repair.resv.label) over.label over.link)) }
    ensures neither { (r : Router) (s : State) (number : ℕ) (tunnel : Tunnel) →
        T (is_sorted nat_cmp s.facts.tunnels) → find nat_cmp number s.facts.tunnels ≡ Some tunnel →
        find key_cmp (current_key r (number, tunnel)) s.resvs ≡ None →
        find key_cmp (current_key r (number, tunnel)) s.repairs ≡ None →
        look_tunnel r s number ≡ None }
    ensures unknown { (r : Router) (s : State) (number : ℕ) →
        T (is_sorted nat_cmp s.facts.tunnels) → find nat_cmp number s.facts.tunnels ≡ None →
        look_tunnel r s number ≡ None }
    ensures switch { (r : Router) (before after : State) (made : Made) (number : ℕ) (old new : Tunnel) →
        IsSound r before → AreSettled r before → Step r before made after →
        find nat_cmp number before.facts.tunnels ≡ Some old → find nat_cmp number after.facts.tunnels ≡ Some new →
        new.current.id ≢ old.current.id →
        (new ≡ switched old) × (old.pending ≡ Some new.current)
        × ((resv : ResvFact) × (find key_cmp (current_key r (number, new)) after.resvs ≡ Some resv)
        × (look_tunnel r after number ≡ Some (PushHead None resv.label resv.link))) }
    ensures old_goes { (r : Router) (before after : State) (made : Made) (number : ℕ) (old new : Tunnel) →
        IsSound r before → AreSettled r before → Step r before made after →
        find nat_cmp number before.facts.tunnels ≡ Some old → find nat_cmp number after.facts.tunnels ≡ Some new →
        new.current.id ≢ old.current.id →
        (find key_cmp (current_key r (number, old)) after.facts.paths ≡ None)
        × (find key_cmp (current_key r (number, old)) after.resvs ≡ None)
        × (find key_cmp (current_key r (number, old)) after.repairs ≡ None) }
    ensures kept { (r : Router) (before after : State) (made : Made) (number : ℕ) (old new : Tunnel) →
        IsSound r before → AreSettled r before → Step r before made after →
        find nat_cmp number before.facts.tunnels ≡ Some old → find nat_cmp number after.facts.tunnels ≡ Some new →
        new.current.id ≡ old.current.id →
        (new.current ≡ old.current) × (current_key r (number, new) ≡ current_key r (number, old)) }
    ensures kept_entry { (r : Router) (before after : State) (made : Made) (number : ℕ)
        (old new : Tunnel) (resv : ResvFact) →
        IsSound r before → AreSettled r before → Step r before made after →
        find nat_cmp number before.facts.tunnels ≡ Some old → find nat_cmp number after.facts.tunnels ≡ Some new →
        new.current.id ≡ old.current.id → find key_cmp (current_key r (number, old)) after.resvs ≡ Some resv →
        look_tunnel r after number ≡ Some (PushHead None resv.label resv.link) }
    ensures kept_repaired { (r : Router) (before after : State) (made : Made) (number : ℕ)
        (old new : Tunnel) (repair : Repair) →
        IsRouter r → IsSound r before → AreSettled r before → Step r before made after →
        find nat_cmp number before.facts.tunnels ≡ Some old → find nat_cmp number after.facts.tunnels ≡ Some new →
        new.current.id ≡ old.current.id → find key_cmp (current_key r (number, old)) after.repairs ≡ Some repair →
        (over : Over) × (over_at (bypass_tunnels_of r after) repair.bypass ≡ Some over)
        × (look_tunnel r after number ≡ Some (PushHead (Some repair.resv.label) over.label over.link)) }
    ensures change { (r : Router) (before after : State) (made : Made) (command : Command)
        (number : ℕ) (tunnel : Tunnel) →
        IsSound r before → AreSettled r before → Step r before made after → made.event ≡ events.Command command →
        command ≢ DropTunnel number → find nat_cmp number before.facts.tunnels ≡ Some tunnel →
        (find key_cmp (current_key r (number, tunnel)) after.facts.paths
        ≡ find key_cmp (current_key r (number, tunnel)) before.facts.paths)
        × (find key_cmp (current_key r (number, tunnel)) after.resvs
        ≡ find key_cmp (current_key r (number, tunnel)) before.resvs)
        × (find key_cmp (current_key r (number, tunnel)) after.repairs
        ≡ find key_cmp (current_key r (number, tunnel)) before.repairs) }
    ensures change_entry { (r : Router) (before after : State) (made : Made) (command : Command) (number : ℕ) →
        IsSound r before → AreSettled r before → Step r before made after → made.event ≡ events.Command command →
        command ≢ DropTunnel number →
        look_tunnel r after number ≡ look_tunnel r before number }
{}

/// A Path for an LSP of a tunnel that begins here is refused, and changes nothing: no neighbour takes such an LSP over.
pub fn a_path_for_a_heads_key_is_refused()
    ensures { (r : Router) (before after : State) (made : Made) (link : ℕ) (p : Path) →
        HasLink r link → is_up before.facts.up link ≡ true → is_head r before.facts.tunnels (key_of p) ≡ true →
        Step r before made after → made.event ≡ comes link (contents.Path p) →
        (made.reply ≡ replies.Refused NoMatch) × (made.outputs ≡ []) × (after ≡ before) }
{}

/// A PathErr for an LSP of a tunnel that begins here, over the link that the LSP leaves by, has come to its end:
/// nothing is sent for it. Who found the error, its code and its value are noted of the tunnel, and nothing else
/// changes (RFC 2205, 3.1.7 and A.5): no LSP goes for it, and no change is given up.
pub fn errors_at_the_head_are_noted()
    ensures { (r : Router) (before after : State) (made : Made) (link : ℕ) (e : PathErr) (fact : PathFact) →
        IsSound r before → AreSettled r before → AreStanding r before → is_up before.facts.up link ≡ true →
        find key_cmp (lsp e.session e.sender) before.facts.paths ≡ Some fact → leaves_by link fact ≡ true →
        is_head r before.facts.tunnels (lsp e.session e.sender) ≡ true →
        Step r before made after → made.event ≡ comes link (contents.PathErr e) →
        (made.reply ≡ replies.Done) × (made.outputs ≡ [])
        × (after ≡ with_facts (with_noted e.error e.session.tunnel before.facts) before)
        × ((tunnel : Tunnel) × (find nat_cmp e.session.tunnel after.facts.tunnels ≡ Some tunnel)
        × (tunnel.noted ≡ Some (record { node = e.error.node; code = e.error.code; value = e.error.value }))) }
{}
