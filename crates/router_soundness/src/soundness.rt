//! What holds of every state that a label switching router comes to, whatever comes. Each law is the contract of a
//! function that does nothing.

ghost use Rattle.std.specs.Prelude.{List, ℕ};
ghost use Rattle.rsvp_bodies.specs.declared.prefix.Prefix.{Prefix};
ghost use Rattle.lsr_facts.specs.Bypasses.{AreBypasses};
ghost use Rattle.lsr_facts.specs.Routers.{AreRoutes, IsRouter};
ghost use Rattle.lsr_facts.specs.Tunnels.{AreTunnels, AreUnchanging};
ghost use Rattle.lsr_facts.specs.declared.bypass.Bypass.{Bypass};
ghost use Rattle.lsr_facts.specs.declared.router.Router.{Router};
ghost use Rattle.lsr_facts.specs.declared.tunnel.Tunnel.{Tunnel};
ghost use Rattle.abstract_paths.specs.declared.events.Made.{Made};
ghost use Rattle.abstract_router.specs.Soundness.{IsSound};
ghost use Rattle.abstract_router.specs.States.{State};
ghost use Rattle.abstract_router.specs.Steps.{opening, Run, Step};

/// Whatever events come, and whichever free labels are chosen, every state that a router comes to from its opening, where
/// no tunnel is being changed, is sound.
pub fn every_run_stays_sound()
    ensures opening { (r : Router) (routes : List (Prefix × ℕ)) (tunnels : List (ℕ × Tunnel))
        (bypasses : List (ℕ × Bypass)) →
        IsRouter r → AreRoutes r routes → AreTunnels r tunnels → AreUnchanging tunnels →
        AreBypasses r tunnels bypasses →
        IsSound r (opening r routes tunnels bypasses) }
    ensures step { (r : Router) (before : State) (made : Made) (after : State) →
        IsRouter r → IsSound r before → Step r before made after → IsSound r after }
    ensures run { (r : Router) (routes : List (Prefix × ℕ)) (tunnels : List (ℕ × Tunnel))
        (bypasses : List (ℕ × Bypass)) (run : List Made) (after : State) →
        IsRouter r → AreRoutes r routes → AreTunnels r tunnels → AreUnchanging tunnels →
        AreBypasses r tunnels bypasses →
        Run r (opening r routes tunnels bypasses) run after → IsSound r after }
{}
