//! Where the bypasses of repaired LSPs end.

ghost use Rattle.std.specs.Prelude.{◌≡◌, Some};
ghost use Rattle.std.specs.FinMap.Entries.{find};
ghost use Rattle.std.specs.Ordering.{nat_cmp};
ghost use Rattle.lsr_facts.specs.Orders.{key_cmp};
ghost use Rattle.lsr_facts.specs.Routers.{IsRouter};
ghost use Rattle.lsr_facts.specs.declared.key.Key.{Key};
ghost use Rattle.lsr_facts.specs.declared.repair.BypassTunnel.{BypassTunnel};
ghost use Rattle.lsr_facts.specs.declared.repair.Repair.{Repair};
ghost use Rattle.lsr_facts.specs.declared.router.Router.{Router};
ghost use Rattle.abstract_paths.specs.declared.events.Made.{Made};
ghost use Rattle.abstract_router.specs.BypassTunnels.{bypass_tunnels_of};
ghost use Rattle.abstract_router.specs.Soundness.{IsSound};
ghost use Rattle.abstract_router.specs.States.{State};
ghost use Rattle.abstract_router.specs.Steps.{AreSettled, Step};

/// An LSP that is repaired before a step and after it runs over the same bypass, which protects it at the same link and ends
/// at the same router: also where a Resv renews the repair, or the bypass's tunnel goes over to a new LSP.
pub fn repairs_keep_their_end()
    ensures { (r : Router) (before after : State) (made : Made) (key : Key) (old new : Repair) →
        IsRouter r → IsSound r before → AreSettled r before → Step r before made after →
        find key_cmp key before.repairs ≡ Some old → find key_cmp key after.repairs ≡ Some new →
        (new.bypass ≡ old.bypass) × (new.resv.link ≡ old.resv.link)
        × ((was : BypassTunnel) × (now : BypassTunnel)
        × (find nat_cmp old.bypass (bypass_tunnels_of r before) ≡ Some was)
        × (find nat_cmp new.bypass (bypass_tunnels_of r after) ≡ Some now) × (now.ends_at ≡ was.ends_at)) }
{}
