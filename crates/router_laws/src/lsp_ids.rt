//! How LSP IDs are given to the LSPs of tunnels that begin here. The law is the contract of a function that does nothing.

ghost use Rattle.std.specs.Prelude.{◌≡◌, ◌<◌, ℕ, List, Some};
ghost use Rattle.std.specs.FinMap.Entries.{find};
ghost use Rattle.std.specs.List.{AllByRecursion};
ghost use Rattle.std.specs.Ordering.{nat_cmp};
ghost use Rattle.lsr_facts.specs.declared.key.Key.{Key};
ghost use Rattle.lsr_facts.specs.declared.router.Router.{Router};
ghost use Rattle.lsr_facts.specs.declared.tunnel.Tunnel.{Tunnel};
ghost use Rattle.abstract_paths.specs.declared.events.Made.{Made};
ghost use Rattle.abstract_router.specs.Soundness.{IsSound};
ghost use Rattle.abstract_router.specs.States.{State};
ghost use Rattle.abstract_router.specs.Steps.{Run, Step};
ghost use Rattle.router_laws.specs.LspIds.{Begins, IsNoDrop};

/// LSP IDs are given once (RFC 3209, 4.6.2.1). Of two LSPs of a tunnel that are begun one after the other, whatever happens
/// between them, the later one has the greater LSP ID, as long as the tunnel isn't dropped; and it is greater than that of
/// the LSP which carried the tunnel's traffic at any time before, as a configured tunnel's first one.
pub fn lsp_ids_are_given_once()
    ensures once { (r : Router) (before begun last after : State) (one other : Made) (run : List Made)
        (first second : Key) →
        Step r before one begun → Begins r before one first →
        Run r begun run last → AllByRecursion (IsNoDrop first.session.tunnel) run →
        Step r last other after → Begins r last other second → second.session.tunnel ≡ first.session.tunnel →
        first.sender.lsp < second.sender.lsp }
    ensures current { (r : Router) (before last after : State) (other : Made) (run : List Made)
        (number : ℕ) (tunnel : Tunnel) (key : Key) →
        IsSound r before → find nat_cmp number before.facts.tunnels ≡ Some tunnel →
        Run r before run last → AllByRecursion (IsNoDrop number) run →
        Step r last other after → Begins r last other key → key.session.tunnel ≡ number →
        tunnel.current.id < key.sender.lsp }
{}
