//! Which bypass an LSP is repaired over.

ghost use Rattle.std.specs.Prelude.{◌≡◌, ◌↔◌, ◌≤◌, None, Some, false, true};
ghost use Rattle.lsr_facts.specs.declared.key.Key.{Key};
ghost use Rattle.lsr_facts.specs.declared.path_fact.PathFact.{PathFact};
ghost use Rattle.lsr_facts.specs.declared.repair.Selected.{Selected};
ghost use Rattle.lsr_facts.specs.declared.resv_fact.ResvFact.{ResvFact};
ghost use Rattle.lsr_facts.specs.declared.router.Router.{Router};
ghost use Rattle.abstract_router.specs.Protecting.{wants_node_protection};
ghost use Rattle.abstract_router.specs.Soundness.{IsSound};
ghost use Rattle.abstract_router.specs.States.{State};
ghost use Rattle.router_laws.specs.Serving.{IsProtected, MayServe, chosen_for};

/// The bypass that is chosen for an LSP is the best of those that may serve it (RFC 4090, 6.4.2). One is chosen exactly
/// where the LSP is protected and some may serve it, and then it is one of them. Where the head wants the next router
/// protected (RFC 4090, 4.3), it ends at a later router if any of them does, and else at the next one if any does; and of
/// those that are alike in this, none has a lesser number.
pub fn the_best_bypass_is_chosen()
    ensures may { (r : Router) (s : State) (key : Key) (path : PathFact) (resv : ResvFact) (choice : Selected) →
        IsSound r s → chosen_for r s key path resv ≡ Some choice →
        IsProtected r s key path × MayServe r s key resv choice }
    ensures some { (r : Router) (s : State) (key : Key) (path : PathFact) (resv : ResvFact) (other : Selected) →
        IsSound r s → IsProtected r s key path → MayServe r s key resv other →
        (choice : Selected) × (chosen_for r s key path resv ≡ Some choice) }
    ensures preferred { (r : Router) (s : State) (key : Key) (path : PathFact) (resv : ResvFact)
        (choice other : Selected) →
        IsSound r s → chosen_for r s key path resv ≡ Some choice → MayServe r s key resv other →
        other.is_nnhop ≡ wants_node_protection path → choice.is_nnhop ≡ wants_node_protection path }
    ensures least { (r : Router) (s : State) (key : Key) (path : PathFact) (resv : ResvFact)
        (choice other : Selected) →
        IsSound r s → chosen_for r s key path resv ≡ Some choice → MayServe r s key resv other →
        other.is_nnhop ≡ choice.is_nnhop → choice.bypass ≤ other.bypass }
{}
