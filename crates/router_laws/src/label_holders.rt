//! Which LSP holds which label, and which label a new one gets.

ghost use Rattle.std.specs.Prelude.{◌≡◌, ◌≢◌, ◌≤◌, ℕ, None, Some, false};
ghost use Rattle.std.specs.FinMap.Entries.{find};
ghost use Rattle.std.specs.Ordering.{nat_cmp};
ghost use Rattle.lsr_facts.specs.Lifetimes.{begins_here};
ghost use Rattle.lsr_facts.specs.Orders.{key_cmp};
ghost use Rattle.lsr_facts.specs.Routers.{IsRouter};
ghost use Rattle.lsr_facts.specs.declared.key.Key.{Key};
ghost use Rattle.lsr_facts.specs.declared.path_fact.PathFact.{PathFact};
ghost use Rattle.lsr_facts.specs.declared.router.Router.{Router};
ghost use Rattle.label_space.specs.FreeLabels.{is_held};
ghost use Rattle.abstract_paths.specs.declared.events.Made.{Made};
ghost use Rattle.abstract_router.specs.Soundness.{IsSound};
ghost use Rattle.abstract_router.specs.States.{State};
ghost use Rattle.abstract_router.specs.Steps.{Step};

/// An LSP keeps its label for as long as its path stands and doesn't begin here, whatever comes (RFC 3209, 4.1.1): the
/// neighbour before this router may go on sending it.
pub fn labels_stay_while_their_paths_do()
    ensures { (r : Router) (before after : State) (made : Made) (key : Key) (label : ℕ) (path : PathFact) →
        IsRouter r → IsSound r before → Step r before made after → find key_cmp key before.labels ≡ Some label →
        find key_cmp key after.facts.paths ≡ Some path → begins_here path.role ≡ false →
        find key_cmp key after.labels ≡ Some label }
{}

/// A label that an LSP hasn't before a step, and has after it, is of the router's range, and was free before: no LSP held
/// it, and it didn't rest (RFC 3031, 3.1 and 3.14).
pub fn new_labels_were_free()
    ensures { (r : Router) (before after : State) (made : Made) (key : Key) (label : ℕ) →
        IsRouter r → IsSound r before → Step r before made after →
        find key_cmp key before.labels ≢ Some label → find key_cmp key after.labels ≡ Some label →
        (r.labels.first ≤ label) × (label ≤ r.labels.last)
        × (is_held before.labels label ≡ false) × (find nat_cmp label before.resting ≡ None) }
{}

/// Each LSP that doesn't begin here holds a label, one that begins here or isn't known holds none, and no label is held by
/// two (RFC 3031, 3.1 and 3.14).
pub fn each_lsp_holds_a_label_of_its_own()
    ensures holds { (r : Router) (s : State) (key : Key) (path : PathFact) → IsSound r s →
        find key_cmp key s.facts.paths ≡ Some path → begins_here path.role ≡ false →
        (label : ℕ) × (find key_cmp key s.labels ≡ Some label) }
    ensures only { (r : Router) (s : State) (key : Key) (label : ℕ) → IsSound r s →
        find key_cmp key s.labels ≡ Some label →
        (path : PathFact) × (find key_cmp key s.facts.paths ≡ Some path) × (begins_here path.role ≡ false) }
    ensures own { (r : Router) (s : State) (one other : Key) (label : ℕ) → IsSound r s →
        find key_cmp one s.labels ≡ Some label → find key_cmp other s.labels ≡ Some label → one ≡ other }
{}
