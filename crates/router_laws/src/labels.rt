//! How labels go from one LSP to another.

ghost use Rattle.std.specs.Prelude.{◌≡◌, ◌∷◌, ◌+◌, ◌≤◌, ℕ, List, false, true};
ghost use Rattle.std.specs.List.{AllByRecursion};
ghost use Rattle.lsr_facts.specs.Routers.{IsRouter};
ghost use Rattle.lsr_facts.specs.declared.router.Router.{Router};
ghost use Rattle.label_space.specs.FreeLabels.{is_held};
ghost use Rattle.abstract_paths.specs.declared.events.Made.{Made};
ghost use Rattle.abstract_router.specs.Soundness.{IsSound};
ghost use Rattle.abstract_router.specs.States.{State};
ghost use Rattle.abstract_router.specs.Steps.{Run, Step};
ghost use Rattle.router_laws.specs.Words.{IsNoRestart};

/// A label that an LSP lost rests before another is given it, for as long as the router has labels rest: a neighbour
/// that still sends it doesn't reach the other LSP in the meantime. One that no LSP holds from a step on is given again at
/// a moment that is later than that step's by the rest or more, whatever happens between the two, as long as the router
/// isn't restarted.
pub fn labels_rest()
    ensures { (r : Router) (before lost last after : State) (freeing giving : Made) (run : List Made) (label : ℕ) →
        IsRouter r → IsSound r before →
        Step r before freeing lost → Run r lost run last → Step r last giving after →
        AllByRecursion IsNoRestart (freeing ∷ run) →
        is_held before.labels label ≡ true → is_held lost.labels label ≡ false →
        is_held last.labels label ≡ false → is_held after.labels label ≡ true →
        lost.facts.moment + r.label_rest_ms ≤ last.facts.moment }
{}
