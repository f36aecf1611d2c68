//! Where the reservations, the repairs and the labels of a state come from.

ghost use Rattle.std.specs.Prelude.{◌≡◌, ◌⊎◌, ℕ, Some};
ghost use Rattle.std.specs.FinMap.Entries.{find};
ghost use Rattle.lsr_facts.specs.Orders.{key_cmp};
ghost use Rattle.lsr_facts.specs.Routers.{IsRouter};
ghost use Rattle.lsr_facts.specs.declared.key.Key.{Key};
ghost use Rattle.lsr_facts.specs.declared.repair.Repair.{Repair};
ghost use Rattle.lsr_facts.specs.declared.resv_fact.ResvFact.{ResvFact};
ghost use Rattle.lsr_facts.specs.declared.router.Router.{Router};
ghost use Rattle.abstract_paths.specs.declared.events.Made.{Made};
ghost use Rattle.abstract_router.specs.Soundness.{IsSound};
ghost use Rattle.abstract_router.specs.States.{State};
ghost use Rattle.abstract_router.specs.Steps.{Step};
ghost use Rattle.label_laws.specs.Held.{IsAskedFor, IsMadeOf, IsRenewed};

/// Each reservation after a step is one of before it, or just what a descriptor of a neighbour's Resv asks for that came
/// in the step (RFC 2205, 3.1.4).
pub fn each_reservation_was_asked_for()
    ensures { (r : Router) (before after : State) (made : Made) (key : Key) (resv : ResvFact) →
        IsSound r before → Step r before made after → find key_cmp key after.resvs ≡ Some resv →
        (find key_cmp key before.resvs ≡ Some resv) ⊎ IsAskedFor before made.event key resv }
{}

/// Each repair after a step is one of before it; or it was made in the step of a reservation of before it, with a label that
/// the bypass's end takes (RFC 4090, 6.4.1); or it was renewed by a Resv from the bypass's end that came in the step
/// (RFC 4090, 6.4.3).
pub fn each_repair_was_made_or_renewed()
    ensures { (r : Router) (before after : State) (made : Made) (key : Key) (repair : Repair) →
        IsRouter r → IsSound r before → Step r before made after → find key_cmp key after.repairs ≡ Some repair →
        (find key_cmp key before.repairs ≡ Some repair)
        ⊎ (IsMadeOf r before after key repair ⊎ IsRenewed r before made.event key repair) }
{}

/// Each label that an LSP has after a step is the one that it had before, or the one that the step chose for it.
pub fn each_label_was_held_or_chosen()
    ensures { (r : Router) (before after : State) (made : Made) (key : Key) (label : ℕ) →
        IsRouter r → IsSound r before → Step r before made after → find key_cmp key after.labels ≡ Some label →
        (find key_cmp key before.labels ≡ Some label) ⊎ (find key_cmp key made.labels ≡ Some label) }
{}
