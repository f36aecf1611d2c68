//! What a router tells its neighbours of labels.

ghost use Rattle.std.specs.Prelude.{◌≡◌, All, None, true};
ghost use Rattle.lsr_facts.specs.Routers.{IsRouter};
ghost use Rattle.lsr_facts.specs.declared.router.Router.{Router};
ghost use Rattle.abstract_paths.specs.declared.events.Made.{Made};
ghost use Rattle.abstract_router.specs.Soundness.{IsSound};
ghost use Rattle.abstract_router.specs.States.{State};
ghost use Rattle.abstract_router.specs.Steps.{Step};
ghost use Rattle.router_laws.specs.Sending.{content_of, says};
ghost use Rattle.label_laws.specs.Said.{IsPassedOn, SaysWhatIsHeld, is_resv};

/// Each Resv that a step sends of itself is for one LSP that is known after it, comes from an address of this router, and gives
/// the label that the LSP holds here then. Its record, where it has one, begins with this router's own entries; what
/// follows them came to this router in the record of the reservation that the LSP has, or that its repair keeps.
pub fn each_resv_says_what_is_held()
    ensures { (r : Router) (before after : State) (made : Made) →
        IsRouter r → IsSound r before → Step r before made after →
        All (λ output. says is_resv output ≡ true → SaysWhatIsHeld r after output) made.outputs }
{}

/// What a step sends that this router doesn't say itself is the message for another router that came in the step, unread, its
/// limit one less.
pub fn what_is_passed_on_is_what_came()
    ensures { (r : Router) (before after : State) (made : Made) →
        Step r before made after →
        All (λ output. content_of output.frame ≡ None → IsPassedOn made.event output) made.outputs }
{}
