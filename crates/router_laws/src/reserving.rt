//! What a Resv reserves (RFC 2205, 3.1.4). The law is the contract of a function that does nothing.

ghost use Rattle.std.specs.Prelude.{◌≡◌, ◌⊎◌, ◌∷◌, ℕ, [], Some, false, true};
ghost use Rattle.std.specs.FinMap.Entries.{find};
ghost use Rattle.std.specs.List.{Contains};
ghost use Rattle.rsvp_contents.specs.declared.descriptors.FlowDescriptor.{FlowDescriptor};
ghost use Rattle.rsvp_contents.specs.declared.messages.Content.TheVariants as contents;
ghost use Rattle.rsvp_contents.specs.declared.messages.Resv.{Resv};
ghost use Rattle.lsr_facts.specs.Orders.{key_cmp};
ghost use Rattle.lsr_facts.specs.Reservations.{style_of};
ghost use Rattle.lsr_facts.specs.declared.path_fact.PathFact.{PathFact};
ghost use Rattle.lsr_facts.specs.declared.reply.Reply.TheVariants as replies;
ghost use Rattle.lsr_facts.specs.declared.resv_fact.ResvFact.{ResvFact};
ghost use Rattle.lsr_facts.specs.declared.resv_fact.ResvStyle.{ResvStyle};
ghost use Rattle.lsr_facts.specs.declared.router.Router.{Router};
ghost use Rattle.abstract_paths.specs.declared.events.Made.{Made};
ghost use Rattle.abstract_paths.specs.declared.events.Output.{Output};
ghost use Rattle.abstract_paths.specs.Paths.{has_loop};
ghost use Rattle.abstract_paths.specs.Tears.{leaves_by};
ghost use Rattle.abstract_router.specs.Preempting.{told_preempted};
ghost use Rattle.abstract_router.specs.Reserving.{key_in, resv_by};
ghost use Rattle.abstract_router.specs.Soundness.{IsSound};
ghost use Rattle.abstract_router.specs.States.{State, is_repaired};
ghost use Rattle.abstract_router.specs.Steps.{AreSettled, Step};
ghost use Rattle.router_laws.specs.Errors.{IsAskedBy};
ghost use Rattle.router_laws.specs.Words.{comes};

/// A Resv that is done reserves (RFC 2205, 3.1.4): where it has one descriptor, the path of its LSP stays, and the LSP has just
/// the reservation that it asks for, on the link that it came over, until the lifetime of its refresh period is over. Where it
/// has several, this holds of one of them. And each counts whose LSP isn't repaired and has a path that leaves by that link and
/// stays, if its record doesn't name this router: the LSP has a reservation that the Resv asks for, or it gave way to another
/// descriptor, and its next hop is told so.
pub fn a_resv_that_is_done_reserves()
    ensures one { (r : Router) (before after : State) (made : Made) (link : ℕ) (v : Resv) (d : FlowDescriptor)
        (style : ResvStyle) →
        IsSound r before → AreSettled r before →
        Step r before made after → made.event ≡ comes link (contents.Resv v) →
        v.descriptors ≡ d ∷ [] → style_of v.style ≡ Some style → made.reply ≡ replies.Done →
        (find key_cmp (key_in v d) after.facts.paths ≡ find key_cmp (key_in v d) before.facts.paths)
        × (find key_cmp (key_in v d) after.resvs ≡ Some (resv_by before.facts.moment link style v d)) }
    ensures some { (r : Router) (before after : State) (made : Made) (link : ℕ) (v : Resv) (style : ResvStyle) →
        IsSound r before → AreSettled r before →
        Step r before made after → made.event ≡ comes link (contents.Resv v) →
        style_of v.style ≡ Some style → made.reply ≡ replies.Done →
        (d : FlowDescriptor) × Contains v.descriptors d
        × (find key_cmp (key_in v d) after.facts.paths ≡ find key_cmp (key_in v d) before.facts.paths)
        × (find key_cmp (key_in v d) after.resvs ≡ Some (resv_by before.facts.moment link style v d)) }
    ensures each { (r : Router) (before after : State) (made : Made) (link : ℕ) (v : Resv) (d : FlowDescriptor)
        (path : PathFact) →
        IsSound r before → Step r before made after → made.event ≡ comes link (contents.Resv v) →
        made.reply ≡ replies.Done → Contains v.descriptors d →
        find key_cmp (key_in v d) before.facts.paths ≡ Some path →
        find key_cmp (key_in v d) after.facts.paths ≡ Some path →
        leaves_by link path ≡ true → is_repaired before (key_in v d) ≡ false → has_loop r d.recorded ≡ false →
        ((resv : ResvFact) × IsAskedBy before link v (key_in v d) resv
        × (find key_cmp (key_in v d) after.resvs ≡ Some resv))
        ⊎ ((lost : ResvFact) × (output : Output) × IsAskedBy before link v (key_in v d) lost
        × (told_preempted r (key_in v d) lost ≡ Some output) × Contains made.outputs output) }
{}
