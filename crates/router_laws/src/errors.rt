//! What becomes of errors on their way (RFC 2205, 3.1.7 and 3.1.8). Each law is the contract of a function that does nothing.

ghost use Rattle.std.specs.Prelude.{◌≡◌, ◌⊎◌, ℕ, None, Some, false, true};
ghost use Rattle.std.specs.FinMap.Entries.{find};
ghost use Rattle.std.specs.List.{AllByRecursion, Contains};
ghost use Rattle.rsvp_contents.specs.Picking.{content_in};
ghost use Rattle.rsvp_contents.specs.declared.descriptors.ErrorDescriptor.{ErrorDescriptor};
ghost use Rattle.rsvp_contents.specs.declared.message.Reading.TheVariants as readings;
ghost use Rattle.rsvp_contents.specs.declared.messages.Content.TheVariants as contents;
ghost use Rattle.rsvp_contents.specs.declared.messages.PathErr.{PathErr};
ghost use Rattle.rsvp_contents.specs.declared.messages.Resv.{Resv};
ghost use Rattle.rsvp_contents.specs.declared.messages.ResvErr.{ResvErr};
ghost use Rattle.lsr_facts.specs.Lifetimes.{begins_here};
ghost use Rattle.lsr_facts.specs.Orders.{key_cmp};
ghost use Rattle.lsr_facts.specs.declared.key.Key.{Key};
ghost use Rattle.lsr_facts.specs.declared.path_fact.PathFact.{PathFact};
ghost use Rattle.lsr_facts.specs.declared.repair.Repair.{Repair};
ghost use Rattle.lsr_facts.specs.declared.resv_fact.ResvFact.{ResvFact};
ghost use Rattle.lsr_facts.specs.declared.reply.Reply.TheVariants as replies;
ghost use Rattle.lsr_facts.specs.declared.router.Router.{Router};
ghost use Rattle.abstract_paths.specs.declared.events.Event.TheVariants as events;
ghost use Rattle.abstract_paths.specs.declared.events.Made.{Made};
ghost use Rattle.abstract_paths.specs.declared.events.Output.{Output};
ghost use Rattle.abstract_paths.specs.declared.ways.ArrivalWay.TheVariants as ways;
ghost use Rattle.abstract_paths.specs.declared.ways.Arrive.{Arrive};
ghost use Rattle.abstract_paths.specs.Outcomes.{lsp, told_upstream};
ghost use Rattle.abstract_paths.specs.Outputs.{errors_out};
ghost use Rattle.abstract_paths.specs.Places.{is_up, place_of};
ghost use Rattle.abstract_paths.specs.Tears.{leaves_by};
ghost use Rattle.abstract_router.specs.Preempting.{told_preempted};
ghost use Rattle.abstract_router.specs.Returning.{repair_known_as};
ghost use Rattle.abstract_router.specs.Soundness.{IsSound};
ghost use Rattle.abstract_router.specs.States.{State, is_held};
ghost use Rattle.abstract_router.specs.Steps.{AreSettled, Step};
ghost use Rattle.router_soundness.specs.Assigned.{AreStanding};
ghost use Rattle.router_laws.specs.Errors.{GoesOn, GoesOnFor, IsAskedBy, IsErrFor};
ghost use Rattle.router_laws.specs.Words.{comes};

/// An error on its way changes nothing that is known, and goes on unchanged (RFC 2205, 3.1.7 and 3.1.8). A PathErr for an LSP
/// that doesn't begin here, over the link that the LSP leaves by, goes on to each origin of the LSP over a link that is up, and
/// nothing else is sent; so does one in a Routed frame, for the LSP whose repair it is for (RFC 4090, 6.4.3). A ResvErr over a
/// link that is up goes on for each LSP that it is for and that is reserved or repaired: over the link of the reservation to
/// the next hop, or through the bypass to its end (RFC 4090, 6.4.3); and nothing else is sent for a ResvErr.
pub fn errors_pass_through()
    ensures path_errs { (r : Router) (before after : State) (made : Made) (link : ℕ) (e : PathErr) (fact : PathFact) →
        IsSound r before → AreSettled r before → AreStanding r before → is_up before.facts.up link ≡ true →
        find key_cmp (lsp e.session e.sender) before.facts.paths ≡ Some fact →
        leaves_by link fact ≡ true → begins_here fact.role ≡ false →
        Step r before made after → made.event ≡ comes link (contents.PathErr e) →
        (made.reply ≡ replies.Done) × (after ≡ before)
        × (made.outputs ≡ errors_out before.facts.up
        (told_upstream (place_of r before.facts) (lsp e.session e.sender) fact e.tspec e.error)) }
    ensures returned { (r : Router) (before after : State) (made : Made) (arrived : Arrive) (e : PathErr)
        (key : Key) (repair : Repair) (fact : PathFact) →
        IsSound r before → AreSettled r before → AreStanding r before → is_up before.facts.up arrived.link ≡ true →
        repair_known_as r before (lsp e.session e.sender) ≡ Some (key, repair) →
        find key_cmp key before.facts.paths ≡ Some fact → begins_here fact.role ≡ false →
        Step r before made after → made.event ≡ events.Arrive arrived →
        arrived.way ≡ ways.Routed → arrived.reading ≡ readings.Whole (contents.PathErr e) →
        (made.reply ≡ replies.Done) × (after ≡ before)
        × (made.outputs ≡ errors_out before.facts.up
        (told_upstream (place_of r before.facts) key fact e.tspec e.error)) }
    ensures resv_errs { (r : Router) (before after : State) (made : Made) (arrived : Arrive) (e : ResvErr)
        (d : ErrorDescriptor) (key : Key) →
        IsSound r before → AreSettled r before → AreStanding r before → is_up before.facts.up arrived.link ≡ true →
        Step r before made after → made.event ≡ events.Arrive arrived →
        content_in arrived.reading ≡ contents.ResvErr e →
        IsErrFor before arrived e d key → is_held before key ≡ true →
        (made.reply ≡ replies.Done) × (output : Output)
        × GoesOnFor r before e d key output × Contains made.outputs output }
    ensures no_others { (r : Router) (before after : State) (made : Made) (arrived : Arrive) (e : ResvErr) →
        IsSound r before → AreSettled r before → AreStanding r before →
        Step r before made after → made.event ≡ events.Arrive arrived →
        content_in arrived.reading ≡ contents.ResvErr e →
        (after ≡ before) × AllByRecursion (GoesOn r before arrived e) made.outputs }
{}

/// Who loses bandwidth is told (RFC 2205, 3.1.8 and B, 12): where a Resv comes, and an LSP loses its reservation while its path
/// stays, a ResvErr with error 12/0 goes to the next hop that reserved it, for what it lost. That is the reservation of before,
/// or another one, if the same Resv asked for that before the LSP gave way.
pub fn who_loses_bandwidth_is_told()
    ensures { (r : Router) (before after : State) (made : Made) (link : ℕ) (v : Resv) (key : Key) (resv : ResvFact) →
        IsSound r before → Step r before made after → made.event ≡ comes link (contents.Resv v) →
        find key_cmp key before.resvs ≡ Some resv → find key_cmp key after.resvs ≡ None →
        find key_cmp key after.facts.paths ≡ find key_cmp key before.facts.paths →
        (lost : ResvFact) × (output : Output) × ((lost ≡ resv) ⊎ IsAskedBy before link v key lost)
        × (told_preempted r key lost ≡ Some output) × Contains made.outputs output }
{}
