//! What becomes of LSPs when a link is lost (RFC 4090, 6.4). Each law is the contract of a function that does nothing.

ghost use Rattle.std.specs.Prelude.{◌≡◌, ◌≢◌, ◌∷◌, ℕ, All, [], None, Some, false, true};
ghost use Rattle.std.specs.Bool.{then_some};
ghost use Rattle.std.specs.FinMap.Entries.{find};
ghost use Rattle.std.specs.List.{Contains};
ghost use Rattle.std.specs.Option.{option_map};
ghost use Rattle.lsr_facts.specs.Errors.{locally_repaired};
ghost use Rattle.lsr_facts.specs.Orders.{is_one_of, key_cmp};
ghost use Rattle.lsr_facts.specs.Reservations.{style_of};
ghost use Rattle.lsr_facts.specs.Routers.{HasLink, IsRouter};
ghost use Rattle.lsr_facts.specs.declared.key.Key.{Key};
ghost use Rattle.lsr_facts.specs.declared.path_fact.PathFact.{PathFact};
ghost use Rattle.lsr_facts.specs.declared.repair.Over.{Over};
ghost use Rattle.lsr_facts.specs.declared.repair.Repair.{Repair};
ghost use Rattle.lsr_facts.specs.declared.reply.Reply.TheVariants as replies;
ghost use Rattle.lsr_facts.specs.declared.resv_fact.ResvFact.{ResvFact};
ghost use Rattle.lsr_facts.specs.declared.resv_fact.ResvStyle.{ResvStyle};
ghost use Rattle.lsr_facts.specs.declared.router.Router.{Router};
ghost use Rattle.std.specs.declared.net.ipv4_addr.Ipv4Addr.{Ipv4Addr};
ghost use Rattle.rsvp_contents.specs.Picking.{content_in};
ghost use Rattle.rsvp_contents.specs.declared.descriptors.FlowDescriptor.{FlowDescriptor};
ghost use Rattle.rsvp_contents.specs.declared.message.Reading.TheVariants as readings;
ghost use Rattle.rsvp_contents.specs.declared.messages.Content.TheVariants as contents;
ghost use Rattle.rsvp_contents.specs.declared.messages.Resv.{Resv};
ghost use Rattle.rsvp_contents.specs.declared.messages.ResvTear.{ResvTear};
ghost use Rattle.forwarding_table.specs.declared.action.Action.TheVariants.{SwapPush};
ghost use Rattle.abstract_paths.specs.declared.ways.ArrivalWay.TheVariants as ways;
ghost use Rattle.abstract_paths.specs.declared.ways.Arrive.{Arrive};
ghost use Rattle.abstract_paths.specs.declared.events.Event.TheVariants as events;
ghost use Rattle.abstract_paths.specs.declared.events.Made.{Made};
ghost use Rattle.abstract_paths.specs.declared.events.Output.{Output};
ghost use Rattle.abstract_paths.specs.Outcomes.{found_here, told_upstream};
ghost use Rattle.abstract_paths.specs.Places.{is_up, place_of};
ghost use Rattle.abstract_router.specs.BypassTunnels.{bypass_tunnels_of, over_at};
ghost use Rattle.abstract_router.specs.Protecting.{repair_with};
ghost use Rattle.abstract_router.specs.Repairing.{repair_stands};
ghost use Rattle.abstract_router.specs.Reserving.{key_in, resv_by};
ghost use Rattle.abstract_router.specs.Returning.{repair_from, returned_keys};
ghost use Rattle.abstract_router.specs.Soundness.{IsSound};
ghost use Rattle.abstract_router.specs.States.{State};
ghost use Rattle.abstract_router.specs.Steps.{AreSettled, Step};
ghost use Rattle.abstract_router.specs.Tables.{look};
ghost use Rattle.router_soundness.specs.Assigned.{AreStanding};
ghost use Rattle.router_laws.specs.Repairs.{TellsOfRepair, bypass_for, is_from_end, routed_from};
ghost use Rattle.router_laws.specs.Sending.{is_path_err, says};

/// In the very step in which a link goes down, each LSP that is reserved on it loses its reservation; where a bypass is
/// selected for it, it is repaired over that one, and else it has no repair either (RFC 4090, 6.4). The bypass is up then,
/// over another link that is up, and the LSP's label, where it has one, is swapped for that of the bypass's end, under the
/// bypass's label. Each origin of a repaired LSP is told so, with error 25/3, where the link to it is up (RFC 4090, 6.5), and
/// nobody else is sent a PathErr. An LSP that is reserved on another link stays reserved as it was.
pub fn a_lost_link_is_repaired_at_once()
    ensures repaired { (r : Router) (before after : State) (made : Made) (n : ℕ)
        (key : Key) (resv : ResvFact) (path : PathFact) →
        IsRouter r → IsSound r before → AreSettled r before →
        Step r before made after → made.event ≡ events.LinkDown n →
        find key_cmp key before.resvs ≡ Some resv → resv.link ≡ n → find key_cmp key before.facts.paths ≡ Some path →
        (find key_cmp key after.resvs ≡ None)
        × (find key_cmp key after.repairs ≡ option_map (repair_with resv) (bypass_for r after key path resv)) }
    ensures lost { (r : Router) (before after : State) (made : Made) (n : ℕ)
        (key : Key) (resv : ResvFact) (path : PathFact) →
        IsRouter r → IsSound r before → AreSettled r before →
        Step r before made after → made.event ≡ events.LinkDown n →
        find key_cmp key before.resvs ≡ Some resv → resv.link ≡ n → find key_cmp key before.facts.paths ≡ Some path →
        bypass_for r after key path resv ≡ None →
        (find key_cmp key after.resvs ≡ None) × (find key_cmp key after.repairs ≡ None) }
    ensures up { (r : Router) (before after : State) (made : Made) (n : ℕ) (key : Key) (repair : Repair) →
        IsRouter r → IsSound r before → AreSettled r before → HasLink r n →
        Step r before made after → made.event ≡ events.LinkDown n →
        find key_cmp key after.repairs ≡ Some repair →
        (over : Over) × (over_at (bypass_tunnels_of r after) repair.bypass ≡ Some over)
        × (over.link ≢ n) × (is_up after.facts.up over.link ≡ true) }
    ensures entry { (r : Router) (before after : State) (made : Made) (n : ℕ)
        (key : Key) (repair : Repair) (label : ℕ) →
        IsRouter r → IsSound r before → AreSettled r before → HasLink r n →
        Step r before made after → made.event ≡ events.LinkDown n →
        find key_cmp key after.repairs ≡ Some repair → find key_cmp key before.labels ≡ Some label →
        (over : Over) × (over_at (bypass_tunnels_of r after) repair.bypass ≡ Some over)
        × (look r after label ≡ Some (SwapPush repair.resv.label over.label over.link)) }
    ensures others { (r : Router) (before after : State) (made : Made) (n : ℕ) (key : Key) (resv : ResvFact) →
        IsRouter r → IsSound r before → AreSettled r before → HasLink r n →
        Step r before made after → made.event ≡ events.LinkDown n →
        find key_cmp key before.resvs ≡ Some resv → resv.link ≢ n →
        find key_cmp key after.resvs ≡ Some resv }
    ensures told { (r : Router) (before after : State) (made : Made) (n : ℕ)
        (key : Key) (resv : ResvFact) (path : PathFact) (repair : Repair) (output : Output) →
        IsRouter r → IsSound r before → AreSettled r before → HasLink r n →
        Step r before made after → made.event ≡ events.LinkDown n →
        find key_cmp key before.resvs ≡ Some resv → resv.link ≡ n → find key_cmp key before.facts.paths ≡ Some path →
        find key_cmp key after.repairs ≡ Some repair →
        Contains (told_upstream (place_of r after.facts) key path (Some path.tspec) (found_here r locally_repaired)) output →
        is_up after.facts.up output.link ≡ true → Contains made.outputs output }
    ensures only { (r : Router) (before after : State) (made : Made) (n : ℕ) →
        IsRouter r → IsSound r before → AreSettled r before → HasLink r n →
        Step r before made after → made.event ≡ events.LinkDown n →
        All (λ output. says is_path_err output ≡ true → TellsOfRepair r before after n output) made.outputs }
{}

/// Of all messages only a Resv or a ResvTear from the end of its bypass renews or ends the repair of an LSP (RFC 4090,
/// 6.4.3). Every other leaves it as it is, as long as the bypass is up and the LSP's path leaves by the link that was lost;
/// and no message makes a repair. A Resv of one descriptor from there that is done renews the repair that it is for: bypass
/// and protected link stay, and what the repair keeps is what the Resv asks for, until its lifetime is over. A ResvTear from
/// there ends the repairs that it is for. What comes from the end of a bypass touches no path, no reservation and no label.
pub fn only_the_end_of_a_bypass_renews_a_repair()
    ensures others { (r : Router) (before after : State) (made : Made) (arrived : Arrive) (key : Key) (repair : Repair) →
        IsSound r before → Step r before made after → made.event ≡ events.Arrive arrived →
        find key_cmp key before.repairs ≡ Some repair → is_from_end r before arrived (key, repair) ≡ false →
        find key_cmp key after.repairs ≡ then_some (repair_stands r after (key, repair)) repair }
    ensures none { (r : Router) (before after : State) (made : Made) (arrived : Arrive) (key : Key) →
        IsSound r before → Step r before made after → made.event ≡ events.Arrive arrived →
        find key_cmp key before.repairs ≡ None → find key_cmp key after.repairs ≡ None }
    ensures renews { (r : Router) (before after : State) (made : Made) (arrived : Arrive) (v : Resv) (d : FlowDescriptor)
        (style : ResvStyle) →
        IsSound r before → AreSettled r before → Step r before made after → made.event ≡ events.Arrive arrived →
        arrived.way ≡ ways.Routed → arrived.reading ≡ readings.Whole (contents.Resv v) →
        v.descriptors ≡ d ∷ [] → style_of v.style ≡ Some style → made.reply ≡ replies.Done →
        (key : Key) × (repair : Repair) × (repair_from r before v.hop.address (key_in v d) ≡ Some (key, repair))
        × (find key_cmp key after.repairs
        ≡ Some (record repair { resv = resv_by before.facts.moment repair.resv.link style v d })) }
    ensures ends { (r : Router) (before after : State) (made : Made) (arrived : Arrive) (t : ResvTear) (key : Key) →
        IsSound r before → AreSettled r before → Step r before made after → made.event ≡ events.Arrive arrived →
        arrived.way ≡ ways.Routed → arrived.reading ≡ readings.Whole (contents.ResvTear t) →
        made.reply ≡ replies.Done → is_one_of (returned_keys r before t) key ≡ true →
        find key_cmp key after.repairs ≡ None }
    ensures alone { (r : Router) (before after : State) (made : Made) (arrived : Arrive) (hop : Ipv4Addr) →
        IsSound r before → AreSettled r before → AreStanding r before →
        Step r before made after → made.event ≡ events.Arrive arrived →
        routed_from arrived.way (content_in arrived.reading) ≡ Some hop →
        (after.facts.paths ≡ before.facts.paths) × (after.resvs ≡ before.resvs) × (after.labels ≡ before.labels) }
{}
