//! What stays as it was, and what is silent.

ghost use Rattle.std.specs.Prelude.{◌≡◌, ℕ, Bool, [], T, Some, Ok, not, true, false};
ghost use Rattle.std.specs.FinMap.Entries.{is_sorted, where_key};
ghost use Rattle.rsvp_contents.specs.declared.messages.Content.TheVariants as contents;
ghost use Rattle.rsvp_contents.specs.declared.messages.Path.{Path};
ghost use Rattle.lsr_facts.specs.Orders.{item_cmp, key_cmp, key_of_item};
ghost use Rattle.lsr_facts.specs.Routers.{HasLink, IsRouter};
ghost use Rattle.lsr_facts.specs.declared.key.Key.{Key};
ghost use Rattle.lsr_facts.specs.declared.path_fact.PathFact.{PathFact};
ghost use Rattle.lsr_facts.specs.declared.reply.Reply.TheVariants as replies;
ghost use Rattle.lsr_facts.specs.declared.router.Router.{Router};
ghost use Rattle.lsr_facts.specs.Upstreams.{upstream_cmp};
ghost use Rattle.abstract_paths.specs.declared.events.Event.TheVariants as events;
ghost use Rattle.abstract_paths.specs.declared.events.Made.{Made};
ghost use Rattle.abstract_paths.specs.declared.ways.Relay.{Relay};
ghost use Rattle.abstract_paths.specs.Paths.{is_same_route, way_for, way_of};
ghost use Rattle.abstract_paths.specs.Places.{Place, is_up};
ghost use Rattle.abstract_paths.specs.Restarts.{all_cancelled};
ghost use Rattle.abstract_router.specs.Soundness.{IsSound};
ghost use Rattle.abstract_router.specs.States.{State, bare};
ghost use Rattle.abstract_router.specs.Steps.{AreSettled, Step};
ghost use Rattle.abstract_router.specs.Touched.{IsSameElsewhere};
ghost use Rattle.abstract_router.specs.Upstreams.{upstream_of};
ghost use Rattle.abstract_router.specs.Wanted.{items_of};
ghost use Rattle.router_soundness.specs.Assigned.{AreStanding};
ghost use Rattle.router_laws.specs.Words.{comes, link_event};

/// A Path that is done, and comes again over the same link at the same moment, is done again; nothing is sent for
/// it, and nothing changes. That its record is dropped was told the first time.
pub fn paths_repeat_silently()
    ensures { (r : Router) (a b c : State) (one other : Made) (link : ℕ) (p : Path) →
        IsRouter r → IsSound r a →
        one.event ≡ comes link (contents.Path p) → other.event ≡ comes link (contents.Path p) →
        one.reply ≡ replies.Done → Step r a one b → Step r b other c →
        (other.reply ≡ replies.Done) × (other.outputs ≡ []) × (c ≡ b) }
{}

/// A link that comes up where it is up, or goes down where it is down, is done; nothing is sent for it, and
/// nothing changes.
pub fn links_repeat_silently()
    ensures { (r : Router) (before after : State) (made : Made) (number : ℕ) (so : Bool) →
        IsRouter r → IsSound r before → AreSettled r before → AreStanding r before → HasLink r number → is_up before.facts.up number ≡ so →
        Step r before made after → made.event ≡ link_event number so →
        (made.reply ≡ replies.Done) × (made.outputs ≡ []) × (after ≡ before) }
{}

/// A Path with the same explicit route as before keeps its way, whichever links are up: also over a link
/// that is down.
pub fn same_routes_keep_their_way()
    ensures { (n : Place) (fact : PathFact) (p : Path) →
        is_same_route fact.given p.route ≡ true → way_for n (Some fact) p ≡ Ok (way_of fact) }
{}

/// A restart takes what messages set up, paths, reservations, repairs, labels and what bypasses promised, and leaves the
/// router cold; no label rests then. Links, static routes, bypasses and the moment stay, and so do tunnels, but their
/// changes are given up. No message goes out for it, no tear either.
pub fn restarts_lose_what_messages_set_up()
    ensures { (r : Router) (before after : State) (made : Made) →
        Step r before made after → made.event ≡ events.Restart →
        (made.reply ≡ replies.Done) × (made.outputs ≡ [])
        × (after ≡ bare (record before.facts {
          cold = true;
          tunnels = all_cancelled before.facts.tunnels;
          paths = [];
          sent = [];
        })) }
{}

/// A start makes a router run, and changes and sends nothing.
pub fn starts_change_nothing_else()
    ensures { (r : Router) (before after : State) (made : Made) →
        Step r before made after → made.event ≡ events.Start →
        (made.reply ≡ replies.Done) × (made.outputs ≡ [])
        × (after ≡ record before { facts = record before.facts { cold = false } }) }
{}

/// A message for another router changes nothing that is known, be it passed on or refused.
pub fn relays_change_nothing()
    ensures { (r : Router) (before after : State) (made : Made) (message : Relay) →
        IsSound r before → AreSettled r before → AreStanding r before →
        Step r before made after → made.event ≡ events.Relay message → after ≡ before }
{}

/// What is wanted of an LSP comes of what is known of it, and of what all LSPs share: where the same links are up, the
/// same static routes stand, and bypasses run over what they ran over, before and after, each LSP that isn't touched has
/// the same Paths and Resvs wanted of it. An LSP that isn't touched has the path, the label, the reservation and the repair
/// that it had, but for when they expire, and is promised what it was of a bypass.
pub fn what_is_wanted_comes_of_its_lsps()
    ensures paths { (r : Router) (touched : Key → Bool) (before after : State) →
        T (is_sorted key_cmp before.facts.paths) → T (is_sorted key_cmp after.facts.paths) →
        IsSameElsewhere r touched before after →
        where_key item_cmp (λ item. not (touched (key_of_item item))) (items_of r before)
        ≡ where_key item_cmp (λ item. not (touched (key_of_item item))) (items_of r after) }
    ensures resvs { (r : Router) (touched : Key → Bool) (before after : State) →
        T (is_sorted key_cmp before.facts.paths) → T (is_sorted key_cmp after.facts.paths) →
        IsSameElsewhere r touched before after →
        where_key upstream_cmp (λ u. not (touched u.key)) (upstream_of r before)
        ≡ where_key upstream_cmp (λ u. not (touched u.key)) (upstream_of r after) }
{}
