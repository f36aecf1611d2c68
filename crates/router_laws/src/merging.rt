//! What a Path does that comes through labels to the end of a bypass (RFC 4090, 7.1). The law is the contract of a function
//! that does nothing.

ghost use Rattle.std.specs.Prelude.{◌≡◌, All, Some, true};
ghost use Rattle.std.specs.FinMap.Entries.{find, put};
ghost use Rattle.rsvp_contents.specs.declared.message.Reading.TheVariants as readings;
ghost use Rattle.rsvp_contents.specs.declared.messages.Content.TheVariants as contents;
ghost use Rattle.rsvp_contents.specs.declared.messages.Path.{Path};
ghost use Rattle.lsr_facts.specs.Orders.{address_cmp, key_cmp};
ghost use Rattle.lsr_facts.specs.Routers.{IsRouter};
ghost use Rattle.lsr_facts.specs.declared.key.Key.{Key};
ghost use Rattle.lsr_facts.specs.declared.path_fact.PathFact.{PathFact};
ghost use Rattle.lsr_facts.specs.declared.reply.Reply.TheVariants as replies;
ghost use Rattle.lsr_facts.specs.declared.router.Router.{Router};
ghost use Rattle.abstract_paths.specs.Merging.{is_beside, stack_origin};
ghost use Rattle.abstract_paths.specs.Paths.{key_of};
ghost use Rattle.abstract_paths.specs.declared.events.Event.TheVariants as events;
ghost use Rattle.abstract_paths.specs.declared.events.Made.{Made};
ghost use Rattle.abstract_paths.specs.declared.ways.ArrivalWay.TheVariants as ways;
ghost use Rattle.abstract_paths.specs.declared.ways.Arrive.{Arrive};
ghost use Rattle.abstract_router.specs.Soundness.{IsSound};
ghost use Rattle.abstract_router.specs.States.{State};
ghost use Rattle.abstract_router.specs.Steps.{AreSettled, Step};
ghost use Rattle.router_soundness.specs.Assigned.{AreStanding};
ghost use Rattle.router_laws.specs.Merging.{IsForHead};

/// A Path through labels that is done joins a path that is known, of the same session and LSP ID (RFC 4090, 7.1), and changes one
/// origin of it: the one of the Path's sender is made or renewed. All else of the path stays, its way, its route and its
/// other origins; so does all that is known beside it, reservations, repairs, labels and promises of bandwidth, but for when
/// Resvs were sent last. The Path's head alone is sent something: each message that goes out names no other sender.
pub fn a_path_through_labels_changes_one_origin()
    ensures joins { (r : Router) (before after : State) (made : Made) (arrived : Arrive) (p : Path) →
        IsSound r before → AreSettled r before → AreStanding r before →
        Step r before made after → made.event ≡ events.Arrive arrived →
        arrived.way ≡ ways.Stack → arrived.reading ≡ readings.Whole (contents.Path p) → made.reply ≡ replies.Done →
        (key : Key) × (path : PathFact) × (is_beside (key_of p) key ≡ true)
        × (find key_cmp key before.facts.paths ≡ Some path)
        × (after ≡ record before {
          facts = record before.facts {
            paths = put key_cmp key (record path {
              origins = put address_cmp p.sender.sender (stack_origin before.facts.moment p) path.origins;
            }) before.facts.paths;
          };
          sent_upstream = after.sent_upstream;
        }) }
    ensures head_alone { (r : Router) (before after : State) (made : Made) (arrived : Arrive) (p : Path) →
        IsRouter r → IsSound r before → AreSettled r before → AreStanding r before →
        Step r before made after → made.event ≡ events.Arrive arrived →
        arrived.way ≡ ways.Stack → arrived.reading ≡ readings.Whole (contents.Path p) → made.reply ≡ replies.Done →
        All (IsForHead p) made.outputs }
{}
