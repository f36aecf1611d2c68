//! What a step sends.

ghost use Rattle.std.specs.Prelude.{◌≡◌, ◌≢◌, ◌++◌, ℕ, None, Some, filter, true};
ghost use Rattle.std.specs.FinMap.Entries.{find};
ghost use Rattle.std.specs.List.{All, Contains};
ghost use Rattle.lsr_facts.specs.Orders.{item_cmp};
ghost use Rattle.lsr_facts.specs.Upstreams.{upstream_cmp};
ghost use Rattle.lsr_facts.specs.declared.key.Item.{Item};
ghost use Rattle.lsr_facts.specs.declared.reply.Reply.TheVariants as replies;
ghost use Rattle.lsr_facts.specs.declared.router.Router.{Router};
ghost use Rattle.lsr_facts.specs.declared.upstream.Upstream.{Upstream};
ghost use Rattle.abstract_paths.specs.declared.events.Event.TheVariants as events;
ghost use Rattle.abstract_paths.specs.declared.events.Made.{Made};
ghost use Rattle.abstract_paths.specs.declared.events.Output.{Output};
ghost use Rattle.abstract_paths.specs.Outputs.{tear_by};
ghost use Rattle.abstract_paths.specs.Places.{is_up};
ghost use Rattle.abstract_router.specs.Soundness.{IsSound};
ghost use Rattle.abstract_router.specs.States.{State};
ghost use Rattle.abstract_router.specs.Steps.{Step};
ghost use Rattle.abstract_router.specs.Upstreams.{upstream_of};
ghost use Rattle.abstract_router.specs.Wanted.{items_of};
ghost use Rattle.router_laws.specs.Sending.{due_in, is_news, is_state, is_tear, news_in, says, tears_of, wanted_no_more};

/// No message leaves over a link that is down: of all that a step sends, errors, tears, Paths, Resvs and what it passes
/// on, each goes over a link that is up after it.
pub fn nothing_leaves_over_a_link_that_is_down()
    ensures { (r : Router) (before after : State) (made : Made) →
        Step r before made after → All (λ output. is_up after.facts.up output.link ≡ true) made.outputs }
{}

/// Each Path and each Resv that is wanted after a step, and is new or another than before it, is sent in it (RFC 2205,
/// 2.3), and from then on the step's moment is the one at which it was sent last.
pub fn what_is_new_or_changed_is_sent()
    ensures paths { (r : Router) (before after : State) (made : Made) (item : Item) (output : Output) →
        Step r before made after →
        find item_cmp item (items_of r after) ≡ Some output →
        is_news (find item_cmp item (items_of r before)) output ≡ true →
        Contains made.outputs output × (find item_cmp item after.facts.sent ≡ Some after.facts.moment) }
    ensures resvs { (r : Router) (before after : State) (made : Made) (upstream : Upstream) (output : Output) →
        Step r before made after →
        find upstream_cmp upstream (upstream_of r after) ≡ Some output →
        is_news (find upstream_cmp upstream (upstream_of r before)) output ≡ true →
        Contains made.outputs output × (find upstream_cmp upstream after.sent_upstream ≡ Some after.facts.moment) }
{}

/// A step sends no other Path and no other Resv, and none twice. Those that it sends of itself are just what is wanted after
/// it and is news, first the Paths, then the Resvs (RFC 2205, 2.3); at a moment, what is news or was sent last a refresh
/// period ago or longer (RFC 2205, 3.7).
pub fn what_is_sent_is_new_changed_or_due()
    ensures events { (r : Router) (before after : State) (made : Made) →
        IsSound r before → Step r before made after → ((n : ℕ) → made.event ≢ events.Tick n) →
        filter (says is_state) made.outputs
        ≡ news_in item_cmp (items_of r before) (items_of r after)
        ++ news_in upstream_cmp (upstream_of r before) (upstream_of r after) }
    ensures moments { (r : Router) (before after : State) (made : Made) (n : ℕ) →
        IsSound r before → Step r before made after → made.event ≡ events.Tick n → made.reply ≡ replies.Done →
        filter (says is_state) made.outputs
        ≡ due_in item_cmp r.refresh_ms before.facts.sent n (items_of r before) (items_of r after)
        ++ due_in upstream_cmp r.refresh_ms before.sent_upstream n (upstream_of r before) (upstream_of r after) }
{}

/// Each Path and each Resv that was wanted before a step, and isn't after it, is torn down in it (RFC 2205, 3.1.5 and
/// 3.1.6) where its link is up: its tear goes over the same link, under the same labels or to the same router. No other
/// PathTear or ResvTear is sent, and none twice, but those of others that are passed on. A restart alone tears nothing
/// down.
pub fn a_tear_goes_exactly_where_state_went()
    ensures paths { (r : Router) (before after : State) (made : Made) (item : Item) (was : Output) →
        Step r before made after → made.event ≢ events.Restart →
        find item_cmp item (items_of r before) ≡ Some was → find item_cmp item (items_of r after) ≡ None →
        is_up after.facts.up was.link ≡ true →
        (tear : Output) × (tear_by was.link was.frame ≡ Some tear) × Contains made.outputs tear }
    ensures resvs { (r : Router) (before after : State) (made : Made) (upstream : Upstream) (was : Output) →
        Step r before made after → made.event ≢ events.Restart →
        find upstream_cmp upstream (upstream_of r before) ≡ Some was →
        find upstream_cmp upstream (upstream_of r after) ≡ None →
        is_up after.facts.up was.link ≡ true →
        (tear : Output) × (tear_by was.link was.frame ≡ Some tear) × Contains made.outputs tear }
    ensures exactly { (r : Router) (before after : State) (made : Made) →
        IsSound r before → Step r before made after → made.event ≢ events.Restart →
        filter (says is_tear) made.outputs
        ≡ tears_of (wanted_no_more item_cmp after.facts.up (items_of r before) (items_of r after)
        ++ wanted_no_more upstream_cmp after.facts.up (upstream_of r before) (upstream_of r after)) }
{}
