//! How long what messages set up lives, and when it is sent again.

ghost use Rattle.std.specs.Prelude.{◌≡◌, ◌<◌, ◌≤◌, ◌+◌, ◌^◌, ℕ, None, Some, false};
ghost use Rattle.std.specs.FinMap.Entries.{find};
ghost use Rattle.std.specs.List.{AllByRecursion, Contains};
ghost use Rattle.std.specs.declared.net.ipv4_addr.Ipv4Addr.{Ipv4Addr};
ghost use Rattle.rsvp_contents.specs.declared.messages.Content.TheVariants as contents;
ghost use Rattle.rsvp_contents.specs.declared.messages.Path.{Path};
ghost use Rattle.lsr_facts.specs.Lifetimes.{begins_here};
ghost use Rattle.lsr_facts.specs.Orders.{address_cmp, item_cmp, key_cmp};
ghost use Rattle.lsr_facts.specs.declared.key.Item.{Item};
ghost use Rattle.lsr_facts.specs.declared.key.Key.{Key};
ghost use Rattle.lsr_facts.specs.declared.path_fact.Origin.{Origin};
ghost use Rattle.lsr_facts.specs.declared.path_fact.PathFact.{PathFact};
ghost use Rattle.lsr_facts.specs.declared.path_fact.Via.TheVariants.{Link};
ghost use Rattle.lsr_facts.specs.declared.refusal.Refusal.TheVariants.{BadMoment, Late};
ghost use Rattle.lsr_facts.specs.declared.reply.Reply.TheVariants as replies;
ghost use Rattle.lsr_facts.specs.declared.router.Router.{Router};
ghost use Rattle.lsr_facts.specs.Upstreams.{upstream_cmp};
ghost use Rattle.lsr_facts.specs.declared.repair.Repair.{Repair};
ghost use Rattle.lsr_facts.specs.declared.resv_fact.ResvFact.{ResvFact};
ghost use Rattle.lsr_facts.specs.declared.upstream.Upstream.{Upstream};
ghost use Rattle.abstract_paths.specs.declared.events.Event.TheVariants as events;
ghost use Rattle.abstract_paths.specs.declared.events.Made.{Made};
ghost use Rattle.abstract_paths.specs.declared.events.Output.{Output};
ghost use Rattle.abstract_paths.specs.Paths.{key_of, lifetime};
ghost use Rattle.abstract_router.specs.Soundness.{IsSound};
ghost use Rattle.abstract_router.specs.States.{State};
ghost use Rattle.abstract_router.specs.Steps.{Step};
ghost use Rattle.abstract_router.specs.Upstreams.{upstream_of};
ghost use Rattle.abstract_router.specs.Wanted.{items_of};
ghost use Rattle.router_laws.specs.Words.{IsUnexpired, comes};

/// A Path that is done makes or renews one origin of its path: the neighbour that it came from. It expires when
/// the lifetime of the refresh period that the Path names is over, from the router's moment.
pub fn paths_live_for_their_lifetime()
    ensures { (r : Router) (before after : State) (made : Made) (link : ℕ) (p : Path) →
        IsSound r before → Step r before made after → made.event ≡ comes link (contents.Path p) →
        made.reply ≡ replies.Done →
        (fact : PathFact) × (find key_cmp (key_of p) after.facts.paths ≡ Some fact)
        × (find address_cmp p.sender.sender fact.origins ≡ Some (record {
          via = Link link;
          hop = p.hop;
          expiry = before.facts.moment + lifetime p.time.refresh_ms;
        })) }
{}

/// A moment that is neither below the last one nor above 2^62 is done, also where it is the last one itself. Above
/// 2^62 it is refused, and so it is below the last one.
pub fn moments_come_in_order()
    ensures done { (r : Router) (before after : State) (made : Made) (n : ℕ) →
        Step r before made after → made.event ≡ events.Tick n →
        before.facts.moment ≤ n → n ≤ 2 ^ 62 → made.reply ≡ replies.Done }
    ensures none { (r : Router) (before after : State) (made : Made) (n : ℕ) →
        Step r before made after → made.event ≡ events.Tick n →
        2 ^ 62 < n → made.reply ≡ replies.Refused BadMoment }
    ensures late { (r : Router) (before after : State) (made : Made) (n : ℕ) →
        Step r before made after → made.event ≡ events.Tick n →
        n ≤ 2 ^ 62 → n < before.facts.moment → made.reply ≡ replies.Refused Late }
{}

/// A moment that is done is the router's from then on, and nothing stands that has expired: the expiry of each
/// origin, of each reservation and of each repair is above it, and a path goes whose origins have all expired, unless it
/// begins here.
pub fn nothing_expired_stands()
    ensures none { (r : Router) (before after : State) (made : Made) (n : ℕ) →
        Step r before made after → made.event ≡ events.Tick n → made.reply ≡ replies.Done →
        (after.facts.moment ≡ n) × AllByRecursion (IsUnexpired n) after.facts.paths }
    ensures resvs { (r : Router) (before after : State) (made : Made) (n : ℕ) →
        Step r before made after → made.event ≡ events.Tick n → made.reply ≡ replies.Done →
        AllByRecursion (λ (resv : Key × ResvFact). n < resv.1.expiry) after.resvs }
    ensures repairs { (r : Router) (before after : State) (made : Made) (n : ℕ) →
        Step r before made after → made.event ≡ events.Tick n → made.reply ≡ replies.Done →
        AllByRecursion (λ (repair : Key × Repair). n < repair.1.resv.expiry) after.repairs }
    ensures gone { (r : Router) (before after : State) (made : Made) (n : ℕ)
        (key : Key) (fact : PathFact) →
        IsSound r before →
        Step r before made after → made.event ≡ events.Tick n → made.reply ≡ replies.Done →
        find key_cmp key before.facts.paths ≡ Some fact → begins_here fact.role ≡ false →
        AllByRecursion (λ (origin : Ipv4Addr × Origin). origin.1.expiry ≤ n) fact.origins →
        find key_cmp key after.facts.paths ≡ None }
{}

/// A path that was refreshed in time stays: an origin whose expiry is above the moment stands as it was after it,
/// and so does all else of its path but for other origins.
pub fn refreshed_paths_stay()
    ensures { (r : Router) (before after : State) (made : Made) (n : ℕ)
        (key : Key) (fact : PathFact) (sender : Ipv4Addr) (origin : Origin) →
        IsSound r before →
        Step r before made after → made.event ≡ events.Tick n → made.reply ≡ replies.Done →
        find key_cmp key before.facts.paths ≡ Some fact →
        find address_cmp sender fact.origins ≡ Some origin → n < origin.expiry →
        (still : PathFact) × (find key_cmp key after.facts.paths ≡ Some still)
        × (find address_cmp sender still.origins ≡ Some origin)
        × (still ≡ record fact { origins = still.origins }) }
{}

/// At a moment that is done each Path and each Resv that is wanted then, and was sent last a refresh period ago or
/// longer, is sent again; and from then on that is the moment at which it was sent last.
pub fn what_is_due_is_sent()
    ensures paths { (r : Router) (before after : State) (made : Made) (n at : ℕ)
        (item : Item) (output : Output) →
        IsSound r before →
        Step r before made after → made.event ≡ events.Tick n → made.reply ≡ replies.Done →
        find item_cmp item (items_of r after) ≡ Some output →
        find item_cmp item before.facts.sent ≡ Some at → at + r.refresh_ms ≤ n →
        Contains made.outputs output × (find item_cmp item after.facts.sent ≡ Some n) }
    ensures resvs { (r : Router) (before after : State) (made : Made) (n at : ℕ)
        (upstream : Upstream) (output : Output) →
        IsSound r before →
        Step r before made after → made.event ≡ events.Tick n → made.reply ≡ replies.Done →
        find upstream_cmp upstream (upstream_of r after) ≡ Some output →
        find upstream_cmp upstream before.sent_upstream ≡ Some at → at + r.refresh_ms ≤ n →
        Contains made.outputs output × (find upstream_cmp upstream after.sent_upstream ≡ Some n) }
{}
