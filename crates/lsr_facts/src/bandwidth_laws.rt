//! What holds of the bandwidth that is reserved on a link, and of who gives way to a request. Claims stand in the
//! order of their keys. Each law is the contract of a function that does nothing.

ghost use Rattle.std.specs.FinMap.Entries.{find, is_sorted, put, where_key};
ghost use Rattle.std.specs.List.{All};
ghost use Rattle.std.specs.Ordering.{is_eq};
ghost use Rattle.std.specs.Prelude.{◌≡◌, ◌≢◌, ◌≤◌, ◌<◌, ℕ, Bool, IfSome, IsFalse, IsSomeAnd, IsTrue, List, T, filter, length, map, not, take};
ghost use Rattle.lsr_facts.specs.Orders.{key_cmp};
ghost use Rattle.lsr_facts.specs.declared.key.Key.{Key};
ghost use Rattle.lsr_facts.specs.Admission.{can_give_way, fits, granted, in_turn, is_enough, victims_of, without};
ghost use Rattle.lsr_facts.specs.Claims.{reserved_of};
ghost use Rattle.lsr_facts.specs.Holdings.{but_holding};
ghost use Rattle.lsr_facts.specs.declared.claim.Claim.{Claim};
ghost use Rattle.lsr_facts.specs.declared.claim.Request.{Request};

/// At a better priority no more is reserved on a link than at a worse one.
pub fn better_priorities_reserve_no_more()
    ensures { (link better worse : ℕ) (claims : List (Key × Claim)) → T (is_sorted key_cmp claims) →
        better ≤ worse → reserved_of link better claims ≤ reserved_of link worse claims }
{}

/// Of the claims of some LSPs no more is reserved than of all, nor of those that pass a test.
pub fn fewer_claims_reserve_no_more()
    ensures lsps { (link priority : ℕ) (some : Key → Bool) (claims : List (Key × Claim)) →
        T (is_sorted key_cmp claims) →
        reserved_of link priority (where_key key_cmp some claims) ≤ reserved_of link priority claims }
    ensures claims { (link priority : ℕ) (some : Key × Claim → Bool) (claims : List (Key × Claim)) →
        T (is_sorted key_cmp claims) →
        reserved_of link priority (filter some claims) ≤ reserved_of link priority claims }
{}

/// A claim on another link takes nothing of this one: in place of none, or of one that is on another link too, it
/// changes nothing, and in place of one on this link it takes that away.
pub fn a_claim_elsewhere_takes_nothing()
    ensures same { (link priority : ℕ) (key : Key) (claim : Claim) (claims : List (Key × Claim)) →
        claim.link ≢ link → IfSome (find key_cmp key claims) (λ old. old.link ≢ link) →
        reserved_of link priority (put key_cmp key claim claims) ≡ reserved_of link priority claims }
    ensures moved { (link priority : ℕ) (key : Key) (claim : Claim) (claims : List (Key × Claim)) →
        T (is_sorted key_cmp claims) → claim.link ≢ link →
        reserved_of link priority (put key_cmp key claim claims)
        ≡ reserved_of link priority (where_key key_cmp (λ k. not (is_eq (key_cmp key k))) claims) }
    ensures less { (link priority : ℕ) (key : Key) (claim : Claim) (claims : List (Key × Claim)) →
        T (is_sorted key_cmp claims) → claim.link ≢ link →
        reserved_of link priority (put key_cmp key claim claims) ≤ reserved_of link priority claims }
{}

/// Claims that differ in their holding priorities alone take the same of a link, where all of them count.
pub fn holding_priorities_take_nothing()
    ensures { (link priority : ℕ) (claims others : List (Key × Claim)) →
        All (λ claim. claim.1.holding ≤ priority) claims → All (λ claim. claim.1.holding ≤ priority) others →
        map but_holding claims ≡ map but_holding others →
        reserved_of link priority claims ≡ reserved_of link priority others }
{}

/// A request fits just where it is enough that all give way who can: what is reserved then at the worst priority is
/// what was reserved at the setup priority.
pub fn a_request_fits_where_all_who_can_are_enough()
    ensures left { (request : Request) (claims : List (Key × Claim)) →
        T (is_sorted key_cmp claims) → request.claim.holding ≤ request.setup → request.setup ≤ 7 →
        reserved_of request.claim.link 7 (granted request (without (in_turn request claims) claims))
        ≡ reserved_of request.claim.link request.setup (granted request claims) }
    ensures fits { (limit : ℕ) (request : Request) (claims : List (Key × Claim)) →
        T (is_sorted key_cmp claims) → request.claim.holding ≤ request.setup → request.setup ≤ 7 →
        is_enough limit request claims (in_turn request claims) ≡ fits limit request claims }
{}

/// A request that fits can be granted: it is enough that its victims give way. What is reserved on its link is then
/// within the limit at each priority, and no more is reserved on another link than before.
pub fn what_fits_can_be_granted()
    ensures enough { (limit : ℕ) (request : Request) (claims : List (Key × Claim)) →
        T (is_sorted key_cmp claims) → request.claim.holding ≤ request.setup → request.setup ≤ 7 →
        IsTrue (fits limit request claims) →
        IsTrue (is_enough limit request claims (victims_of limit request claims)) }
    ensures within { (limit priority : ℕ) (request : Request) (claims : List (Key × Claim)) →
        T (is_sorted key_cmp claims) → request.claim.holding ≤ request.setup → request.setup ≤ 7 →
        IsTrue (fits limit request claims) → priority ≤ 7 →
        reserved_of request.claim.link priority (granted request (without (victims_of limit request claims) claims))
        ≤ limit }
    ensures elsewhere { (limit link priority : ℕ) (request : Request) (claims : List (Key × Claim)) →
        T (is_sorted key_cmp claims) → request.claim.link ≢ link →
        reserved_of link priority (granted request (without (victims_of limit request claims) claims))
        ≤ reserved_of link priority claims }
{}

/// Each victim has a claim that can give way. The victims are a beginning of those in turn, and no shorter one is
/// enough.
pub fn victims_are_as_few_as_can_be()
    ensures can_give_way { (limit : ℕ) (request : Request) (claims : List (Key × Claim)) →
        T (is_sorted key_cmp claims) →
        All (λ key. IsSomeAnd (find key_cmp key claims) (λ claim. IsTrue (can_give_way request (key, claim))))
        (victims_of limit request claims) }
    ensures front { (limit : ℕ) (request : Request) (claims : List (Key × Claim)) →
        victims_of limit request claims
        ≡ take (length (victims_of limit request claims)) (in_turn request claims) }
    ensures fewest { (limit : ℕ) (request : Request) (claims : List (Key × Claim)) (fewer : ℕ) →
        fewer < length (victims_of limit request claims) →
        IsFalse (is_enough limit request claims (take fewer (in_turn request claims))) }
{}
