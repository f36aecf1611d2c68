//! What a change of one reservation leaves as it was, and what each takes. Each law is the contract of a function that
//! does nothing.

ghost use Rattle.std.specs.FinMap.Entries.{find};
ghost use Rattle.std.specs.Option.{option_map};
ghost use Rattle.std.specs.Prelude.{◌≡◌, ◌≢◌, ◌≤◌, ℕ};
ghost use Rattle.lsr_facts.specs.Orders.{key_cmp};
ghost use Rattle.lsr_facts.specs.declared.key.Key.{Key};
ghost use Rattle.lsr_facts.specs.Claims.{claim_of};
ghost use Rattle.lsr_facts.specs.declared.claim.Claim.{Claim};
ghost use Rattle.lsr_facts.specs.declared.resv_fact.ResvFact.{ResvFact};
ghost use Rattle.admission.specs.Bandwidths.{AreMatched, Bandwidth, IsSameOf, with_holding, with_resv, without_resv};

/// An LSP whose reservation was put has it, and takes what it says; of every other LSP the same is known as before.
pub fn put_changes_one_lsp()
    ensures fact { (key : Key) (fact : ResvFact) (holding : ℕ) (b : Bandwidth) →
        find key_cmp key (with_resv key fact holding b).resvs ≡ Some fact }
    ensures claim { (key : Key) (fact : ResvFact) (holding : ℕ) (b : Bandwidth) →
        find key_cmp key (with_resv key fact holding b).claims ≡ Some (claim_of fact holding) }
    ensures others { (key other : Key) (fact : ResvFact) (holding : ℕ) (b : Bandwidth) → other ≢ key →
        IsSameOf other (with_resv key fact holding b) b }
{}

/// An LSP whose reservation was removed has none and takes nothing; of every other LSP the same is known as before.
pub fn remove_changes_one_lsp()
    ensures fact { (key : Key) (b : Bandwidth) → find key_cmp key (without_resv key b).resvs ≡ None }
    ensures claim { (key : Key) (b : Bandwidth) → find key_cmp key (without_resv key b).claims ≡ None }
    ensures others { (key other : Key) (b : Bandwidth) → other ≢ key → IsSameOf other (without_resv key b) b }
{}

/// An LSP whose holding priority was set takes what it took, kept at that priority; its reservation, and all of every
/// other LSP, is as before.
pub fn set_holding_changes_one_lsp()
    ensures fact { (key : Key) (holding : ℕ) (b : Bandwidth) → (with_holding key holding b).resvs ≡ b.resvs }
    ensures claim { (key : Key) (holding : ℕ) (b : Bandwidth) →
        find key_cmp key (with_holding key holding b).claims
        ≡ option_map (λ (claim : Claim). record claim { holding = holding }) (find key_cmp key b.claims) }
    ensures others { (key other : Key) (holding : ℕ) (b : Bandwidth) → other ≢ key →
        IsSameOf other (with_holding key holding b) b }
{}

/// An LSP that has a reservation takes what that says, kept at some priority of 0 to 7; one that has none takes nothing.
pub fn claims_are_of_reservations()
    ensures taken { (key : Key) (fact : ResvFact) (b : Bandwidth) → AreMatched b.resvs b.claims →
        find key_cmp key b.resvs ≡ Some fact →
        (holding : ℕ) × (holding ≤ 7) × (find key_cmp key b.claims ≡ Some (claim_of fact holding)) }
    ensures nothing { (key : Key) (b : Bandwidth) → AreMatched b.resvs b.claims →
        find key_cmp key b.resvs ≡ None → find key_cmp key b.claims ≡ None }
{}
