//! What a change of one row leaves as it was, and what holds of whatever is forwarded. Each law is the contract of a
//! function that does nothing.

ghost use Rattle.std.specs.FinMap.Entries.{find};
ghost use Rattle.std.specs.Ordering.{nat_cmp};
ghost use Rattle.std.specs.Prelude.{◌≡◌, ◌≢◌, ◌↔◌, ◌∷◌, ℕ, All, IfSome, List, [], Option, Some, None};
ghost use Rattle.label_stacks.specs.declared.entry.StackEntry.{StackEntry};
ghost use Rattle.label_stacks.specs.Stacks.{IsStack};
ghost use Rattle.sorted_rows.specs.Edits.{at_key};
ghost use Rattle.forwarding_table.specs.declared.action.Action.{Action};
ghost use Rattle.forwarding_table.specs.declared.action.Action.TheVariants.{Pop, Swap, SwapPush};
ghost use Rattle.forwarding_table.specs.declared.forwarding.Fault.TheVariants.{HopLimit, NoLabel};
ghost use Rattle.forwarding_table.specs.declared.forwarding.Forwarding.TheVariants.{Deliver, Drop, Send};
ghost use Rattle.forwarding_table.specs.Actions.{WritesLabels};
ghost use Rattle.forwarding_table.specs.Forwarding.{IsSent, action_at, forward_of};
ghost use Rattle.forwarding_table.specs.Labels.{explicit_null, implicit_null};

use crate::action::{EXPLICIT_NULL, FIRST_LABEL, IMPLICIT_NULL, LAST_LABEL};

/// The constants have the numbers of RFC 3032, 2.1.
pub fn labels_have_their_numbers()
    ensures explicit { EXPLICIT_NULL ≡ explicit_null }
    ensures implicit { IMPLICIT_NULL ≡ implicit_null }
    ensures first { FIRST_LABEL ≡ 16 }
    ensures last { LAST_LABEL ≡ 1048575 }
{}

/// A label or a tunnel that was changed has the action that it was given, or none, and every other one has the action
/// that it had.
pub fn change_changes_one_row()
    ensures same { (key : ℕ) (action : Option Action) (rows : List (ℕ × Action)) →
        find nat_cmp key (at_key nat_cmp key action rows) ≡ action }
    ensures others { (key other : ℕ) (action : Option Action) (rows : List (ℕ × Action)) → other ≢ key →
        find nat_cmp other (at_key nat_cmp key action rows) ≡ find nat_cmp other rows }
{}

/// A label is swapped; while a repair is in use, a bypass's label goes over it; and where the next router asked for
/// implicit null, the entry is left out. A TTL of 1 goes no further, and an unknown label is a fault before that.
pub fn examples_are_forwarded()
    ensures swap { forward_of (λ label. find nat_cmp label ((16, Swap 100 2) ∷ []))
        ((record { label = 16; class = 0; ttl = 64 }) ∷ [])
        ≡ Send 2 ((record { label = 100; class = 0; ttl = 63 }) ∷ []) }
    ensures repair { forward_of (λ label. find nat_cmp label ((16, SwapPush 200 500 3) ∷ []))
        ((record { label = 16; class = 0; ttl = 64 }) ∷ [])
        ≡ Send 3 ((record { label = 500; class = 0; ttl = 63 }) ∷ (record { label = 200; class = 0; ttl = 63 }) ∷ []) }
    ensures last_but_one { forward_of (λ label. find nat_cmp label ((16, Swap 3 2) ∷ []))
        ((record { label = 16; class = 0; ttl = 64 }) ∷ []) ≡ Send 2 [] }
    ensures ran_out { forward_of (λ label. find nat_cmp label ((16, Swap 100 2) ∷ []))
        ((record { label = 16; class = 0; ttl = 1 }) ∷ []) ≡ Drop HopLimit }
    ensures unknown { forward_of (λ label. find nat_cmp label ((16, Swap 100 2) ∷ []))
        ((record { label = 17; class = 0; ttl = 1 }) ∷ []) ≡ Drop NoLabel }
{}

/// A stack is delivered just where each of its entries is popped.
pub fn what_is_popped_is_delivered()
    ensures { (look : ℕ → Option Action) (stack : List StackEntry) →
        (forward_of look stack ≡ Deliver) ↔ All (λ entry. action_at look entry ≡ Some Pop) stack }
{}

/// What is sent has entries with a TTL below that of the entry that was looked at last, and below them those that
/// stood below it, as they came.
pub fn what_is_sent_has_a_lower_ttl()
    ensures { (look : ℕ → Option Action) (stack out : List StackEntry) (link : ℕ) →
        forward_of look stack ≡ Send link out → IsSent look stack out }
{}

/// What is sent is a stack again, where the actions write labels.
pub fn what_is_sent_is_a_stack()
    ensures { (look : ℕ → Option Action) (stack out : List StackEntry) (link : ℕ) →
        ((label : ℕ) → IfSome (look label) WritesLabels) → IsStack stack →
        forward_of look stack ≡ Send link out → IsStack out }
{}
