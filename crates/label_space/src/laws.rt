//! What holds of labels however they are held and released. Each law is the contract of a function that does nothing.

ghost use Rattle.std.specs.Prelude.{◌≡◌, ◌≢◌, ◌<◌, ◌≤◌, ◌⊎◌, ℕ, ◌↔◌, List, ◌∷◌, All, Contains, Some, None};
ghost use Rattle.label_space.specs.Changes.{Change, IsTaken, after};
ghost use Rattle.label_space.specs.Labels.{IsFree, IsHeld, IsLabelSpace, IsOf, IsResting, Labels, end_rests, give, hold, release, wake};

/// What is given is free, and one of the range.
pub fn what_is_given_is_free()
    ensures free { (labels : Labels) (label : ℕ) → give labels ≡ Some label → IsFree labels label }
    ensures own { (labels : Labels) (label : ℕ) → IsLabelSpace labels → give labels ≡ Some label →
        IsOf labels.range label }
{}

/// What is held isn't given.
pub fn what_is_held_is_not_given()
    ensures { (labels : Labels) (label : ℕ) → IsHeld labels label → give labels ≢ Some label }
{}

/// What rests isn't given.
pub fn what_rests_is_not_given()
    ensures { (labels : Labels) (label : ℕ) → IsLabelSpace labels → IsResting labels label →
        give labels ≢ Some label }
{}

/// No label is given exactly where each of the range is held or rests.
pub fn none_is_given_where_each_is_held_or_rests()
    ensures { (labels : Labels) → IsLabelSpace labels → ((give labels ≡ None) ↔
        ((label : ℕ) → IsOf labels.range label → IsHeld labels label ⊎ IsResting labels label)) }
{}

/// A free label that is held now is held, and those that were. Every other label is as before.
pub fn hold_changes_one_label()
    ensures held { (labels : Labels) (label other : ℕ) → IsLabelSpace labels → IsFree labels label →
        (IsHeld (hold labels label) other ↔ (IsHeld labels other ⊎ (other ≡ label))) }
    ensures others { (labels : Labels) (label other : ℕ) → other ≢ label →
        (IsFree (hold labels label) other ↔ IsFree labels other) }
{}

/// A label that was released is held no more. It is free where the moment until which it rests has come, and rests until
/// then where it hasn't. Every other label is as before.
pub fn release_changes_one_label()
    ensures held { (labels : Labels) (label until other : ℕ) →
        (IsHeld (release labels label until) other ↔ (IsHeld labels other × (other ≢ label))) }
    ensures free { (labels : Labels) (label until : ℕ) → until ≤ labels.moment →
        IsFree (release labels label until) label }
    ensures resting { (labels : Labels) (label until : ℕ) → labels.moment < until →
        Contains (release labels label until).resting (label, until) }
    ensures others { (labels : Labels) (label until other : ℕ) → other ≢ label →
        (IsFree (release labels label until) other ↔ IsFree labels other) }
{}

/// When a moment comes, the labels that rest until then or less are free, and those that rest longer still do. What is
/// held is held as before.
pub fn a_moment_wakes_what_is_over()
    ensures held { (labels : Labels) (now label : ℕ) → (IsHeld (wake labels now) label ↔ IsHeld labels label) }
    ensures free { (labels : Labels) (label until now : ℕ) → Contains labels.resting (label, until) → until ≤ now →
        IsFree (wake labels now) label }
    ensures resting { (labels : Labels) (label until now : ℕ) → Contains labels.resting (label, until) → now < until →
        Contains (wake labels now).resting (label, until) }
{}

/// A change leaves labels that are in the range, none of them free twice, nor free and resting.
pub fn changes_keep_the_space()
    ensures hold { (labels : Labels) (label : ℕ) → IsLabelSpace labels → IsLabelSpace (hold labels label) }
    ensures release { (labels : Labels) (label until : ℕ) → IsLabelSpace labels → IsHeld labels label →
        IsLabelSpace (release labels label until) }
    ensures wake { (labels : Labels) (now : ℕ) → IsLabelSpace labels → IsLabelSpace (wake labels now) }
    ensures end_rests { (labels : Labels) → IsLabelSpace labels → IsLabelSpace (end_rests labels) }
{}

/// When the label that was given is held, the next in line is given next.
pub fn labels_are_given_in_line()
    ensures { (labels : Labels) (label : ℕ) (others : List ℕ) → IsLabelSpace labels →
        labels.free ≡ label ∷ others → (hold labels label).free ≡ others }
{}

/// A released label is given only after all that were free before it: whatever becomes of labels from then on, when
/// it is given again each of them was taken in between.
pub fn a_released_label_waits_for_all_before_it()
    ensures { (labels : Labels) (label until : ℕ) (changes : List Change) → IsHeld labels label →
        ¬ IsTaken changes label → give (after changes (release labels label until)) ≡ Some label →
        All (IsTaken changes) labels.free }
{}
