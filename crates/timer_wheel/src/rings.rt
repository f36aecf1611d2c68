// Rings of nodes: each node has the node after it in its ring, and the one before it.
ghost use Rattle.std.specs.Prelude.{◌≡◌, ◌<◌, ◌≤◌, ◌≢◌, ℕ, List, ◌∷◌, false, not, filter, length, nat_eq, slice_index};
ghost use Rattle.std.specs.List.{list_any};
ghost use Rattle.timer_wheel.specs.Rings.{AreRings, IsRing};

/// Takes a node out of its ring: it is alone in a ring then. The other rings stay as they are.
pub fn unlink(after: &mut Vec<usize>, before: &mut Vec<usize>, node: usize)
    requires rings { AreRings after.old.items before.old.items }
    requires within { node < length after.old.items }
    ensures rings { AreRings after.new.items before.new.items }
    ensures nodes { length after.new.items ≡ length after.old.items }
    ensures alone { slice_index after.new.items node ≡ node }
    ensures others { (bound head : ℕ) (slots : List ℕ) → bound ≤ length after.old.items → head < length after.old.items → head ≢ node →
        IsRing after.old.items bound head slots →
        IsRing after.new.items bound head (filter (λ slot. not (nat_eq node slot)) slots) }
{
    let earlier = before[node];
    let later = after[node];
    after[earlier] = later;
    before[later] = earlier;
    after[node] = node;
    before[node] = node;
}

/// Puts a slot that is alone right after a head.
pub fn link(after: &mut Vec<usize>, before: &mut Vec<usize>, slot: usize, head: usize)
    requires rings { AreRings after.old.items before.old.items }
    requires within { slot < length after.old.items }
    requires head_within { head < length after.old.items }
    requires apart { slot ≢ head }
    requires alone { slice_index after.old.items slot ≡ slot }
    ensures rings { AreRings after.new.items before.new.items }
    ensures nodes { length after.new.items ≡ length after.old.items }
    ensures first { (bound : ℕ) (slots : List ℕ) → slot < bound → bound ≤ head → list_any (nat_eq slot) slots ≡ false →
        IsRing after.old.items bound head slots → IsRing after.new.items bound head (slot ∷ slots) }
    ensures others { (bound other : ℕ) (slots : List ℕ) → bound ≤ head → other ≢ head → other ≢ slot →
        list_any (nat_eq slot) slots ≡ false →
        IsRing after.old.items bound other slots → IsRing after.new.items bound other slots }
{
    let later = after[head];
    after[head] = slot;
    after[slot] = later;
    before[slot] = head;
    before[later] = slot;
}

/// Makes each node stand alone.
pub fn part(nodes: &mut Vec<usize>)
    ensures nodes { length nodes.new.items ≡ length nodes.old.items }
    ensures alone { (x : ℕ) → x < length nodes.new.items → slice_index nodes.new.items x ≡ x }
{
    for node in 0..nodes.len() {
        nodes[node] = node;
    }
}
