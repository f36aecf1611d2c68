//! What changes of a label table mean. Each law is the contract of a function that does nothing.

ghost use Rattle.std.specs.FinMap.Entries.{find};
ghost use Rattle.std.specs.Ordering.{nat_cmp};
ghost use Rattle.std.specs.Prelude.{◌≡◌, ◌≢◌, ◌∷◌, ◌++◌, ℕ, false, true, List, [], Option, None, Some};
ghost use Rattle.sorted_rows.specs.Edits.{over};
ghost use Rattle.forwarding_table.specs.declared.action.Action.{Action};
ghost use Rattle.lookup_plane.specs.Changes.{look, look_tunnel};
ghost use Rattle.lookup_plane.specs.declared.change.TableChange.{TableChange};

/// At first nothing is done with any label, nor with the traffic of any tunnel.
pub fn a_new_table_is_empty()
    ensures labels { (label : ℕ) → look [] label ≡ None }
    ensures tunnels { (number : ℕ) → look_tunnel [] number ≡ None }
{}

/// After a change that clears nothing the labels and tunnels of its rows have the actions of the rows, or none, and
/// every other one has the action that it had.
pub fn a_change_decides_its_rows()
    ensures labels { (changes : List TableChange) (rows others : List (ℕ × Option Action)) (label : ℕ) →
        look (changes ++ (record { cleared = false; labels = rows; tunnels = others }) ∷ []) label
        ≡ over (find nat_cmp label rows) (look changes label) }
    ensures tunnels { (changes : List TableChange) (rows others : List (ℕ × Option Action)) (number : ℕ) →
        look_tunnel (changes ++ (record { cleared = false; labels = others; tunnels = rows }) ∷ []) number
        ≡ over (find nat_cmp number rows) (look_tunnel changes number) }
{}

/// After a restart, which clears all and has no rows, nothing is done with any label, nor with the traffic of any
/// tunnel.
pub fn a_restart_empties_the_table()
    ensures labels { (changes : List TableChange) (label : ℕ) →
        look (changes ++ (record { cleared = true; labels = []; tunnels = [] }) ∷ []) label ≡ None }
    ensures tunnels { (changes : List TableChange) (number : ℕ) →
        look_tunnel (changes ++ (record { cleared = true; labels = []; tunnels = [] }) ∷ []) number ≡ None }
{}
