//! What holds of the label table of a state. Each law is the contract of a function that does nothing.

ghost use Rattle.std.specs.FinMap.Entries.{find};
ghost use Rattle.std.specs.Ordering.{nat_cmp};
ghost use Rattle.std.specs.Prelude.{◌≡◌, ℕ, List, []};
ghost use Rattle.label_stacks.specs.declared.entry.StackEntry.{StackEntry};
ghost use Rattle.lsr_facts.specs.declared.router.Router.{Router};
ghost use Rattle.forwarding_table.specs.Forwarding.{forward_of};
ghost use Rattle.forwarding_table.specs.declared.action.Action.{Action};
ghost use Rattle.abstract_router.specs.BypassTunnels.{bypass_tunnels_of};
ghost use Rattle.abstract_router.specs.LspLaws.{AreAlike};
ghost use Rattle.abstract_router.specs.States.{State};
ghost use Rattle.abstract_router.specs.Tables.{forwarded};
ghost use Rattle.label_table.specs.Rows.{IsTableOf};

/// A router that knows no path has no actions.
pub fn no_path_has_no_action()
    ensures { (r : Router) (s : State) → s.facts.paths ≡ [] → IsTableOf r s [] }
{}

/// Where paths, reservations, repairs and labels are the same, and bypasses run over the same, so is the label table.
pub fn the_table_stands_on_lsps_and_bypasses()
    ensures { (r : Router) (s t : State) (rows : List (ℕ × Action)) → bypass_tunnels_of r s ≡ bypass_tunnels_of r t →
        s.facts.paths ≡ t.facts.paths → AreAlike s t → IsTableOf r s rows → IsTableOf r t rows }
{}

/// What becomes of a frame by the rows of the label table becomes of it by the state.
pub fn frames_go_as_the_state_says()
    ensures { (r : Router) (s : State) (rows : List (ℕ × Action)) (stack : List StackEntry) → IsTableOf r s rows →
        forward_of (λ label. find nat_cmp label rows) stack ≡ forwarded r s stack }
{}
