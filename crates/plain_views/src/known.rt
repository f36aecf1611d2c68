//! A router beside its state, as a view of what it knows.

ghost use Rattle.std.specs.Prelude.{◌≡◌};

use lsr_facts::{Assignment, Bypass, Key, Node, PathFact, Repair, ResvFact, Router, State, Tunnel};
use sorted_rows::Table;
use state_views::StateView;

/// A router and its state, whatever it is: what it is asked it looks up.
#[derive(Clone, Copy, Debug)]
pub struct Known<'a> {
    /// What never changes of the router.
    pub router: &'a Router,
    /// All else that it knows.
    pub state: &'a State,
}

impl StateView for Known<'_> {
    ghost router = { λ k. k.router.now };

    ghost state = { λ k. k.state.now };

    fn node(&self) -> Node<'_> {
        Node {
            router: self.router,
            up: &self.state.facts.up,
            routes: &self.state.facts.routes,
        }
    }

    fn refresh_ms(&self) -> u32 {
        self.router.refresh_ms
    }

    fn label_rest_ms(&self) -> u32 {
        self.router.label_rest_ms
    }

    fn moment(&self) -> u64 {
        self.state.facts.moment
    }

    fn tunnel(&self, number: u16) -> Option<&Tunnel> {
        self.state.facts.tunnels.get(&number)
    }

    fn bypasses(&self) -> &Table<u16, Bypass> {
        &self.state.facts.bypasses
    }

    fn path(&self, key: &Key) -> Option<&PathFact> {
        self.state.facts.paths.get(key)
    }

    fn resv(&self, key: &Key) -> Option<&ResvFact> {
        self.state.resvs.get(key)
    }

    fn repair(&self, key: &Key) -> Option<&Repair> {
        self.state.repairs.get(key)
    }

    fn label(&self, key: &Key) -> Option<u32> {
        self.state.labels.get(key).copied()
    }

    fn assignment(&self, key: &Key) -> Option<Assignment> {
        self.state.assignments.get(key).copied()
    }
}
