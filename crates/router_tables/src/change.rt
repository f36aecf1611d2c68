//! The change of a step.

ghost use Rattle.std.specs.Prelude.{◌≡◌};
ghost use Rattle.lsr_facts.specs.declared.router.Router.{Router};
ghost use Rattle.abstract_router.specs.States.{State};
ghost use Rattle.abstract_router.specs.Tables.{TellsChange};
ghost use Rattle.router_tables.specs.Changes.{IsChange, changed};

use forwarding_table::Action;
use lsr_facts::{Item, Key, ResvFact, Upstream};
use sorted_rows::Table;
use state_views::Edits;

/// Edits of what LSPs have: from now on this reservation, kept at this priority, or none.
pub type BandwidthEdits = Table<Key, Option<(ResvFact, u8)>>;

/// All that a step changes, with all the memory that this takes. Where a row of a table is `None`, it goes.
#[derive(Debug, Drop)]
pub struct Change {
    /// What becomes known. What becomes of reservations is told beside it.
    pub edits: Edits,
    /// Of LSPs the reservation that each has from now on, and the priority at which it is kept.
    pub bandwidth: BandwidthEdits,
    /// When Paths were sent last that are kept alive at a neighbour, in milliseconds.
    pub moments: Table<Item, Option<u64>>,
    /// When Resvs were sent last that are kept alive at a neighbour, in milliseconds.
    pub upstream: Table<Upstream, Option<u64>>,
    /// What is done with labels from now on.
    pub table: Table<u32, Option<Action>>,
    /// What is done with the traffic of tunnels from now on.
    pub tunnel_table: Table<u16, Option<Action>>,
}

impl Change {
    /// Whether it changes what is forwarded: the action of a label, or of a tunnel.
    pub fn changes_table(&self) -> bool
        ensures { (r : Router) (s : State) → IsChange r s self.now → TellsChange result r s (changed self.now s) }
    {
        !self.table.as_slice().is_empty() || !self.tunnel_table.as_slice().is_empty()
    }
}
