//! All that follows from an event's own change.

ghost use Rattle.std.specs.Prelude.{◌≡◌, IfOk};
ghost use Rattle.lsr_facts.specs.Orders.{key_cmp};
ghost use Rattle.bypass_shares.specs.Shares.{IsWithin};
ghost use Rattle.label_space.specs.Rests.{resting_past};
ghost use Rattle.abstract_paths.specs.Soundness.{IsStanding};
ghost use Rattle.abstract_router.specs.Assigning.{capacity_in, in_use_of};
ghost use Rattle.abstract_router.specs.Repairing.{told_repaired};
ghost use Rattle.abstract_router.specs.Soundness.{IsSound};
ghost use Rattle.abstract_router.specs.Steps.{promised, settled};
ghost use Rattle.state_views.specs.Edits.{edited};

use crate::labels::give_labels;
use crate::promises::promise_anew;
use crate::repair::repair_all;
use crate::standing::{take_assignments, take_repairs, take_resvs};
use lsr_facts::Key;
use make_before_break::take_over;
use sorted_rows::Table;
use state_views::{Edits, Outputs, WholeState};
use std::alloc::{AllocError, Global};

/// An event's own change with all that follows from it.
#[derive(Debug, Drop)]
pub struct Settled {
    /// What changes, but for the moments at which messages were sent.
    pub edits: Edits,
    /// The labels that were chosen for LSPs that are new.
    pub chosen: Table<Key, u32>,
    /// The errors that repair tells.
    pub told: Outputs,
}

/// What follows from an event's own change, in this order: tunnels go over to new LSPs; the bandwidth of bypasses is promised
/// anew; what a lost link takes away is repaired; reservations go that stand no more, then repairs, then promises; an LSP that
/// is new has the label that was chosen for it, and the labels of those that went rest. It asks for a sound state, and for edits
/// that leave links, tunnels and paths as they should be, labels and promises as they are, those in use within the bypasses' capacities, and
/// what rests past the moment; whether the labels may be chosen doesn't matter to it. The only error is out of memory.
pub fn settle_by<V: WholeState>(
    alloc: Global,
    view: &V,
    chosen: Table<Key, u32>,
    edits: Edits,
) -> Result<Settled, AllocError>
    requires sound { IsSound (V.router view.now) (V.state view.now) }
    requires standing { IsStanding (V.router view.now) (edited edits (V.state view.now)).facts }
    requires labels { (edited edits (V.state view.now)).labels ≡ (V.state view.now).labels }
    requires promises { (edited edits (V.state view.now)).assignments ≡ (V.state view.now).assignments }
    requires within { IsWithin key_cmp (capacity_in (edited edits (V.state view.now)).facts.bypasses)
        (in_use_of (edited edits (V.state view.now))) }
    requires resting { (edited edits (V.state view.now)).resting
        ≡ resting_past (edited edits (V.state view.now)).facts.moment (V.state view.now).resting }
    ensures after { IfOk result (λ x. edited x.edits (V.state view.now)
        ≡ settled (V.router view.now) x.chosen (edited edits (V.state view.now))) }
    ensures told { IfOk result (λ x. x.told
        ≡ told_repaired (V.router view.now) (promised (V.router view.now) (edited edits (V.state view.now)))) }
    ensures chosen { IfOk result (λ x. x.chosen ≡ chosen) }
{
    let mut edits = edits;
    take_over(alloc, view, &mut edits)?;
    promise_anew(alloc, view, &mut edits)?;
    let told = repair_all(alloc, view, &mut edits)?;
    take_resvs(alloc, view, &mut edits)?;
    take_repairs(alloc, view, &mut edits)?;
    take_assignments(alloc, view, &mut edits)?;
    give_labels(alloc, view, &chosen, &mut edits)?;
    Ok(Settled {
        edits,
        chosen,
        told,
    })
}
