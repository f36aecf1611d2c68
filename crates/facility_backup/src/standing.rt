//! What an LSP has that is repaired, and whether its reservation or its repair still stands (RFC 4090, 6.4).

ghost use Rattle.std.specs.Option.{option_copied, option_map};
ghost use Rattle.std.specs.Prelude.{◌≡◌};
ghost use Rattle.lsr_facts.specs.declared.path_fact.PathFact.{PathFact};
ghost use Rattle.lsr_facts.specs.Reservations.{timeless_resv};
ghost use Rattle.abstract_router.specs.Lsps.{held_of, lsp_of};
ghost use Rattle.abstract_router.specs.Repairing.{repair_stands};
ghost use Rattle.abstract_router.specs.Standing.{stands};

use crate::bypass_tunnels::over_at;
use lsr_facts::{Key, Repair, ResvFact};
use message_rules::{is_up, leaves_by};
use state_views::StateView;

/// Whether a reservation stands on its path: on the link that this leaves by, which is up. Takes no memory.
pub fn stands<V: StateView>(view: &V, key: &Key, resv: &ResvFact) -> bool
    ensures { result ≡ stands (V.state view.now).facts (key.now, resv.now) }
{
    if !is_up(view.node().up, resv.link) {
        return false;
    }
    match view.path(key) {
        Some(path) => leaves_by(resv.link, path),
        None => false,
    }
}

/// Whether a repair stands: its bypass is up, and its path leaves by the link that this protects. Takes no memory.
pub fn repair_stands<V: StateView>(view: &V, key: &Key, repair: &Repair) -> bool
    ensures { result ≡ repair_stands (V.router view.now) (V.state view.now) (key.now, repair.now) }
{
    if over_at(view, repair.bypass).is_none() {
        return false;
    }
    match view.path(key) {
        Some(path) => leaves_by(repair.resv.link, path),
        None => false,
    }
}

/// What holds an LSP's label at the router after it: its reservation, or what its repair keeps of it. Takes no memory.
pub fn held_of<'a, V: StateView>(view: &'a V, key: &Key) -> Option<&'a ResvFact>
    ensures { (path : PathFact) → option_map timeless_resv (option_copied result)
        ≡ held_of (lsp_of (V.state view.now) key.now path) }
{
    match view.resv(key) {
        Some(resv) => Some(resv),
        None => view.repair(key).map(|repair| &repair.resv),
    }
}
