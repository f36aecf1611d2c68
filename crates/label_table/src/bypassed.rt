//! The LSPs whose frames may go another way because bypasses come to run over something else.

ghost use Rattle.std.specs.Prelude.{◌≡◌, IfOk};
ghost use Rattle.state_views.specs.Edits.{edited};
ghost use Rattle.label_table.specs.Bypassed.{AreBypassed, with_keys};

use facility_backup::is_same_around;
use lsr_facts::Key;
use sorted_rows::Table;
use state_views::{Edits, WholeState};
use std::alloc::AllocError;

/// Among others all LSPs that are repaired. The only error is out of memory.
fn with_repaired<V: WholeState>(
    view: &V,
    keys: Table<Key, ()>,
) -> Result<Table<Key, ()>, AllocError>
    ensures { IfOk result (λ all. all ≡ with_keys (V.state view.now).repairs keys) }
{
    let mut all = keys;
    for place in 0..view.repair_count() {
        if let Some(repair) = view.repair_at(place) {
            all.set(repair.0, ())?;
        }
    }
    Ok(all)
}

/// Among others the LSPs whose frames bypasses may take another way after edits: all that are repaired, where bypasses
/// run over something else then. The only error is out of memory.
pub(crate) fn with_bypassed<V: WholeState>(
    view: &V,
    edits: &Edits,
    keys: Table<Key, ()>,
) -> Result<Table<Key, ()>, AllocError>
    ensures { IfOk result (AreBypassed (V.router view.now) (V.state view.now) (edited edits.now (V.state view.now)) keys) }
{
    if is_same_around(view, edits) {
        return Ok(keys);
    }
    with_repaired(view, keys)
}
