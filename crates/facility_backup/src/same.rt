//! Whether edits leave what an LSP has as it is.

ghost use Rattle.std.specs.FinMap.Entries.{find};
ghost use Rattle.std.specs.Option.{option_copied, option_map};
ghost use Rattle.std.specs.Prelude.{◌≡◌, true};
ghost use Rattle.lsr_facts.specs.Orders.{key_cmp};
ghost use Rattle.lsr_facts.specs.Reservations.{timeless_repair, timeless_resv};
ghost use Rattle.lsr_facts.specs.Timeless.{timeless_path};
ghost use Rattle.state_views.specs.Edits.{edited};

use lsr_facts::{Key, PathFact, Repair, ResvFact};
use state_views::{Edits, StateView};

/// Whether what is known of a path is the same, but for when it expires.
fn is_same_path(was: Option<&PathFact>, is: Option<&PathFact>) -> bool
    ensures { result ≡ true → option_map timeless_path (option_copied was.entry)
        ≡ option_map timeless_path (option_copied is.entry) }
{
    match (was, is) {
        (Some(was), Some(is)) => was.is_same_but_expiry(is),
        (None, None) => true,
        _ => false,
    }
}

/// Whether what is known of a reservation is the same, but for when it expires.
fn is_same_resv(was: Option<&ResvFact>, is: Option<&ResvFact>) -> bool
    ensures { result ≡ true → option_map timeless_resv (option_copied was.entry)
        ≡ option_map timeless_resv (option_copied is.entry) }
{
    match (was, is) {
        (Some(was), Some(is)) => was.is_same_but_expiry(is),
        (None, None) => true,
        _ => false,
    }
}

/// Whether what is known of a repair is the same, but for when it expires.
fn is_same_repair(was: Option<&Repair>, is: Option<&Repair>) -> bool
    ensures { result ≡ true → option_map timeless_repair (option_copied was.entry)
        ≡ option_map timeless_repair (option_copied is.entry) }
{
    match (was, is) {
        (Some(was), Some(is)) => was.is_same_but_expiry(is),
        (None, None) => true,
        _ => false,
    }
}

/// Whether edits leave an LSP's path as it is, but for when it expires. Takes no memory.
#[tactic(auto, using(state_views::specs::EditLaws::row_edited))]
pub fn leaves_path<V: StateView>(view: &V, edits: &Edits, key: &Key) -> bool
    ensures { result ≡ true → option_map timeless_path (find key_cmp key.now (V.state view.now).facts.paths)
        ≡ option_map timeless_path (find key_cmp key.now (edited edits.now (V.state view.now)).facts.paths) }
{
    match edits.paths.get(key) {
        Some(edit) => is_same_path(view.path(key), edit.as_ref()),
        None => true,
    }
}

/// Whether edits leave an LSP's reservation as it is, but for when it expires. Takes no memory.
#[tactic(auto, using(state_views::specs::EditLaws::row_edited))]
pub fn leaves_resv<V: StateView>(view: &V, edits: &Edits, key: &Key) -> bool
    ensures { result ≡ true → option_map timeless_resv (find key_cmp key.now (V.state view.now).resvs)
        ≡ option_map timeless_resv (find key_cmp key.now (edited edits.now (V.state view.now)).resvs) }
{
    match edits.resvs.get(key) {
        Some(edit) => is_same_resv(view.resv(key), edit.as_ref()),
        None => true,
    }
}

/// Whether edits leave an LSP's repair as it is, but for when it expires. Takes no memory.
#[tactic(auto, using(state_views::specs::EditLaws::row_edited))]
pub fn leaves_repair<V: StateView>(view: &V, edits: &Edits, key: &Key) -> bool
    ensures { result ≡ true → option_map timeless_repair (find key_cmp key.now (V.state view.now).repairs)
        ≡ option_map timeless_repair (find key_cmp key.now (edited edits.now (V.state view.now)).repairs) }
{
    match edits.repairs.get(key) {
        Some(edit) => is_same_repair(view.repair(key), edit.as_ref()),
        None => true,
    }
}
