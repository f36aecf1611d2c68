//! Whether an LSP is the same before and after edits, but for when it expires. What has no edit is the same: it isn't looked
//! up.

ghost use Rattle.std.specs.FinMap.Entries.{find};
ghost use Rattle.std.specs.Prelude.{◌≡◌, true};
ghost use Rattle.lsr_facts.specs.Orders.{key_cmp};
ghost use Rattle.abstract_router.specs.Lsps.{lsp_at};
ghost use Rattle.state_views.specs.Edits.{edited};
ghost use Rattle.state_sends.specs.Touching.{IsSaidAgain, said_by_paths};

use facility_backup::{leaves_path, leaves_repair, leaves_resv};
use lsr_facts::Key;
use state_views::{Edits, StateView};

/// Whether edits leave an LSP's label as it is.
#[tactic(auto, using(state_views::specs::EditLaws::row_edited))]
fn leaves_label<V: StateView>(view: &V, edits: &Edits, key: &Key) -> bool
    ensures { result ≡ true → find key_cmp key.now (V.state view.now).labels
        ≡ find key_cmp key.now (edited edits.now (V.state view.now)).labels }
{
    match edits.labels.get(key) {
        Some(edit) => view.label(key) == *edit,
        None => true,
    }
}

/// Whether edits leave what an LSP is promised of a bypass as it is.
#[tactic(auto, using(state_views::specs::EditLaws::row_edited))]
fn leaves_assignment<V: StateView>(view: &V, edits: &Edits, key: &Key) -> bool
    ensures { result ≡ true → find key_cmp key.now (V.state view.now).assignments
        ≡ find key_cmp key.now (edited edits.now (V.state view.now)).assignments }
{
    match edits.assignments.get(key) {
        Some(edit) => view.assignment(key) == *edit,
        None => true,
    }
}

/// Whether the same is known of an LSP before and after edits, but for when it expires. What is quickest is compared
/// first.
pub(crate) fn is_same_lsp<V: StateView>(view: &V, edits: &Edits, key: &Key) -> bool
    ensures { result ≡ true → lsp_at (V.state view.now) key.now ≡ lsp_at (edited edits.now (V.state view.now)) key.now }
{
    leaves_label(view, edits, key)
        && leaves_assignment(view, edits, key)
        && leaves_repair(view, edits, key)
        && leaves_resv(view, edits, key)
        && leaves_path(view, edits, key)
}

/// Whether Paths say the same of an LSP before and after edits, as they do where its path and its repair are the same.
pub(crate) fn is_same_downstream<V: StateView>(view: &V, edits: &Edits, key: &Key) -> bool
    ensures { result ≡ true → IsSaidAgain said_by_paths
        (V.state view.now) (edited edits.now (V.state view.now)) key.now }
{
    leaves_repair(view, edits, key) && leaves_path(view, edits, key)
}
