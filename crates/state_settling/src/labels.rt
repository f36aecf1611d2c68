//! The labels that LSPs have once an event's own change is made.

ghost use Rattle.std.specs.FinMap.Entries.{is_sorted};
ghost use Rattle.std.specs.Option.{option_map};
ghost use Rattle.std.specs.Prelude.{◌≡◌, ◌≤◌, ◌^◌, ◌∷◌, [], IfOk, OnOk, T, filter_map, find as find_first, not};
ghost use Rattle.sorted_rows.specs.Rows.{keys_of};
ghost use Rattle.sorted_rows.specs.Edits as rows;
ghost use Rattle.lsr_facts.specs.Orders.{key_cmp};
ghost use Rattle.label_space.specs.Rests.{resting_past};
ghost use Rattle.abstract_router.specs.Choosing.{CanLabel};
ghost use Rattle.abstract_router.specs.Labels.{IsLabelling, labelled_keys};
ghost use Rattle.abstract_router.specs.Steps.{labelled};
ghost use Rattle.state_views.specs.Edits.{edited};
ghost use Rattle.state_settling.specs.Relabelling.{is_new, label_edit, label_edits, needs_label, rest_until};

use lsr_facts::{Key, PathFact, begins_here};
use sorted_rows::Table;
use state_views::{Changed, Edits, StateView, WholeState};
use std::alloc::{AllocError, Global};

/// Whether an LSP is to have a label of which this is known from now on: it has a path, which doesn't begin here.
fn needs_label(now: &Option<PathFact>) -> bool
    ensures { result ≡ needs_label now.now }
{
    match now {
        Some(path) => !begins_here(path.role),
        None => false,
    }
}

/// Whether the LSP of an edit is to have a label, and has none yet.
fn is_new<V: StateView>(view: &V, edit: &(Key, Option<PathFact>)) -> bool
    ensures { result ≡ is_new (V.state view.now).labels edit.now }
{
    needs_label(&edit.1) && view.label(&edit.0).is_none()
}

/// The first LSP of edits that is to have a label and has none yet.
fn new_lsp<V: StateView>(view: &V, paths: &[(Key, Option<PathFact>)]) -> Option<Key>
    ensures { result ≡ option_map (λ edit. edit.0) (find_first (is_new (V.state view.now).labels) paths.now) }
{
    for edit in paths {
        if is_new(view, edit) {
            return Some(edit.0);
        }
    }
    None
}

/// One LSP has this label. The only error is out of memory.
fn one_label(alloc: Global, key: Key, label: u32) -> Result<Table<Key, u32>, AllocError>
    ensures { IfOk result (λ labels. labels ≡ (key, label) ∷ []) }
{
    let mut labels = Table::new(alloc);
    labels.set(key, label)?;
    Ok(labels)
}

/// The labels that are chosen for edits of paths: a free one for the LSP that is new, where one is. It asks that no
/// more than one is new, and that then a label is free. The only error is out of memory.
pub fn chosen_labels<V: WholeState>(
    alloc: Global,
    view: &V,
    paths: &[(Key, Option<PathFact>)],
) -> Result<Table<Key, u32>, AllocError>
    requires order { T (is_sorted key_cmp paths.now) }
    requires known { T (is_sorted key_cmp (V.state view.now).facts.paths) }
    requires held { keys_of (V.state view.now).labels ≡ labelled_keys (V.state view.now).facts.paths }
    requires choice { CanLabel (V.router view.now) (V.state view.now)
        (rows.edited key_cmp paths.now (V.state view.now).facts.paths) }
    ensures chosen { IfOk result (IsLabelling (V.router view.now) (V.state view.now)
        (rows.edited key_cmp paths.now (V.state view.now).facts.paths)) }
{
    let Some(key) = new_lsp(view, paths) else {
        return Ok(Table::new(alloc));
    };
    let label = view.free_label().unwrap();
    one_label(alloc, key, label)
}

/// What becomes of an LSP's label by an edit of its path, where these are chosen; `None` where nothing does.
fn label_edit<V: StateView>(
    view: &V,
    chosen: &Table<Key, u32>,
    edit: &(Key, Option<PathFact>),
) -> Option<(Key, Option<u32>)>
    ensures { result ≡ option_map (λ now. (edit.now.0, now)) (label_edit (V.state view.now).labels chosen.now edit.now) }
{
    match (needs_label(&edit.1), view.label(&edit.0)) {
        (true, None) => chosen.get(&edit.0).map(|label| (edit.0, Some(*label))),
        (true, Some(_)) => None,
        (false, None) => None,
        (false, Some(_)) => Some((edit.0, None)),
    }
}

/// What becomes of labels by edits of paths: an LSP that is new has the one that is chosen for it, and one that went
/// has none any more. The only error is out of memory.
fn label_edits<V: StateView>(
    alloc: Global,
    view: &V,
    chosen: &Table<Key, u32>,
    paths: &[(Key, Option<PathFact>)],
) -> Result<Table<Key, Option<u32>>, AllocError>
    requires { T (is_sorted key_cmp paths.now) }
    ensures { IfOk result (λ labels. labels ≡ label_edits (V.state view.now).labels chosen.now paths.now) }
{
    let mut labels = Vec::new(alloc);
    for edit in paths {
        if let Some(row) = label_edit(view, chosen, edit) {
            labels.push(row)?;
        }
    }
    Ok(Table::from_rows(labels))
}

/// Until when labels rest that are freed at a moment, in milliseconds; `None` where labels don't rest.
fn rest_until(moment: u64, label_rest_ms: u32) -> Option<u64>
    requires { moment ≤ 2 ^ 62 }
    ensures { result ≡ rest_until moment label_rest_ms }
{
    if label_rest_ms == 0 {
        None
    } else {
        Some(moment + u64::from(label_rest_ms))
    }
}

/// Edits, and then an LSP that is new has the label that was chosen for it, and the labels of those that went rest for as long
/// as the router has them rest. It asks for edits that leave the labels as they are, and those that rest past the moment. The
/// only error is out of memory.
#[tactic(auto, using(crate::specs::RelabellingLaws::labels_given))]
pub(crate) fn give_labels<V: StateView>(
    alloc: Global,
    view: &V,
    chosen: &Table<Key, u32>,
    edits: &mut Edits,
) -> Result<(), AllocError>
    requires order { T (is_sorted key_cmp (V.state view.now).facts.paths) }
    requires held { keys_of (V.state view.now).labels ≡ labelled_keys (V.state view.now).facts.paths }
    requires labels { (edited edits.old (V.state view.now)).labels ≡ (V.state view.now).labels }
    requires past { resting_past (V.state view.now).facts.moment (V.state view.now).resting ≡ (V.state view.now).resting }
    requires resting { (edited edits.old (V.state view.now)).resting
        ≡ resting_past (edited edits.old (V.state view.now)).facts.moment (V.state view.now).resting }
    requires moment { (edited edits.old (V.state view.now)).facts.moment ≤ 2 ^ 62 }
    ensures { OnOk result (edited edits.new (V.state view.now)
        ≡ labelled (V.router view.now) chosen.now (edited edits.old (V.state view.now))) }
{
    let moment = Changed { under: view, edits }.moment();
    edits.labels = label_edits(alloc, view, chosen, edits.paths.as_slice())?;
    edits.rest_until = rest_until(moment, view.label_rest_ms());
    Ok(())
}
