//! What becomes of the actions of labels between two states.

ghost use Rattle.std.specs.Option.{option_map};
ghost use Rattle.std.specs.Prelude.{◌≡◌, IfOk, OnOk};
ghost use Rattle.lsr_facts.specs.Orders.{key_cmp};
ghost use Rattle.abstract_paths.specs.Soundness.{ArePaths};
ghost use Rattle.abstract_paths.specs.Touched.{is_among};
ghost use Rattle.abstract_router.specs.BypassTunnels.{bypass_tunnels_of};
ghost use Rattle.abstract_router.specs.Soundness.{AreLabelled};
ghost use Rattle.abstract_router.specs.Tables.{swap_through};
ghost use Rattle.abstract_router.specs.Touched.{LeavesOtherLsps};
ghost use Rattle.state_views.specs.Edits.{edited};
ghost use Rattle.state_views.specs.KnownLsps.{AreLsps};
ghost use Rattle.label_table.specs.Rows.{AreTableEdits, action_at};
ghost use Rattle.label_table.specs.Turns.{change, change_at, is_same, onward_at, put_each, put_row, row_at, rows_of};

use crate::bypassed::with_bypassed;
use facility_backup::over_at;
use forwarding_table::Action;
use lsr_facts::{Key, Repair};
use message_rules::goes_on;
use sorted_rows::Table;
use state_views::{Changed, Edits, StateView, WholeState};
use std::alloc::{AllocError, Global};

/// What is done with a frame of a repaired LSP (RFC 4090, 3.2): the label is replaced by that of the bypass's end, and the
/// bypass's own label is pushed over it. There is no action where the bypass isn't up.
fn swap_through<V: StateView>(view: &V, repair: &Repair) -> Option<Action>
    ensures { result ≡ swap_through (bypass_tunnels_of (V.router view.now) (V.state view.now)) repair.now }
{
    let over = over_at(view, repair.bypass)?;
    Some(Action::SwapPush {
        inner: repair.resv.label,
        outer: over.label,
        link: over.link,
    })
}

/// What is done with a frame of an LSP that goes on (RFC 3031, 3.10): where it is reserved its label is replaced by the next
/// hop's, and where it is repaired it goes through its bypass. Else there is no action.
fn onward_at<V: StateView>(view: &V, key: &Key) -> Option<Action>
    ensures { result ≡ onward_at (V.router view.now) (V.state view.now) key.now }
{
    if let Some(resv) = view.resv(key) {
        return Some(Action::Swap {
            label: resv.label,
            link: resv.link,
        });
    }
    swap_through(view, view.repair(key)?)
}

/// What is done with a frame of an LSP: where the LSP ends here its label is taken away; else it goes on, or there is no
/// action.
fn action_at<V: StateView>(view: &V, key: &Key) -> Option<Action>
    ensures { result ≡ action_at (V.router view.now) (V.state view.now) key.now }
{
    let path = view.path(key)?;
    if !goes_on(path.role) {
        return Some(Action::Pop);
    }
    onward_at(view, key)
}

/// The row of an LSP in the label table: its action, under its label.
fn row_at<V: StateView>(view: &V, key: &Key) -> Option<(u32, Action)>
    ensures { result ≡ row_at (V.router view.now) (V.state view.now) key.now }
{
    let label = view.label(key)?;
    let action = action_at(view, key)?;
    Some((label, action))
}

/// The rows of these LSPs. The only error is out of memory.
fn rows_of<V: StateView, E>(
    alloc: Global,
    view: &V,
    touched: &[(Key, E)],
) -> Result<Table<u32, Action>, AllocError>
    ensures { IfOk result (λ rows. rows ≡ rows_of (V.router view.now) (V.state view.now) touched.now) }
{
    let mut rows = Table::new(alloc);
    for lsp in touched {
        if let Some((label, action)) = row_at(view, &lsp.0) {
            rows.set(label, action)?;
        }
    }
    Ok(rows)
}

/// Whether what is done with a label is the same.
fn is_same(was: Option<Action>, now: Option<Action>) -> bool
    ensures { result ≡ is_same was now }
{
    was == now
}

/// A label or a tunnel that had this action, or none, has that one from now on, where it is another. The only error is out
/// of memory.
pub(crate) fn put_change<K: Ord + Drop>(
    edits: &mut Table<K, Option<Action>>,
    of: K,
    was: Option<Action>,
    now: Option<Action>,
) -> Result<(), AllocError>
    ensures { OnOk result (edits.new ≡ put_row K.cmp (option_map (λ action. (of, action)) (change was now)) edits.old) }
{
    if !is_same(was, now) {
        edits.set(of, now)?;
    }
    Ok(())
}

/// Those of these labels whose action is another in the one table than in the other have that from now on. The only error
/// is out of memory.
fn put_changes(
    edits: &mut Table<u32, Option<Action>>,
    was: &Table<u32, Action>,
    now: &Table<u32, Action>,
    rows: &[(u32, Action)],
) -> Result<(), AllocError>
    ensures { OnOk result (edits.new ≡ put_each (change_at was.now now.now) rows.now edits.old) }
{
    for row in rows {
        put_change(
            edits,
            row.0,
            was.get(&row.0).copied(),
            now.get(&row.0).copied(),
        )?;
    }
    Ok(())
}

/// What becomes of the label table by edits, where these LSPs alone change: each label that one of them has before or
/// after, or a repaired one where bypasses run over something else after, and whose action is another after the edits, has
/// that action, or none. It asks that before and after each label is held by one LSP, that what reservations and repairs
/// take for labels after are labels, and that of all other LSPs the same is known before and after, but for when they
/// expire. The only error is out of memory.
pub fn table_edits<V: WholeState>(
    alloc: Global,
    view: &V,
    edits: &Edits,
    changed: Table<Key, ()>,
) -> Result<Table<u32, Option<Action>>, AllocError>
    requires before { ArePaths (V.router view.now) (V.state view.now).facts.moment (V.state view.now).facts.paths }
    requires labels_before { AreLabelled (V.router view.now) (V.state view.now) }
    requires after { AreLsps (V.router view.now) (edited edits.now (V.state view.now)) }
    requires labels_after { AreLabelled (V.router view.now) (edited edits.now (V.state view.now)) }
    requires elsewhere { LeavesOtherLsps (is_among key_cmp changed)
        (V.state view.now) (edited edits.now (V.state view.now)) }
    ensures { IfOk result (AreTableEdits (V.router view.now) (V.state view.now)
        (edited edits.now (V.state view.now))) }
{
    let after = Changed { under: view, edits };
    let touched = with_bypassed(view, edits, changed)?;
    let was = rows_of(alloc, view, touched.as_slice())?;
    let now = rows_of(alloc, &after, touched.as_slice())?;
    let mut changes = Table::new(alloc);
    put_changes(&mut changes, &was, &now, was.as_slice())?;
    put_changes(&mut changes, &was, &now, now.as_slice())?;
    Ok(changes)
}
