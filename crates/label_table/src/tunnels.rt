//! What becomes of the actions of tunnels that begin here between two states.

ghost use Rattle.std.specs.FinMap.Entries.{is_sorted};
ghost use Rattle.std.specs.Ordering.{nat_cmp};
ghost use Rattle.std.specs.Prelude.{◌≡◌, IfOk, OnOk, T};
ghost use Rattle.abstract_router.specs.BypassTunnels.{bypass_tunnels_of};
ghost use Rattle.abstract_router.specs.Tables.{push_through};
ghost use Rattle.state_views.specs.Edits.{edited};
ghost use Rattle.state_views.specs.KnownLsps.{AreLsps};
ghost use Rattle.label_table.specs.TunnelRows.{AreTunnelEdits, push_at};
ghost use Rattle.label_table.specs.Turns.{push_change, push_change_of, put_each, put_row};

use crate::bypassed::with_bypassed;
use crate::edits::put_change;
use facility_backup::over_at;
use forwarding_table::Action;
use lsr_facts::{Key, Repair, current_key};
use sorted_rows::Table;
use state_views::{Changed, Edits, StateView, WholeState};
use std::alloc::{AllocError, Global};

/// What is done with the traffic of a tunnel whose current LSP is repaired (RFC 4090, 3.2): it leaves under the label that
/// the bypass's end takes, with the bypass's own label over it. There is no action where the bypass isn't up.
fn push_through<V: StateView>(view: &V, repair: &Repair) -> Option<Action>
    ensures { result ≡ push_through (bypass_tunnels_of (V.router view.now) (V.state view.now)) repair.now }
{
    let over = over_at(view, repair.bypass)?;
    Some(Action::PushHead {
        inner: Some(repair.resv.label),
        label: over.label,
        link: over.link,
    })
}

/// What is done with the traffic of the tunnel of a number (RFC 3031, 3.12): where there is one, and its current LSP is
/// reserved, it leaves under the label of that LSP's next hop; where that LSP is repaired, it goes through the bypass. Else
/// there is no action.
fn push_at<V: StateView>(view: &V, number: u16) -> Option<Action>
    ensures { result ≡ push_at (V.router view.now) (V.state view.now) number }
{
    let tunnel = view.tunnel(number)?;
    let key = current_key(view.node().router, number, tunnel);
    if let Some(resv) = view.resv(&key) {
        return Some(Action::PushHead {
            inner: None,
            label: resv.label,
            link: resv.link,
        });
    }
    push_through(view, view.repair(&key)?)
}

/// The tunnel of a number has the action that edits lead to, where that is another. The only error is out of memory.
fn put_push<V: StateView>(
    changes: &mut Table<u16, Option<Action>>,
    view: &V,
    edits: &Edits,
    number: u16,
) -> Result<(), AllocError>
    ensures { OnOk result (changes.new ≡ put_row nat_cmp
        (push_change (V.router view.now) (V.state view.now) (edited edits.now (V.state view.now)) number) changes.old) }
{
    let after = Changed { under: view, edits };
    put_change(
        changes,
        number,
        push_at(view, number),
        push_at(&after, number),
    )
}

/// The tunnel of each of these numbers has the action that edits lead to, where that is another. The only error is out
/// of memory.
fn put_pushes<V: StateView, E>(
    changes: &mut Table<u16, Option<Action>>,
    view: &V,
    edits: &Edits,
    tunnels: &[(u16, E)],
) -> Result<(), AllocError>
    ensures { OnOk result (changes.new ≡ put_each
        (push_change (V.router view.now) (V.state view.now) (edited edits.now (V.state view.now))) tunnels.now changes.old) }
{
    for tunnel in tunnels {
        put_push(changes, view, edits, tunnel.0)?;
    }
    Ok(())
}

/// Each tunnel that one of these LSPs names has the action that edits lead to, where that is another. The only error is
/// out of memory.
fn put_pushes_of<V: StateView, E>(
    changes: &mut Table<u16, Option<Action>>,
    view: &V,
    edits: &Edits,
    lsps: &[(Key, E)],
) -> Result<(), AllocError>
    ensures { OnOk result (changes.new ≡ put_each
        (push_change_of (V.router view.now) (V.state view.now) (edited edits.now (V.state view.now))) lsps.now changes.old) }
{
    for lsp in lsps {
        put_push(changes, view, edits, lsp.0.session.tunnel)?;
    }
    Ok(())
}

/// What becomes of the table of tunnels by edits: each tunnel that is edited, or of which a reservation or a repair is, or
/// an LSP that is repaired where bypasses run over something else after, and whose action is another after the edits, has
/// that action, or none. It asks that the tunnels are in order, and that what reservations and repairs take for labels after
/// the edits are labels. The only error is out of memory.
pub fn tunnel_edits<V: WholeState>(
    alloc: Global,
    view: &V,
    edits: &Edits,
) -> Result<Table<u16, Option<Action>>, AllocError>
    requires tunnels { T (is_sorted nat_cmp (V.state view.now).facts.tunnels) }
    requires after { AreLsps (V.router view.now) (edited edits.now (V.state view.now)) }
    ensures { IfOk result (AreTunnelEdits (V.router view.now) (V.state view.now)
        (edited edits.now (V.state view.now))) }
{
    let bypassed = with_bypassed(view, edits, Table::new(alloc))?;
    let mut changes = Table::new(alloc);
    put_pushes(&mut changes, view, edits, edits.tunnels.as_slice())?;
    put_pushes_of(&mut changes, view, edits, edits.resvs.as_slice())?;
    put_pushes_of(&mut changes, view, edits, edits.repairs.as_slice())?;
    put_pushes_of(&mut changes, view, edits, bypassed.as_slice())?;
    Ok(changes)
}
