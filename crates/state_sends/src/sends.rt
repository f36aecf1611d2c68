//! What a step sends that edits what is known, and what becomes of the moments at which messages were sent.

ghost use Rattle.std.specs.List.Sorted.{IsSorted};
ghost use Rattle.std.specs.Prelude.{◌≡◌, ◌++◌, [], ℕ, IfOk, List, false, true};
ghost use Rattle.sorted_rows.specs.Edits as rows;
ghost use Rattle.sorted_rows.specs.Rows.{keys_of};
ghost use Rattle.lsr_facts.specs.Orders.{item_cmp, key_cmp};
ghost use Rattle.lsr_facts.specs.declared.key.Key.{Key};
ghost use Rattle.lsr_facts.specs.Upstreams.{upstream_cmp};
ghost use Rattle.abstract_paths.specs.Outputs.{between, send_for, tear_for};
ghost use Rattle.abstract_paths.specs.Stamps.{stamps};
ghost use Rattle.abstract_paths.specs.Touched.{is_among};
ghost use Rattle.abstract_router.specs.Lsps.{around_of, lsps_of};
ghost use Rattle.abstract_router.specs.Outputs.{item_stamps, outputs_of, upstream_stamps};
ghost use Rattle.abstract_router.specs.Soundness.{IsSound};
ghost use Rattle.abstract_router.specs.Touched.{LeavesOtherLsps};
ghost use Rattle.state_views.specs.Drafts.{due_by, upstream_due_by};
ghost use Rattle.state_views.specs.Edits.{edited};
ghost use Rattle.state_views.specs.KnownLsps.{AreLsps};
ghost use Rattle.state_sends.specs.Touching.{AreAllSharing, LeavesOthersSaid};

use crate::kept_alive::KeptAlive;
use crate::touched::{
    Lsps, changed_for, changed_lsps, is_same_everywhere, sharing_lsps, touched_by,
};
use crate::{Sends, errors_out, sends_again, sends_between};
use lsr_facts::{Item, Key, Upstream};
use sorted_rows::Table;
use state_views::{Changed, Edits, Outputs, StateView, WholeState};
use std::alloc::{AllocError, Global};

/// What a step sends, and what becomes of the moments at which messages were sent last, in milliseconds: `None` for
/// one that is wanted no more.
#[derive(Debug, Drop)]
pub struct StateSends {
    /// The frames, in their order.
    pub outputs: Outputs,
    /// What becomes of the moments of Paths.
    pub moments: Table<Item, Option<u64>>,
    /// What becomes of the moments of Resvs.
    pub upstream: Table<Upstream, Option<u64>>,
    /// The LSPs of which not the same is known after, but for when they expire, in the order of their keys.
    pub changed: Table<Key, ()>,
}

/// Which links are up after edits.
fn up_after<'a, V: StateView>(view: &'a V, edits: &'a Edits) -> &'a Table<u16, bool>
    ensures { result.now ≡ (edited edits.now (V.state view.now)).facts.up }
{
    match &edits.up {
        Some(up) => up,
        None => view.node().up,
    }
}

/// The Paths that are due at a moment, in milliseconds, if one came. The only error is out of memory.
fn due_paths<V: WholeState>(
    alloc: Global,
    view: &V,
    due: Option<u64>,
) -> Result<Vec<Item>, AllocError>
    ensures { IfOk result (λ items. items.items ≡ due_by due (V.router view.now) (V.state view.now)) }
{
    match due {
        Some(moment) => view.due(alloc, moment),
        None => Ok(Vec::new(alloc)),
    }
}

/// The Resvs that are due at a moment, in milliseconds, if one came. The only error is out of memory.
fn due_resvs<V: WholeState>(
    alloc: Global,
    view: &V,
    due: Option<u64>,
) -> Result<Vec<Upstream>, AllocError>
    ensures { IfOk result (λ items. items.items ≡ upstream_due_by due (V.router view.now) (V.state view.now)) }
{
    match due {
        Some(moment) => view.due_upstream(alloc, moment),
        None => Ok(Vec::new(alloc)),
    }
}

/// Nothing is sent, and nothing torn down. Takes no memory.
fn nothing_sent<I: Ord>(alloc: Global) -> Sends<I>
    ensures tears { result.tears ≡ [] }
    ensures sends { result.sends ≡ [] }
    ensures moments { result.moments ≡ [] }
{
    Sends {
        tears: Outputs::new(alloc),
        sends: Outputs::new(alloc),
        moments: Table::new(alloc),
    }
}

/// What is sent of one kind, and torn down: it comes of the LSPs that the step touches. Of these LSPs its messages don't say
/// the same after it, and all are told where they may share something else; what is due stands in order. Where the same is
/// wanted of all, it is built once. The only error is out of memory.
fn sends_at<I: KeptAlive, V: WholeState>(
    alloc: Global,
    view: &V,
    edits: &Edits,
    changed: &Lsps,
    sharing: &Option<Lsps>,
    due: &[I],
) -> Result<Sends<I>, AllocError>
    requires changed { LeavesOthersSaid I.said (is_among key_cmp changed.now)
        (V.state view.now) (edited edits.now (V.state view.now)) }
    requires sharing { AreAllSharing (V.router view.now) (V.state view.now) edits.now sharing.now }
    requires due { IsSorted I.order due.now }
    requires before { IsSound (V.router view.now) (V.state view.now) }
    requires after { AreLsps (V.router view.now) (edited edits.now (V.state view.now)) }
    ensures tears { IfOk result (λ sends. sends.tears
        ≡ between I.order (tear_for (edited edits.now (V.state view.now)).facts.up)
        (I.rows (around_of (V.router view.now) (V.state view.now)) (lsps_of (V.state view.now)))
        (I.rows (around_of (V.router view.now) (edited edits.now (V.state view.now)))
        (lsps_of (edited edits.now (V.state view.now))))) }
    ensures sends { IfOk result (λ sends. sends.sends
        ≡ between I.order (send_for I.order due.now)
        (I.rows (around_of (V.router view.now) (edited edits.now (V.state view.now)))
        (lsps_of (edited edits.now (V.state view.now))))
        (I.rows (around_of (V.router view.now) (V.state view.now)) (lsps_of (V.state view.now)))) }
    ensures moments { IfOk result (λ sends. (sent : List (I × ℕ)) →
        keys_of sent ≡ keys_of (I.rows (around_of (V.router view.now) (V.state view.now)) (lsps_of (V.state view.now))) →
        rows.edited I.order sends.moments sent ≡ stamps I.order due.now
        (I.rows (around_of (V.router view.now) (V.state view.now)) (lsps_of (V.state view.now)))
        sent (edited edits.now (V.state view.now)).facts.moment
        (I.rows (around_of (V.router view.now) (edited edits.now (V.state view.now)))
        (lsps_of (edited edits.now (V.state view.now))))) }
{
    let touched = touched_by(alloc, view, edits, changed, sharing, due)?;
    if touched.as_slice().is_empty() {
        return Ok(nothing_sent(alloc));
    }

    // That items are compared by the order that their rows stand in.
    I::are_in_order();
    let after = Changed { under: view, edits };
    let is = I::wanted_of(alloc, &after, &touched)?;
    if is_same_everywhere::<I, V>(view, edits, changed, sharing) {
        return sends_again(alloc, due, after.moment(), is);
    }
    let was = I::wanted_of(alloc, view, &touched)?;
    let up = up_after(view, edits);
    sends_between(alloc, up, due, after.moment(), was.as_slice(), is)
}

/// Frames after others. Where there are no others, none moves. The only error is out of memory.
pub fn appended(outputs: Outputs, more: Outputs) -> Result<Outputs, AllocError>
    ensures { IfOk result (λ all. all ≡ outputs ++ more) }
{
    let mut all = outputs.into_vec();
    if all.is_empty() {
        return Ok(more);
    }
    let mut more = more.into_vec();
    all.append(&mut more)?;
    Ok(Outputs::from_vec(all))
}

/// What is sent where these edits are made, these errors are met, and what is due at a moment is sent again, if one
/// came: errors, then tears of Paths and of Resvs, then Paths and Resvs; and which LSPs change. The only error is out of
/// memory.
pub fn sends_of<V: WholeState>(
    alloc: Global,
    view: &V,
    edits: &Edits,
    due: Option<u64>,
    errors: Outputs,
) -> Result<StateSends, AllocError>
    requires before { IsSound (V.router view.now) (V.state view.now) }
    requires after { AreLsps (V.router view.now) (edited edits.now (V.state view.now)) }
    ensures outputs { IfOk result (λ sends. sends.outputs
        ≡ outputs_of (V.router view.now) (V.state view.now) errors
        (due_by due (V.router view.now) (V.state view.now))
        (upstream_due_by due (V.router view.now) (V.state view.now))
        (edited edits.now (V.state view.now))) }
    ensures moments { IfOk result (λ sends. rows.edited item_cmp sends.moments (V.state view.now).facts.sent
        ≡ item_stamps (V.router view.now) (V.state view.now) (due_by due (V.router view.now) (V.state view.now))
        (edited edits.now (V.state view.now))) }
    ensures upstream { IfOk result (λ sends. rows.edited upstream_cmp sends.upstream (V.state view.now).sent_upstream
        ≡ upstream_stamps (V.router view.now) (V.state view.now)
        (upstream_due_by due (V.router view.now) (V.state view.now))
        (edited edits.now (V.state view.now))) }
    ensures changed { IfOk result (λ sends. LeavesOtherLsps (is_among key_cmp sends.changed)
        (V.state view.now) (edited edits.now (V.state view.now))) }
{
    let due_paths = due_paths(alloc, view, due)?;
    let due_resvs = due_resvs(alloc, view, due)?;
    let changed = changed_lsps(alloc, view, edits)?;
    let of_paths = changed_for::<Item, V>(alloc, view, edits, &changed)?;
    let sharing = sharing_lsps(alloc, view, edits)?;
    let Sends {
        tears: path_tears,
        sends: paths,
        moments,
    } = sends_at(
        alloc,
        view,
        edits,
        &of_paths,
        &sharing,
        due_paths.as_slice(),
    )?;
    let Sends {
        tears: resv_tears,
        sends: resvs,
        moments: upstream,
    } = sends_at(alloc, view, edits, &changed, &sharing, due_resvs.as_slice())?;
    let going = errors_out(up_after(view, edits), errors);
    let torn = appended(appended(going, path_tears)?, resv_tears)?;
    let outputs = appended(appended(torn, paths)?, resvs)?;
    Ok(StateSends {
        outputs,
        moments,
        upstream,
        changed,
    })
}
