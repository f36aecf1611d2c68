//! The LSPs that a step touches: those that aren't the same after its edits, those of which a message is due, and all where
//! other links are up from now on, or other routes or bypasses are there.

ghost use Rattle.std.specs.Option.{unwrap_or};
ghost use Rattle.std.specs.Prelude.{◌≡◌, ◌||◌, IfOk, false, true};
ghost use Rattle.lsr_facts.specs.Orders.{key_cmp};
ghost use Rattle.lsr_facts.specs.declared.key.Key.{Key};
ghost use Rattle.abstract_paths.specs.Touched.{is_among};
ghost use Rattle.abstract_router.specs.Touched.{LeavesOtherLsps};
ghost use Rattle.state_views.specs.Edits.{edited, is_edited};
ghost use Rattle.state_sends.specs.Touching.{AreAllSharing, AreAllTouched, IsSaidAgain, IsSaidOfAll, LeavesOthersSaid, is_lsp_of};

use crate::kept_alive::KeptAlive;
use facility_backup::is_same_around;
use lsr_facts::{Key, Upstream};
use sorted_rows::{Table, TryCopy};
use state_views::{Edits, StateView, WholeState};
use std::alloc::{AllocError, Global};

/// LSPs, in the order of their keys.
pub(crate) type Lsps = Table<Key, ()>;

/// The keys of rows among others.
fn with_keys<E>(keys: Lsps, rows: &[(Key, E)]) -> Result<Lsps, AllocError>
    ensures { IfOk result (λ all. (key : Key) → is_among key_cmp all key
        ≡ (is_among key_cmp rows.now key || is_among key_cmp keys key)) }
{
    let mut all = keys;
    for row in rows {
        all.set(row.0, ())?;
    }
    Ok(all)
}

/// The LSPs that have an edit.
fn edited_lsps(alloc: Global, edits: &Edits) -> Result<Lsps, AllocError>
    ensures { IfOk result (λ all. (key : Key) → is_among key_cmp all key ≡ is_edited edits.now key) }
{
    let paths = with_keys(Table::new(alloc), edits.paths.as_slice())?;
    let resvs = with_keys(paths, edits.resvs.as_slice())?;
    let repairs = with_keys(resvs, edits.repairs.as_slice())?;
    let labels = with_keys(repairs, edits.labels.as_slice())?;
    with_keys(labels, edits.assignments.as_slice())
}

/// Those of these LSPs of which messages of a kind don't say the same before and after edits, in the order of their keys.
fn changed_among<I: KeptAlive, V: StateView, E>(
    alloc: Global,
    view: &V,
    edits: &Edits,
    lsps: &[(Key, E)],
) -> Result<Lsps, AllocError>
    ensures { IfOk result (λ all. (key : Key) → is_among key_cmp lsps.now key ≡ true → is_among key_cmp all key ≡ false
        → IsSaidAgain I.said (V.state view.now) (edited edits.now (V.state view.now)) key) }
{
    let mut changed = Table::new(alloc);
    for row in lsps {
        if !I::is_same(view, edits, &row.0) {
            changed.set(row.0, ())?;
        }
    }
    Ok(changed)
}

/// All LSPs that are known.
fn known_lsps<V: WholeState>(alloc: Global, view: &V) -> Result<Lsps, AllocError>
    ensures { IfOk result (λ all. (key : Key) → is_among key_cmp all key
        ≡ is_among key_cmp (V.state view.now).facts.paths key) }
{
    let mut all = Table::new(alloc);
    for place in 0..view.path_count() {
        if let Some(row) = view.path_at(place) {
            all.set(row.0, ())?;
        }
    }
    Ok(all)
}

/// Among others the LSPs of these items.
fn with_lsps_of<I: KeptAlive>(keys: Lsps, items: &[I]) -> Result<Lsps, AllocError>
    ensures { IfOk result (λ all. (key : Key) → is_among key_cmp all key
        ≡ (is_lsp_of I.of items.now key || is_among key_cmp keys key)) }
{
    let mut all = keys;
    for item in items {
        all.set(item.lsp(), ())?;
    }
    Ok(all)
}

/// Those LSPs of which not the same is known after edits, but for when they expire: Resvs may say all that is known of an
/// LSP. The only error is out of memory.
pub(crate) fn changed_lsps<V: StateView>(
    alloc: Global,
    view: &V,
    edits: &Edits,
) -> Result<Lsps, AllocError>
    ensures { IfOk result (λ all. LeavesOtherLsps (is_among key_cmp all)
        (V.state view.now) (edited edits.now (V.state view.now))) }
{
    let edited = edited_lsps(alloc, edits)?;
    changed_among::<Upstream, V, ()>(alloc, view, edits, edited.as_slice())
}

/// Those LSPs of which messages of a kind don't say the same after edits. Of these LSPs not the same is known. The only error
/// is out of memory.
pub(crate) fn changed_for<I: KeptAlive, V: StateView>(
    alloc: Global,
    view: &V,
    edits: &Edits,
    changed: &Lsps,
) -> Result<Lsps, AllocError>
    requires { LeavesOtherLsps (is_among key_cmp changed.now)
        (V.state view.now) (edited edits.now (V.state view.now)) }
    ensures { IfOk result (λ all. LeavesOthersSaid I.said (is_among key_cmp all)
        (V.state view.now) (edited edits.now (V.state view.now))) }
{
    changed_among::<I, V, ()>(alloc, view, edits, changed.as_slice())
}

/// All LSPs that are known before or after edits, where these may change what LSPs share: links, static routes, bypasses.
/// The only error is out of memory.
pub(crate) fn sharing_lsps<V: WholeState>(
    alloc: Global,
    view: &V,
    edits: &Edits,
) -> Result<Option<Lsps>, AllocError>
    ensures { IfOk result (AreAllSharing (V.router view.now) (V.state view.now) edits.now) }
{
    if is_same_around(view, edits) {
        return Ok(None);
    }
    let known = known_lsps(alloc, view)?;
    let all = with_keys(known, edits.paths.as_slice())?;
    Ok(Some(all))
}

/// Whether messages of a kind say the same of all LSPs before and after edits, and these share the same. Those of which they
/// don't are told, and all where they may share something else.
pub(crate) fn is_same_everywhere<I: KeptAlive, V: StateView>(
    view: &V,
    edits: &Edits,
    changed: &Lsps,
    sharing: &Option<Lsps>,
) -> bool
    requires changed { LeavesOthersSaid I.said (is_among key_cmp changed.now)
        (V.state view.now) (edited edits.now (V.state view.now)) }
    requires sharing { AreAllSharing (V.router view.now) (V.state view.now) edits.now sharing.now }
    ensures { result ≡ true → IsSaidOfAll (V.router view.now) I.said (V.state view.now) edits.now }
{
    changed.as_slice().is_empty() && sharing.is_none()
}

/// All LSPs that may share something else, or these where none are told: in memory of their own.
fn sharing_or(alloc: Global, lsps: &Lsps, sharing: &Option<Lsps>) -> Result<Lsps, AllocError>
    ensures { IfOk result (λ all. all ≡ unwrap_or sharing.now lsps.now) }
{
    let all = match sharing {
        Some(all) => all,
        None => lsps,
    };
    if all.as_slice().is_empty() {
        return Ok(Table::new(alloc));
    }
    all.try_copy(alloc)
}

/// All LSPs that a step touches, for items of one kind: those of which its messages don't say the same after its edits, those
/// of these items, which are due, and all that are known, where its edits may change what all LSPs share. The only error is out
/// of memory.
pub(crate) fn touched_by<I: KeptAlive, V: StateView>(
    alloc: Global,
    view: &V,
    edits: &Edits,
    changed: &Lsps,
    sharing: &Option<Lsps>,
    due: &[I],
) -> Result<Lsps, AllocError>
    requires changed { LeavesOthersSaid I.said (is_among key_cmp changed.now)
        (V.state view.now) (edited edits.now (V.state view.now)) }
    requires sharing { AreAllSharing (V.router view.now) (V.state view.now) edits.now sharing.now }
    ensures all { IfOk result (AreAllTouched (V.router view.now) I.said (V.state view.now) edits.now) }
    ensures due { IfOk result (λ all. (key : Key) → is_among key_cmp all key ≡ false
        → is_lsp_of I.of due.now key ≡ false) }
{
    with_lsps_of(sharing_or(alloc, changed, sharing)?, due)
}
