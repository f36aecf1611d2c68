//! The bandwidth of bypasses, promised anew (RFC 4090, 4.3: bandwidth protection).

ghost use Rattle.std.specs.FinMap.Entries.{find, is_sorted, put};
ghost use Rattle.std.specs.Option.{option_and_then, option_map_or, option_or};
ghost use Rattle.std.specs.Prelude.{◌≡◌, ◌≤◌, IfOk, OnOk, T, length};
ghost use Rattle.sorted_rows.specs.Edits as rows;
ghost use Rattle.lsr_facts.specs.Limits.{max_bypasses};
ghost use Rattle.lsr_facts.specs.Orders.{key_cmp};
ghost use Rattle.lsr_facts.specs.declared.key.Key.{Key};
ghost use Rattle.bypass_shares.specs.Shares.{IsWithin};
ghost use Rattle.abstract_router.specs.Assigning.{assigned_anew, capacity_in, in_use_of};
ghost use Rattle.abstract_router.specs.Soundness.{IsSound};
ghost use Rattle.state_views.specs.Edits.{edited};
ghost use Rattle.state_settling.specs.Promises.{promise_becomes, promise_edit};

use bandwidth_protection::{assign, assignments_rest};
use bypass_shares::find_near;
use lsr_facts::{Assignment, Key};
use sorted_rows::Table;
use state_views::{Edits, StateView, WholeState};
use std::alloc::{AllocError, Global};

/// Promises of bandwidth, by LSP.
type Promises = Table<Key, Assignment>;

/// Edits of promises.
type PromiseEdits = Table<Key, Option<Assignment>>;

/// What becomes of what an LSP was promised, where this is what it is promised now; `None` where nothing does.
fn promise_becomes(was: Option<Assignment>, now: Option<Assignment>) -> Option<Option<Assignment>>
    ensures { result ≡ promise_becomes was now }
{
    match (was, now) {
        (None, None) => None,
        (None, Some(now)) => Some(Some(now)),
        (Some(_), None) => Some(None),
        (Some(was), Some(now)) => {
            if was.bypass == now.bypass && was.rate == now.rate {
                None
            } else {
                Some(Some(now))
            }
        }
    }
}

/// What becomes of an LSP's promise, where these are all promises from now on; `None` where nothing does. `near` is the place at which
/// the look-up before ended.
fn promise_edit<V: StateView>(
    view: &V,
    now: &Promises,
    key: &Key,
    near: &mut usize,
) -> Option<Option<Assignment>>
    ensures { result ≡ promise_edit (V.state view.now).assignments now.now key.now }
{
    promise_becomes(view.assignment(key), find_near(now.as_slice(), key, near))
}

/// Edits, and then that of an LSP, where it isn't promised the same from now on. The only error is out of memory.
fn with_edit<V: StateView>(
    edits: PromiseEdits,
    view: &V,
    now: &Promises,
    key: &Key,
    near: &mut usize,
) -> Result<PromiseEdits, AllocError>
    ensures { IfOk result (λ all. all ≡ option_map_or (λ edit. put key_cmp key.now edit edits)
        (promise_edit (V.state view.now).assignments now.now key.now) edits) }
{
    let mut all = edits;
    if let Some(edit) = promise_edit(view, now, key, near) {
        all.set(*key, edit)?;
    }
    Ok(all)
}

/// The edits of the LSPs that were promised anything before. The only error is out of memory.
fn edits_of_known<V: WholeState>(
    alloc: Global,
    view: &V,
    now: &Promises,
) -> Result<PromiseEdits, AllocError>
    ensures { IfOk result (λ all. (key : Key) → find key_cmp key all
        ≡ option_or (option_and_then (λ row. promise_edit (V.state view.now).assignments now.now key) (find key_cmp key (V.state view.now).assignments)) None) }
{
    let mut all = Table::new(alloc);
    let mut near = 0;
    for place in 0..view.assignment_count() {
        if let Some(row) = view.assignment_at(place) {
            all = with_edit(all, view, now, &row.0, &mut near)?;
        }
    }
    Ok(all)
}

/// Edits, and then those of the LSPs that are promised anything from now on. The only error is out of memory.
fn with_edits_of_new<V: StateView>(
    edits: PromiseEdits,
    view: &V,
    now: &Promises,
) -> Result<PromiseEdits, AllocError>
    ensures { IfOk result (λ all. (key : Key) → find key_cmp key all
        ≡ option_or (option_and_then (λ row. promise_edit (V.state view.now).assignments now.now key) (find key_cmp key now.now))
        (find key_cmp key edits)) }
{
    let rows = now.as_slice();
    let mut all = edits;
    let mut near = 0;
    for row in rows {
        if let Some(edit) = promise_edit(view, now, &row.0, &mut near) {
            all.set(row.0, edit)?;
        }
    }
    Ok(all)
}

/// The edits by which LSPs are promised this from now on, and no others anything. The only error is out of memory.
fn promise_edits<V: WholeState>(
    alloc: Global,
    view: &V,
    now: &Promises,
) -> Result<PromiseEdits, AllocError>
    requires { T (is_sorted key_cmp (V.state view.now).assignments) }
    ensures { IfOk result (λ edits. rows.edited key_cmp edits (V.state view.now).assignments ≡ now.now) }
{
    let known = edits_of_known(alloc, view, now)?;

    // That they are in order: so no others have the same keys and values.
    let _ = now.as_slice();
    with_edits_of_new(known, view, now)
}

/// Edits, and then the bandwidth of bypasses is promised anew. It asks for a sound state, and for edits that leave the promises
/// as they are, no more bypasses than a router keeps, and promises in use that are within the bypasses' capacities. Takes no memory where plainly no promise
/// changes; the only error is out of memory.
pub(crate) fn promise_anew<V: WholeState>(
    alloc: Global,
    view: &V,
    edits: &mut Edits,
) -> Result<(), AllocError>
    requires sound { IsSound (V.router view.now) (V.state view.now) }
    requires promises { (edited edits.old (V.state view.now)).assignments ≡ (V.state view.now).assignments }
    requires few { length (edited edits.old (V.state view.now)).facts.bypasses ≤ max_bypasses }
    requires within { IsWithin key_cmp (capacity_in (edited edits.old (V.state view.now)).facts.bypasses)
        (in_use_of (edited edits.old (V.state view.now))) }
    ensures { OnOk result (edited edits.new (V.state view.now)
        ≡ assigned_anew (V.router view.now) (edited edits.old (V.state view.now))) }
{
    if assignments_rest(view, edits) {
        return Ok(());
    }
    let now = assign(alloc, view, edits)?;
    edits.assignments = promise_edits(alloc, view, &now)?;
    Ok(())
}
