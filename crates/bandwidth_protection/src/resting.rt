//! When what LSPs are promised is what it was, so that nothing is made anew.

ghost use Rattle.std.specs.FinMap.Entries.{is_sorted};
ghost use Rattle.std.specs.List.{AllByRecursion};
ghost use Rattle.std.specs.Option.{option_copied, option_map_or};
ghost use Rattle.std.specs.Prelude.{◌≡◌, T, false, true};
ghost use Rattle.lsr_facts.specs.Orders.{key_cmp};
ghost use Rattle.abstract_router.specs.Assigning.{assignments_of, wants_bandwidth};
ghost use Rattle.state_views.specs.Edits.{edited};
ghost use Rattle.bandwidth_protection.specs.Resting.{IsAtRest, is_asking, is_unconcerned};

use crate::wishes::wants_bandwidth;
use facility_backup::{is_same_around, leaves_path, leaves_repair, leaves_resv};
use lsr_facts::{Bypass, Key, PathFact};
use state_views::{Changed, Edits, StateView, WholeState};

/// Whether a path is known whose head wants its LSP's bandwidth protected.
fn is_wanted(path: Option<&PathFact>) -> bool
    ensures { result ≡ option_map_or wants_bandwidth (option_copied path.entry) false }
{
    match path {
        Some(path) => wants_bandwidth(path),
        None => false,
    }
}

/// Whether an LSP asks for bandwidth: it is reserved, and its head wants its bandwidth protected.
fn is_asking<A: StateView>(after: &A, key: &Key) -> bool
    ensures { result ≡ is_asking (A.state after.now) key.now }
{
    is_wanted(after.path(key)) && after.resv(key).is_some()
}

/// Whether an LSP asks for nothing before and after edits, and is promised nothing.
fn is_unconcerned<V: StateView>(view: &V, edits: &Edits, key: &Key) -> bool
    ensures { result ≡ is_unconcerned (V.state view.now) (edited edits.now (V.state view.now)) key.now }
{
    let after = Changed { under: view, edits };
    !is_asking(&after, key) && !is_asking(view, key) && view.assignment(key).is_none()
}

/// Whether an LSP asks for the same before and after edits, and uses its promise after them just where it did before. It says
/// no wherever that isn't plain. Takes no memory.
fn is_at_rest<V: StateView>(view: &V, edits: &Edits, key: &Key) -> bool
    ensures { result ≡ true → IsAtRest (V.state view.now) (edited edits.now (V.state view.now)) key.now }
{
    if is_unconcerned(view, edits, key) {
        return true;
    }
    if !leaves_repair(view, edits, key) || !leaves_resv(view, edits, key) {
        return false;
    }
    leaves_path(view, edits, key)
}

/// Whether each of these LSPs does.
fn are_at_rest<V: StateView, E>(view: &V, edits: &Edits, rows: &[(Key, E)]) -> bool
    ensures { result ≡ true → AllByRecursion (λ row. IsAtRest (V.state view.now) (edited edits.now (V.state view.now)) row.0) rows.now }
{
    for row in rows {
        if !is_at_rest(view, edits, &row.0) {
            return false;
        }
    }
    true
}

/// Whether none of these bypasses has bandwidth to promise.
fn have_no_capacity(bypasses: &[(u16, Bypass)]) -> bool
    ensures { result ≡ true → AllByRecursion (λ bypass. bypass.1.capacity ≡ 0) bypasses.now }
{
    for bypass in bypasses {
        if bypass.1.capacity != 0 {
            return false;
        }
    }
    true
}

/// Whether no LSP is promised anything, and after edits no bypass has bandwidth to promise: so nothing is promised then either. It
/// asks for edits that leave what was promised as it was. Takes no memory.
fn is_unpromised<V: WholeState>(view: &V, edits: &Edits) -> bool
    requires kept { (edited edits.now (V.state view.now)).assignments ≡ (V.state view.now).assignments }
    ensures { result ≡ true → assignments_of (V.router view.now) (edited edits.now (V.state view.now))
        ≡ (V.state view.now).assignments }
{
    if view.assignment_count() != 0 {
        return false;
    }
    let after = Changed { under: view, edits };
    have_no_capacity(after.bypasses().as_slice())
}

/// Whether what LSPs are promised after edits, made anew, is what they were promised before. It says no wherever that isn't
/// plain: where links, static routes or bypasses aren't as they were, or an LSP is edited that asks for something else
/// than before, or begins or ends to use its promise; but it says yes wherever no bypass has bandwidth to promise, and nobody was promised any. It asks for edits that leave what was promised as it was. Takes no memory.
pub fn assignments_rest<V: WholeState>(view: &V, edits: &Edits) -> bool
    requires resvs { T (is_sorted key_cmp (V.state view.now).resvs) }
    requires assignments { T (is_sorted key_cmp (V.state view.now).assignments) }
    requires kept { (edited edits.now (V.state view.now)).assignments ≡ (V.state view.now).assignments }
    ensures { result ≡ true → assignments_of (V.router view.now) (edited edits.now (V.state view.now))
        ≡ (V.state view.now).assignments }
{
    if is_unpromised(view, edits) {
        return true;
    }
    if !view.assignments_stand() || edits.bypasses.is_some() {
        return false;
    }
    if !are_at_rest(view, edits, edits.paths.as_slice())
        || !are_at_rest(view, edits, edits.resvs.as_slice())
        || !are_at_rest(view, edits, edits.repairs.as_slice())
    {
        return false;
    }
    is_same_around(view, edits)
}
