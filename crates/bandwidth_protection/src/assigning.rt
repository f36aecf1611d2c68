//! What LSPs are promised of bypasses, made anew.

ghost use Rattle.std.specs.FinMap.Entries.{is_sorted};
ghost use Rattle.std.specs.Prelude.{◌≡◌, ◌≤◌, IfOk, T, length};
ghost use Rattle.lsr_facts.specs.Limits.{max_bypasses};
ghost use Rattle.lsr_facts.specs.Orders.{key_cmp};
ghost use Rattle.bypass_shares.specs.Shares.{IsWithin};
ghost use Rattle.abstract_router.specs.Assigning.{assignments_of, capacity_in, in_use_of};
ghost use Rattle.state_views.specs.Edits.{edited};

use crate::candidates::promising;
use crate::in_use::{known_assignments, used_of};
use crate::keeping::keep;
use crate::opening::{given, open_wishes};
use lsr_facts::{Assignment, Key};
use sorted_rows::Table;
use state_views::{Changed, Edits, StateView, WholeState};
use std::alloc::{AllocError, Global};

/// What LSPs are promised after edits, made anew, in the order of the LSPs: what is in use stays, then others keep what they had,
/// and then others are given what is left (RFC 4090, 4.3: bandwidth protection). It asks for edits that leave what was promised
/// as it was, and of which no more is in use than bypasses have. Where no bypass has bandwidth to promise, no LSP is looked up
/// but those that are promised some. The only error is out of memory.
pub fn assign<V: WholeState>(
    alloc: Global,
    view: &V,
    edits: &Edits,
) -> Result<Table<Key, Assignment>, AllocError>
    requires paths { T (is_sorted key_cmp (V.state view.now).facts.paths) }
    requires resvs { T (is_sorted key_cmp (V.state view.now).resvs) }
    requires assignments { T (is_sorted key_cmp (V.state view.now).assignments) }
    requires kept { (edited edits.now (V.state view.now)).assignments ≡ (V.state view.now).assignments }
    requires few { length (edited edits.now (V.state view.now)).facts.bypasses ≤ max_bypasses }
    requires within { IsWithin key_cmp (capacity_in (edited edits.now (V.state view.now)).facts.bypasses)
        (in_use_of (edited edits.now (V.state view.now))) }
    ensures { IfOk result (λ all. all ≡ assignments_of (V.router view.now) (edited edits.now (V.state view.now))) }
{
    let after = Changed { under: view, edits };
    let known = known_assignments(alloc, view)?;
    let used = used_of(alloc, &after, &known)?;
    let promising = promising(alloc, &after)?;
    let bypasses = promising.as_slice();
    if bypasses.is_empty() {
        return Ok(used);
    }
    let opening = keep(alloc, &after, bypasses, &known, used)?;
    let wishes = open_wishes(alloc, view, edits, &opening)?;
    let all = given(alloc, opening, &wishes)?;
    Ok(all)
}
