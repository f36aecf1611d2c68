//! What LSPs ask for that have none yet, of what is left: the second round of turns.

ghost use Rattle.std.specs.FinMap.Entries.{find, is_sorted, put};
ghost use Rattle.std.specs.Option.{option_and_then, option_copied, option_map_or, option_or};
ghost use Rattle.std.specs.Prelude.{◌≡◌, ◌≤◌, ℕ, IfOk, None, Some, T, length, map};
ghost use Rattle.lsr_facts.specs.Limits.{max_bypasses};
ghost use Rattle.lsr_facts.specs.Orders.{key_cmp};
ghost use Rattle.lsr_facts.specs.declared.key.Key.{Key};
ghost use Rattle.bypass_shares.specs.Left.{AreLeft};
ghost use Rattle.bypass_shares.specs.Shares.{each_in_turn, new_for};
ghost use Rattle.abstract_router.specs.Assigning.{wish_on};
ghost use Rattle.abstract_router.specs.Lsps.{around_of};
ghost use Rattle.state_views.specs.Edits.{edited};
ghost use Rattle.bandwidth_protection.specs.Candidates.{promising_of};
ghost use Rattle.bandwidth_protection.specs.Narrowing.{of_open, open_wish, room_of};

use crate::candidates::{Numbered, Room, candidates};
use crate::wishes::{asked_rate, wants_bandwidth};
use bypass_shares::{Wish, find_near, give_each, left_at, merge};
use lsr_facts::{Assignment, Key, PathFact, ResvFact};
use sorted_rows::Table;
use state_views::{Changed, Edits, StateView, WholeState};
use std::alloc::{AllocError, Global};

/// What LSPs keep, and what is left beside that.
#[derive(Debug, Drop)]
pub(crate) struct Opening {
    /// What they keep, and what is in use.
    pub kept: Table<Key, Assignment>,
    /// What is left of each bypass, by number, in bytes per second.
    pub left: Table<u16, u64>,
    /// The same, of those that have bandwidth to promise.
    pub rooms: Vec<Room>,
}

/// What is left of each of these bypasses. The only error is out of memory.
pub(crate) fn rooms(
    alloc: Global,
    bypasses: &[Numbered],
    left: &Table<u16, u64>,
) -> Result<Vec<Room>, AllocError>
    ensures { IfOk result (λ all. all.items ≡ map (room_of left.now) bypasses.now) }
{
    let mut all = Vec::with_capacity(alloc, bypasses.len())?;
    for bypass in bypasses {
        all.push((*bypass, left_at(left, bypass.0)))?;
    }
    Ok(all)
}

/// What an LSP asks for with this path and this reservation, of what is left; `None` where its rate isn't left of any bypass that may be
/// promised to it. Takes no memory.
fn open_on<A: StateView>(
    after: &A,
    opening: &Opening,
    key: &Key,
    resv: &ResvFact,
    path: &PathFact,
) -> Option<Wish>
    requires rooms { opening.now.rooms.items ≡ map (room_of opening.now.left) (promising_of (A.router after.now) (A.state after.now)) }
    requires few { length opening.now.rooms.items ≤ max_bypasses }
    ensures { result ≡ option_and_then (of_open opening.now.left)
        (wish_on (around_of (A.router after.now) (A.state after.now)) key.now resv.now path.now) }
{
    let rate = asked_rate(resv, path)?;
    let bypasses = candidates(after, opening.rooms.as_slice(), rate, key, path, resv);
    if bypasses.as_slice().is_empty() {
        return None;
    }
    Some(Wish { rate, bypasses })
}

/// What the LSP of a key asks for of what is left: nothing where it has some. It asks for what is known of its path, and for the place
/// at which the look-up before ended. Takes no memory.
fn open_wish<A: StateView>(
    after: &A,
    opening: &Opening,
    key: &Key,
    path: Option<&PathFact>,
    near: &mut usize,
) -> Option<Wish>
    requires path { option_copied path ≡ find key_cmp key.now (A.state after.now).facts.paths }
    requires rooms { opening.now.rooms.items ≡ map (room_of opening.now.left) (promising_of (A.router after.now) (A.state after.now)) }
    requires few { length opening.now.rooms.items ≤ max_bypasses }
    ensures { result ≡ open_wish (A.router after.now) (A.state after.now) opening.now.kept opening.now.left key.now }
{
    if find_near(opening.kept.as_slice(), key, near).is_some() {
        return None;
    }
    let resv = after.resv(key)?;
    let path = path?;
    open_on(after, opening, key, resv, path)
}

/// Wishes, and then that of the LSP of this key and this path, if it asks for anything. The only error is out of memory.
fn with_wish<A: StateView>(
    wishes: Table<Key, Wish>,
    after: &A,
    opening: &Opening,
    key: Key,
    path: Option<&PathFact>,
    near: &mut usize,
) -> Result<Table<Key, Wish>, AllocError>
    requires path { option_copied path ≡ find key_cmp key (A.state after.now).facts.paths }
    requires rooms { opening.now.rooms.items ≡ map (room_of opening.now.left) (promising_of (A.router after.now) (A.state after.now)) }
    requires few { length opening.now.rooms.items ≤ max_bypasses }
    ensures { IfOk result (λ all. all ≡ option_map_or (λ wish. put key_cmp key wish wishes)
        (open_wish (A.router after.now) (A.state after.now) opening.now.kept opening.now.left key) wishes) }
{
    let mut all = wishes;
    if let Some(wish) = open_wish(after, opening, &key, path, near) {
        all.set(key, wish)?;
    }
    Ok(all)
}

/// Wishes, and then that of the LSP that has this path before edits. One whose path isn't edited, and whose head doesn't want its
/// bandwidth protected, isn't looked up. The only error is out of memory.
fn with_known<V: StateView>(
    wishes: Table<Key, Wish>,
    view: &V,
    edits: &Edits,
    opening: &Opening,
    path: &(Key, PathFact),
    near: &mut usize,
) -> Result<Table<Key, Wish>, AllocError>
    requires rooms { opening.now.rooms.items
        ≡ map (room_of opening.now.left) (promising_of (V.router view.now) (edited edits.now (V.state view.now))) }
    requires few { length opening.now.rooms.items ≤ max_bypasses }
    requires known { find key_cmp path.now.0 (V.state view.now).facts.paths ≡ Some path.now.1 }
    ensures { IfOk result (λ all. all ≡ option_map_or (λ wish. put key_cmp path.now.0 wish wishes)
        (open_wish (V.router view.now) (edited edits.now (V.state view.now)) opening.now.kept opening.now.left path.now.0) wishes) }
{
    let after = Changed { under: view, edits };
    if edits.paths.contains_key(&path.0) {
        let edited = after.path(&path.0);
        return with_wish(wishes, &after, opening, path.0, edited, near);
    }
    if !wants_bandwidth(&path.1) {
        return Ok(wishes);
    }
    with_wish(wishes, &after, opening, path.0, Some(&path.1), near)
}

/// The wishes of all LSPs that had a path before edits. The only error is out of memory.
fn known_wishes<V: WholeState>(
    alloc: Global,
    view: &V,
    edits: &Edits,
    opening: &Opening,
) -> Result<Table<Key, Wish>, AllocError>
    requires order { T (is_sorted key_cmp (V.state view.now).facts.paths) }
    requires rooms { opening.now.rooms.items
        ≡ map (room_of opening.now.left) (promising_of (V.router view.now) (edited edits.now (V.state view.now))) }
    requires few { length opening.now.rooms.items ≤ max_bypasses }
    ensures { IfOk result (λ all. (key : Key) → find key_cmp key all
        ≡ option_or (option_and_then (λ path. open_wish (V.router view.now) (edited edits.now (V.state view.now))
        opening.now.kept opening.now.left key) (find key_cmp key (V.state view.now).facts.paths)) None) }
{
    let mut all = Table::new(alloc);
    let mut near = 0;
    for place in 0..view.path_count() {
        if let Some(path) = view.path_at(place) {
            all = with_known(all, view, edits, opening, path, &mut near)?;
        }
    }
    Ok(all)
}

/// Wishes, and then those of the LSPs of these rows. The only error is out of memory.
fn with_wishes<A: StateView, E>(
    wishes: Table<Key, Wish>,
    after: &A,
    opening: &Opening,
    rows: &[(Key, E)],
) -> Result<Table<Key, Wish>, AllocError>
    requires rooms { opening.now.rooms.items ≡ map (room_of opening.now.left) (promising_of (A.router after.now) (A.state after.now)) }
    requires few { length opening.now.rooms.items ≤ max_bypasses }
    ensures { IfOk result (λ all. (key : Key) → find key_cmp key all
        ≡ option_or (option_and_then (λ row. open_wish (A.router after.now) (A.state after.now) opening.now.kept opening.now.left key)
        (find key_cmp key rows.now)) (find key_cmp key wishes)) }
{
    let mut all = wishes;
    let mut near = 0;
    for row in rows {
        let path = after.path(&row.0);
        all = with_wish(all, after, opening, row.0, path, &mut near)?;
    }
    Ok(all)
}

/// What all LSPs ask for after edits that have none yet, of what is left, by key. It goes over the paths that were known before, and over
/// those that are edited. The only error is out of memory.
pub(crate) fn open_wishes<V: WholeState>(
    alloc: Global,
    view: &V,
    edits: &Edits,
    opening: &Opening,
) -> Result<Table<Key, Wish>, AllocError>
    requires paths { T (is_sorted key_cmp (V.state view.now).facts.paths) }
    requires rooms { opening.now.rooms.items
        ≡ map (room_of opening.now.left) (promising_of (V.router view.now) (edited edits.now (V.state view.now))) }
    requires few { length opening.now.rooms.items ≤ max_bypasses }
    ensures { IfOk result (λ all. (key : Key) → find key_cmp key all
        ≡ open_wish (V.router view.now) (edited edits.now (V.state view.now)) opening.now.kept opening.now.left key) }
{
    let known = known_wishes(alloc, view, edits, opening)?;
    let after = Changed { under: view, edits };
    let all = with_wishes(known, &after, opening, edits.paths.as_slice())?;
    Ok(all)
}

/// What LSPs are promised, once those are given some that have none. The only error is out of memory.
pub(crate) fn given(
    alloc: Global,
    opening: Opening,
    wishes: &Table<Key, Wish>,
) -> Result<Table<Key, Assignment>, AllocError>
    ensures all { IfOk result (λ all. (capacity : ℕ → ℕ) → AreLeft capacity opening.left opening.kept →
        all ≡ each_in_turn key_cmp capacity (new_for key_cmp capacity) opening.kept wishes.now) }
    ensures kept { T (is_sorted key_cmp opening.kept) }
    ensures wishes { T (is_sorted key_cmp wishes.now) }
{
    let Opening { kept, left, .. } = opening;
    let mut left = left;

    // That it is in order.
    let _ = kept.as_slice();
    let given = give_each(alloc, &mut left, &kept, wishes.as_slice())?;
    let all = merge(alloc, kept, given)?;
    Ok(all)
}
