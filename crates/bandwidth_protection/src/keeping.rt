//! What LSPs keep of what they were promised before: the first round of turns.

ghost use Rattle.std.specs.FinMap.Entries.{find, is_sorted};
ghost use Rattle.std.specs.List.{list_any};
ghost use Rattle.std.specs.Ordering.{nat_cmp};
ghost use Rattle.std.specs.Prelude.{◌≡◌, ◌==◌, ℕ, IfOk, List, OnOk, Some, T, filter, map};
ghost use Rattle.lsr_facts.specs.Orders.{key_cmp};
ghost use Rattle.lsr_facts.specs.declared.assignment.Assignment.{Assignment};
ghost use Rattle.lsr_facts.specs.declared.key.Key.{Key};
ghost use Rattle.bypass_shares.specs.Left.{AreLeft};
ghost use Rattle.bypass_shares.specs.Merged.{with_rows};
ghost use Rattle.bypass_shares.specs.Shares.{IsWithin, capacity_in, each_in_turn, kept_for};
ghost use Rattle.abstract_router.specs.Assigning.{has_capacity, wishes_of};
ghost use Rattle.abstract_router.specs.Lsps.{around_of};
ghost use Rattle.abstract_router.specs.Protecting.{candidates_of};
ghost use Rattle.bandwidth_protection.specs.Candidates.{promising_of};
ghost use Rattle.bandwidth_protection.specs.Keeping.{claim_at, kept_turn, known_wishes};
ghost use Rattle.bandwidth_protection.specs.Narrowing.{room_of};

use crate::candidates::Numbered;
use crate::opening::{Opening, rooms};
use crate::wishes::asked_rate;
use bypass_shares::{give, has_some, is_left, left_of, merge};
use facility_backup::{is_protected, selected_by};
use lsr_facts::{Assignment, Key, PathFact, ResvFact};
use sorted_rows::{Table, get};
use state_views::StateView;
use std::alloc::{AllocError, Global};

/// Whether the bypass of a number may be promised to an LSP. It asks for all that have bandwidth to promise, in the order of
/// their numbers. Takes no memory.
fn may_have<A: StateView>(
    after: &A,
    bypasses: &[Numbered],
    number: u16,
    key: &Key,
    path: &PathFact,
    resv: &ResvFact,
) -> bool
    requires all { bypasses.now ≡ promising_of (A.router after.now) (A.state after.now) }
    requires order { T (is_sorted nat_cmp bypasses.now) }
    ensures { result ≡ list_any (λ candidate. candidate == number) (map (λ choice. choice.bypass) (filter has_capacity
        (candidates_of (around_of (A.router after.now) (A.state after.now)) key.now path.now resv.now))) }
{
    match get(bypasses, &number) {
        Some(bypass_tunnel) => {
            let router = after.node().router;
            is_protected(after, key, path)
                && selected_by(router, resv, number, &bypass_tunnel).is_some()
        }
        None => false,
    }
}

/// So much as an LSP asks for now of the bypass that it had some of, where that may be promised to it still. Takes no memory.
fn claim_at<A: StateView>(
    after: &A,
    bypasses: &[Numbered],
    key: &Key,
    had: Assignment,
) -> Option<Assignment>
    requires all { bypasses.now ≡ promising_of (A.router after.now) (A.state after.now) }
    requires order { T (is_sorted nat_cmp bypasses.now) }
    ensures { result ≡ claim_at (A.router after.now) (A.state after.now) key.now had }
{
    let resv = after.resv(key)?;
    let path = after.path(key)?;
    let rate = asked_rate(resv, path)?;
    if may_have(after, bypasses, had.bypass, key, path, resv) {
        return Some(Assignment {
            bypass: had.bypass,
            rate,
        });
    }
    None
}

/// One LSP's turn to keep what it had. `used` is what is in use, `left` what is left of each bypass beside that and beside what
/// was made. The only error is out of memory.
fn keep_next<A: StateView>(
    after: &A,
    bypasses: &[Numbered],
    left: &mut Table<u16, u64>,
    made: &mut Table<Key, Assignment>,
    used: &Table<Key, Assignment>,
    row: &(Key, Assignment),
    place: &mut usize,
) -> Result<(), AllocError>
    requires all { bypasses.now ≡ promising_of (A.router after.now) (A.state after.now) }
    requires order { T (is_sorted nat_cmp bypasses.now) }
    ensures { OnOk result ((capacity : ℕ → ℕ) (known : List (Key × Assignment)) → find key_cmp row.now.0 known ≡ Some row.now.1 →
        AreLeft capacity left.old (with_rows key_cmp made.old used.now) →
        AreLeft capacity left.new (with_rows key_cmp made.new used.now)
        × (with_rows key_cmp made.new used.now
        ≡ kept_turn (A.router after.now) (A.state after.now) capacity known (with_rows key_cmp made.old used.now) row.now)) }
{
    if has_some(used, made, &row.0, place) {
        return Ok(());
    }
    let claim = match claim_at(after, bypasses, &row.0, row.1) {
        Some(claim) => claim,
        None => return Ok(()),
    };
    if !is_left(left, claim.rate, claim.bypass) {
        return Ok(());
    }
    give(left, made, row.0, claim)?;
    Ok(())
}

/// What LSPs keep of what they had, beside what is in use, one after the other. `left` is what is left of each bypass beside
/// what is in use, and then beside what is kept, too. The only error is out of memory.
fn keep_each<A: StateView>(
    alloc: Global,
    after: &A,
    bypasses: &[Numbered],
    left: &mut Table<u16, u64>,
    known: &[(Key, Assignment)],
    used: &Table<Key, Assignment>,
) -> Result<Table<Key, Assignment>, AllocError>
    requires all { bypasses.now ≡ promising_of (A.router after.now) (A.state after.now) }
    requires order { T (is_sorted nat_cmp bypasses.now) }
    requires known { T (is_sorted key_cmp known.now) }
    ensures { IfOk result (λ made. (capacity : ℕ → ℕ) → AreLeft capacity left.old used.now →
        AreLeft capacity left.new (with_rows key_cmp made used.now)
        × (with_rows key_cmp made used.now ≡ each_in_turn key_cmp capacity (kept_for key_cmp capacity known.now) used.now
        (known_wishes (A.router after.now) (A.state after.now) known.now))) }
{
    let mut made = Table::new(alloc);
    let mut place = 0;
    for row in known {
        keep_next(after, bypasses, left, &mut made, used, row, &mut place)?;
    }
    Ok(made)
}

/// What LSPs keep of what they had, beside what is in use; and what is left beside both. It asks for all bypasses that have bandwidth
/// to promise, in the order of their numbers, and that what is in use is within the capacities. Who had none isn't looked up. The
/// only error is out of memory.
pub(crate) fn keep<A: StateView>(
    alloc: Global,
    after: &A,
    bypasses: &[Numbered],
    known: &Table<Key, Assignment>,
    used: Table<Key, Assignment>,
) -> Result<Opening, AllocError>
    requires resvs { T (is_sorted key_cmp (A.state after.now).resvs) }
    requires all { bypasses.now ≡ promising_of (A.router after.now) (A.state after.now) }
    requires order { T (is_sorted nat_cmp bypasses.now) }
    requires within { IsWithin key_cmp (capacity_in (A.state after.now).facts.bypasses) used }
    ensures kept { IfOk result (λ opening. opening.kept ≡ each_in_turn key_cmp (capacity_in (A.state after.now).facts.bypasses)
        (kept_for key_cmp (capacity_in (A.state after.now).facts.bypasses) known.now) used
        (wishes_of (A.router after.now) (A.state after.now))) }
    ensures left { IfOk result (λ opening. AreLeft (capacity_in (A.state after.now).facts.bypasses) opening.left opening.kept) }
    ensures rooms { IfOk result (λ opening. opening.rooms.items
        ≡ map (room_of opening.left) (promising_of (A.router after.now) (A.state after.now))) }
{
    let mut left = left_of(alloc, after.bypasses(), &used)?;

    // That it is in order.
    let _ = used.as_slice();
    let staying = keep_each(alloc, after, bypasses, &mut left, known.as_slice(), &used)?;
    let kept = merge(alloc, used, staying)?;
    let rooms = rooms(alloc, bypasses, &left)?;
    Ok(Opening { kept, left, rooms })
}
