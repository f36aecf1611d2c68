//! The edits of reservations that a flow descriptor leads to.

ghost use Rattle.std.specs.FinMap.Entries.{put};
ghost use Rattle.std.specs.Prelude.{◌≡◌, IfOk, Some};
ghost use Rattle.lsr_facts.specs.Orders.{key_cmp};
ghost use Rattle.resv_arrivals.specs.Progresses.{without_edits};

use lsr_facts::{Key, ResvFact};
use sorted_rows::Table;
use std::alloc::AllocError;

/// The edits by which these LSPs lose their reservations after others, and then another has this one. The only error is
/// out of memory.
pub fn edits_with(
    edits: Table<Key, Option<ResvFact>>,
    gone: Vec<Key>,
    key: Key,
    fact: ResvFact,
) -> Result<Table<Key, Option<ResvFact>>, AllocError>
    ensures { IfOk result (λ now. now ≡ put key_cmp key (Some fact) (without_edits edits gone.items)) }
{
    let mut now = taken_away(edits, gone)?;
    now.set(key, Some(fact))?;
    Ok(now)
}

/// The edits by which these LSPs lose their reservations after others. The last goes first: those who give way come with the
/// greater keys first, so few rows move for each. The only error is out of memory.
#[tactic(auto, using(crate::proofs::Gone::without_last))]
pub fn taken_away(
    edits: Table<Key, Option<ResvFact>>,
    mut gone: Vec<Key>,
) -> Result<Table<Key, Option<ResvFact>>, AllocError>
    ensures { IfOk result (λ now. now ≡ without_edits edits gone.items) }
{
    let mut now = edits;
    while let Some(key) = gone.pop() {
        now.set(key, None)?;
    }
    Ok(now)
}
