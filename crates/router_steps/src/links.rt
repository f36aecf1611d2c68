//! What a link does that comes up or goes down.

ghost use Rattle.std.specs.FinMap.Entries.{put};
ghost use Rattle.std.specs.Option.{unwrap_or};
ghost use Rattle.std.specs.Ordering.{nat_cmp};
ghost use Rattle.std.specs.Prelude.{◌≡◌, IfOk, OnErr, false};
ghost use Rattle.abstract_paths.specs.Links.{link_change};
ghost use Rattle.abstract_router.specs.Outcomes.{of_paths};
ghost use Rattle.state_views.specs.Drafts.{IsDraft};

use lsr_facts::{Refusal, Reply};
use message_rules::{Outputs, link_at};
use sorted_rows::{Table, TryCopy, get};
use state_views::{Draft, Edits, StateView, refused};
use std::alloc::{AllocError, Global};

/// Which links are up once one comes up or goes down: none where they are the same as before. The only error is out of memory.
fn changed_links(
    alloc: Global,
    up: &Table<u16, bool>,
    number: u16,
    is_up: bool,
) -> Result<Option<Table<u16, bool>>, AllocError>
    ensures { IfOk result (λ changed. unwrap_or changed up.now ≡ put nat_cmp number is_up up.now) }
{
    if get(up.as_slice(), &number) == Some(is_up) {
        return Ok(None);
    }
    let mut after = up.try_copy(alloc)?;
    after.set(number, is_up)?;
    Ok(Some(after))
}

/// What it does that a link comes up or goes down. Where it is up or down already, nothing is edited: then nothing that LSPs share
/// changes, and none is looked at. The only error is out of memory.
#[tactic(auto, unfolding(abstract_paths::specs::Links::link_change))]
pub(crate) fn link_change<V: StateView>(
    alloc: Global,
    view: &V,
    number: u16,
    is_up: bool,
) -> Result<Draft, AllocError>
    ensures draft { IfOk result (λ draft. IsDraft draft (of_paths (V.state view.now)
        (link_change (V.router view.now) (V.state view.now).facts number is_up))
        (V.router view.now) (V.state view.now)) }
    ensures memory { OnErr result ((link_change (V.router view.now) (V.state view.now).facts number is_up).is_silent ≡ false) }
{
    let node = view.node();
    if link_at(node.router, number).is_none() {
        return Ok(refused(alloc, view, Refusal::UnknownLink));
    }
    let mut edits = Edits::none(alloc);
    edits.up = changed_links(alloc, node.up, number, is_up)?;
    Ok(Draft {
        reply: Reply::Done,
        errors: Outputs::new(alloc),
        due: None,
        is_silent: false,
        edits,
    })
}
