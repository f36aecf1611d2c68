//! What a PathTear does (RFC 2205, 3.1.5).

ghost use Rattle.std.specs.Prelude.{◌≡◌, [], IfOk, OnErr, false};
ghost use Rattle.abstract_paths.specs.Outcomes.{done};
ghost use Rattle.abstract_paths.specs.Tears.{left_with, origins_without, path_tear_arrival};
ghost use Rattle.abstract_router.specs.Outcomes.{of_paths};
ghost use Rattle.abstract_router.specs.States.{State, with_facts};
ghost use Rattle.state_views.specs.Drafts.{IsDraft};
ghost use Rattle.state_views.specs.Edits.{edited};

use crate::path::path_edit;
use lsr_facts::{Key, Origin, PathFact, Refusal, Reply};
use message_rules::{Outputs, is_torn_by, lsp, origins_without};
use rsvp_contents::PathTear;
use sorted_rows::{Table, TryCopy};
use state_views::{Draft, Edits, StateView, refused};
use std::alloc::{AllocError, Global};
use std::net::Ipv4Addr;

/// The edit by which the path is left with these origins: with none, it goes.
fn left_with(
    alloc: Global,
    key: &Key,
    fact: &PathFact,
    origins: Table<Ipv4Addr, Origin>,
) -> Result<Edits, AllocError>
    ensures { IfOk result (λ edits. (before : State) → edited edits before
        ≡ with_facts (left_with key.now fact.now origins before.facts) before) }
{
    if origins.as_slice().is_empty() {
        return path_edit(alloc, *key, None);
    }
    let mut left = fact.try_copy(alloc)?;
    left.origins = origins;
    path_edit(alloc, *key, Some(left))
}

/// A tear takes the origin of a sender from a path. The only error is out of memory.
pub(crate) fn torn_from<V: StateView>(
    alloc: Global,
    _view: &V,
    sender: Ipv4Addr,
    key: &Key,
    fact: &PathFact,
) -> Result<Draft, AllocError>
    ensures { IfOk result (λ draft. IsDraft draft (of_paths (V.state _view.now)
        (done [] (left_with key.now fact.now (origins_without sender fact.now) (V.state _view.now).facts)))
        (V.router _view.now) (V.state _view.now)) }
{
    let origins = origins_without(alloc, sender, fact)?;
    Ok(Draft {
        reply: Reply::Done,
        errors: Outputs::new(alloc),
        due: None,
        is_silent: false,
        edits: left_with(alloc, key, fact, origins)?,
    })
}

/// What a PathTear does. The only error is out of memory, and it comes for none that is refused.
#[tactic(auto, unfolding(abstract_paths::specs::Tears::path_tear_arrival))]
pub fn path_tear_arrival<V: StateView>(
    alloc: Global,
    view: &V,
    link: u16,
    tear: &PathTear,
) -> Result<Draft, AllocError>
    ensures draft { IfOk result (λ draft. IsDraft draft
        (of_paths (V.state view.now) (path_tear_arrival (V.state view.now).facts link tear.now))
        (V.router view.now) (V.state view.now)) }
    ensures memory { OnErr result ((path_tear_arrival (V.state view.now).facts link tear.now).is_silent ≡ false) }
{
    let key = lsp(tear.session, tear.sender);
    let Some(fact) = view.path(&key) else {
        return Ok(refused(alloc, view, Refusal::NoMatch));
    };
    if !is_torn_by(link, tear, fact) {
        return Ok(refused(alloc, view, Refusal::NoMatch));
    }
    torn_from(alloc, view, tear.sender.sender, &key, fact)
}
