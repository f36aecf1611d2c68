//! What messages do that come through stacks of labels: this router is the end of bypasses that others run LSPs over (RFC
//! 4090, 7).

ghost use Rattle.std.specs.List.{list_any};
ghost use Rattle.std.specs.Option.{option_copied, option_map_or};
ghost use Rattle.std.specs.Prelude.{◌≡◌, ◌^◌, ◌≤◌, IfOk, OnErr, drop, false, filter, find as find_first, slice_get};
ghost use Rattle.rsvp_contents.specs.Spelling.{IsMessage};
ghost use Rattle.rsvp_contents.specs.declared.messages.Content.TheVariants as contents;
ghost use Rattle.abstract_paths.specs.Merging.{came_through, may_join, stack_path_arrival, stack_path_failed, stack_tear_arrival, with_stack};
ghost use Rattle.abstract_paths.specs.Paths.{unknown_object};
ghost use Rattle.abstract_router.specs.Outcomes.{of_paths};
ghost use Rattle.abstract_router.specs.Returning.{the_one};
ghost use Rattle.state_views.specs.Drafts.{IsDraft};

use crate::path::path_edit;
use crate::path_tear::torn_from;
use crate::told::stack_path_failed;
use lsr_facts::{Key, PathFact, Refusal, Reply};
use message_rules::{
    Outputs, came_through, is_full_beside, lsp, may_join, stack_origin, unknown_object,
};
use rsvp_contents::{Path, PathTear};
use sorted_rows::TryCopy;
use state_views::{Draft, StateView, WholeState, refused};
use std::alloc::{AllocError, Global};

/// Whether a Path of this LSP that comes through a stack may join the path at a place.
fn may_join_at<V: WholeState>(view: &V, key: &Key, place: usize) -> bool
    ensures { result ≡ option_map_or (may_join key.now) (slice_get (V.state view.now).facts.paths place) false }
{
    match view.path_at(place) {
        Some(path) => may_join(key, path),
        None => false,
    }
}

/// Whether it may join one from this place on.
#[tactic(auto, using(crate::proofs::Places::any_from))]
fn may_join_from<V: WholeState>(view: &V, key: &Key, from: usize) -> bool
    ensures { result ≡ list_any (may_join key.now) (drop from (V.state view.now).facts.paths) }
{
    for place in from..view.path_count() {
        if may_join_at(view, key, place) {
            return true;
        }
    }
    false
}

/// The one path that a Path of this LSP may join which comes through a stack; `None` where there is none, or there are
/// several. Takes no memory.
fn joinable<'a, V: WholeState>(view: &'a V, key: &Key) -> Option<&'a (Key, PathFact)>
    ensures { option_copied result ≡ the_one (filter (may_join key.now) (V.state view.now).facts.paths) }
{
    for place in 0..view.path_count() {
        if may_join_at(view, key, place) {
            if may_join_from(view, key, place + 1) {
                return None;
            }
            return view.path_at(place);
        }
    }
    None
}

/// The path, with the origin put among those that stand that a Path is which comes through a stack at a moment, in
/// milliseconds.
fn with_stack(
    alloc: Global,
    moment: u64,
    path: &Path,
    fact: &PathFact,
) -> Result<PathFact, AllocError>
    requires { moment ≤ 2 ^ 62 }
    ensures { IfOk result (λ joined. joined ≡ with_stack moment path.now fact.now) }
{
    let mut joined = fact.try_copy(alloc)?;
    joined
        .origins
        .set(path.sender.sender, stack_origin(moment, path))?;
    Ok(joined)
}

/// What a Path does that comes through a stack: it joins the one path of its LSP under another sender, where that has room
/// for its origin (RFC 4090, 7.1). The only error is out of memory, and it comes for none that is refused.
#[tactic(auto, unfolding(abstract_paths::specs::Merging::stack_path_arrival))]
pub fn stack_path_arrival<V: WholeState>(
    alloc: Global,
    view: &V,
    path: &Path,
) -> Result<Draft, AllocError>
    requires { (V.state view.now).facts.moment ≤ 2 ^ 62 }
    ensures draft { IfOk result (λ draft. IsDraft draft (of_paths (V.state view.now)
        (stack_path_arrival (V.state view.now).facts path.now)) (V.router view.now) (V.state view.now)) }
    ensures memory { OnErr result ((stack_path_arrival (V.state view.now).facts path.now).is_silent ≡ false) }
{
    let key = lsp(path.session, path.sender);
    let Some(joined) = joinable(view, &key) else {
        return Ok(refused(alloc, view, Refusal::NoMerge));
    };
    if is_full_beside(path.sender.sender, &joined.1) {
        return Ok(refused(alloc, view, Refusal::NoMerge));
    }
    let fact = with_stack(alloc, view.moment(), path, &joined.1)?;
    Ok(Draft {
        reply: Reply::Done,
        errors: Outputs::new(alloc),
        due: None,
        is_silent: false,
        edits: path_edit(alloc, joined.0, Some(fact))?,
    })
}

/// What a Path does that comes through a stack with an object that it doesn't know. The only error is out of memory.
pub fn unknown_stack_path_arrival<V: StateView>(
    alloc: Global,
    view: &V,
    path: &Path,
    class: u8,
    ctype: u8,
) -> Result<Draft, AllocError>
    requires { IsMessage (contents.Path path.now) }
    ensures { IfOk result (λ draft. IsDraft draft (of_paths (V.state view.now)
        (stack_path_failed (V.router view.now) (V.state view.now).facts path.now (unknown_object class ctype)))
        (V.router view.now) (V.state view.now)) }
{
    stack_path_failed(alloc, view, path, unknown_object(class, ctype))
}

/// Whether the path at a place has an origin whose Paths come through a stack, under this LSP's sender.
fn came_through_at<V: WholeState>(view: &V, key: &Key, place: usize) -> bool
    ensures { result ≡ option_map_or (came_through key.now) (slice_get (V.state view.now).facts.paths place) false }
{
    match view.path_at(place) {
        Some(path) => came_through(key, path),
        None => false,
    }
}

/// The path that a message of this LSP is about which comes through a stack: the first that has such an origin under the
/// LSP's sender. Takes no memory.
pub fn path_through<'a, V: WholeState>(view: &'a V, key: &Key) -> Option<&'a (Key, PathFact)>
    ensures { option_copied result ≡ find_first (came_through key.now) (V.state view.now).facts.paths }
{
    for place in 0..view.path_count() {
        if came_through_at(view, key, place) {
            return view.path_at(place);
        }
    }
    None
}

/// What a PathTear does that comes through a stack: it takes its origin from the path that it is about. The only error is
/// out of memory, and it comes for none that is refused.
#[tactic(auto, unfolding(abstract_paths::specs::Merging::stack_tear_arrival))]
pub fn stack_tear_arrival<V: WholeState>(
    alloc: Global,
    view: &V,
    tear: &PathTear,
) -> Result<Draft, AllocError>
    ensures draft { IfOk result (λ draft. IsDraft draft (of_paths (V.state view.now)
        (stack_tear_arrival (V.state view.now).facts tear.now)) (V.router view.now) (V.state view.now)) }
    ensures memory { OnErr result ((stack_tear_arrival (V.state view.now).facts tear.now).is_silent ≡ false) }
{
    let Some(path) = path_through(view, &lsp(tear.session, tear.sender)) else {
        return Ok(refused(alloc, view, Refusal::NoMatch));
    };
    torn_from(alloc, view, tear.sender.sender, &path.0, &path.1)
}
