//! What a Path does that meets an error, and that a record is dropped (RFC 2205, 3.1.7; RFC 3209, 4.4).

ghost use Rattle.std.specs.Option.{option_copied, option_to_list};
ghost use Rattle.std.specs.Prelude.{◌≡◌, IfOk, IsTrue, Some, is_some};
ghost use Rattle.rsvp_contents.specs.Spelling.{IsMessage};
ghost use Rattle.rsvp_contents.specs.declared.messages.Content.TheVariants as contents;
ghost use Rattle.rsvp_bodies.specs.TokenBuckets.{token_rate};
ghost use Rattle.abstract_paths.specs.Merging.{stack_path_failed};
ghost use Rattle.abstract_paths.specs.Outcomes.{found_here, path_err, sent_back};
ghost use Rattle.abstract_paths.specs.Paths.{failed, record_errors};
ghost use Rattle.abstract_paths.specs.Places.{place_at, place_of};
ghost use Rattle.abstract_router.specs.Outcomes.{of_paths};
ghost use Rattle.state_views.specs.Drafts.{IsDraft};

use lsr_facts::{Key, Node, PathFact, Reply, RsvpError, Via};
use message_rules::{
    Outputs, drops_record, found_here, knows_record, path_err, sent_back, told_upstream,
};
use rsvp_contents::Path;
use state_views::{Draft, Edits, StateView, node_of};
use std::alloc::{AllocError, Global};

/// That a record is dropped is told upstream where the path or its record is new.
#[tactic(auto, using(abstract_paths::specs::MessageLaws::rated_leaves_room), unfolding(abstract_paths::specs::Paths::record_errors))]
pub(crate) fn record_errors(
    alloc: Global,
    node: &Node,
    key: &Key,
    known: Option<&PathFact>,
    fact: &PathFact,
) -> Result<Outputs, AllocError>
    requires { IsTrue (is_some (token_rate 1 fact.now.tspec)) }
    ensures { IfOk result (λ errors. errors ≡ record_errors (place_at node.now) key.now (option_copied known.entry) fact.now) }
{
    if !drops_record(node, fact) || knows_record(alloc, known, fact)? {
        return Ok(Outputs::new(alloc));
    }
    let error = found_here(node.router, RsvpError::RECORD_TOO_LONG);
    told_upstream(alloc, node, key, fact, &Some(fact.tspec.clone()?), error)
}

/// The PathErr that answers a Path that meets an error, if a way leads back to where it came from.
fn answer<V: StateView>(
    alloc: Global,
    view: &V,
    via: Via,
    path: &Path,
    error: RsvpError,
) -> Result<Outputs, AllocError>
    requires { IsMessage (contents.Path path.now) }
    ensures { IfOk result (λ errors. errors ≡ option_to_list
        (sent_back (place_of (V.router view.now) (V.state view.now).facts) via path.now.hop.address
        (path_err path.now.session path.now.sender (Some path.now.tspec) (found_here (V.router view.now) error)))) }
{
    let node = node_of(view);
    let tspec = Some(path.tspec.clone()?);
    let error = found_here(node.router, error);
    let message = path_err(alloc, path.session, path.sender, tspec, error)?;
    let mut errors = Outputs::new(alloc);
    if let Some(output) = sent_back(&node, via, path.hop.address, message) {
        errors.push(output)?;
    }
    Ok(errors)
}

/// A Path that meets an error: it is told to the neighbour that sent it, and changes nothing. The only error is out of
/// memory.
pub(crate) fn failed<V: StateView>(
    alloc: Global,
    view: &V,
    link: u16,
    path: &Path,
    error: RsvpError,
) -> Result<Draft, AllocError>
    requires { IsMessage (contents.Path path.now) }
    ensures { IfOk result (λ draft. IsDraft draft (of_paths (V.state view.now)
        (failed (V.router view.now) (V.state view.now).facts link path.now error))
        (V.router view.now) (V.state view.now)) }
{
    Ok(Draft {
        reply: Reply::Error(error),
        errors: answer(alloc, view, Via::Link(link), path, error)?,
        due: None,
        is_silent: false,
        edits: Edits::none(alloc),
    })
}

/// A Path that came through a stack and meets an error: it is told to the head of the bypass, and changes nothing. The only
/// error is out of memory.
pub(crate) fn stack_path_failed<V: StateView>(
    alloc: Global,
    view: &V,
    path: &Path,
    error: RsvpError,
) -> Result<Draft, AllocError>
    requires { IsMessage (contents.Path path.now) }
    ensures { IfOk result (λ draft. IsDraft draft (of_paths (V.state view.now)
        (stack_path_failed (V.router view.now) (V.state view.now).facts path.now error))
        (V.router view.now) (V.state view.now)) }
{
    Ok(Draft {
        reply: Reply::Error(error),
        errors: answer(alloc, view, Via::Stack, path, error)?,
        due: None,
        is_silent: false,
        edits: Edits::none(alloc),
    })
}
