//! What a PathErr does (RFC 2205, 3.1.7).

ghost use Rattle.std.specs.Prelude.{◌≡◌, ◌∷◌, [], IfOk, OnErr, Some, false};
ghost use Rattle.rsvp_contents.specs.Spelling.{IsMessage};
ghost use Rattle.rsvp_contents.specs.declared.messages.Content.TheVariants as contents;
ghost use Rattle.abstract_paths.specs.Heads.{noted};
ghost use Rattle.abstract_paths.specs.MessageLaws.{LeavesRoom};
ghost use Rattle.abstract_paths.specs.Tears.{err_of_path, noted_of, path_err_arrival};
ghost use Rattle.abstract_router.specs.Outcomes.{of_paths};
ghost use Rattle.abstract_router.specs.States.{with_facts};
ghost use Rattle.state_views.specs.Drafts.{IsDraft};
ghost use Rattle.state_views.specs.Edits.{edited};

use lsr_facts::{Key, Noted, PathFact, Refusal, Reply, Tunnel, begins_here};
use message_rules::{leaves_by, lsp, told_upstream};
use rsvp_contents::PathErr;
use rsvp_objects::ErrorSpec;
use sorted_rows::{Table, TryCopy};
use state_views::{Draft, Edits, StateView, node_of, refused};
use std::alloc::{AllocError, Global};

/// Bytes of an IPv4 address.
const ADDRESS_LEN: usize = 4;

/// That the Tspec of a PathErr leaves room for the rest of it.
fn leaves_room(error: &PathErr)
    requires { IsMessage (contents.PathErr error.now) }
    ensures { LeavesRoom error.now.tspec }
{
    prove!(error.session.endpoint.octets().len() == ADDRESS_LEN);
    prove!(error.session.extended.octets().len() == ADDRESS_LEN);
    prove!(error.sender.sender.octets().len() == ADDRESS_LEN);
    prove!(error.error.node.octets().len() == ADDRESS_LEN);
}

/// The edit of a tunnel by which an error is the last that came for one of its LSPs.
fn noted(
    alloc: Global,
    number: u16,
    tunnel: &Tunnel,
    error: ErrorSpec,
) -> Result<Table<u16, Option<Tunnel>>, AllocError>
    ensures { IfOk result (λ tunnels. tunnels ≡ (number, Some (noted error tunnel.now)) ∷ []) }
{
    let mut changed = tunnel.try_copy(alloc)?;
    changed.noted = Some(Noted {
        node: error.node,
        code: error.code,
        value: error.value,
    });
    let mut tunnels = Table::new(alloc);
    tunnels.set(number, Some(changed))?;
    Ok(tunnels)
}

/// The edits by which the error of a path that begins here is noted in its tunnel.
fn noted_of<V: StateView>(
    alloc: Global,
    view: &V,
    error: &PathErr,
    fact: &PathFact,
) -> Result<Edits, AllocError>
    ensures { IfOk result (λ edits. edited edits (V.state view.now) ≡ with_facts
        (noted_of error.now fact.now (V.state view.now).facts) (V.state view.now)) }
{
    if !begins_here(fact.role) {
        return Ok(Edits::none(alloc));
    }
    let number = error.session.tunnel;
    let Some(tunnel) = view.tunnel(number) else {
        return Ok(Edits::none(alloc));
    };
    let mut edits = Edits::none(alloc);
    edits.tunnels = noted(alloc, number, tunnel, error.error)?;
    Ok(edits)
}

/// What a PathErr does that is for the LSP of this path: it is told to the path's origins, and noted where the path
/// begins here. The only error is out of memory.
pub fn err_of_path<V: StateView>(
    alloc: Global,
    view: &V,
    key: &Key,
    error: &PathErr,
    fact: &PathFact,
) -> Result<Draft, AllocError>
    requires { IsMessage (contents.PathErr error.now) }
    ensures { IfOk result (λ draft. IsDraft draft (of_paths (V.state view.now)
        (err_of_path (V.router view.now) (V.state view.now).facts key.now error.now fact.now))
        (V.router view.now) (V.state view.now)) }
{
    leaves_room(error);
    Ok(Draft {
        reply: Reply::Done,
        errors: told_upstream(alloc, &node_of(view), key, fact, &error.tspec, error.error)?,
        due: None,
        is_silent: false,
        edits: noted_of(alloc, view, error, fact)?,
    })
}

/// What a PathErr does. The only error is out of memory, and it comes for none that is refused.
#[tactic(auto, unfolding(abstract_paths::specs::Tears::path_err_arrival))]
pub fn path_err_arrival<V: StateView>(
    alloc: Global,
    view: &V,
    link: u16,
    error: &PathErr,
) -> Result<Draft, AllocError>
    requires { IsMessage (contents.PathErr error.now) }
    ensures draft { IfOk result (λ draft. IsDraft draft (of_paths (V.state view.now)
        (path_err_arrival (V.router view.now) (V.state view.now).facts link error.now))
        (V.router view.now) (V.state view.now)) }
    ensures memory { OnErr result
        ((path_err_arrival (V.router view.now) (V.state view.now).facts link error.now).is_silent ≡ false) }
{
    let key = lsp(error.session, error.sender);
    let Some(fact) = view.path(&key) else {
        return Ok(refused(alloc, view, Refusal::NoMatch));
    };
    if !leaves_by(link, fact) {
        return Ok(refused(alloc, view, Refusal::NoMatch));
    }
    err_of_path(alloc, view, &key, error, fact)
}
