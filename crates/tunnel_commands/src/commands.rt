//! What a command does.

ghost use Rattle.std.specs.FinMap.Entries.{is_sorted};
ghost use Rattle.std.specs.Prelude.{◌≡◌, IfOk, None, OnErr, T, false};
ghost use Rattle.lsr_facts.specs.Orders.{key_cmp};
ghost use Rattle.lsr_facts.specs.Tunnels.{AreTunnels};
ghost use Rattle.abstract_paths.specs.Commands.{commanded, refusal_of};
ghost use Rattle.abstract_router.specs.Arrivals.{command_comes};
ghost use Rattle.abstract_router.specs.States.{with_facts};
ghost use Rattle.abstract_paths.specs.declared.commands.Command.TheVariants.{CancelChange, ChangeTunnel, DropTunnel};
ghost use Rattle.state_views.specs.Drafts.{IsDraft};
ghost use Rattle.state_views.specs.Edits.{edited};
ghost use Rattle.tunnel_commands.specs.Commanding.{commanded_state};

use crate::bypasses::{with_bypass, without_bypass};
use crate::refusals::{refusal_of, takes_used_bypass};
use crate::routes::{with_route, without_route};
use crate::tunnels::{with_begun, with_cancelled, with_change, with_dropped};
use abstract_paths::{Command, TunnelChange};
use lsr_facts::{Refusal, Reply};
use state_views::{Draft, Edits, Outputs, StateView, WholeState, refused};
use std::alloc::{AllocError, Global};

/// The edits of a tunnel's change. The only error is out of memory.
#[tactic(auto, using(crate::proofs::Taken::left_for_change))]
fn changed<V: StateView>(
    alloc: Global,
    view: &V,
    change: &TunnelChange,
) -> Result<Edits, AllocError>
    requires { refusal_of (V.router view.now) (V.state view.now).facts (ChangeTunnel change.now) ≡ None }
    ensures { IfOk result (λ edits. edited edits (V.state view.now)
        ≡ commanded_state (V.router view.now) (V.state view.now) (ChangeTunnel change.now)) }
{
    match view.tunnel(change.number) {
        Some(tunnel) => with_change(alloc, view, tunnel, change),
        None => Ok(Edits::none(alloc)),
    }
}

/// The edits by which the tunnel of a number goes. The only error is out of memory.
fn dropped<V: StateView>(alloc: Global, view: &V, number: u16) -> Result<Edits, AllocError>
    requires { T (is_sorted key_cmp (V.state view.now).facts.paths) }
    ensures { IfOk result (λ edits. edited edits (V.state view.now)
        ≡ with_facts (commanded (V.router view.now) (V.state view.now).facts (DropTunnel number)) (V.state view.now)) }
{
    match view.tunnel(number) {
        Some(tunnel) => with_dropped(alloc, view, number, tunnel),
        None => Ok(Edits::none(alloc)),
    }
}

/// The edits by which the change of the tunnel of a number is given up. The only error is out of memory.
fn cancelled<V: StateView>(alloc: Global, view: &V, number: u16) -> Result<Edits, AllocError>
    ensures { IfOk result (λ edits. edited edits (V.state view.now)
        ≡ with_facts (commanded (V.router view.now) (V.state view.now).facts (CancelChange number)) (V.state view.now)) }
{
    match view.tunnel(number) {
        Some(tunnel) => with_cancelled(alloc, view, number, tunnel),
        None => Ok(Edits::none(alloc)),
    }
}

/// What changes by a command that isn't refused. The only error is out of memory.
#[tactic(auto, using(crate::proofs::Taken::short_new))]
fn edits_of<V: StateView>(alloc: Global, view: &V, command: &Command) -> Result<Edits, AllocError>
    requires order { T (is_sorted key_cmp (V.state view.now).facts.paths) }
    requires taken { refusal_of (V.router view.now) (V.state view.now).facts command.now ≡ None }
    ensures { IfOk result (λ edits. edited edits (V.state view.now)
        ≡ commanded_state (V.router view.now) (V.state view.now) command.now) }
{
    match command {
        Command::AddTunnel(asked) => with_begun(alloc, view, asked),
        Command::ChangeTunnel(change) => changed(alloc, view, change),
        Command::CancelChange(number) => cancelled(alloc, view, *number),
        Command::DropTunnel(number) => dropped(alloc, view, *number),
        Command::AddBypass(asked) => with_bypass(alloc, view, *asked),
        Command::DropBypass(number) => without_bypass(alloc, view, *number),
        Command::AddRoute(prefix, link) => with_route(alloc, view, *prefix, *link),
        Command::DropRoute(prefix) => without_route(alloc, view, *prefix),
    }
}

/// What a command does. It asks that the paths that are known are in order, and that tunnels are as they should be; the only
/// error is out of memory, and it comes for none that is refused.
#[tactic(auto, unfolding(abstract_router::specs::Arrivals::command_comes, abstract_paths::specs::Commands::command))]
pub fn command<V: WholeState>(
    alloc: Global,
    view: &V,
    command: &Command,
) -> Result<Draft, AllocError>
    requires order { T (is_sorted key_cmp (V.state view.now).facts.paths) }
    requires tunnels { AreTunnels (V.router view.now) (V.state view.now).facts.tunnels }
    ensures draft { IfOk result (λ draft. IsDraft draft
        (command_comes (V.router view.now) (V.state view.now) command.now) (V.router view.now) (V.state view.now)) }
    ensures memory { OnErr result
        ((command_comes (V.router view.now) (V.state view.now) command.now).is_silent ≡ false) }
{
    if let Some(refusal) = refusal_of(view, command) {
        return Ok(refused(alloc, view, refusal));
    }
    if takes_used_bypass(view, command) {
        return Ok(refused(alloc, view, Refusal::InUse));
    }
    Ok(Draft {
        reply: Reply::Done,
        errors: Outputs::new(alloc),
        due: None,
        is_silent: false,
        edits: edits_of(alloc, view, command)?,
    })
}
