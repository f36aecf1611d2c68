//! Bypasses that are added and dropped (RFC 4090, 3.2).

ghost use Rattle.std.specs.Prelude.{◌≡◌, IfOk};
ghost use Rattle.abstract_paths.specs.Changes.{with_bypass, without_bypass};
ghost use Rattle.abstract_paths.specs.Commands.{bypass_by};
ghost use Rattle.abstract_router.specs.States.{with_facts};
ghost use Rattle.state_views.specs.Edits.{edited};

use abstract_paths::NewBypass;
use lsr_facts::Bypass;
use sorted_rows::TryCopy;
use state_views::{Edits, StateView};
use std::alloc::{AllocError, Global};

/// A bypass protects its link from now on. The only error is out of memory.
pub(crate) fn with_bypass<V: StateView>(
    alloc: Global,
    view: &V,
    asked: NewBypass,
) -> Result<Edits, AllocError>
    ensures { IfOk result (λ edits. edited edits (V.state view.now)
        ≡ with_facts (with_bypass asked.number (bypass_by asked) (V.state view.now).facts) (V.state view.now)) }
{
    let mut bypasses = view.bypasses().try_copy(alloc)?;
    bypasses.set(
        asked.number,
        Bypass {
            tunnel: asked.tunnel,
            link: asked.link,
            capacity: asked.capacity,
        },
    )?;
    let mut edits = Edits::none(alloc);
    edits.bypasses = Some(bypasses);
    Ok(edits)
}

/// The bypass of a number goes. The only error is out of memory.
pub(crate) fn without_bypass<V: StateView>(
    alloc: Global,
    view: &V,
    number: u16,
) -> Result<Edits, AllocError>
    ensures { IfOk result (λ edits. edited edits (V.state view.now)
        ≡ with_facts (without_bypass number (V.state view.now).facts) (V.state view.now)) }
{
    let mut bypasses = view.bypasses().try_copy(alloc)?;
    bypasses.remove(&number);
    let mut edits = Edits::none(alloc);
    edits.bypasses = Some(bypasses);
    Ok(edits)
}
