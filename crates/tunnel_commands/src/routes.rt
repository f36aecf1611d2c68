//! Static routes that come and go.

ghost use Rattle.std.specs.Prelude.{◌≡◌, ◌≤◌, IfOk};
ghost use Rattle.abstract_paths.specs.Changes.{with_route, without_route};
ghost use Rattle.abstract_paths.specs.Commands.{masked_prefix};
ghost use Rattle.abstract_router.specs.States.{with_facts};
ghost use Rattle.state_views.specs.Edits.{edited};

use lsr_facts::masked;
use rsvp_contents::Prefix;
use sorted_rows::TryCopy;
use state_views::{Edits, StateView};
use std::alloc::{AllocError, Global};

/// The greatest length of a prefix, in bits.
pub(crate) const MAX_LENGTH: u8 = 32;

/// The prefix without the bits of its address past its length.
pub(crate) fn masked_prefix(prefix: Prefix) -> Prefix
    requires { prefix.length ≤ 32 }
    ensures { result ≡ masked_prefix prefix }
{
    Prefix {
        address: masked(prefix.address, prefix.length),
        length: prefix.length,
    }
}

/// What goes to these addresses leaves by the link from now on. The only error is out of memory.
pub(crate) fn with_route<V: StateView>(
    alloc: Global,
    view: &V,
    prefix: Prefix,
    link: u16,
) -> Result<Edits, AllocError>
    requires { prefix.length ≤ 32 }
    ensures { IfOk result (λ edits. edited edits (V.state view.now)
        ≡ with_facts (with_route (masked_prefix prefix) link (V.state view.now).facts) (V.state view.now)) }
{
    let mut routes = view.node().routes.try_copy(alloc)?;
    routes.set(masked_prefix(prefix), link)?;
    let mut edits = Edits::none(alloc);
    edits.routes = Some(routes);
    Ok(edits)
}

/// The static route to these addresses goes. The only error is out of memory.
pub(crate) fn without_route<V: StateView>(
    alloc: Global,
    view: &V,
    prefix: Prefix,
) -> Result<Edits, AllocError>
    requires { prefix.length ≤ 32 }
    ensures { IfOk result (λ edits. edited edits (V.state view.now)
        ≡ with_facts (without_route (masked_prefix prefix) (V.state view.now).facts) (V.state view.now)) }
{
    let mut routes = view.node().routes.try_copy(alloc)?;
    routes.remove(&masked_prefix(prefix));
    let mut edits = Edits::none(alloc);
    edits.routes = Some(routes);
    Ok(edits)
}
