//! The moments at which messages were sent: known of exactly those that are wanted.

ghost use Rattle.std.specs.List.{AllByRecursion};
ghost use Rattle.std.specs.Prelude.{◌≡◌, ◌↔◌, IfOk, IsTrue};
ghost use Rattle.sorted_rows.specs.Rows.{keys_of};
ghost use Rattle.abstract_paths.specs.Soundness.{ArePaths};
ghost use Rattle.abstract_router.specs.Soundness.{IsResv};
ghost use Rattle.abstract_router.specs.Upstreams.{upstream_of};
ghost use Rattle.abstract_router.specs.Wanted.{items_of};
ghost use Rattle.state_views.specs.KnownLsps.{AreLsps};

use crate::keys::have_same_keys;
use plain_views::Known;
use std::alloc::{AllocError, Global};
use wanted_messages::{items_at_keys, upstream_at_keys};

/// Whether of exactly the Paths that are wanted it is known when they were sent last. The only error is out of memory.
pub(crate) fn are_sent(alloc: Global, known: &Known<'_>) -> Result<bool, AllocError>
    requires { AreLsps known.now.router.now known.now.state.now }
    ensures { IfOk result (λ yes. IsTrue yes ↔
        (keys_of known.now.state.now.facts.sent ≡ keys_of (items_of known.now.router.now known.now.state.now))) }
{
    let facts = &known.state.facts;
    let wanted = items_at_keys(alloc, known, facts.paths.as_slice())?;
    Ok(have_same_keys(facts.sent.as_slice(), wanted.as_slice()))
}

/// Whether of exactly the Resvs that are wanted it is known when they were sent last. The only error is out of memory.
pub(crate) fn are_sent_upstream(alloc: Global, known: &Known<'_>) -> Result<bool, AllocError>
    requires { AreLsps known.now.router.now known.now.state.now }
    ensures { IfOk result (λ yes. IsTrue yes ↔
        (keys_of known.now.state.now.sent_upstream ≡ keys_of (upstream_of known.now.router.now known.now.state.now))) }
{
    let state = known.state;
    let wanted = upstream_at_keys(alloc, known, state.facts.paths.as_slice())?;
    Ok(have_same_keys(state.sent_upstream.as_slice(), wanted.as_slice()))
}
