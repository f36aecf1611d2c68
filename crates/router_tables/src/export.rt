//! What a router knows, as a value.

ghost use Rattle.std.specs.Prelude.{◌≡◌, IfOk};
ghost use Rattle.router_tables.specs.States.{state_of};

use crate::rows::Rows;
use crate::tunnels::tunnels_copied;
use lsr_facts::{Facts, State};
use sorted_rows::TryCopy;
use std::alloc::{AllocError, Global};

/// A copy of the facts that rows say. The only error is out of memory.
fn facts_of(alloc: Global, rows: &Rows) -> Result<Facts, AllocError>
    ensures { IfOk result (λ facts. facts ≡ (state_of rows.now).facts) }
{
    Ok(Facts {
        cold: false,
        moment: rows.moment,
        up: rows.up.try_copy(alloc)?,
        routes: rows.routes.try_copy(alloc)?,
        tunnels: tunnels_copied(alloc, &rows.tunnels)?,
        bypasses: rows.bypasses.try_copy(alloc)?,
        paths: rows.paths.copied(alloc)?,
        sent: rows.timers.copied(alloc)?,
    })
}

/// A copy of all that rows say. The only error is out of memory.
pub(crate) fn export(alloc: Global, rows: &Rows) -> Result<State, AllocError>
    ensures { IfOk result (λ state. state ≡ state_of rows.now) }
{
    Ok(State {
        facts: facts_of(alloc, rows)?,
        resvs: rows.bandwidth.resvs_copied(alloc)?,
        repairs: rows.repairs.copied(alloc)?,
        labels: rows.labels.copied(alloc)?,
        assignments: rows.assignments.copied(alloc)?,
        resting: rows.labels.resting(alloc)?,
        sent_upstream: rows.upstream.copied(alloc)?,
    })
}
