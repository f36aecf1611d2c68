//! What a restart leaves of plain values.

ghost use Rattle.std.specs.Prelude.{◌≡◌};
ghost use Rattle.abstract_paths.specs.Restarts.{all_cancelled, restarted};
ghost use Rattle.abstract_router.specs.Arrivals.{lost};

use lsr_facts::changes::cancel;
use lsr_facts::{Facts, State, Tunnel};
use sorted_rows::Table;
use std::alloc::Global;
use std::mem;

/// Each change of a tunnel that isn't over is given up. Takes no memory.
fn cancel_each(tunnels: &mut Vec<(u16, Tunnel)>)
    ensures { tunnels.new.items ≡ all_cancelled tunnels.old.items }
{
    for tunnel in tunnels.iter_mut() {
        cancel(&mut tunnel.1);
    }
}

/// The tunnels, without changes that aren't over. Takes no memory.
fn all_cancelled(tunnels: Table<u16, Tunnel>) -> Table<u16, Tunnel>
    ensures { result ≡ all_cancelled tunnels }
{
    let mut rows = tunnels.into_rows();
    cancel_each(&mut rows);
    Table::from_rows(rows)
}

/// A restart of links, tunnels and paths: paths are lost, and the router is cold. Takes no memory.
fn restart_facts(alloc: Global, facts: &mut Facts)
    ensures { facts.new ≡ (restarted facts.old).after }
{
    let tunnels = mem::replace(&mut facts.tunnels, Table::new(alloc));
    facts.cold = true;
    facts.tunnels = all_cancelled(tunnels);
    facts.paths = Table::new(alloc);
    facts.sent = Table::new(alloc);
}

/// What a restart leaves: what messages set up is lost, and the router is cold. Takes no memory.
pub(crate) fn restarted(alloc: Global, state: State) -> State
    ensures { result ≡ (lost state).after }
{
    let mut after = state;
    restart_facts(alloc, &mut after.facts);
    after.resvs = Table::new(alloc);
    after.repairs = Table::new(alloc);
    after.labels = Table::new(alloc);
    after.assignments = Table::new(alloc);
    after.resting = Table::new(alloc);
    after.sent_upstream = Table::new(alloc);
    after
}
