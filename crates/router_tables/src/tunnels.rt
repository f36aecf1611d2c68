//! The tunnels that begin at a router, in memory that is taken when it is opened.

ghost use Rattle.std.specs.Prelude.{◌≡◌, ◌≤◌, IfOk, length, true};
ghost use Rattle.lsr_facts.specs.Changes.{cancelled};
ghost use Rattle.lsr_facts.specs.Limits.{max_tunnels};
ghost use Rattle.abstract_paths.specs.Restarts.{all_cancelled};

use lsr_facts::Tunnel;
use lsr_facts::changes::cancel;
use lsr_facts::limits::MAX_TUNNELS;
use sorted_rows::{ReservedTable, Sweep, Table, copy_rows};
use std::alloc::{AllocError, Global};

/// Tunnels by number.
pub(crate) type Tunnels = ReservedTable<u16, Tunnel, MAX_TUNNELS>;

/// The tunnels of a table, with the memory of all that there may ever be. It asks that they are not more; the only error is
/// that there is too little memory.
pub(crate) fn with_room(alloc: Global, tunnels: Table<u16, Tunnel>) -> Result<Tunnels, AllocError>
    requires { length tunnels ≤ max_tunnels }
    ensures { IfOk result (λ all. all ≡ tunnels) }
{
    let mut all = Tunnels::new(alloc)?;
    let mut rows = tunnels.into_rows();
    while let Some((number, tunnel)) = rows.pop() {
        all.set(number, tunnel);
    }
    Ok(all)
}

/// A copy of tunnels, as a table of their own. The only error is out of memory.
pub(crate) fn tunnels_copied(
    alloc: Global,
    tunnels: &Tunnels,
) -> Result<Table<u16, Tunnel>, AllocError>
    ensures { IfOk result (λ copy. copy ≡ tunnels.now) }
{
    Ok(Table::from_rows(copy_rows(alloc, tunnels.as_slice())?))
}

/// What a restart leaves of a tunnel.
struct Restarted;

impl Sweep<u16, Tunnel> for Restarted {
    ghost stays = { λ _ _. true };

    ghost left = { λ _. cancelled };

    fn stays(&self, _row: &(u16, Tunnel)) -> bool {
        true
    }

    fn leave(&self, tunnel: &mut Tunnel) {
        cancel(tunnel);
    }
}

/// Each change of a tunnel that isn't over is given up. Takes no memory.
pub(crate) fn cancel_all(tunnels: &mut Tunnels)
    ensures { tunnels.new ≡ all_cancelled tunnels.old }
{
    tunnels.sweep(&Restarted);
}
