//! Changes of a label table.

ghost use Rattle.std.specs.Prelude.{◌≡◌, [], false, true, IfOk};

use forwarding_table::Action;
use sorted_rows::{Table, copy_plain_rows};
use std::alloc::{AllocError, Global};

/// What one entry of a journal changes of a label table.
#[derive(Debug, Drop)]
pub struct TableChange {
    /// Whether all actions go first, as at a restart.
    pub cleared: bool,
    /// What is done with these labels from now on, or that nothing is.
    pub labels: Table<u32, Option<Action>>,
    /// What is done with the traffic of these tunnels, by number, from now on, or that nothing is.
    pub tunnels: Table<u16, Option<Action>>,
}

impl TableChange {
    /// The change of a restart: all actions go. Takes no memory.
    pub fn restart(alloc: Global) -> TableChange
        ensures { result ≡ record { cleared = true; labels = []; tunnels = [] } }
    {
        TableChange {
            cleared: true,
            labels: Table::new(alloc),
            tunnels: Table::new(alloc),
        }
    }

    /// The change that these edits make, as a copy of them. The only error is out of memory.
    pub fn of_edits(
        alloc: Global,
        labels: &Table<u32, Option<Action>>,
        tunnels: &Table<u16, Option<Action>>,
    ) -> Result<TableChange, AllocError>
        ensures { IfOk result (λ change.
            change ≡ record { cleared = false; labels = labels.now; tunnels = tunnels.now }) }
    {
        Ok(TableChange {
            cleared: false,
            labels: Table::from_rows(copy_plain_rows(alloc, labels.as_slice())?),
            tunnels: Table::from_rows(copy_plain_rows(alloc, tunnels.as_slice())?),
        })
    }
}
