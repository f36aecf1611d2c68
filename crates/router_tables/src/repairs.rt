//! The repairs of LSPs that run over bypasses, in memory that is taken when the router is opened.

ghost use Rattle.std.specs.Prelude.{◌≡◌, IfOk, filter, not};
ghost use Rattle.lsr_facts.specs.Reservations.{resv_lives_past};
ghost use Rattle.sorted_rows.specs.Rows.{keys_of};

use lsr_facts::limits::MAX_LSPS;
use lsr_facts::{Key, KeyNumber, Repair};
use slot_rows::{RowTest, SlotTable};
use std::alloc::{AllocError, Global};

/// Repairs by LSP.
pub(crate) type Repairs = SlotTable<Key, Repair, KeyNumber, MAX_LSPS>;

/// The repairs that expire at a moment, in milliseconds.
#[derive(Drop)]
struct ExpiresAt {
    moment: u64,
}

impl RowTest<Key, Repair> for ExpiresAt {
    ghost use Rattle.std.specs.Prelude.{not};
    ghost use Rattle.lsr_facts.specs.Reservations.{resv_lives_past};

    ghost passes = { λ test repair. not (resv_lives_past test.moment repair.1.resv) };

    fn passes(&self, repair: &(Key, Repair)) -> bool {
        !repair.1.resv.lives_past(self.moment)
    }
}

/// The LSPs whose repairs expire at a moment, in milliseconds, in the order of their keys. The only error is out of memory.
pub(crate) fn expiring(
    alloc: Global,
    repairs: &Repairs,
    moment: u64,
) -> Result<Vec<Key>, AllocError>
    ensures { IfOk result (λ keys. keys.items
        ≡ keys_of (filter (λ repair. not (resv_lives_past moment repair.1.resv)) repairs.now)) }
{
    repairs.keys_where(alloc, &ExpiresAt { moment })
}
