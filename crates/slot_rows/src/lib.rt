//! Tables whose rows stay in their slots: a key that comes or goes moves numbers of slots, and no row.
#![tactic(auto)]

mod copies;
mod edits;
mod finding;
mod marks;
mod numbering;
mod searches;
mod slot_table;
mod slots;
mod sweeps;

pub use edits::{EditRows, make_edits};
pub use finding::place;
pub use marks::{Mark, Marks};
pub use numbering::{Numbering, OwnNumber};
pub use searches::{Probe, RowTest, push_passing};
pub use slot_table::SlotTable;
pub use slots::{OrderedSlots, write_value};
