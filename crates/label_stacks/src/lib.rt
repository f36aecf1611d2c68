//! Stacks of MPLS labels: four bytes an entry, the top first, read and written (RFC 3032, 2.1).
#![tactic(auto)]

mod entry;
mod reading;
mod stack;
mod writing;

pub use entry::{ENTRY_LEN, StackEntry};
pub use reading::{has_one_bottom, stack_of};
pub use stack::Stack;
pub use writing::write_stack;
