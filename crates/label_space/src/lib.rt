//! The labels that a router gives to LSPs (RFC 3031, 3.1 and 3.14): which of its range are free, which of these is given
//! next, and which LSP holds which of the others.
#![tactic(auto)]

mod bindings;
pub mod laws;
mod line;
mod space;

pub use bindings::LabelBindings;
pub use space::LabelSpace;
