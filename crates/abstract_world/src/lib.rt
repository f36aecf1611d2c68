//! A world of label switching routers: routers, the wires that join their links, all frames that were ever sent, and all labels
//! that were ever given; and what moves make of it. Definitions, and the types that they speak of.
#![tactic(auto)]

mod joint;
mod moves;
mod sent;
mod told;

pub use joint::{End, Joint};
pub use moves::Move;
pub use sent::{Given, Sent};
pub use told::{Answer, Told};
