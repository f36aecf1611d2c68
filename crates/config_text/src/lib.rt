//! The text of a configuration: what `lsr config` and `show config` print of one, and where the fault of one stands.
#![tactic(auto)]

mod allowed;
mod cuts;
mod place;
mod position;
mod printing;
mod section;
mod telling;

pub use place::{Place, link_without, place_of};
pub use printing::{config_text, setup_text};
pub use section::{Section, Spot};
pub use telling::tell_place;
