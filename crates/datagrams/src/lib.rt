//! What a datagram is that came over a link: an event of the router, a labelled frame that goes on, a payload that has
//! arrived, or a refusal. Own addresses and whatever forwards by labels decide it; nothing else of a router does.
#![tactic(auto)]

mod datagram;
mod reading;
mod unlabelled;

pub use datagram::{Datagram, Forwards, Passed};
pub use reading::read_datagram;
pub use unlabelled::read_unlabelled;
