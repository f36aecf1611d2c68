//! `lsr play`: a world of routers, told line by line: its routers and wires first, then its moves, each of which is answered.
#![tactic(auto)]

mod answers;
mod chance;
mod chosen;
mod declared;
mod endings;
mod lab;
mod lab_lines;
mod lab_playing;
mod made;
mod moves;
mod playing;

pub use endings::{PlayEnding, play_status, tell_play_ending};
pub use lab_playing::play_lab;
pub use lab_world::WorldFault;
pub use playing::play_lines;
