//! Moves.

use abstract_paths::Command;

/// What happens next in a world: at one of its routers.
#[derive(Debug, Drop)]
pub enum Move {
    /// The frame of this number comes to the other end of the link that it was sent over. The first frame ever sent has
    /// number 1.
    Deliver(usize),
    /// It comes there once more, as a wire that repeats would have it.
    Repeat(usize),
    /// This moment comes at the router of this place, in milliseconds.
    Tick(usize, u64),
    /// The link of this number comes up at the router of this place.
    LinkUp(usize, u16),
    /// The link of this number goes down at the router of this place.
    LinkDown(usize, u16),
    /// An operator tells the router of this place this.
    Command(usize, Command),
    /// The router of this place is restarted, and then started.
    Restart(usize),
}
