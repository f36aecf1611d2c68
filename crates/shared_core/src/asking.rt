//! What is asked of a router that many threads feed.

ghost use Rattle.abstract_router.specs.States.{RouterState};

use run_journal::Machine;

/// A question about a router as it stands. It is answered under the router's lock, while nobody feeds it.
pub trait Question {
    /// What is answered.
    type Answer;

    // it is an answer of a router in this state
    ghost answered: { Self → RouterState → Self.Answer → Type 0 };

    /// The answer of the router.
    fn ask(&self, machine: &Machine) -> Self::Answer
        ensures { answered self.now machine.now result };
}
