//! Labels that were given.

ghost use Rattle.std.specs.Prelude.{◌≡◌, ℕ, List, Result};
ghost use Rattle.std.specs.List.{AllByRecursion};
ghost use Rattle.lsr_facts.specs.declared.refusal.Refusal.{Refusal};
ghost use Rattle.abstract_paths.specs.declared.events.Made.{Made};
ghost use Rattle.abstract_router.specs.States.{RouterState};
ghost use Rattle.datagrams.specs.declared.datagram.Datagram.{Datagram};
ghost use Rattle.abstract_world.specs.Moves.{AreMoved, IsCarriedTo};
ghost use Rattle.abstract_world.specs.Opening.{opened_world};
ghost use Rattle.abstract_world.specs.Worlds.{IsStep, WorldState};
ghost use Rattle.abstract_world.specs.declared.joint.Joint.{Joint};
ghost use Rattle.abstract_world.specs.declared.moves.Move.{Move};
ghost use Rattle.abstract_world.specs.declared.told.Told.{Told};
ghost use Rattle.world_laws.specs.Closed.{IsClosed};
ghost use Rattle.world_laws.specs.Coming.{IsTrueDatagram, IsTrueEvent};
ghost use Rattle.world_laws.specs.Opening.{IsOpened};
ghost use Rattle.world_laws.specs.Sending.{AreLabelsGiven};
ghost use Rattle.world_laws.specs.Truths.{IsTrueWorld};

/// Whatever moves are made in a closed world, it stays true: what its routers hold of their LSPs, and each frame that was ever
/// sent. It is true as it is opened. A step of a router keeps it true where what came to the router was; and what is delivered
/// is true where the world is.
pub fn closed_worlds_stay_true()
    ensures opening { (routers : List RouterState) (joints : List Joint) →
        AllByRecursion IsOpened routers → IsTrueWorld (opened_world routers joints) }
    ensures delivery { (w : WorldState) (number place : ℕ) (datagram : Result Datagram Refusal) →
        IsClosed w → IsTrueWorld w → IsCarriedTo w number place datagram → IsTrueDatagram w place datagram }
    ensures step { (w : WorldState) (place : ℕ) (made : Made) (after : WorldState) →
        IsClosed w → IsTrueWorld w → IsTrueEvent w place made.event → IsStep w place made after → IsTrueWorld after }
    ensures moves { (w : WorldState) (moves : List Move) (told : List Told) (steps : List (ℕ × Made)) (after : WorldState) →
        IsClosed w → IsTrueWorld w → AreMoved w moves told steps after → IsTrueWorld after }
{}

/// In a world that is true each label that a table of a router sends frames under, over a link, was given by the router at the
/// other end for that same LSP (RFC 3209, 4.1). For an LSP that is repaired this holds of the outer label and the LSP that
/// carries the bypass; and the inner label was given for the LSP by the router that the bypass ends at (RFC 4090, 6.4.1), also
/// after a Resv has renewed the repair (RFC 4090, 6.4.3). It says "was given", and not that the label still names the LSP
/// there.
pub fn sent_labels_were_given()
    ensures { (w : WorldState) → IsTrueWorld w → AreLabelsGiven w }
{}
