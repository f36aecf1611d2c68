//! Moves, one after the other, and what is told of them.

ghost use Rattle.std.specs.Prelude.{◌≡◌, ℕ, List, IfErr, IfOk, MatchResult, OnErr, true};
ghost use Rattle.std.specs.List.{AllByRecursion};
ghost use Rattle.abstract_paths.specs.declared.events.Made.{Made};
ghost use Rattle.abstract_world.specs.Moves.{AreMoved, Happens, IsMadeAt, IsMoved, IsRestarted, IsStopFor, StopsAt};
ghost use Rattle.abstract_world.specs.Runs.{AreRuns};
ghost use Rattle.abstract_world.specs.Wires.{is_closed};
ghost use Rattle.abstract_world.specs.Worlds.{routers_in};
ghost use Rattle.lab_world.specs.Steps.{HappensTrue, IsStopAt};
ghost use Rattle.world_laws.specs.Sending.{AreLabelsGiven};
ghost use Rattle.world_laws.specs.Truths.{IsTruthful};

use crate::world::World;
use abstract_paths::Event;
use abstract_world::{Answer, Move, Told};
use lsr_facts::Refusal;
use router_soundness::soundness::every_run_stays_sound;
use std::alloc::Global;

/// What is told of moves, in their order.
#[derive(Debug, Drop)]
pub struct Report {
    /// Of each move its own.
    pub moves: Vec<Told>,
}

impl World {
    /// An event happens at the router of this place: gives the place, and the router's answer. It asks that in a closed world what the
    /// event says of labels is true. It is refused, and nothing changed, where there is no such router ([`Refusal::NoRouter`]) or
    /// memory runs out.
    fn happen_at(
        &mut self,
        alloc: Global,
        place: usize,
        event: Event,
    ) -> Result<(usize, Answer), Refusal>
        requires { HappensTrue self.old place event }
        ensures happens { IfOk result (λ told. (told.0 ≡ place) × ((steps : List (ℕ × Made)) × Happens self.old place event told.1 steps self.new)) }
        ensures stopped { IfErr result (IsStopAt self.old place) }
        ensures kept { OnErr result (self.new ≡ self.old) }
    {
        if place >= self.routers.len() {
            return Err(Refusal::NoRouter);
        }
        let answer = self.happen(alloc, place, event)?;
        Ok((place, answer))
    }

    /// The router of this place is restarted and then started: gives the place, and the router's answer. It is refused, and nothing
    /// changed, where there is no such router ([`Refusal::NoRouter`]).
    fn restart_at(&mut self, alloc: Global, place: usize) -> Result<(usize, Answer), Refusal>
        ensures restarted { IfOk result (λ told. (told.0 ≡ place) × ((steps : List (ℕ × Made)) × IsRestarted self.old place told.1 steps self.new)) }
        ensures stopped { IfErr result (IsStopAt self.old place) }
        ensures kept { OnErr result (self.new ≡ self.old) }
    {
        if place >= self.routers.len() {
            return Err(Refusal::NoRouter);
        }
        Ok((place, self.restart(alloc, place)))
    }

    /// Makes a move: gives the place of the router that it happened at, and that router's answer. It is refused, and nothing changed,
    /// as [`World::run`] says.
    fn answer_to(&mut self, alloc: Global, one: &Move) -> Result<(usize, Answer), Refusal>
        ensures made { IfOk result (λ told. (steps : List (ℕ × Made)) × IsMadeAt self.old one.now told.0 told.1 steps self.new) }
        ensures stopped { IfErr result (IsStopFor self.old one.now) }
        ensures kept { OnErr result (self.new ≡ self.old) }
    {
        match one {
            Move::Deliver(number) | Move::Repeat(number) => self.deliver(alloc, *number),
            Move::Tick(place, moment) => self.happen_at(alloc, *place, Event::Tick(*moment)),
            Move::LinkUp(place, link) => self.happen_at(alloc, *place, Event::LinkUp(*link)),
            Move::LinkDown(place, link) => self.happen_at(alloc, *place, Event::LinkDown(*link)),
            Move::Command(place, command) => {
                let command = command.copied(alloc)?;
                self.happen_at(alloc, *place, Event::Command(command))
            }
            Move::Restart(place) => self.restart_at(alloc, *place),
        }
    }

    /// Makes a move, and tells of it. It is refused, and nothing changed, as [`World::run`] says.
    fn make(&mut self, alloc: Global, one: &Move) -> Result<Told, Refusal>
        ensures moved { IfOk result (λ told. (steps : List (ℕ × Made)) × IsMoved self.old one.now told steps self.new) }
        ensures stopped { IfErr result (IsStopFor self.old one.now) }
        ensures kept { OnErr result (self.new ≡ self.old) }
    {
        let first = self.frames.len() + 1;
        let (router, answer) = self.answer_to(alloc, one)?;
        Ok(Told {
            router,
            answer,
            first,
            end: self.frames.len() + 1,
        })
    }

    /// Makes moves, one after the other, and tells of each, as [`World::run`] says.
    fn make_all(&mut self, alloc: Global, moves: &[Move]) -> Result<Report, Refusal>
        ensures runs { (steps : List (ℕ × Made)) × AreRuns self.old steps self.new × MatchResult result
            (λ report. AreMoved self.old moves.now report.moves.items steps self.new)
            (λ refusal. StopsAt self.old moves.now refusal steps self.new) }
    {
        every_run_stays_sound();
        self.soundness();
        let mut told = Vec::with_capacity(alloc, moves.len())?;
        for one in moves {
            told.push_reserved(self.make(alloc, one)?);
        }
        Ok(Report { moves: told })
    }

    /// Makes moves, one after the other, and tells of each.
    ///
    /// A frame comes to the other end of the link that it was sent over, as any datagram comes; one that is never delivered is lost,
    /// and one can be delivered again and again. What is sent is kept and numbered, whether a wire joins its link or not.
    ///
    /// It stops at the first move that can't be made. That is one that delivers a frame which isn't there, or whose link no wire joins
    /// ([`Refusal::NoFrame`]); one at a router that isn't there ([`Refusal::NoRouter`]); or one for which memory runs out
    /// ([`Refusal::NoMemory`]), where all room is made before a step. The moves before it stand, and it changes nothing itself.
    ///
    /// Whatever it answers, the steps of each router are a run of the abstract router from what it knew, and what it knows is sound
    /// after each; and they are the steps that the report tells of.
    ///
    /// In a closed world ([`World::closed`]) each label that a table of a router sends frames under, over a link, was then given by
    /// the router at the other end for that same LSP (RFC 3209, 4.1). That is said of the past: that router may have taken it back
    /// since. Where the LSP is repaired, this holds of the outer label and the LSP that carries the bypass; the inner label was given
    /// for the LSP by the router that the bypass ends at, also after a Resv has renewed the repair (RFC 4090, 6.4).
    ///
    /// And in a closed world each frame that was ever sent is truthful: the label in a Resv was given to its LSP by a router that has the address of its
    /// hop, and each label in its record that directly follows an address by the router with that id (RFC 3209, 4.4).
    pub fn run(&mut self, alloc: Global, moves: &[Move]) -> Result<Report, Refusal>
        ensures runs { (steps : List (ℕ × Made)) × AreRuns self.old steps self.new × MatchResult result
            (λ report. AreMoved self.old moves.now report.moves.items steps self.new)
            (λ refusal. StopsAt self.old moves.now refusal steps self.new) }
        ensures labels { is_closed (routers_in self.new.routers) self.new.joints ≡ true → AreLabelsGiven self.new }
        ensures frames { is_closed (routers_in self.new.routers) self.new.joints ≡ true → AllByRecursion (IsTruthful self.new) self.new.frames }
    {
        let report = self.make_all(alloc, moves);
        self.labels_were_given();
        report
    }
}
