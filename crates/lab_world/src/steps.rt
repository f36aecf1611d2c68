//! Events that happen at a router of a world.

ghost use Rattle.std.specs.Prelude.{◌≡◌, ◌≢◌, ◌⊎◌, ◌<◌, ℕ, List, IfOk, OnErr, Some, length, set, slice_get};
ghost use Rattle.abstract_paths.specs.declared.events.Event.{Event};
ghost use Rattle.abstract_paths.specs.declared.events.Event.TheVariants as events;
ghost use Rattle.abstract_paths.specs.declared.events.Made.{Made};
ghost use Rattle.abstract_router.specs.States.{RouterState, State};
ghost use Rattle.abstract_router.specs.Steps.{Step};
ghost use Rattle.abstract_world.specs.Moves.{Happens, IsRestarted};
ghost use Rattle.abstract_world.specs.declared.told.Answer.TheVariants as answers;
ghost use Rattle.lsr_facts.specs.declared.refusal.Refusal.TheVariants.{NoMemory};
ghost use Rattle.router_core.specs.Readies.{IsReady, made_of};
ghost use Rattle.lab_world.specs.Invariant.{IsSoundRouter};
ghost use Rattle.lab_world.specs.Steps.{HappensTrue, IsReadyAt};

use crate::parts::{give_all, send_all};
use crate::world::World;
use abstract_paths::Event;
use abstract_world::Answer;
use lsr_facts::{Key, Refusal};
use router_core::{Machine, Outputs, Ready};
use sorted_rows::Table;
use std::alloc::{AllocError, Global};

/// Makes a step that is made ready on the router of this place, and gives the labels that it chose and what it sends. It asks for
/// a step of this router as it stands. Takes no memory.
fn make_at(
    routers: &mut Vec<Machine>,
    alloc: Global,
    place: usize,
    ready: Ready,
) -> (Table<Key, u32>, Outputs)
    requires there { place < length routers.old.items }
    requires ready { IsReadyAt routers.old.items place ready }
    ensures made { (q : RouterState) → slice_get routers.old.items place ≡ Some q →
        (s : State) × (routers.new.items ≡ set routers.old.items place (record { router = q.router; state = s }))
        × IsSoundRouter (record { router = q.router; state = s })
        × ((event : Event) → IsReady q event ready → Step q.router q.state (made_of event ready) s) }
    ensures labels { (event : Event) → result.0 ≡ (made_of event ready).labels }
    ensures outputs { (event : Event) → result.1 ≡ (made_of event ready).outputs }
{
    let machine = &mut routers[place];
    let made = machine.make(alloc, ready);
    machine.soundness();
    made
}

/// What is answered where no step is made for this reason. The only error is that it is for want of memory.
fn left_out(refusal: Refusal) -> Result<Answer, AllocError>
    ensures { IfOk result (λ answer. (answer ≡ answers.Refused refusal) × (refusal ≢ NoMemory)) }
{
    match refusal {
        Refusal::NoMemory => Err(AllocError),
        _ => Ok(Answer::Refused(refusal)),
    }
}

impl World {
    /// An event happens at the router of this place, which asks that there is one: the router makes its step, or leaves it out.
    /// It asks that in a closed world what the event says of labels is true. All room is made before the step: the only error is
    /// out of memory, and then nothing changed.
    pub(crate) fn happen(
        &mut self,
        alloc: Global,
        place: usize,
        event: Event,
    ) -> Result<Answer, AllocError>
        requires there { place < length self.old.routers }
        requires came { HappensTrue self.old place event }
        ensures happens { IfOk result (λ answer. (steps : List (ℕ × Made)) × Happens self.old place event answer steps self.new) }
        ensures kept { OnErr result (self.new ≡ self.old) }
    {
        let ready = match self.routers[place].ready(alloc, &event) {
            Ok(ready) => ready,
            Err(refusal) => return left_out(refusal),
        };
        let reply = ready.reply();
        self.frames.reserve(ready.outputs().len())?;
        self.given.reserve(ready.chosen().len())?;
        let (labels, outputs) = make_at(&mut self.routers, alloc, place, ready);
        send_all(&mut self.frames, place, outputs);
        give_all(&mut self.given, place, labels.as_slice());
        Ok(Answer::Replied(reply))
    }

    /// A restart or a start happens at the router of this place, which asks that there is one. It sends nothing, and takes no
    /// memory.
    fn happen_silently(&mut self, alloc: Global, place: usize, event: Event) -> Answer
        requires there { place < length self.old.routers }
        requires silent { (event ≡ events.Restart) ⊎ (event ≡ events.Start) }
        ensures happens { (steps : List (ℕ × Made)) × Happens self.old place event result steps self.new }
        ensures routers { length self.new.routers ≡ length self.old.routers }
    {
        let ready = match self.routers[place].ready(alloc, &event) {
            Ok(ready) => ready,
            Err(refusal) => return Answer::Refused(refusal),
        };
        let reply = ready.reply();
        make_at(&mut self.routers, alloc, place, ready);
        Answer::Replied(reply)
    }

    /// The router of this place, which asks that there is one, is restarted and then started. Takes no memory.
    pub(crate) fn restart(&mut self, alloc: Global, place: usize) -> Answer
        requires { place < length self.old.routers }
        ensures { (steps : List (ℕ × Made)) × IsRestarted self.old place result steps self.new }
    {
        self.happen_silently(alloc, place, Event::Restart);
        self.happen_silently(alloc, place, Event::Start)
    }
}
