//! Frames that come to the other end of their wire.

ghost use Rattle.std.specs.Prelude.{◌≡◌, ◌<◌, ℕ, List, IfErr, IfOk, IfSome, Ok, OnErr, length};
ghost use Rattle.abstract_paths.specs.declared.events.Made.{Made};
ghost use Rattle.abstract_world.specs.Moves.{Comes, IsCarriedTo, IsHandedOver, IsPassed, IsStopFor, end_of};
ghost use Rattle.abstract_world.specs.declared.moves.Move.TheVariants as moves;
ghost use Rattle.datagrams.specs.declared.datagram.Datagram.TheVariants as kinds;
ghost use Rattle.lab_world.specs.Steps.{ComesTrue, IsSpelled};

use crate::joints::other_end;
use crate::world::World;
use abstract_world::{Answer, End, Sent};
use datagrams::{Datagram, Passed};
use link_frames::Frame;
use lsr_facts::Refusal;
use router_core::Output;
use rsvp_messages::write_frame;
use std::alloc::{AllocError, Global};

/// The bytes of a frame. The only error is out of memory.
fn bytes_of(alloc: Global, frame: &Frame) -> Result<Vec<u8>, AllocError>
    ensures { IfOk result (λ bytes. IsSpelled frame.now bytes.items) }
{
    let mut bytes = Vec::new(alloc);
    write_frame(frame, &mut bytes)?;
    Ok(bytes)
}

impl World {
    /// Where a frame comes to: the link at the other end of the wire. `None` where no wire joins the link that it was sent over.
    fn end_of(&self, sent: &Sent) -> Option<End>
        ensures end { result ≡ end_of self.now sent.now }
        ensures there { IfSome result (λ end. end.router < length self.now.routers) }
    {
        let over = End {
            router: sent.router,
            link: sent.output.link,
        };
        other_end(self.joints.as_slice(), &over)
    }

    /// The frame of this number is handed to the router at the other end of its link: gives the place of that router, and what the
    /// frame is for it, which is true in a closed world. It is refused where it comes nowhere ([`Refusal::NoFrame`]) or memory runs out.
    fn carry(
        &self,
        alloc: Global,
        number: usize,
    ) -> Result<(usize, Result<Datagram, Refusal>), Refusal>
        ensures carried { IfOk result (λ came. IsCarriedTo self.now number came.0 came.1) }
        ensures there { IfOk result (λ came. came.0 < length self.now.routers) }
        ensures came { IfOk result (λ came. ComesTrue self.now came.0 came.1) }
        ensures stopped { IfErr result (IsStopFor self.now (moves.Deliver number)) }
    {
        let Some(sent) = self.sent(number) else {
            return Err(Refusal::NoFrame);
        };
        let Some(end) = self.end_of(sent) else {
            return Err(Refusal::NoFrame);
        };
        let bytes = bytes_of(alloc, &sent.output.frame)?;
        let datagram = self.routers[end.router].read(alloc, end.link, bytes.as_slice());
        Ok((end.router, datagram))
    }

    /// The labelled frame goes on, or its payload has arrived, at the router of this place. It asks that in a closed world what the
    /// frame says is true. The only error is out of memory, and then nothing changed.
    fn pass(&mut self, place: usize, passed: Passed) -> Result<Answer, AllocError>
        requires { ComesTrue self.old place (Ok (kinds.Passed passed)) }
        ensures passed { IfOk result (λ answer. IsPassed self.old place passed answer self.new) }
        ensures kept { OnErr result (self.new ≡ self.old) }
    {
        match passed {
            Passed::Sent { link, frame } => {
                self.frames.reserve(1)?;
                let output = Output { link, frame };
                self.frames.push_reserved(Sent {
                    router: place,
                    output,
                });
                Ok(Answer::PassedOn)
            }
            Passed::Delivered(payload) => Ok(Answer::Delivered(payload)),
        }
    }

    /// What a datagram is comes to the router of this place, which asks that there is one, and that in a closed world the datagram is
    /// true. The only error is out of memory, and then nothing changed.
    fn come(
        &mut self,
        alloc: Global,
        place: usize,
        datagram: Result<Datagram, Refusal>,
    ) -> Result<Answer, AllocError>
        requires there { place < length self.old.routers }
        requires came { ComesTrue self.old place datagram }
        ensures comes { IfOk result (λ answer. (steps : List (ℕ × Made)) × Comes self.old place datagram answer steps self.new) }
        ensures kept { OnErr result (self.new ≡ self.old) }
    {
        match datagram {
            Ok(Datagram::Event(event)) => self.happen(alloc, place, event),
            Ok(Datagram::Passed(passed)) => self.pass(place, passed),
            Err(Refusal::NoMemory) => Err(AllocError),
            Err(refusal) => Ok(Answer::Refused(refusal)),
        }
    }

    /// The frame of this number comes to the other end of its link: gives the place of the router there, and its answer. It is
    /// refused, and nothing changed, where it comes nowhere ([`Refusal::NoFrame`]) or memory runs out.
    pub(crate) fn deliver(
        &mut self,
        alloc: Global,
        number: usize,
    ) -> Result<(usize, Answer), Refusal>
        ensures handed { IfOk result (λ told. (steps : List (ℕ × Made)) × IsHandedOver self.old number told.0 told.1 steps self.new) }
        ensures stopped { IfErr result (IsStopFor self.old (moves.Deliver number)) }
        ensures kept { OnErr result (self.new ≡ self.old) }
    {
        let (place, datagram) = self.carry(alloc, number)?;
        let answer = self.come(alloc, place, datagram)?;
        Ok((place, answer))
    }
}
