//! A world that is played with `--lab`: which of its frames were delivered, and which moves chance makes in it.
ghost use Rattle.std.specs.Prelude.{◌≡◌, OnOk};

use crate::chance::Chance;
use abstract_world::Move;
use lab_world::World;
use std::alloc::{AllocError, Global};

/// Of so many moves of chance these are losses, these repeat a frame, these bring one before its time, these take a link down, and
/// these bring one up. Of the others most deliver the next frame, where one is left, and else a moment comes.
const LOTS: usize = 100;

const LOSSES: usize = 4;

const REPEATS: usize = 8;

const EARLY: usize = 12;

const FAULTS: usize = 13;

const RETURNS: usize = 16;

const TICKS: usize = 24;

/// How much later the next moment of chance is than the last one at most, in milliseconds: while frames are under way, and else.
const SOON: usize = 200;

const LATER: usize = 8_000;

/// A world that is played, and which of its frames were delivered.
#[derive(Drop)]
pub(crate) struct Lab {
    pub(crate) world: World,
    /// The number of the first frame that was neither delivered in its turn nor lost.
    next: usize,
    /// Of each frame, by its number, whether a line delivered it. Those of greater numbers weren't.
    delivered: Vec<bool>,
    /// The greatest moment that came, in milliseconds.
    moment: u64,
}

impl Lab {
    /// One in which no move was made.
    pub(crate) fn new(alloc: Global, world: World) -> Lab
        ensures { result.world ≡ world }
    {
        Lab {
            world,
            next: 1,
            delivered: Vec::new(alloc),
            moment: 0,
        }
    }

    /// Remembers that the frame of this number is delivered, where there is one.
    fn remember_frame(&mut self, number: usize) -> Result<(), AllocError>
        ensures { self.new.world ≡ self.old.world }
    {
        if number > self.world.frames() {
            return Ok(());
        }
        if self.delivered.len() <= number {
            self.delivered.resize(number.saturating_add(1), false)?;
        }
        if let Some(delivered) = self.delivered.get_mut(number) {
            *delivered = true;
        }
        Ok(())
    }

    /// Remembers which frame the move delivers, or which moment comes.
    pub(crate) fn remember(&mut self, one: &Move) -> Result<(), AllocError>
        ensures { self.new.world ≡ self.old.world }
    {
        match one {
            Move::Deliver(number) | Move::Repeat(number) => self.remember_frame(*number),
            Move::Tick(_, moment) => {
                self.moment = self.moment.max(*moment);
                Ok(())
            }
            Move::LinkUp(_, _) | Move::LinkDown(_, _) => Ok(()),
            Move::Command(_, _) | Move::Restart(_) => Ok(()),
        }
    }

    /// Whether a line delivered the frame of this number.
    fn is_delivered(&self, number: usize) -> bool {
        matches!(self.delivered.get(number), Some(true))
    }

    /// The number of the first frame that is to be delivered in its turn, if there is one.
    fn first_left(&self) -> Option<usize> {
        for number in self.next..self.world.frames().saturating_add(1) {
            if !self.is_delivered(number) {
                return Some(number);
            }
        }
        None
    }

    /// Takes the first frame that is to be delivered in its turn: its number, if there is one.
    pub(crate) fn take_left(&mut self) -> Option<usize>
        ensures { self.new.world ≡ self.old.world }
    {
        let number = self.first_left()?;
        self.next = number.saturating_add(1);
        Some(number)
    }

    /// A router of chance, and a link of it; none where that router has no link.
    fn pick_link(&self, chance: &mut Chance) -> Option<(usize, u16)> {
        let place = chance.below(self.world.routers());
        let links = &self.world.router(place)?.router().links;
        let at = chance.below(links.as_slice().len());
        let (link, _) = links.as_slice().get(at)?;
        Some((place, *link))
    }

    /// A moment that comes at a router of chance, so many milliseconds later at most.
    fn pick_moment(&self, chance: &mut Chance, most: usize) -> Move {
        let router = chance.below(self.world.routers());
        let moment = self.moment.saturating_add(chance.below(most) as u64);
        Move::Tick(router, moment)
    }

    /// A move that this lot stands for, where it neither loses nor delivers the next frame.
    fn pick_other(&self, chance: &mut Chance, lot: usize) -> Move {
        let number = chance.below(self.world.frames()).saturating_add(1);
        if lot < REPEATS {
            return Move::Repeat(number);
        }
        if lot < EARLY {
            return Move::Deliver(number);
        }
        match self.pick_link(chance) {
            Some((place, link)) if lot < FAULTS => Move::LinkDown(place, link),
            Some((place, link)) if lot < RETURNS => Move::LinkUp(place, link),
            Some(_) | None => self.pick_moment(chance, SOON),
        }
    }

    /// A move of chance; none where the next frame is lost.
    pub(crate) fn pick(&mut self, chance: &mut Chance) -> Option<Move>
        ensures { self.new.world ≡ self.old.world }
    {
        let lot = chance.below(LOTS);
        if lot >= LOSSES && lot < TICKS {
            return Some(self.pick_other(chance, lot));
        }
        match self.take_left() {
            Some(_lost) if lot < LOSSES => None,
            Some(number) => Some(Move::Deliver(number)),
            None => Some(self.pick_moment(chance, LATER)),
        }
    }
}
