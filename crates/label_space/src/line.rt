ghost use Rattle.std.specs.Prelude.{◌≡◌, ◌<◌, ◌↔◌, All, Contains, IfOk, IsTrue, length, nat_eq, slice_get};
ghost use Rattle.std.specs.List.{IsDistinct, range_with_len};
ghost use Rattle.label_space.specs.Lines.{IsBehind, IsRising, line_with, line_without};

use sorted_rows::TryCopy;
use std::alloc::{AllocError, Global};
use std::marker::Model;

/// Places that are numbered from 0, some of which stand in line. Each call takes the same time, however many they are,
/// but for one that has a place go ahead of others. Contracts see how many places there are, and the line.
#[derive(Debug, Drop)]
pub(crate) struct Line {
    /// How many places there are. As a place it is the one before the first in line, and after the last.
    count: u32,
    /// Of each place in line the one after it. A place that isn't in line has itself.
    next: Vec<u32>,
    /// Of each place in line the one before it.
    previous: Vec<u32>,
}

impl Model for Line {
    ghost use Rattle.label_space.specs.Lines.{AreLinks, Places, line_of};

    ghost Value = { Places };

    ghost view = { λ l. record { count = l.count; line = line_of l.count l.next.items } };

    ghost invariant = { λ l. AreLinks l.count l.next.items l.previous.items };
}

impl Line {
    /// So many places, all in line, the least first. Takes all memory that the line ever needs; the only error is that
    /// there is too little.
    pub(crate) fn new(alloc: Global, count: u32) -> Result<Line, AllocError>
        ensures { IfOk result (λ line. line ≡ record { count = count; line = range_with_len 0 count }) }
    {
        let places = count as usize + 1;
        let mut next = Vec::with_capacity(alloc, places)?;
        let mut previous = Vec::with_capacity(alloc, places)?;
        previous.push(count)?;
        for place in 0..count {
            next.push(place + 1)?;
            previous.push(place)?;
        }
        next.push(0)?;
        Ok(Line {
            count,
            next,
            previous,
        })
    }

    /// The first in line, or `None` where no place is in line.
    pub(crate) fn first(&self) -> Option<u32>
        ensures first { result ≡ slice_get self.now.line 0 }
        ensures within { All (λ place. place < self.now.count) self.now.line }
        ensures apart { IsDistinct nat_eq self.now.line }
    {
        let first = self.next[self.count as usize];
        if first == self.count {
            None
        } else {
            Some(first)
        }
    }

    /// Whether a place is in line. A number that is no place isn't.
    pub(crate) fn contains(&self, place: u32) -> bool
        ensures in_line { IsTrue result ↔ Contains self.now.line place }
        ensures within { IsTrue result → place < self.now.count }
    {
        place < self.count && self.next[place as usize] != place
    }

    /// A place leaves the line, wherever it stands there. Takes no memory.
    pub(crate) fn remove(&mut self, place: u32)
        requires { Contains self.old.line place }
        ensures line { self.new ≡ record self.old { line = line_without place self.old.line } }
        ensures within { place < self.old.count }
    {
        let before = self.previous[place as usize];
        let behind = self.next[place as usize];
        self.next[before as usize] = behind;
        self.previous[behind as usize] = before;
        self.next[place as usize] = place;
    }

    /// The first place in line whose number is more than this, where numbers don't fall along the line; the number of
    /// places where there is none. Looks from the end of the line on.
    fn first_above(&self, numbers: &[u64], number: u64) -> u32
        requires numbers { length numbers.now ≡ self.now.count }
        requires rising { IsRising numbers.now self.now.line }
        ensures { IsBehind numbers.now number self.now result }
    {
        let mut behind = self.count;
        for _ in 0..self.count {
            let last = self.previous[behind as usize];
            if last == self.count || numbers[last as usize] <= number {
                return behind;
            }
            behind = last;
        }
        behind
    }

    /// A place joins the line, behind all whose number is no more than its own. It takes as long as there are places
    /// that it goes ahead of. It asks for numbers that don't fall along the line. Takes no memory.
    pub(crate) fn join(&mut self, place: u32, numbers: &[u64])
        requires within { place < self.old.count }
        requires absent { ¬ Contains self.old.line place }
        requires numbers { length numbers.now ≡ self.old.count }
        requires rising { IsRising numbers.now self.old.line }
        ensures { self.new ≡ record self.old { line = line_with numbers.now place self.old.line } }
    {
        let behind = self.first_above(numbers, numbers[place as usize]);
        let last = self.previous[behind as usize];
        self.next[last as usize] = place;
        self.previous[place as usize] = last;
        self.next[place as usize] = behind;
        self.previous[behind as usize] = place;
    }
}

impl TryCopy for Line {
    fn try_copy(&self, alloc: Global) -> Result<Line, AllocError> {
        Ok(Line {
            count: self.count,
            next: Vec::from_slice(alloc, &self.next)?,
            previous: Vec::from_slice(alloc, &self.previous)?,
        })
    }
}
