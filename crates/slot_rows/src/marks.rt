// Marks by the numbers of keys: most look-ups need no search.
ghost use Rattle.std.specs.Prelude.{◌≡◌, ◌≢◌, ℕ, length, slice_set};
ghost use Rattle.slot_rows.specs.Marks.{Admits, is_shared, mark_of, mark_place};

use std::alloc::{AllocError, Global};

/// What is known of the rows whose keys' numbers have one place.
#[derive(Clone, Copy, Debug, Drop)]
pub enum Mark {
    /// There is no such row.
    Free,
    /// No slot has such a row but this one.
    Sole(usize),
    /// Several slots have such a row or had one, this one perhaps among them.
    Shared(usize),
}

impl Mark {
    /// Whether several slots have such a row or had one.
    pub(crate) fn is_shared(self) -> bool
        ensures { result ≡ is_shared self }
    {
        match self {
            Mark::Shared(_) => true,
            Mark::Free | Mark::Sole(_) => false,
        }
    }

    /// The mark after such a row came into this slot.
    fn with(self, slot: usize) -> Mark
        ensures own { Admits result slot }
        ensures others { (other : ℕ) → Admits self other → Admits result other }
    {
        match self {
            Mark::Free => Mark::Sole(slot),
            Mark::Sole(_) | Mark::Shared(_) => Mark::Shared(slot),
        }
    }

    /// The mark after the row of this slot went.
    fn without(self, slot: usize) -> Mark
        ensures { (other : ℕ) → other ≢ slot → Admits self other → Admits result other }
    {
        match self {
            Mark::Free => Mark::Free,
            Mark::Sole(sole) => {
                if sole == slot {
                    Mark::Free
                } else {
                    Mark::Sole(sole)
                }
            }
            Mark::Shared(shared) => Mark::Shared(shared),
        }
    }
}

/// Marks, by the last bits of numbers.
#[derive(Debug, Drop)]
pub struct Marks {
    /// The mark of each place.
    pub by_place: Vec<Mark>,
}

/// There are no more marks.
const MOST_MARKS: usize = 1 << 20;

/// How many marks there are for so many rows: a power of two, and some for each row.
fn count_marks(most: usize) -> usize {
    most.saturating_mul(4).min(MOST_MARKS).next_power_of_two()
}

impl Marks {
    /// Marks for so many rows, of which there is none. The only error is out of memory.
    pub(crate) fn new(alloc: Global, most: usize) -> Result<Marks, AllocError> {
        Ok(Marks {
            by_place: vec![in alloc; Mark::Free; count_marks(most)]?,
        })
    }

    /// The place of a number.
    fn place(&self, number: usize) -> usize
        ensures { result ≡ mark_place number (length self.now.by_place.items) }
    {
        number & self.by_place.len().saturating_sub(1)
    }

    /// The mark of a number.
    pub(crate) fn mark(&self, number: usize) -> Mark
        ensures { result ≡ mark_of self.now number }
    {
        match self.by_place.get(self.place(number)) {
            Some(mark) => *mark,
            None => Mark::Shared(0),
        }
    }

    /// Sets the mark of a number.
    fn write(&mut self, number: usize, mark: Mark)
        ensures { self.new.by_place.items ≡
            slice_set self.old.by_place.items (mark_place number (length self.old.by_place.items)) mark }
    {
        let place = self.place(number);
        if place < self.by_place.len() {
            self.by_place[place] = mark;
        }
    }

    /// A row came into this slot, whose key has this number.
    pub(crate) fn come(&mut self, number: usize, slot: usize)
        ensures own { Admits (mark_of self.new number) slot }
        ensures others { (n other : ℕ) → Admits (mark_of self.old n) other → Admits (mark_of self.new n) other }
    {
        let mark = self.mark(number).with(slot);
        self.write(number, mark);
    }

    /// The row of this slot went, whose key had this number.
    pub(crate) fn go(&mut self, number: usize, slot: usize)
        ensures { (n other : ℕ) → other ≢ slot → Admits (mark_of self.old n) other → Admits (mark_of self.new n) other }
    {
        let mark = self.mark(number).without(slot);
        self.write(number, mark);
    }

    /// There is no row any more.
    pub(crate) fn clear(&mut self) {
        for mark in &mut self.by_place {
            *mark = Mark::Free;
        }
    }
}
