ghost use Rattle.std.specs.FinMap.Entries.{find};
ghost use Rattle.std.specs.Ordering.{nat_cmp};
ghost use Rattle.std.specs.Prelude.{◌≡◌, ◌↔◌, [], IfOk, IfSome, IsTrue, map, min};
ghost use Rattle.lsr_facts.specs.Routers.{AreLabels};
ghost use Rattle.label_space.specs.Bindings.{by_label};
ghost use Rattle.label_space.specs.Labels.{IsFree, IsHeld, IsLabelSpace, end_rests, give, hold, labels_of, release, wake};

use crate::line::Line;
use lsr_facts::LabelRange;
use sorted_rows::{Table, TryCopy};
use std::alloc::{AllocError, Global};
use std::marker::Model;

/// The labels that a router gives to LSPs (RFC 3031, 3.1; RFC 3209, 2): all of a range, each of them free, resting or
/// held. A label that an LSP gives back rests until a moment, and then the one that has been free longest is given first,
/// because a neighbour may send an old label for a while. Moments are in milliseconds. Each call takes the same time,
/// however many labels there are, where none is released to rest until an earlier moment than one before. Contracts see
/// the range, the moment that the router was told last, the list of the free labels in the order in which they are given,
/// and the list of those that rest, each with its moment, in the order in which they are free.
#[derive(Debug, Drop)]
pub struct LabelSpace {
    range: LabelRange,
    /// The moment that the router was told last.
    moment: u64,
    /// The places of the labels that no LSP has: first those that are free, and behind them those that rest.
    line: Line,
    /// Of each place in line the moment until which its label rests.
    untils: Vec<u64>,
}

impl Model for LabelSpace {
    ghost use Rattle.label_space.specs.Labels.{AreInLine, Labels, labels_by};

    ghost Value = { Labels };

    ghost view = { λ s. labels_by s.range s.moment s.untils.items s.line.line };

    ghost invariant = { λ s. AreInLine s.range s.moment s.line s.untils.items };
}

/// No moment is later than this one: it stands in the place of those that are.
fn end_all(untils: &mut Vec<u64>, moment: u64)
    ensures { untils.new.items ≡ map (λ until. min until moment) untils.old.items }
{
    for until in untils.iter_mut() {
        *until = (*until).min(moment);
    }
}

impl LabelSpace {
    /// All labels of a range, each of them free, the least the first to be given, at moment 0. Takes the memory of all of
    /// them; the only error is that there is too little. It asks for labels that may be given out.
    pub fn new(alloc: Global, range: LabelRange) -> Result<LabelSpace, AllocError>
        requires { AreLabels range }
        ensures labels { IfOk result (λ labels. labels
            ≡ record { range = range; moment = 0; free = labels_of range; resting = [] }) }
        ensures space { IfOk result IsLabelSpace }
    {
        let count = range.last - range.first + 1;
        Ok(LabelSpace {
            range,
            moment: 0,
            line: Line::new(alloc, count)?,
            untils: vec![in alloc; 0; count as usize]?,
        })
    }

    /// The label that is the next to be given: the one that has been free longest, or `None` where all are held or rest.
    /// It stays free until it is held.
    pub fn give(&self) -> Option<u32>
        ensures next { result ≡ give self.now }
        ensures free { IfSome result (IsFree self.now) }
        ensures space { IsLabelSpace self.now }
    {
        let place = self.line.first()?;
        if self.untils[place as usize] <= self.moment {
            Some(self.range.first + place)
        } else {
            None
        }
    }

    /// An LSP has this label from now on. It asks for a free one. Takes no memory.
    pub fn hold(&mut self, label: u32)
        requires { IsFree self.old label }
        ensures labels { self.new ≡ hold self.old label }
        ensures held { IsHeld self.new label }
    {
        self.line.remove(label - self.range.first);
    }

    /// No LSP has this label any more. It rests until a moment, behind those that rest no longer. Where this moment has
    /// come it is free, and given again when all that are free now were. It asks for a label that is held. Takes no
    /// memory, and as long as there are labels that rest longer.
    pub fn release(&mut self, label: u32, until: u64)
        requires { IsHeld self.old label }
        ensures { self.new ≡ release self.old label until }
    {
        let place = label - self.range.first;
        self.untils[place as usize] = until.max(self.moment);
        self.line.join(place, &self.untils);
    }

    /// A moment has come: the labels that rest until it, or until an earlier one, are free. One before the moment that
    /// was told last changes nothing. Takes no memory.
    pub fn wake(&mut self, now: u64)
        ensures { self.new ≡ wake self.old now }
    {
        self.moment = self.moment.max(now);
    }

    /// No label rests any more: all that did are free. Takes no memory, and as long as there are labels.
    pub fn end_rests(&mut self)
        ensures { self.new ≡ end_rests self.old }
    {
        end_all(&mut self.untils, self.moment);
    }

    /// The moment until which a label rests, or `None` where it doesn't.
    pub fn rests_until(&self, label: u32) -> Option<u64>
        ensures { result ≡ find nat_cmp label self.now.resting }
    {
        if label < self.range.first || !self.line.contains(label - self.range.first) {
            return None;
        }
        let until = self.untils[(label - self.range.first) as usize];
        if self.moment < until {
            Some(until)
        } else {
            None
        }
    }

    /// The labels that rest, each with the moment until which it does, in the order of the labels: a copy. The only error
    /// is out of memory. It takes as long as there are labels.
    pub fn resting(&self, alloc: Global) -> Result<Table<u32, u64>, AllocError>
        ensures { IfOk result (λ rows. rows ≡ by_label self.now.resting) }
    {
        let mut rows = Vec::new(alloc);
        for place in 0..self.range.last - self.range.first + 1 {
            let label = self.range.first + place;
            if let Some(until) = self.rests_until(label) {
                rows.push((label, until))?;
            }
        }
        Ok(Table::from_rows(rows))
    }

    /// Whether a label is one of the range that no LSP has, and doesn't rest.
    pub fn is_free(&self, label: u32) -> bool
        ensures { IsTrue result ↔ IsFree self.now label }
    {
        if label < self.range.first || !self.line.contains(label - self.range.first) {
            return false;
        }
        self.untils[(label - self.range.first) as usize] <= self.moment
    }

    /// Whether a label is one of the range that an LSP has.
    pub fn is_held(&self, label: u32) -> bool
        ensures { IsTrue result ↔ IsHeld self.now label }
    {
        (self.range.first..=self.range.last).contains(&label)
            && !self.line.contains(label - self.range.first)
    }
}

impl TryCopy for LabelSpace {
    fn try_copy(&self, alloc: Global) -> Result<LabelSpace, AllocError> {
        Ok(LabelSpace {
            range: self.range,
            moment: self.moment,
            line: self.line.try_copy(alloc)?,
            untils: Vec::from_slice(alloc, &self.untils)?,
        })
    }
}
