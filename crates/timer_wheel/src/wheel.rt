// The moments of slots, and the wheel in which they stand.
ghost use Rattle.std.specs.Prelude.{◌≡◌, ◌<◌, ◌^◌, ◌≤◌, ℕ, None, Some, IfOk, length, nat_eq, replicate, slice_index_or, slice_set};
ghost use Rattle.std.specs.List.{All, IsDistinct, list_any};
ghost use Rattle.timer_wheel.specs.Due.{is_due};
ghost use Rattle.timer_wheel.specs.Wheels.{place_of, stays_with};

use crate::rings::{link, part, unlink};
use crate::walks::{PLACES, due_from, idle_from};
use std::alloc::{AllocError, Global};
use std::marker::Model;

/// How many milliseconds a tick has.
const TICK: u64 = 1024;

/// For each slot the moment at which it is to be looked at, in milliseconds, or none. A slot is a number from 0 on.
/// Contracts see the list of moments, by slot.
///
/// The slots with a moment stand in 256 places, each of 1,024 milliseconds. One whose moment is more than a revolution
/// of the wheel away stands in its place too, and is passed over until its turn.
#[derive(Debug, Drop)]
pub struct Wheel {
    moments: Vec<Option<u64>>,
    after: Vec<usize>,
    before: Vec<usize>,
    base: u64,
}

impl Model for Wheel {
    ghost use Rattle.std.specs.Prelude.{List, Option, ℕ};
    ghost use Rattle.timer_wheel.specs.Wheels.{IsWheel};

    ghost Value = { List (Option ℕ) };

    ghost view = { λ wheel. wheel.moments.items };

    ghost invariant = { λ wheel. IsWheel wheel.moments.items wheel.after.items wheel.before.items wheel.base };
}

/// The place in which a slot with a moment stands, in a wheel that has come to a tick.
fn place_of(base: u64, moment: u64) -> usize
    ensures { result ≡ place_of base moment }
{
    ((moment / TICK).max(base) % PLACES) as usize
}

/// Whether a slot that may have a moment stands in the place of another.
fn stays(had: Option<u64>, base: u64, moment: u64) -> bool
    ensures { result ≡ stays_with base had moment }
{
    match had {
        Some(had) => place_of(base, had) == place_of(base, moment),
        None => false,
    }
}

/// Nodes that stand alone. Fails only when out of memory.
fn alone(alloc: Global, count: usize) -> Result<Vec<usize>, AllocError>
    ensures nodes { IfOk result (λ nodes. length nodes.items ≡ count) }
    ensures alone { IfOk result (λ nodes. (x : ℕ) → x < count → slice_index_or nodes.items x 0 ≡ x) }
{
    let mut nodes = vec![in alloc; 0; count]?;
    part(&mut nodes);
    Ok(nodes)
}

impl Wheel {
    /// So many slots, none with a moment. Takes all the memory that the wheel will ever need; the only error is that
    /// there is too little.
    pub fn new(alloc: Global, slots: usize) -> Result<Wheel, AllocError>
        ensures { IfOk result (λ wheel. wheel ≡ replicate slots None) }
    {
        let moments = vec![in alloc; None; slots]?;
        let nodes = moments.len() + PLACES as usize;
        let after = alone(alloc, nodes)?;
        let before = alone(alloc, nodes)?;
        Ok(Wheel {
            moments,
            after,
            before,
            base: 0,
        })
    }

    /// How many slots there are.
    pub fn len(&self) -> usize
        ensures { result ≡ length self.now }
    {
        self.moments.len()
    }

    /// The moment of a slot, in milliseconds; `None` where it has none, and past the last slot.
    pub fn moment(&self, slot: usize) -> Option<u64>
        ensures { result ≡ slice_index_or self.now slot None }
    {
        match self.moments.get(slot) {
            Some(moment) => *moment,
            None => None,
        }
    }

    /// Gives a slot a moment, in milliseconds, in place of the one that it may have had. It goes to another place only
    /// where that of the moment is another.
    pub fn set(&mut self, slot: usize, moment: u64)
        requires { slot < length self.old }
        ensures { self.new ≡ slice_set self.old slot (Some moment) }
    {
        let had = self.moments[slot];
        self.moments[slot] = Some(moment);
        if stays(had, self.base, moment) {
            return;
        }
        let head = self.moments.len() + place_of(self.base, moment);
        unlink(&mut self.after, &mut self.before, slot);
        link(&mut self.after, &mut self.before, slot, head);
    }

    /// Takes the moment of a slot away.
    pub fn clear(&mut self, slot: usize)
        requires { slot < length self.old }
        ensures { self.new ≡ slice_set self.old slot None }
    {
        unlink(&mut self.after, &mut self.before, slot);
        self.moments[slot] = None;
    }

    /// Takes the moments of all slots away.
    pub fn clear_all(&mut self)
        ensures { self.new ≡ replicate (length self.old) None }
    {
        self.moments.fill(None);
        part(&mut self.after);
        part(&mut self.before);
    }

    /// The slots whose moments are not after `now`, each once, in any order. It goes over the places from the one to
    /// which the wheel has come up to that of `now`. Fails only when out of memory.
    pub fn up_to(&self, alloc: Global, now: u64) -> Result<Vec<usize>, AllocError>
        ensures exact { IfOk result (λ due. (slot : ℕ) → list_any (nat_eq slot) due.items ≡ is_due now self.now slot) }
        ensures once { IfOk result (λ due. IsDistinct nat_eq due.items) }
        ensures within { IfOk result (λ due. All (λ slot. slot < length self.now) due.items) }
    {
        let ahead = (now / TICK).saturating_sub(self.base);
        let places = ahead.min(PLACES - 1) + 1;
        due_from(alloc, &self.moments, &self.after, self.base, places, now)
    }

    /// Lets the wheel come as far as to the place of `now`, or to the first place before it in which a slot is due. It
    /// looks at each place at most once.
    pub fn advance(&mut self, now: u64)
        ensures { self.new ≡ self.old }
    {
        let ahead = (now / TICK).saturating_sub(self.base);
        let idle = idle_from(
            &self.moments,
            &self.after,
            self.base,
            ahead.min(PLACES),
            now,
        );

        // Where nothing is due in any place, the wheel may turn by more than a revolution.
        let turned = if idle == PLACES { ahead } else { idle };
        self.base += turned;
    }

    /// A copy, equal to its source. Fails only when out of memory.
    pub fn copied(&self, alloc: Global) -> Result<Wheel, AllocError>
        ensures { IfOk result (λ copy. copy ≡ self.now) }
    {
        let moments = Vec::from_slice(alloc, &self.moments)?;
        let after = Vec::from_slice(alloc, &self.after)?;
        let before = Vec::from_slice(alloc, &self.before)?;
        Ok(Wheel {
            moments,
            after,
            before,
            base: self.base,
        })
    }
}
