//! What is done with the traffic of tunnels, with slots only as far as there were actions.

ghost use Rattle.std.specs.Prelude.{◌≡◌, ◌^◌, None, IfOk, replicate};
ghost use Rattle.lookup_plane.specs.Slots.{emptied, slot_at, with_slot};

use forwarding_table::Action;
use std::alloc::{AllocError, Global};
use std::marker::Model;

/// The numbers that tunnels have: each is a `u16`.
const TUNNEL_NUMBERS: usize = 65_536;

/// What is done with the traffic of tunnels, from number 0 on. Contracts see a slot for each of their 65,536 numbers. The
/// slots that are there go up to the highest number that got an action. Room for all is taken when a table is opened, and
/// isn't written then: so opening costs next to nothing, and writing a slot takes no memory.
#[derive(Debug, Drop)]
pub struct TunnelSlots {
    slots: Vec<Option<Action>>,
}

impl Model for TunnelSlots {
    ghost use Rattle.std.specs.Prelude.{◌≤◌, ◌^◌, List, Option, length, vec_capacity};
    ghost use Rattle.forwarding_table.specs.declared.action.Action.{Action};
    ghost use Rattle.lookup_plane.specs.Slots.{padded};

    ghost Value = { List (Option Action) };

    ghost view = { λ t. padded (2 ^ 16) t.slots.items };

    ghost invariant = { λ t. (length t.slots.items ≤ 2 ^ 16) × (2 ^ 16 ≤ vec_capacity t.slots) };
}

impl TunnelSlots {
    /// No action for any number, with room for all of them. The only error is out of memory.
    pub(crate) fn new(alloc: Global) -> Result<TunnelSlots, AllocError>
        ensures { IfOk result (λ slots. slots ≡ replicate (2 ^ 16) None) }
    {
        Ok(TunnelSlots {
            slots: Vec::with_capacity(alloc, TUNNEL_NUMBERS)?,
        })
    }

    /// What is done with the traffic of a tunnel.
    pub(crate) fn look(&self, number: u16) -> Option<Action>
        ensures { result ≡ slot_at 0 self.now number }
    {
        let place = usize::from(number);
        if place < self.slots.len() {
            self.slots[place]
        } else {
            None
        }
    }

    /// Writes what is done with the traffic of a tunnel. Takes no memory.
    pub(crate) fn set(&mut self, number: u16, action: Option<Action>)
        ensures { self.new ≡ with_slot 0 (number, action) self.old }
    {
        let place = usize::from(number);
        if place < self.slots.len() {
            self.slots[place] = action;
        } else if action.is_some() {
            self.slots.resize(place, None).unwrap();
            self.slots.push_reserved(action);
        }
    }

    /// Empties all slots, where they are to be cleared. Their room stays reserved.
    pub(crate) fn empty(&mut self, cleared: bool)
        ensures { self.new ≡ emptied cleared self.old }
    {
        if cleared {
            self.slots.clear();
        }
    }
}
