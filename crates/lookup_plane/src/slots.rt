//! What readers read: a slot for each label of a range and for each tunnel's number.

ghost use Rattle.std.specs.Prelude.{◌≡◌, None, IfOk, replicate};
ghost use Rattle.lookup_plane.specs.Published.{content};
ghost use Rattle.lookup_plane.specs.Slots.{absorbed, emptied, opening, slot_at, with_slot, written};

use crate::change::TableChange;
use crate::tunnel_slots::TunnelSlots;
use forwarding_table::Action;
use left_right::Absorb;
use std::alloc::{AllocError, Global};

/// A published table: what is done with each label of a range and with the traffic of each tunnel.
#[derive(Debug, Drop)]
pub struct Slots {
    /// The lowest label of the range.
    pub first_label: u32,
    /// What is done with the labels of the range, from that one on.
    pub labels: Vec<Option<Action>>,
    /// What is done with the traffic of tunnels, from number 0 on.
    pub tunnels: TunnelSlots,
    /// How many changes it has taken in.
    pub count: u64,
}

/// What clauses see of a published table. No value of it is made: an array stands for a list of any length.
pub struct PublishedTable {
    /// The lowest label of the range.
    pub first_label: u32,
    /// What is done with the labels of the range, from that one on.
    pub labels: [Option<Action>; 0],
    /// What is done with the traffic of tunnels, from number 0 on.
    pub tunnels: [Option<Action>; 0],
    /// How many changes it has taken in.
    pub count: u64,
}

/// What is done with a number, by slots from this number on: nothing where it has no slot.
fn slot_at(slots: &[Option<Action>], first: u32, number: u32) -> Option<Action>
    ensures { result ≡ slot_at first slots.now number }
{
    if number < first {
        return None;
    }
    let place = (number - first) as usize;
    if place < slots.len() {
        slots[place]
    } else {
        None
    }
}

/// Writes what is done with a number. Where it has no slot nothing changes.
fn set_slot(slots: &mut [Option<Action>], first: u32, number: u32, action: Option<Action>)
    ensures { slots.new ≡ with_slot first (number, action) slots.old }
{
    if number < first {
        return;
    }
    let place = (number - first) as usize;
    if place < slots.len() {
        slots[place] = action;
    }
}

/// Empties all slots, where they are to be cleared.
fn empty(slots: &mut [Option<Action>], cleared: bool)
    ensures { slots.new ≡ emptied cleared slots.old }
{
    if cleared {
        slots.fill(None);
    }
}

/// Writes rows of labels, from the last one on.
fn write_labels(slots: &mut [Option<Action>], first: u32, rows: &[(u32, Option<Action>)])
    ensures { slots.new ≡ written first rows.now slots.old }
{
    let mut rest = rows;
    while let Some((row, before)) = rest.split_last() {
        set_slot(slots, first, row.0, row.1);
        rest = before;
    }
}

/// Writes rows of tunnels, from the last one on.
fn write_tunnels(slots: &mut TunnelSlots, rows: &[(u16, Option<Action>)])
    ensures { slots.new ≡ written 0 rows.now slots.old }
{
    let mut rest = rows;
    while let Some((row, before)) = rest.split_last() {
        slots.set(row.0, row.1);
        rest = before;
    }
}

/// Slots with no action, this many. The only error is out of memory.
fn no_actions(alloc: Global, len: usize) -> Result<Vec<Option<Action>>, AllocError>
    ensures { IfOk result (λ slots. slots.items ≡ replicate len None) }
{
    let mut slots = Vec::with_capacity(alloc, len)?;
    slots.resize(len, None)?;
    Ok(slots)
}

impl Slots {
    /// No actions, of labels from this one on, this many, and of tunnels. The only error is out of memory.
    pub(crate) fn new(alloc: Global, first_label: u32, labels: usize) -> Result<Slots, AllocError>
        ensures { IfOk result (λ slots. content slots ≡ opening first_label labels) }
    {
        Ok(Slots {
            first_label,
            labels: no_actions(alloc, labels)?,
            tunnels: TunnelSlots::new(alloc)?,
            count: 0,
        })
    }

    /// What is done with a label.
    pub(crate) fn look(&self, label: u32) -> Option<Action>
        ensures { result ≡ slot_at self.now.first_label self.now.labels.items label }
    {
        slot_at(self.labels.as_slice(), self.first_label, label)
    }

    /// What is done with the traffic of a tunnel.
    pub(crate) fn look_tunnel(&self, number: u16) -> Option<Action>
        ensures { result ≡ slot_at 0 self.now.tunnels number }
    {
        self.tunnels.look(number)
    }
}

impl Absorb<TableChange> for Slots {
    type State = PublishedTable;

    ghost state = { content };

    ghost applied = { absorbed };

    ghost never_fails = { Unit {0} };

    fn absorb_first(&mut self, operation: &TableChange, _other: &Slots) -> Result<(), AllocError> {
        empty(self.labels.as_mut_slice(), operation.cleared);
        self.tunnels.empty(operation.cleared);
        write_labels(
            self.labels.as_mut_slice(),
            self.first_label,
            operation.labels.as_slice(),
        );
        write_tunnels(&mut self.tunnels, operation.tunnels.as_slice());
        self.count = self.count.wrapping_add(1);
        Ok(())
    }
}
