ghost use Rattle.std.specs.FinMap.Entries.{find, is_sorted, put};
ghost use Rattle.std.specs.Option.{option_copied};
ghost use Rattle.std.specs.Ordering.{nat_cmp};
ghost use Rattle.std.specs.Prelude.{◌≡◌, ◌≤◌, T, [], All, IfOk, IfSome, length, slice_get};
ghost use Rattle.sorted_rows.specs.Edits.{at_key, edited};
ghost use Rattle.forwarding_table.specs.Actions.{AllWriteLabels, WritesLabels};
ghost use Rattle.forwarding_table.specs.Forwarding.{forward_of};

use crate::action::Action;
use crate::forwarding::{Forwarding, LabelActions, forward};
use label_stacks::Stack;
use slot_rows::{OwnNumber, SlotTable, make_edits};
use sorted_rows::{Table, TryCopy};
use std::alloc::{AllocError, Global};
use std::marker::Model;

/// Labels that have an action: one for each LSP of a router.
pub const MAX_LABEL_ROWS: usize = 1_024;
/// Tunnels that have an action.
pub const MAX_TUNNEL_ROWS: usize = 256;

/// The actions of labels (RFC 3031, 3.11), at most [`MAX_LABEL_ROWS`], and of the tunnels that begin here (RFC 3031,
/// 3.12), by number, at most [`MAX_TUNNEL_ROWS`]; each in order. Contracts see both lists.
#[derive(Debug, Drop)]
pub struct ForwardingTable {
    labels: SlotTable<u32, Action, OwnNumber, MAX_LABEL_ROWS>,
    tunnels: SlotTable<u16, Action, OwnNumber, MAX_TUNNEL_ROWS>,
}

impl Model for ForwardingTable {
    ghost use Rattle.forwarding_table.specs.Actions.{Actions, IsTable};

    ghost Value = { Actions };

    ghost view = { λ t. record { labels = t.labels; tunnels = t.tunnels } };

    ghost invariant = { λ t. IsTable t.labels t.tunnels };
}

impl ForwardingTable {
    /// No actions. It reserves the memory of all actions that it may ever hold; the only error is that there is too
    /// little memory.
    pub fn new(alloc: Global) -> Result<ForwardingTable, AllocError>
        ensures { IfOk result (λ table. table ≡ record { labels = []; tunnels = [] }) }
    {
        Ok(ForwardingTable {
            labels: SlotTable::new(alloc)?,
            tunnels: SlotTable::new(alloc)?,
        })
    }

    /// The labels and what is done with them, as a table of their own: a copy. The only error is out of memory.
    pub fn labels_copied(&self, alloc: Global) -> Result<Table<u32, Action>, AllocError>
        ensures { IfOk result (λ labels. labels ≡ self.now.labels) }
    {
        self.labels.copied(alloc)
    }

    /// How many labels have an action.
    pub fn label_count(&self) -> usize
        ensures { result ≡ length self.now.labels }
    {
        self.labels.len()
    }

    /// The label at a place, in the order of the labels, from 0 on, and its action; `None` past the last.
    pub fn label_row(&self, place: usize) -> Option<&(u32, Action)>
        ensures { option_copied result ≡ slice_get self.now.labels place }
    {
        self.labels.row(place)
    }

    /// How many tunnels have an action.
    pub fn tunnel_count(&self) -> usize
        ensures { result ≡ length self.now.tunnels }
    {
        self.tunnels.len()
    }

    /// The tunnel at a place, in the order of the tunnels' numbers, from 0 on, and its action; `None` past the last.
    pub fn tunnel_row(&self, place: usize) -> Option<&(u16, Action)>
        ensures { option_copied result ≡ slice_get self.now.tunnels place }
    {
        self.tunnels.row(place)
    }

    /// Labels and tunnels rise, there are at most [`MAX_LABEL_ROWS`] and [`MAX_TUNNEL_ROWS`] of them, and what their
    /// actions write for labels are labels. It does nothing when it runs.
    pub fn rows_are_in_order(&self)
        ensures labels_sorted { T (is_sorted nat_cmp self.now.labels) }
        ensures few_labels { length self.now.labels ≤ MAX_LABEL_ROWS }
        ensures labels { AllWriteLabels self.now.labels }
        ensures tunnels_sorted { T (is_sorted nat_cmp self.now.tunnels) }
        ensures few_tunnels { length self.now.tunnels ≤ MAX_TUNNEL_ROWS }
        ensures tunnels { AllWriteLabels self.now.tunnels }
    {
        self.labels.rows_are_in_order();
        self.tunnels.rows_are_in_order();
    }

    /// The action of a label, or `None` where it has none.
    pub fn look(&self, label: u32) -> Option<Action>
        ensures found { result ≡ find nat_cmp label self.now.labels }
        ensures labels { IfSome result WritesLabels }
    {
        self.labels.get(&label).copied()
    }

    /// The action of a tunnel, or `None` where it has none.
    pub fn look_tunnel(&self, tunnel: u16) -> Option<Action>
        ensures found { result ≡ find nat_cmp tunnel self.now.tunnels }
        ensures labels { IfSome result WritesLabels }
    {
        self.tunnels.get(&tunnel).copied()
    }

    /// A label has this action from now on, or none. Of an action it asks that what it writes for labels are labels,
    /// and that at most [`MAX_LABEL_ROWS`] labels have one then. Takes no memory.
    pub fn change(&mut self, label: u32, action: Option<Action>)
        requires labels { IfSome action WritesLabels }
        requires room { IfSome action (λ now. length (put nat_cmp label now self.old.labels) ≤ MAX_LABEL_ROWS) }
        ensures { self.new ≡ record self.old { labels = at_key nat_cmp label action self.old.labels } }
    {
        match action {
            Some(action) => self.labels.set(label, action),
            None => self.labels.remove(&label),
        }
    }

    /// A tunnel has this action from now on, or none. Of an action it asks that what it writes for labels are labels,
    /// and that at most [`MAX_TUNNEL_ROWS`] tunnels have one then. Takes no memory.
    pub fn change_tunnel(&mut self, tunnel: u16, action: Option<Action>)
        requires labels { IfSome action WritesLabels }
        requires room { IfSome action (λ now. length (put nat_cmp tunnel now self.old.tunnels) ≤ MAX_TUNNEL_ROWS) }
        ensures { self.new ≡ record self.old { tunnels = at_key nat_cmp tunnel action self.old.tunnels } }
    {
        match action {
            Some(action) => self.tunnels.set(tunnel, action),
            None => self.tunnels.remove(&tunnel),
        }
    }

    /// Makes edits: each label that they name has this action from now on, or none. It asks that what the actions
    /// write for labels are labels, and that at most [`MAX_LABEL_ROWS`] labels have one then. Takes no memory.
    pub fn edit(&mut self, edits: Table<u32, Option<Action>>)
        requires labels { All (λ edit. IfSome edit.1 WritesLabels) edits }
        requires room { length (edited nat_cmp edits self.old.labels) ≤ MAX_LABEL_ROWS }
        ensures { self.new ≡ record self.old { labels = edited nat_cmp edits self.old.labels } }
    {
        make_edits(&mut self.labels, edits);
    }

    /// Makes edits: each tunnel that they name has this action from now on, or none. It asks that what the actions
    /// write for labels are labels, and that at most [`MAX_TUNNEL_ROWS`] tunnels have one then. Takes no memory.
    pub fn edit_tunnels(&mut self, edits: Table<u16, Option<Action>>)
        requires labels { All (λ edit. IfSome edit.1 WritesLabels) edits }
        requires room { length (edited nat_cmp edits self.old.tunnels) ≤ MAX_TUNNEL_ROWS }
        ensures { self.new ≡ record self.old { tunnels = edited nat_cmp edits self.old.tunnels } }
    {
        make_edits(&mut self.tunnels, edits);
    }

    /// No label and no tunnel has an action any more. Takes no memory.
    pub fn clear(&mut self)
        ensures { self.new ≡ record { labels = []; tunnels = [] } }
    {
        self.labels.clear();
        self.tunnels.clear();
    }

    /// What becomes of a stack of labels by the actions of its labels (RFC 3031, 3.13; RFC 3032, 2.1 and 2.4.1). It
    /// is dropped for the first of its faults in the order of [`Fault`]. Takes no memory.
    pub fn forward(&self, stack: &Stack) -> Forwarding
        ensures { result ≡ forward_of (λ label. find nat_cmp label self.now.labels) stack.now }
    {
        forward(self, stack)
    }
}

impl LabelActions for ForwardingTable {
    ghost look = { λ t label. find nat_cmp label t.labels };

    fn action_of(&self, label: u32) -> Option<Action> {
        self.look(label)
    }
}

impl TryCopy for ForwardingTable {
    fn try_copy(&self, alloc: Global) -> Result<ForwardingTable, AllocError> {
        Ok(ForwardingTable {
            labels: self.labels.try_copy(alloc)?,
            tunnels: self.tunnels.try_copy(alloc)?,
        })
    }
}
