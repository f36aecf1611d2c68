//! The labels that LSPs hold, and those that are free.

ghost use Rattle.std.specs.FinMap.Entries.{find, is_sorted, put};
ghost use Rattle.std.specs.Option.{option_copied};
ghost use Rattle.std.specs.Prelude.{◌≡◌, ◌≤◌, T, [], IfOk, IfSome, is_some, length, max, slice_get};
ghost use Rattle.lsr_facts.specs.Limits.{max_lsps};
ghost use Rattle.lsr_facts.specs.Orders.{key_cmp};
ghost use Rattle.lsr_facts.specs.Routers.{AreLabels};
ghost use Rattle.lsr_facts.specs.declared.router.Router.{Router};
ghost use Rattle.sorted_rows.specs.Edits.{at_key, edited};
ghost use Rattle.sorted_rows.specs.InTurn.{given, in_turn};
ghost use Rattle.label_space.specs.FreeLabels.{MayBeGiven, has_free_label};
ghost use Rattle.label_space.specs.Bindings.{AreBound, AreHeldOf};
ghost use Rattle.label_space.specs.Rests.{AreApart, AreRestingOf, freed_by, held_by, rested, resting_past};
ghost use Rattle.label_space.specs.Turns.{CanHold, MayHold, emptied};

use crate::space::LabelSpace;
use lsr_facts::limits::MAX_LSPS;
use lsr_facts::{Key, KeyNumber, LabelRange};
use slot_rows::SlotTable;
use sorted_rows::{Table, TryCopy};
use std::alloc::{AllocError, Global};
use std::marker::Model;

/// The labels that a router's LSPs hold (RFC 3031, 3.1 and 3.14), at most 1,024, each held by one LSP, and beside them
/// the labels of the router's range that are free, and those that rest. All memory is taken when it is made. Moments are
/// in milliseconds. Contracts see the range, the moment that the router was told last, the list of keys and labels in the
/// order of the keys, and the list of labels that rest, each with the moment until which it does, in the order of the
/// labels.
#[derive(Debug, Drop)]
pub struct LabelBindings {
    by_lsp: SlotTable<Key, u32, KeyNumber, MAX_LSPS>,
    space: LabelSpace,
}

impl Model for LabelBindings {
    ghost use Rattle.label_space.specs.Bindings.{AreBound, Bindings, by_label};

    ghost Value = { Bindings };

    ghost view = { λ b. record { range = b.space.range; moment = b.space.moment; labels = b.by_lsp; resting = by_label b.space.resting } };

    ghost invariant = { λ b. AreBound b.space b.by_lsp };
}

/// All labels that LSPs hold are free again. The rows are of the LSPs, each with its label.
fn release_held(space: &mut LabelSpace, rows: &SlotTable<Key, u32, KeyNumber, MAX_LSPS>)
    requires { AreBound space.old rows.now }
    ensures free { AreBound space.new [] }
    ensures range { space.new.range ≡ space.old.range }
    ensures moment { space.new.moment ≡ space.old.moment }
    ensures resting { space.new.resting ≡ space.old.resting }
{
    for place in 0..rows.len() {
        if let Some(row) = rows.row(place) {
            space.release(row.1, 0);
        }
    }
}

impl LabelBindings {
    /// All labels of a range, held by no LSP, at moment 0. It reserves the memory of all that LSPs may ever hold; the only
    /// error is that there is too little. It asks for labels that may be given out.
    pub fn new(alloc: Global, range: LabelRange) -> Result<LabelBindings, AllocError>
        requires { AreLabels range }
        ensures { IfOk result (λ bindings. bindings ≡ record { range = range; moment = 0; labels = []; resting = [] }) }
    {
        Ok(LabelBindings {
            by_lsp: SlotTable::new(alloc)?,
            space: LabelSpace::new(alloc, range)?,
        })
    }

    /// The label that an LSP holds, or `None` where it holds none.
    pub fn get(&self, key: &Key) -> Option<u32>
        ensures { result ≡ find key_cmp key.now self.now.labels }
    {
        self.by_lsp.get(key).copied()
    }

    /// How many LSPs hold a label.
    pub fn len(&self) -> usize
        ensures { result ≡ length self.now.labels }
    {
        self.by_lsp.len()
    }

    /// The LSP at a place, in the order of the keys, from 0 on, with the label that it holds; `None` past the last.
    pub fn row(&self, place: usize) -> Option<&(Key, u32)>
        ensures { option_copied result ≡ slice_get self.now.labels place }
    {
        self.by_lsp.row(place)
    }

    /// The keys rise, at most 1,024 LSPs hold a label, each another one, and all labels are of the range. So are those
    /// that rest, which no LSP holds. It does nothing when it runs.
    pub fn rows_are_in_order(&self)
        ensures sorted { T (is_sorted key_cmp self.now.labels) }
        ensures few { length self.now.labels ≤ max_lsps }
        ensures held { AreHeldOf self.now.range self.now.labels }
        ensures resting { AreRestingOf self.now.range self.now.moment self.now.labels self.now.resting }
    {
        self.by_lsp.rows_are_in_order();
    }

    /// The LSPs that hold a label, each with its label, as a table of their own: a copy. The only error is out of memory.
    pub fn copied(&self, alloc: Global) -> Result<Table<Key, u32>, AllocError>
        ensures { IfOk result (λ labels. labels ≡ self.now.labels) }
    {
        self.by_lsp.copied(alloc)
    }

    /// The labels that rest, each with the moment until which it does, as a table of their own: a copy. The only error is
    /// out of memory. It takes as long as the range has labels.
    pub fn resting(&self, alloc: Global) -> Result<Table<u32, u64>, AllocError>
        ensures { IfOk result (λ resting. resting ≡ self.now.resting) }
    {
        self.space.resting(alloc)
    }

    /// A label of the range that no LSP holds and that doesn't rest: of these the one that has been free longest. `None`
    /// where each is held or rests. It is free until an LSP holds it.
    pub fn free_label(&self) -> Option<u32>
        ensures given { (r : Router) → r.labels ≡ self.now.range →
            IfSome result (MayBeGiven r self.now.labels self.now.resting) }
        ensures free { (r : Router) → r.labels ≡ self.now.range →
            is_some result ≡ has_free_label r self.now.labels self.now.resting }
    {
        self.space.give()
    }

    /// A moment has come: the labels that rest until it, or until an earlier one, are free. One before the moment that was
    /// told last changes nothing. Takes no memory.
    pub fn wake(&mut self, now: u64)
        ensures { self.new ≡ record self.old {
          moment = max self.old.moment now;
          resting = resting_past now self.old.resting;
        } }
    {
        self.space.wake(now);
    }

    /// An LSP holds no label any more, and the one that it held rests until a moment. Where it holds none, nothing changes.
    fn release(&mut self, key: Key, until: u64)
        ensures { self.new ≡ record self.old {
          labels = at_key key_cmp key None self.old.labels;
          resting = rested self.old.moment until (held_by key self.old.labels) self.old.resting;
        } }
    {
        if let Some(label) = self.by_lsp.get(&key).copied() {
            self.by_lsp.remove(&key);
            self.space.release(label, until);
        }
    }

    /// An LSP that holds none holds a free label from now on.
    fn hold(&mut self, key: Key, label: u32)
        requires { MayHold self.old.range key label self.old.labels self.old.resting }
        ensures { self.new ≡ record self.old { labels = put key_cmp key label self.old.labels } }
    {
        self.by_lsp.set(key, label);
        self.space.hold(label);
    }

    /// None of the LSPs that the edits name holds a label any more, and those that they held rest until a moment.
    fn release_all(&mut self, edits: &[(Key, Option<u32>)], until: u64)
        ensures { self.new ≡ record self.old {
          labels = in_turn (emptied key_cmp) edits.now self.old.labels;
          resting = rested self.old.moment until (freed_by edits.now self.old.labels) self.old.resting;
        } }
    {
        self.rows_are_in_order();
        for edit in edits {
            self.release(edit.0, until);
        }
    }

    /// Each LSP to which an edit gives a label holds it from now on.
    fn hold_all(&mut self, edits: &[(Key, Option<u32>)])
        requires { CanHold self.old.range edits.now self.old.labels self.old.resting }
        ensures { self.new ≡ record self.old { labels = in_turn (given key_cmp) edits.now self.old.labels } }
    {
        for edit in edits {
            if let Some(label) = edit.1 {
                self.hold(edit.0, label);
            }
        }
    }

    /// Makes edits: each LSP that they name holds this label from now on, or none. All that these LSPs held rest until a
    /// moment; where that isn't later than now they are free at once, also for these LSPs. It asks that at most
    /// 1,024 LSPs hold a label then, each another one, all of the range, and none that rests then. Takes no memory.
    pub fn edit(&mut self, edits: Table<Key, Option<u32>>, until: u64)
        requires room { length (edited key_cmp edits self.old.labels) ≤ max_lsps }
        requires held { AreHeldOf self.old.range (edited key_cmp edits self.old.labels) }
        requires apart { AreApart (edited key_cmp edits self.old.labels)
            (rested self.old.moment until (freed_by edits self.old.labels) self.old.resting) }
        ensures { self.new ≡ record self.old {
          labels = edited key_cmp edits self.old.labels;
          resting = rested self.old.moment until (freed_by edits self.old.labels) self.old.resting;
        } }
    {
        // The two passes make the edits, because the labels are in the order of their keys.
        self.rows_are_in_order();
        let edits = edits.as_slice();
        self.release_all(edits, until);
        self.hold_all(edits);
    }

    /// No LSP holds a label any more, and none rests: all are free. Takes no memory.
    pub fn clear(&mut self)
        ensures { self.new ≡ record self.old { labels = []; resting = [] } }
    {
        self.space.end_rests();
        release_held(&mut self.space, &self.by_lsp);
        self.by_lsp.clear();
    }
}

impl TryCopy for LabelBindings {
    fn try_copy(&self, alloc: Global) -> Result<LabelBindings, AllocError> {
        Ok(LabelBindings {
            by_lsp: self.by_lsp.try_copy(alloc)?,
            space: self.space.try_copy(alloc)?,
        })
    }
}
