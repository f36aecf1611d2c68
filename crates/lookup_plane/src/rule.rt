//! What all that share a published table keep: there is one list of changes, which the table shows, and each has seen a
//! beginning of it.

ghost use Rattle.std.specs.Prelude.{List, []};
ghost use Rattle.lookup_plane.specs.declared.change.TableChange.{TableChange};
ghost use Rattle.lookup_plane.specs.Published.{Adds, IsPublished, Looks};

use crate::change::TableChange;
use crate::slots::Slots;
use crossbeam_utils::rule::{Outcome, Protocol};
use left_right::reader::{Reader, Reading};
use left_right::writer::Writer;
use std::marker::{Brand, PhantomData};

/// The changes that a reader, or the writer, has seen. No value of it is made.
pub struct View {
    /// A beginning of the list of changes.
    pub seen: [TableChange; 0],
}

/// There is one list of changes.
pub struct OneList;

impl Protocol<Slots, View> for OneList {
    ghost holds = { IsPublished };

    ghost first = { record { seen = [] } };
}

/// A reader looks.
pub(crate) struct Look;

impl Outcome<Slots, View> for Look {
    ghost then = { λ v x _ w. Looks v x w };
}

/// The changes that are published at once. A call picks them.
pub(crate) trait Batch {
    ghost changes: { List TableChange };
}

impl Batch for Brand {
    ghost changes = { [] };
}

/// The writer publishes these changes.
pub(crate) struct Add<B: Batch> {
    of: PhantomData<B>,
}

impl<B: Batch> Outcome<Slots, View> for Add<B> {
    ghost then = { λ v _ y w. Adds B.changes v y w };
}

/// A reader's side.
pub(crate) type TableReader = Reader<Slots, View, OneList>;
/// A reader that reads.
pub(crate) type TableReading = Reading<Slots, View, OneList>;
/// The writer's side.
pub(crate) type TableWriter = Writer<Slots, TableChange, View, OneList>;
