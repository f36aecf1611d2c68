//! The writer's side.

ghost use Rattle.std.specs.Prelude.{◌≡◌, ◌≤◌, ◌<◌, ◌+◌, ◌^◌, ◌∷◌, ◌++◌, [], All, IfOk, MatchResult, drop, length};
ghost use Rattle.left_right.specs.Sides.{view};
ghost use Rattle.lookup_plane.specs.Changes.{IsChangeOf, new_reader, opening_changes};
ghost use Rattle.lookup_plane.specs.Published.{HasSlots, IsWriting, Shows, content};

use crate::change::TableChange;
use crate::reader::LookupReader;
use crate::rule::{Add, Batch, TableWriter};
use crate::slots::Slots;
use std::alloc::{AllocError, Global};
use std::marker::{Brand, Model};
use std::sync::Wait;
use thiserror::Error;

/// The most labels of a range.
pub const MAX_LABELS: u32 = 4_096;
/// The most readers of a table.
pub const MAX_READERS: usize = 64;

/// Why a table can't be opened.
#[derive(Clone, Copy, Debug, PartialEq, Eq, Error)]
pub enum OpenFault {
    /// There is too little memory.
    #[error("out of memory")]
    Memory,
    /// There is no place for a reader.
    #[error("no place for a reader of the label table")]
    Reader,
}

impl From<AllocError> for OpenFault {
    fn from(_: AllocError) -> OpenFault {
        OpenFault::Memory
    }
}

/// Two copies of the slots of these labels and of tunnels, with no action, and room for so many readers.
fn open(
    alloc: Global,
    first_label: u32,
    last_label: u32,
    readers: usize,
) -> Result<TableWriter, AllocError>
    requires labels { (first_label ≤ last_label) × (last_label < first_label + 4096) }
    requires readers { (0 < readers) × (readers < 2 ^ 32) }
    ensures { IfOk result (λ writer. IsWriting first_label last_label writer.desk.shown.value [] []
        × ((view writer.desk.place).seen ≡ []) × (drop writer.behind writer.log.items ≡ [])) }
{
    let labels = (last_label - first_label) as usize + 1;
    let first = Slots::new(alloc, first_label, labels)?;
    let second = Slots::new(alloc, first_label, labels)?;
    TableWriter::new(alloc, first, second, readers)
}

/// Publishes these changes, which are all that are pending.
fn publish_by<B: Batch, R: Wait>(
    rt: &R,
    writer: TableWriter,
    first_label: u32,
    last_label: u32,
) -> TableWriter
    requires pending { drop writer.behind writer.log.items ≡ B.changes }
    requires few { length (view writer.desk.place).seen + length B.changes < 2 ^ 64 }
    requires writing { IsWriting first_label last_label writer.desk.shown.value
        (view writer.desk.place).seen B.changes }
    ensures changes { (view result.desk.place).seen ≡ (view writer.desk.place).seen ++ B.changes }
    ensures pending { drop result.behind result.log.items ≡ [] }
    ensures writing { IsWriting first_label last_label result.desk.shown.value
        (view result.desk.place).seen [] }
{
    let (writer, _published) = writer.publish_as::<Add<B>, R>(rt);
    writer
}

/// The writer's side of a published label table, for a range of labels. It keeps the handle by which it waits. Contracts
/// see the range, the list of the changes that are published, those that are appended and not yet published, and the table's name.
pub struct Plane<R: Wait + Drop> {
    writer: Option<TableWriter>,
    rt: R,
    first_label: u32,
    last_label: u32,
}

impl<R: Wait + Drop> Model for Plane<R> {
    ghost use Rattle.std.specs.Option.{IsSomeAnd};
    ghost use Rattle.std.specs.Prelude.{[], drop};
    ghost use Rattle.left_right.specs.Sides.{view as view_of};
    ghost use Rattle.lookup_plane.specs.Changes.{Changes};
    ghost use Rattle.lookup_plane.specs.Published.{IsWriting, read_or};

    ghost Value = { Changes };

    ghost view = { λ p. record {
      first_label = p.first_label;
      last_label = p.last_label;
      published = read_or p.writer [] (λ w. (view_of w.desk.place).seen);
      pending = read_or p.writer [] (λ w. drop w.behind w.log.items);
      table = read_or p.writer 0 (λ w. w.desk.place.table_id.views_name);
    } };

    ghost invariant = { λ p. IsSomeAnd p.writer (λ w. IsWriting p.first_label p.last_label
        w.desk.shown.value (view_of w.desk.place).seen (drop w.behind w.log.items)) };
}

impl<R: Wait + Drop> Drop for Plane<R> {
    fn drop(self) {
        let Self {
            writer,
            rt,
            first_label: _,
            last_label: _,
        } = self;
        if let Some(writer) = writer {
            writer.take(&rt);
        }
    }
}

impl<R: Wait + Drop> Plane<R> {
    /// A table with no action, for these labels, at most [`MAX_LABELS`], and for tunnels of any number, with so many
    /// readers, at most [`MAX_READERS`]. All memory of its slots is taken now. It waits by this handle.
    pub fn new(
        alloc: Global,
        rt: R,
        first_label: u32,
        last_label: u32,
        readers: usize,
    ) -> Result<(Plane<R>, Vec<LookupReader>), OpenFault>
        requires labels { (first_label ≤ last_label) × (last_label < first_label + 4096) }
        requires readers { readers ≤ 64 }
        ensures plane { IfOk result (λ made.
            made.0 ≡ opening_changes first_label last_label made.0.table) }
        ensures readers { IfOk result (λ made. (length made.1.items ≡ readers)
            × All (λ reader. reader ≡ new_reader made.0.table) made.1.items) }
    {
        let writer = open(alloc, first_label, last_label, readers.max(1))?;
        let plane = Plane {
            writer: Some(writer),
            rt,
            first_label,
            last_label,
        };
        let readers = plane.readers(alloc, readers)?;
        Ok((plane, readers))
    }

    /// Readers that have seen nothing yet, this many.
    fn readers(&self, alloc: Global, count: usize) -> Result<Vec<LookupReader>, OpenFault>
        ensures { IfOk result (λ readers. (length readers.items ≡ count)
            × All (λ reader. reader ≡ new_reader self.now.table) readers.items) }
    {
        let Some(writer) = &self.writer else {
            unreachable!()
        };
        let mut readers = Vec::with_capacity(alloc, count)?;
        for _ in 0..count {
            let reader = writer.factory().reader().map_err(|_| OpenFault::Reader)?;
            readers
                .push(LookupReader::new(reader, 0))
                .map_err(|_| OpenFault::Memory)?;
        }
        Ok(readers)
    }

    /// Takes a change in, which readers don't see until it is published. It asks for labels of the range, and that what
    /// the actions of labels write for labels are labels. Where there is no memory the change comes back, and nothing
    /// changed.
    pub fn append(&mut self, change: TableChange) -> Result<(), TableChange>
        requires { IsChangeOf self.old.first_label self.old.last_label change }
        ensures { MatchResult result
            (λ _. self.new ≡ record self.old { pending = self.old.pending ++ change ∷ [] })
            (λ back. (back ≡ change) × (self.new ≡ self.old)) }
    {
        let Some(writer) = &mut self.writer else {
            unreachable!()
        };
        writer.append(change)
    }

    /// How many changes are published.
    pub fn published_count(&self) -> u64
        ensures { result ≡ length self.now.published }
    {
        let Some(writer) = &self.writer else {
            unreachable!()
        };
        writer.published().count
    }

    /// Publishes all changes that are pending, at once. It waits for readers that still read what was shown before the
    /// last ones.
    pub fn publish(&mut self)
        requires few { length self.old.published + length self.old.pending < 2 ^ 64 }
        ensures { self.new ≡ record self.old { published = self.old.published ++ self.old.pending; pending = []; table = self.new.table } }
    {
        let Some(writer) = self.writer.take() else {
            unreachable!()
        };
        let writer = publish_by::<Brand, R>(&self.rt, writer, self.first_label, self.last_label);
        if let Some(other) = self.writer.replace(writer) {
            other.take(&self.rt);
        }
    }
}
