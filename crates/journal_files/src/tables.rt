//! Tables of a file.

use crate::entries::LabelField;
use body_fields::PrefixField;
use fact_fields::{
    AssignmentField, Built, KeyField, MakingOf, PathField, RepairField, ResvField, TableField,
    TunnelField,
};
use field_bytes::{Field, Flag, Long, Nothing, Pair, Put, ReadFault, Short, Word};
use lsr_facts::{Assignment, Bypass, Key, PathFact, Repair, ResvFact, Tunnel};
use rsvp_bodies::Prefix;
use sorted_rows::Table;
use std::alloc::{AllocError, Global};
use std::marker::PhantomData;

/// How an empty table is spelled that a format doesn't have.
pub struct AbsentParts<K, V> {
    rows: PhantomData<(K, V)>,
}

/// A table that a format doesn't have: no bytes at all. It is empty.
pub type AbsentTable<K, V> = Built<Table<K, V>, AbsentParts<K, V>>;

impl<K: Ord + Drop, V: Drop> MakingOf<Table<K, V>> for AbsentParts<K, V> {
    ghost use Rattle.std.specs.Prelude.{refl};
    ghost use Rattle.journal_files.specs.Rows.{IsEmpty, absent_bytes, absent_parts, absent_told};

    type Parts = Nothing;

    ghost Allows = { IsEmpty };

    ghost back = { absent_parts };

    ghost spelling = { absent_bytes };

    ghost told = { absent_told };

    ghost spelled = { λ rows. refl };

    fn make(alloc: Global, _parts: ()) -> Result<Table<K, V>, ReadFault> {
        Ok(Table::new(alloc))
    }
}

/// Of each link whether it is up.
pub struct UpTable;

/// The rows of [`UpTable`].
type UpRows = TableField<u16, bool, Pair<Short, Flag>>;

impl Field for UpTable {
    ghost use Rattle.field_bytes.specs.Spelling.{list_bytes};
    ghost use Rattle.journal_files.specs.Rows.{up_bytes};
    ghost use Rattle.journal_files.specs.Fitting.{UpFits};
    ghost use Rattle.journal_files.specs.FileLaws.{one_up};

    type Value = Table<u16, bool>;

    ghost Fits = { UpFits };

    ghost spelling = { list_bytes up_bytes };

    ghost one = { one_up };

    fn read(alloc: Global, bytes: &[u8]) -> Result<(Table<u16, bool>, &[u8]), ReadFault> {
        <UpRows as Field>::read(alloc, bytes)
    }
}

impl Put for UpTable {
    fn put(rows: &Table<u16, bool>, out: &mut Vec<u8>) -> Result<(), AllocError> {
        <UpRows as Put>::put(rows, out)
    }
}

/// The static routes.
pub struct RouteTable;

/// The rows of [`RouteTable`].
type RouteRows = TableField<Prefix, u16, Pair<PrefixField, Short>>;

impl Field for RouteTable {
    ghost use Rattle.field_bytes.specs.Spelling.{list_bytes};
    ghost use Rattle.journal_files.specs.Rows.{route_row_bytes};
    ghost use Rattle.journal_files.specs.Fitting.{RoutesFit};
    ghost use Rattle.journal_files.specs.FileLaws.{one_routes};

    type Value = Table<Prefix, u16>;

    ghost Fits = { RoutesFit };

    ghost spelling = { list_bytes route_row_bytes };

    ghost one = { one_routes };

    fn read(alloc: Global, bytes: &[u8]) -> Result<(Table<Prefix, u16>, &[u8]), ReadFault> {
        <RouteRows as Field>::read(alloc, bytes)
    }
}

impl Put for RouteTable {
    fn put(rows: &Table<Prefix, u16>, out: &mut Vec<u8>) -> Result<(), AllocError> {
        <RouteRows as Put>::put(rows, out)
    }
}

/// The tunnels, of each LSP that is to take the current one's place the ID alone.
pub struct TunnelTable;

/// The rows of [`TunnelTable`].
type TunnelRows = TableField<u16, Tunnel, Pair<Short, TunnelField>>;

impl Field for TunnelTable {
    ghost use Rattle.field_bytes.specs.Spelling.{list_bytes};
    ghost use Rattle.journal_files.specs.Rows.{tunnel_row_bytes};
    ghost use Rattle.journal_files.specs.Fitting.{TunnelsFit};
    ghost use Rattle.journal_files.specs.FileLaws.{one_tunnels};

    type Value = Table<u16, Tunnel>;

    ghost Fits = { TunnelsFit };

    ghost spelling = { list_bytes tunnel_row_bytes };

    ghost one = { one_tunnels };

    fn read(alloc: Global, bytes: &[u8]) -> Result<(Table<u16, Tunnel>, &[u8]), ReadFault> {
        <TunnelRows as Field>::read(alloc, bytes)
    }
}

/// The bypasses, by how a bypass is spelled.
pub type BypassTable<B> = TableField<u16, Bypass, Pair<Short, B>>;

/// The paths.
pub struct PathTable;

/// The rows of [`PathTable`].
type PathRows = TableField<Key, PathFact, Pair<KeyField, PathField>>;

impl Field for PathTable {
    ghost use Rattle.field_bytes.specs.Spelling.{list_bytes};
    ghost use Rattle.journal_files.specs.Rows.{path_row_bytes};
    ghost use Rattle.journal_files.specs.Fitting.{PathsFit};
    ghost use Rattle.journal_files.specs.FileLaws.{one_paths};

    type Value = Table<Key, PathFact>;

    ghost Fits = { PathsFit };

    ghost spelling = { list_bytes path_row_bytes };

    ghost one = { one_paths };

    fn read(alloc: Global, bytes: &[u8]) -> Result<(Table<Key, PathFact>, &[u8]), ReadFault> {
        <PathRows as Field>::read(alloc, bytes)
    }
}

impl Put for PathTable {
    fn put(rows: &Table<Key, PathFact>, out: &mut Vec<u8>) -> Result<(), AllocError> {
        <PathRows as Put>::put(rows, out)
    }
}

/// The reservations.
pub struct ResvTable;

/// The rows of [`ResvTable`].
type ResvRows = TableField<Key, ResvFact, Pair<KeyField, ResvField>>;

impl Field for ResvTable {
    ghost use Rattle.field_bytes.specs.Spelling.{list_bytes};
    ghost use Rattle.journal_files.specs.Rows.{resv_row_bytes};
    ghost use Rattle.journal_files.specs.Fitting.{ResvsFit};
    ghost use Rattle.journal_files.specs.FileLaws.{one_resvs};

    type Value = Table<Key, ResvFact>;

    ghost Fits = { ResvsFit };

    ghost spelling = { list_bytes resv_row_bytes };

    ghost one = { one_resvs };

    fn read(alloc: Global, bytes: &[u8]) -> Result<(Table<Key, ResvFact>, &[u8]), ReadFault> {
        <ResvRows as Field>::read(alloc, bytes)
    }
}

impl Put for ResvTable {
    fn put(rows: &Table<Key, ResvFact>, out: &mut Vec<u8>) -> Result<(), AllocError> {
        <ResvRows as Put>::put(rows, out)
    }
}

/// The repairs in use.
pub struct RepairTable;

/// The rows of [`RepairTable`].
type RepairRows = TableField<Key, Repair, Pair<KeyField, RepairField>>;

impl Field for RepairTable {
    ghost use Rattle.field_bytes.specs.Spelling.{list_bytes};
    ghost use Rattle.journal_files.specs.Rows.{repair_row_bytes};
    ghost use Rattle.journal_files.specs.Fitting.{RepairsFit};
    ghost use Rattle.journal_files.specs.FileLaws.{one_repairs};

    type Value = Table<Key, Repair>;

    ghost Fits = { RepairsFit };

    ghost spelling = { list_bytes repair_row_bytes };

    ghost one = { one_repairs };

    fn read(alloc: Global, bytes: &[u8]) -> Result<(Table<Key, Repair>, &[u8]), ReadFault> {
        <RepairRows as Field>::read(alloc, bytes)
    }
}

impl Put for RepairTable {
    fn put(rows: &Table<Key, Repair>, out: &mut Vec<u8>) -> Result<(), AllocError> {
        <RepairRows as Put>::put(rows, out)
    }
}

/// The promises of bandwidth.
pub struct PromiseTable;

/// The rows of [`PromiseTable`].
type PromiseRows = TableField<Key, Assignment, Pair<KeyField, AssignmentField>>;

impl Field for PromiseTable {
    ghost use Rattle.field_bytes.specs.Spelling.{list_bytes};
    ghost use Rattle.journal_files.specs.Rows.{promise_row_bytes};
    ghost use Rattle.journal_files.specs.Fitting.{PromisesFit};
    ghost use Rattle.journal_files.specs.FileLaws.{one_promises};

    type Value = Table<Key, Assignment>;

    ghost Fits = { PromisesFit };

    ghost spelling = { list_bytes promise_row_bytes };

    ghost one = { one_promises };

    fn read(alloc: Global, bytes: &[u8]) -> Result<(Table<Key, Assignment>, &[u8]), ReadFault> {
        <PromiseRows as Field>::read(alloc, bytes)
    }
}

impl Put for PromiseTable {
    fn put(rows: &Table<Key, Assignment>, out: &mut Vec<u8>) -> Result<(), AllocError> {
        <PromiseRows as Put>::put(rows, out)
    }
}

/// The labels of LSPs.
pub struct LabelTable;

/// The rows of [`LabelTable`].
type LabelRows = TableField<Key, u32, LabelField>;

impl Field for LabelTable {
    ghost use Rattle.field_bytes.specs.Spelling.{list_bytes};
    ghost use Rattle.journal_files.specs.Entries.{label_bytes};
    ghost use Rattle.journal_files.specs.Fitting.{LabelsFit};
    ghost use Rattle.journal_files.specs.FileLaws.{one_labels};

    type Value = Table<Key, u32>;

    ghost Fits = { LabelsFit };

    ghost spelling = { list_bytes label_bytes };

    ghost one = { one_labels };

    fn read(alloc: Global, bytes: &[u8]) -> Result<(Table<Key, u32>, &[u8]), ReadFault> {
        <LabelRows as Field>::read(alloc, bytes)
    }
}

impl Put for LabelTable {
    fn put(rows: &Table<Key, u32>, out: &mut Vec<u8>) -> Result<(), AllocError> {
        <LabelRows as Put>::put(rows, out)
    }
}

/// The labels that rest.
pub struct RestingTable;

/// The rows of [`RestingTable`].
type RestingRows = TableField<u32, u64, Pair<Word, Long>>;

impl Field for RestingTable {
    ghost use Rattle.field_bytes.specs.Spelling.{list_bytes};
    ghost use Rattle.journal_files.specs.Rows.{resting_row_bytes};
    ghost use Rattle.journal_files.specs.Fitting.{RestingFit};
    ghost use Rattle.journal_files.specs.FileLaws.{one_resting};

    type Value = Table<u32, u64>;

    ghost Fits = { RestingFit };

    ghost spelling = { list_bytes resting_row_bytes };

    ghost one = { one_resting };

    fn read(alloc: Global, bytes: &[u8]) -> Result<(Table<u32, u64>, &[u8]), ReadFault> {
        <RestingRows as Field>::read(alloc, bytes)
    }
}

impl Put for RestingTable {
    fn put(rows: &Table<u32, u64>, out: &mut Vec<u8>) -> Result<(), AllocError> {
        <RestingRows as Put>::put(rows, out)
    }
}
