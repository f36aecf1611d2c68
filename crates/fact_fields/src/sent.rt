ghost use Rattle.std.specs.Prelude.{◌≡◌, ◌++◌, ◌∷◌, [], true, map, IfErr, IfOk, OnOk};
ghost use Rattle.field_bytes.specs.Making.{Makes};
ghost use Rattle.fact_fields.specs.Fitting.{SentFits};
ghost use Rattle.fact_fields.specs.Sent.{IsSent, IsSplit, NeverFollows, are_rising, joined, path_row, refreshed_parts, resv_row, sent_by, sent_bytes, sent_rows};

use crate::keys::{KeyField, UpstreamField};
use crate::tables::is_rising;
use body_fields::put_byte;
use field_bytes::{
    Both, Choice, Field, Items, Long, Many, OneOf, Only, Pair, Put, ReadFault, Short, put_list,
};
use lsr_facts::{Item, Key, Upstream};
use sorted_rows::Table;
use std::alloc::{AllocError, Global};

/// What is kept alive at a neighbour.
#[derive(Clone, Copy, Debug, Drop)]
pub enum Refreshed {
    /// A Path.
    Path(Item),
    /// A Resv.
    Resv(Upstream),
}

/// What is kept alive at a neighbour: 1, an LSP and a link; 2, an LSP and a bypass; or 3 and a Resv.
pub(crate) struct RefreshedField;

/// An LSP, and the number of a link or of a bypass.
type LspRow = Pair<KeyField, Short>;

/// The parts of what is kept alive.
type RefreshedParts = Choice<1, Both<1, Only<LspRow>, Both<1, Only<LspRow>, Only<UpstreamField>>>>;

/// What is kept alive, of these.
fn refreshed_of(parts: OneOf<(Key, u16), OneOf<(Key, u16), Upstream>>) -> Refreshed
    ensures { refreshed_parts result ≡ parts }
{
    match parts {
        OneOf::This((key, link)) => Refreshed::Path(Item::Down(key, link)),
        OneOf::Other(OneOf::This((key, bypass))) => Refreshed::Path(Item::Backup(key, bypass)),
        OneOf::Other(OneOf::Other(upstream)) => Refreshed::Resv(upstream),
    }
}

impl Field for RefreshedField {
    ghost use Rattle.fact_fields.specs.FieldLaws.{one_refreshed};
    ghost use Rattle.fact_fields.specs.Fitting.{RefreshedFits};
    ghost use Rattle.fact_fields.specs.Sent.{refreshed_bytes};

    type Value = Refreshed;

    ghost Fits = { RefreshedFits };

    ghost spelling = { refreshed_bytes };

    ghost one = { one_refreshed };

    fn read(alloc: Global, bytes: &[u8]) -> Result<(Refreshed, &[u8]), ReadFault> {
        let (parts, rest) = <RefreshedParts as Field>::read(alloc, bytes)?;
        Ok((refreshed_of(parts), rest))
    }
}

/// Stands before a Path over a link, before one over a bypass, and before a Resv.
const KEPT_DOWN: u8 = 1;

const KEPT_BACKUP: u8 = 2;

const KEPT_RESV: u8 = 3;

impl Put for RefreshedField {
    fn put(refreshed: &Refreshed, out: &mut Vec<u8>) -> Result<(), AllocError> {
        match refreshed {
            Refreshed::Path(Item::Down(key, link)) => {
                put_byte(KEPT_DOWN, out)?;
                KeyField::put(key, out)?;
                Short::put(link, out)
            }
            Refreshed::Path(Item::Backup(key, bypass)) => {
                put_byte(KEPT_BACKUP, out)?;
                KeyField::put(key, out)?;
                Short::put(bypass, out)
            }
            Refreshed::Resv(upstream) => {
                put_byte(KEPT_RESV, out)?;
                UpstreamField::put(upstream, out)
            }
        }
    }
}

/// What is kept alive, and when it was sent last.
type SentRow = Pair<RefreshedField, Long>;

/// Of each Path and of each Resv that is kept alive the moment when it was sent last, in milliseconds.
#[derive(Debug, Drop)]
pub struct Sent {
    /// The Paths.
    pub paths: Table<Item, u64>,
    /// The Resvs.
    pub resvs: Table<Upstream, u64>,
}

/// The rows of Paths and of Resvs.
type Split = (Items<(Item, u64)>, Items<(Upstream, u64)>);

/// Puts an item after the others. The only error is out of memory.
fn add<T: Drop>(items: &mut Vec<T>, item: T) -> Result<(), AllocError>
    ensures { OnOk result (items.new.items ≡ items.old.items ++ item ∷ []) }
{
    items.push(item)?;
    Ok(())
}

/// Puts a row of a Path after the others, where none of a Resv is there yet.
#[tactic(auto, using(crate::proofs::Splitting::path_after, crate::proofs::Splitting::path_too_late))]
fn add_path(
    paths: &mut Vec<(Item, u64)>,
    resvs: &[(Upstream, u64)],
    row: (Item, u64),
) -> Result<(), ReadFault>
    ensures ok { OnOk result (joined paths.new.items resvs.now ≡ joined paths.old.items resvs.now ++ path_row row ∷ []) }
    ensures err { IfErr result (λ fault. NeverFollows fault paths.old.items resvs.now (path_row row)) }
{
    if !resvs.is_empty() {
        return Err(ReadFault::Format);
    }
    add(paths, row)?;
    Ok(())
}

/// Puts a row of a Resv after the others.
#[tactic(auto, using(crate::proofs::Splitting::resv_more))]
fn add_resv(
    paths: &[(Item, u64)],
    resvs: &mut Vec<(Upstream, u64)>,
    row: (Upstream, u64),
) -> Result<(), ReadFault>
    ensures ok { OnOk result (joined paths.now resvs.new.items ≡ joined paths.now resvs.old.items ++ resv_row row ∷ []) }
    ensures err { IfErr result (λ fault. NeverFollows fault paths.now resvs.old.items (resv_row row)) }
{
    add(resvs, row)?;
    Ok(())
}

/// Puts a row after the others.
fn add_row(
    paths: &mut Vec<(Item, u64)>,
    resvs: &mut Vec<(Upstream, u64)>,
    row: (Refreshed, u64),
) -> Result<(), ReadFault>
    ensures ok { OnOk result (joined paths.new.items resvs.new.items ≡ joined paths.old.items resvs.old.items ++ row ∷ []) }
    ensures err { IfErr result (λ fault. NeverFollows fault paths.old.items resvs.old.items row) }
{
    let (refreshed, moment) = row;
    match refreshed {
        Refreshed::Path(item) => add_path(paths, resvs.as_slice(), (item, moment)),
        Refreshed::Resv(upstream) => add_resv(paths.as_slice(), resvs, (upstream, moment)),
    }
}

/// The rows of Paths, and those of Resvs, which come after them.
fn split(alloc: Global, rows: &[(Refreshed, u64)]) -> Result<Split, ReadFault>
    ensures { IsSplit rows.now result }
{
    let mut paths = Vec::new(alloc);
    let mut resvs = Vec::new(alloc);
    for row in rows {
        add_row(&mut paths, &mut resvs, *row)?;
    }
    Ok((Items::from_vec(paths), Items::from_vec(resvs)))
}

/// Whether the Paths rise, and the Resvs do.
fn are_rising(paths: &[(Item, u64)], resvs: &[(Upstream, u64)]) -> bool
    ensures { result ≡ are_rising paths.now resvs.now }
{
    is_rising(paths) && is_rising(resvs)
}

/// What was sent of these, which rise.
#[tactic(auto, using(crate::proofs::Splitting::paths_rise, crate::proofs::Splitting::resvs_rise))]
fn sent_by(paths: Items<(Item, u64)>, resvs: Items<(Upstream, u64)>) -> Sent
    requires { are_rising paths resvs ≡ true }
    ensures { result ≡ sent_by paths resvs }
{
    Sent {
        paths: Table::from_rows(paths.into_vec()),
        resvs: Table::from_rows(resvs.into_vec()),
    }
}

/// Of what is kept alive when it was sent last: how many rows there are, first those of Paths and then those of Resvs.
pub struct SentField;

/// When it was sent last, of these rows.
#[tactic(auto, using(crate::proofs::Splitting::unrising, crate::proofs::Splitting::rising_made))]
fn sent_of(alloc: Global, rows: Items<(Refreshed, u64)>) -> Result<Sent, ReadFault>
    ensures { Makes IsSent sent_rows rows result }
{
    let (paths, resvs) = split(alloc, rows.as_slice())?;
    if !are_rising(paths.as_slice(), resvs.as_slice()) {
        return Err(ReadFault::Format);
    }
    Ok(sent_by(paths, resvs))
}

impl Field for SentField {
    ghost use Rattle.fact_fields.specs.FieldLaws.{one_sent};
    ghost use Rattle.fact_fields.specs.Fitting.{SentFits};
    ghost use Rattle.fact_fields.specs.Sent.{sent_bytes};

    type Value = Sent;

    ghost Fits = { SentFits };

    ghost spelling = { sent_bytes };

    ghost one = { one_sent };

    fn read(alloc: Global, bytes: &[u8]) -> Result<(Sent, &[u8]), ReadFault> {
        let (rows, rest) = Many::<SentRow>::read(alloc, bytes)?;
        Ok((sent_of(alloc, rows)?, rest))
    }
}

/// The rows of Paths. The only error is out of memory.
fn path_rows(alloc: Global, paths: &[(Item, u64)]) -> Result<Vec<(Refreshed, u64)>, AllocError>
    ensures { IfOk result (λ rows. rows.items ≡ map path_row paths.now) }
{
    paths
        .iter()
        .map(|row| (Refreshed::Path(row.0), row.1))
        .collect(alloc)
}

/// The rows of Resvs. The only error is out of memory.
fn resv_rows(alloc: Global, resvs: &[(Upstream, u64)]) -> Result<Vec<(Refreshed, u64)>, AllocError>
    ensures { IfOk result (λ rows. rows.items ≡ map resv_row resvs.now) }
{
    resvs
        .iter()
        .map(|row| (Refreshed::Resv(row.0), row.1))
        .collect(alloc)
}

/// The rows of Paths, and after them those of Resvs. The only error is out of memory.
fn joined_rows(
    alloc: Global,
    paths: &[(Item, u64)],
    resvs: &[(Upstream, u64)],
) -> Result<Vec<(Refreshed, u64)>, AllocError>
    ensures { IfOk result (λ rows. rows.items ≡ joined paths.now resvs.now) }
{
    let mut rows = path_rows(alloc, paths)?;
    let others = resv_rows(alloc, resvs)?;
    rows.extend_from_slice(others.as_slice())?;
    Ok(rows)
}

/// Appends when each Path and each Resv that is kept alive was sent last: first the Paths. The only errors are out of memory, and more
/// rows than 4 bytes count.
pub fn put_sent(
    paths: &Table<Item, u64>,
    resvs: &Table<Upstream, u64>,
    out: &mut Vec<u8>,
) -> Result<(), AllocError>
    ensures ok { OnOk result (out.new.items ≡ out.old.items ++ sent_bytes (sent_by paths.now resvs.now)) }
    ensures fits { OnOk result (SentFits (sent_by paths.now resvs.now)) }
{
    let rows = joined_rows(*out.allocator(), paths.as_slice(), resvs.as_slice())?;
    put_list::<SentRow>(rows.as_slice(), out)
}
