ghost use Rattle.std.specs.Prelude.{◌≡◌, ◌++◌, OnOk};
ghost use Rattle.field_bytes.specs.Making.{Makes};
ghost use Rattle.lsr_facts.specs.Reservations.{style_bits};
ghost use Rattle.fact_fields.specs.Fitting.{EndFits, IsAny, RepairedFits};
ghost use Rattle.fact_fields.specs.Resvs.{assignment_parts, end_bytes, end_of, end_parts, repair_parts, repaired_bytes, repaired_parts, resv_parts};

use crate::options::put_option;
use body_fields::{PassingField, RecordField, TrafficField, put_byte};
use field_bytes::{Byte, Field, Flag, Long, Optional, Pair, Put, ReadFault, Short, Word};
use lsr_facts::{Assignment, Repair, ResvFact, ResvStyle};
use rsvp_bodies::{Flowspec, Receiver, Record};
use rsvp_contents::Passing;
use std::alloc::{AllocError, Global};

/// The bits of a style of bandwidth of its own, and of one that is shared (RFC 2205, A.7).
const STYLE_FIXED: u8 = 10;

const STYLE_SHARED: u8 = 18;

/// How LSPs of a session reserve, in 1 byte (RFC 2205, A.7).
pub(crate) struct StyleField;

/// The style of these bits.
#[tactic(auto, using(crate::specs::Resvs::no_style))]
fn style_of(bits: u8) -> Result<ResvStyle, ReadFault>
    ensures { Makes IsAny style_bits bits result }
{
    if bits == STYLE_FIXED {
        Ok(ResvStyle::FixedFilter)
    } else if bits == STYLE_SHARED {
        Ok(ResvStyle::SharedExplicit)
    } else {
        Err(ReadFault::Format)
    }
}

impl Field for StyleField {
    ghost use Rattle.fact_fields.specs.Fitting.{StyleFits};
    ghost use Rattle.fact_fields.specs.Laws.{one_style};
    ghost use Rattle.fact_fields.specs.Resvs.{style_bytes};

    type Value = ResvStyle;

    ghost Fits = { StyleFits };

    ghost spelling = { style_bytes };

    ghost one = { one_style };

    fn read(alloc: Global, bytes: &[u8]) -> Result<(ResvStyle, &[u8]), ReadFault> {
        let (bits, rest) = Byte::read(alloc, bytes)?;
        Ok((style_of(bits)?, rest))
    }
}

impl Put for StyleField {
    fn put(style: &ResvStyle, out: &mut Vec<u8>) -> Result<(), AllocError> {
        match style {
            ResvStyle::FixedFilter => put_byte(STYLE_FIXED, out),
            ResvStyle::SharedExplicit => put_byte(STYLE_SHARED, out),
        }
    }
}

/// What ends a reservation.
#[derive(Debug, Drop)]
pub struct ResvEnd {
    /// The route that its Resv took.
    pub recorded: Option<Record>,
    /// Objects that are passed on.
    pub passing: Passing,
    /// Until when it counts, in milliseconds.
    pub expiry: u64,
}

/// What ends a reservation: the route that its Resv took, objects that are passed on, and until when it counts.
pub(crate) struct ResvEndField;

/// The parts of what ends a reservation.
type EndParts = Pair<Optional<RecordField>, Pair<PassingField, Long>>;

/// What ends a reservation, of these.
fn end_by(parts: (Option<Record>, (Passing, u64))) -> ResvEnd
    ensures { end_parts result ≡ parts }
{
    let (recorded, (passing, expiry)) = parts;
    ResvEnd {
        recorded,
        passing,
        expiry,
    }
}

impl Field for ResvEndField {
    ghost use Rattle.fact_fields.specs.Fitting.{EndFits};
    ghost use Rattle.fact_fields.specs.Laws.{one_end};
    ghost use Rattle.fact_fields.specs.Resvs.{end_bytes};

    type Value = ResvEnd;

    ghost Fits = { EndFits };

    ghost spelling = { end_bytes };

    ghost one = { one_end };

    fn read(alloc: Global, bytes: &[u8]) -> Result<(ResvEnd, &[u8]), ReadFault> {
        let (parts, rest) = <EndParts as Field>::read(alloc, bytes)?;
        Ok((end_by(parts), rest))
    }
}

/// A reservation: its link, its style, its traffic, its label and what ends it.
pub struct ResvField;

/// The parts of a reservation.
type ResvParts = Pair<
    Short,
    Pair<StyleField, Pair<TrafficField<Receiver>, Pair<Word, ResvEndField>>>,
>;

/// The reservation of these.
fn resv_of(parts: (u16, (ResvStyle, (Flowspec, (u32, ResvEnd))))) -> ResvFact
    ensures { resv_parts result ≡ parts }
{
    let (link, (style, (flowspec, (label, end)))) = parts;
    ResvFact {
        link,
        style,
        flowspec,
        label,
        recorded: end.recorded,
        passing: end.passing,
        expiry: end.expiry,
    }
}

impl Field for ResvField {
    ghost use Rattle.fact_fields.specs.Fitting.{ResvFits};
    ghost use Rattle.fact_fields.specs.Laws.{one_resv};
    ghost use Rattle.fact_fields.specs.Resvs.{resv_bytes};

    type Value = ResvFact;

    ghost Fits = { ResvFits };

    ghost spelling = { resv_bytes };

    ghost one = { one_resv };

    fn read(alloc: Global, bytes: &[u8]) -> Result<(ResvFact, &[u8]), ReadFault> {
        let (parts, rest) = <ResvParts as Field>::read(alloc, bytes)?;
        Ok((resv_of(parts), rest))
    }
}

/// Appends what ends a reservation.
fn put_end(resv: &ResvFact, out: &mut Vec<u8>) -> Result<(), AllocError>
    ensures ok { OnOk result (out.new.items ≡ out.old.items ++ end_bytes (end_of resv.now)) }
    ensures fits { OnOk result (EndFits (end_of resv.now)) }
{
    put_option::<RecordField>(&resv.recorded, out)?;
    PassingField::put(&resv.passing, out)?;
    Long::put(&resv.expiry, out)
}

impl Put for ResvField {
    fn put(resv: &ResvFact, out: &mut Vec<u8>) -> Result<(), AllocError> {
        Short::put(&resv.link, out)?;
        StyleField::put(&resv.style, out)?;
        TrafficField::<Receiver>::put(&resv.flowspec, out)?;
        Word::put(&resv.label, out)?;
        put_end(resv, out)
    }
}

/// A repair: its bypass, the link that it protects, its label, whether it ends after the next hop, its style, its traffic and what ends it.
pub struct RepairField;

/// What follows a repair's label.
type Repaired = Pair<Flag, Pair<StyleField, Pair<TrafficField<Receiver>, ResvEndField>>>;

/// What follows a repair's label.
type RepairedValue = (bool, (ResvStyle, (Flowspec, ResvEnd)));

/// The parts of a repair.
type RepairParts = Pair<Short, Pair<Short, Pair<Word, Repaired>>>;

/// The repair of these.
fn repair_of(parts: (u16, (u16, (u32, RepairedValue)))) -> Repair
    ensures { repair_parts result ≡ parts }
{
    let (bypass, (link, (label, repaired))) = parts;
    let (is_nnhop, (style, (flowspec, end))) = repaired;
    Repair {
        bypass,
        is_nnhop,
        resv: ResvFact {
            link,
            style,
            flowspec,
            label,
            recorded: end.recorded,
            passing: end.passing,
            expiry: end.expiry,
        },
    }
}

impl Field for RepairField {
    ghost use Rattle.fact_fields.specs.Fitting.{RepairFits};
    ghost use Rattle.fact_fields.specs.Laws.{one_repair};
    ghost use Rattle.fact_fields.specs.Resvs.{repair_bytes};

    type Value = Repair;

    ghost Fits = { RepairFits };

    ghost spelling = { repair_bytes };

    ghost one = { one_repair };

    fn read(alloc: Global, bytes: &[u8]) -> Result<(Repair, &[u8]), ReadFault> {
        let (parts, rest) = <RepairParts as Field>::read(alloc, bytes)?;
        Ok((repair_of(parts), rest))
    }
}

/// Appends what follows a repair's label.
fn put_repaired(repair: &Repair, out: &mut Vec<u8>) -> Result<(), AllocError>
    ensures ok { OnOk result (out.new.items ≡ out.old.items ++ repaired_bytes repair.now) }
    ensures fits { OnOk result (RepairedFits (repaired_parts repair.now)) }
{
    Flag::put(&repair.is_nnhop, out)?;
    StyleField::put(&repair.resv.style, out)?;
    TrafficField::<Receiver>::put(&repair.resv.flowspec, out)?;
    put_end(&repair.resv, out)
}

impl Put for RepairField {
    fn put(repair: &Repair, out: &mut Vec<u8>) -> Result<(), AllocError> {
        Short::put(&repair.bypass, out)?;
        Short::put(&repair.resv.link, out)?;
        Word::put(&repair.resv.label, out)?;
        put_repaired(repair, out)
    }
}

/// What an LSP is promised of a bypass: the bypass, and bytes per second.
pub struct AssignmentField;

/// The promise of these.
fn assignment_of(parts: (u16, u64)) -> Assignment
    ensures { assignment_parts result ≡ parts }
{
    let (bypass, rate) = parts;
    Assignment { bypass, rate }
}

impl Field for AssignmentField {
    ghost use Rattle.fact_fields.specs.FieldLaws.{one_assignment};
    ghost use Rattle.fact_fields.specs.Fitting.{AssignmentFits};
    ghost use Rattle.fact_fields.specs.Resvs.{assignment_bytes};

    type Value = Assignment;

    ghost Fits = { AssignmentFits };

    ghost spelling = { assignment_bytes };

    ghost one = { one_assignment };

    fn read(alloc: Global, bytes: &[u8]) -> Result<(Assignment, &[u8]), ReadFault> {
        let (parts, rest) = <Pair<Short, Long> as Field>::read(alloc, bytes)?;
        Ok((assignment_of(parts), rest))
    }
}

impl Put for AssignmentField {
    fn put(assignment: &Assignment, out: &mut Vec<u8>) -> Result<(), AllocError> {
        Short::put(&assignment.bypass, out)?;
        Long::put(&assignment.rate, out)
    }
}
