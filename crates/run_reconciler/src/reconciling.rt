//! Whether receipts and segments are those of one run.

ghost use Rattle.std.specs.Prelude.{◌≡◌, ◌≢◌, ◌+◌, ◌-◌, ◌^◌, ◌<◌, ◌≤◌, ◌↔◌, ◌∷◌, ◌++◌, [], All, IfErr, IfOk, IsTrue, List, MatchOption, OnErr, OnOk, length, slice_index_or, take};
ghost use Rattle.run_journal.specs.Journals.{IsSegment};
ghost use Rattle.run_journal.specs.Marks.{Counts, counted_all, first_counts, first_mark, first_marks, receipt_of};
ghost use Rattle.run_journal.specs.declared.receipt.Receipt.{Receipt};
ghost use Rattle.run_reconciler.specs.Mismatches.{IsFirstDifference, IsFirstGap, IsMismatch};
ghost use Rattle.run_reconciler.specs.Reconciled.{AreJoined, AreOneRun, IsReconciled, called_for, entries_in};
ghost use Rattle.run_reconciler.specs.Rounds.{AgreeByPort, GoOnFrom, IsFirstBreak, IsFirstOdd};
ghost use Rattle.run_reconciler.specs.Walks.{GoesOn, HasPorts, IsAt, IsNext, IsTold, IsWithin, called_in, mine, passed, place_at};

use journal_bytes::{are_same_items, is_same_router, is_same_state};
use run_journal::{CountedEntry, JournalCounts, Mark, Receipt, Segment};
use thiserror::Error;

/// Receipts and segments are those of one run.
#[derive(Clone, Copy, Debug, PartialEq, Eq)]
pub struct OneRun {
    /// How many entries the run has.
    pub entries: u64,
}

/// Where receipts and segments aren't those of one run: the first port, of those that are numbered from 1, whose receipts aren't
/// those that its entries call for, and the place, from 1, where these differ first; or port 0 and place 0 where the segments are no
/// whole journal. Beside these, the segment says which one doesn't go on.
#[derive(Clone, Copy, Debug, PartialEq, Eq, Error)]
#[error("the receipts and the segments are not those of one run: port {port}, place {place}, segment {segment}")]
pub struct Mismatch {
    /// The port, or 0 where the segments are no whole journal.
    pub port: u16,
    /// The place among the port's receipts, or 0 where the segments are no whole journal.
    pub place: u64,
    /// The number, from 1, of the first segment that doesn't go on from the one before; 0 where the segments are a whole journal.
    pub segment: u64,
}

/// The port of a mismatch that is of a segment.
pub(crate) const NO_PORT: u16 = 0;
/// The place of a mismatch that is of a segment.
pub(crate) const NO_PLACE: u64 = 0;
/// The segment of a mismatch that is of a port.
pub(crate) const NO_SEGMENT: u64 = 0;

/// How far a walk over a segment's entries has come, for the mark at one index: the numbers at the segment's beginning, and
/// what the entries so far add to them.
#[derive(Clone, Copy)]
struct Walk {
    /// The index of the mark.
    index: usize,
    /// Whether the segment has such a mark.
    is_known: bool,
    /// How many entries there were at the beginning.
    number: u64,
    /// How many of them had changed what is forwarded.
    published: u64,
    /// The mark's place at the beginning.
    place: u64,
    /// How many entries were passed.
    entries: u64,
    /// How many of them changed what is forwarded.
    changes: u64,
    /// How many of them moved the mark.
    moves: u64,
}

/// The index of a port's mark.
fn index_of(port: u16) -> usize
    ensures { result ≡ port - 1 }
{
    port.saturating_sub(1) as usize
}

/// Whether a number is the sum of two.
fn is_sum(sum: u64, number: u64, more: u64) -> bool
    ensures { IsTrue result ↔ (sum ≡ number + more) }
{
    sum >= number && sum - number == more
}

/// The place of the mark at an index; 0 where there is none.
fn place_of(marks: &[Mark], index: usize) -> u64
    ensures { result ≡ place_at marks.now index }
{
    match marks.get(index) {
        Some(mark) => mark.place,
        None => 0,
    }
}

impl Walk {
    /// A walk that begins here, for the mark at an index.
    fn new(from: &JournalCounts, index: usize) -> Walk
        ensures at { IsAt result from.now }
        ensures index { result.index ≡ index }
        ensures entries { result.entries ≡ 0 }
        ensures few { IsWithin result }
    {
        Walk {
            index,
            is_known: index < from.marks().len(),
            number: from.number(),
            published: from.published(),
            place: place_of(from.marks(), index),
            entries: 0,
            changes: 0,
            moves: 0,
        }
    }

    /// Whether this is the mark after the entry.
    fn is_next(self, mark: Mark, entry: &CountedEntry) -> bool
        requires few { IsWithin self }
        requires room { self.entries < 2 ^ 64 - 1 }
        ensures { IsTrue result ↔ IsNext self entry.now mark }
    {
        mark.port == entry.entry.port
            && is_sum(mark.place, self.place, self.moves + 1)
            && is_sum(mark.entry, self.number, self.entries + 1)
            && is_sum(
                mark.published,
                self.published,
                self.changes + u64::from(entry.changes_table),
            )
    }

    /// Goes on by an entry.
    fn pass(&mut self, entry: &CountedEntry)
        requires few { IsWithin self.old }
        requires room { self.old.entries < 2 ^ 64 - 1 }
        ensures passed { self.new ≡ passed self.old entry.now }
        ensures few { IsWithin self.new }
    {
        let moves = self.is_known && index_of(entry.entry.port) == self.index;
        self.entries += 1;
        self.changes += u64::from(entry.changes_table);
        self.moves += u64::from(moves);
    }
}

/// Whether the receipt is what the port is told of the entry that comes next.
fn is_told(receipt: &Receipt, walk: Walk, entry: &CountedEntry) -> bool
    requires few { IsWithin walk }
    requires room { walk.entries < 2 ^ 64 - 1 }
    ensures { IsTrue result ↔ IsTold walk entry.now receipt.now }
{
    walk.is_next(receipt.mark(), entry)
        && receipt.event() == entry.entry.event.as_slice()
        && receipt.reply() == entry.entry.reply
        && are_same_items(receipt.outputs().as_slice(), entry.entry.outputs.as_slice())
}

/// The first receipt of a port, and those after it.
fn next_of(receipts: &[Receipt], port: u16) -> Option<(&Receipt, &[Receipt])>
    ensures { MatchOption result (mine port receipts.now ≡ []) (λ next. mine port receipts.now ≡ next.0.now ∷ mine port next.1.now) }
{
    for i in 0..receipts.len() {
        if receipts[i].mark().port == port {
            return Some((&receipts[i], &receipts[i + 1..]));
        }
    }
    None
}

/// What is left of the receipts where the first one of the port is what it is told of the entry that comes next.
fn take_told<'a>(
    receipts: &'a [Receipt],
    port: u16,
    walk: Walk,
    entry: &CountedEntry,
) -> Option<&'a [Receipt]>
    requires port { (entry.now.entry.port ≡ port) × (walk.index ≡ port - 1) }
    requires few { IsWithin walk }
    requires room { walk.entries < 2 ^ 64 - 1 }
    ensures { (n : Counts) → IsAt walk n → MatchOption result
        (take 1 (mine port receipts.now) ≢ receipt_of n entry.now ∷ [])
        (λ more. mine port receipts.now ≡ receipt_of n entry.now ∷ mine port more.now) }
{
    let (receipt, more) = next_of(receipts, port)?;
    if is_told(receipt, walk, entry) {
        Some(more)
    } else {
        None
    }
}

/// What is left of a port's receipts after those that a segment's entries call for, and how many these are; or the place, from
/// 1, of the first of these that isn't there.
fn match_segment<'a>(
    segment: &Segment,
    port: u16,
    receipts: &'a [Receipt],
) -> Result<(&'a [Receipt], u64), u64>
    ensures rest { IfOk result (λ left. mine port receipts.now ≡ mine port (called_for segment.now.from segment.now.entries) ++ mine port left.0.now) }
    ensures count { IfOk result (λ left. left.1 ≡ length (mine port (called_for segment.now.from segment.now.entries))) }
    ensures place { IfErr result (λ place. (more : List Receipt) →
        IsFirstDifference place (mine port receipts.now) (mine port (called_for segment.now.from segment.now.entries) ++ more)) }
{
    let entries = segment.entries();
    let mut walk = Walk::new(segment.from(), index_of(port));
    let mut rest = receipts;
    let mut count: u64 = 0;
    for entry in entries {
        if entry.entry.port == port {
            let Some(more) = take_told(rest, port, walk, entry) else {
                return Err(count + 1);
            };
            rest = more;
            count += 1;
        }
        walk.pass(entry);
    }
    Ok((rest, count))
}

/// Where a port's receipts aren't those that the segments' entries call for: the place, from 1, of the first of these that
/// isn't there, or one more than there are where a receipt is left.
fn match_port(segments: &[Segment], receipts: &[Receipt], port: u16) -> Result<(), u64>
    ensures same { OnOk result (mine port receipts.now ≡ mine port (called_in segments.now)) }
    ensures other { OnErr result (mine port receipts.now ≢ mine port (called_in segments.now)) }
    ensures place { IfErr result (λ place. IsFirstDifference place (mine port receipts.now) (mine port (called_in segments.now))) }
{
    let mut rest = receipts;
    let mut count: u64 = 0;
    for segment in segments {
        match match_segment(segment, port, rest) {
            Ok((left, more)) => {
                rest = left;
                count += more;
            }
            Err(place) => return Err(count + place),
        }
    }
    match next_of(rest, port) {
        Some(_) => Err(count + 1),
        None => Ok(()),
    }
}

/// A port that no receipt's is greater than.
fn greatest_receipt(receipts: &[Receipt]) -> u16
    ensures { All (λ receipt. receipt.mark.port ≤ result) receipts.now }
{
    let mut greatest = 0;
    for receipt in receipts {
        greatest = greatest.max(receipt.mark().port);
    }
    greatest
}

/// A port that no entry's is greater than, and `least` neither.
fn greatest_entry(entries: &[CountedEntry], least: u16) -> u16
    ensures least { least ≤ result }
    ensures entries { All (λ entry. entry.entry.port ≤ result) entries.now }
{
    let mut greatest = least;
    for entry in entries {
        greatest = greatest.max(entry.entry.port);
    }
    greatest
}

/// A port that no entry's of the segments is greater than, and `least` neither.
fn greatest_port(segments: &[Segment], least: u16) -> u16
    ensures least { least ≤ result }
    ensures entries { All (HasPorts result) segments.now }
{
    let mut greatest = least;
    for segment in segments {
        greatest = greatest_entry(segment.entries(), greatest);
    }
    greatest
}

/// Whether the receipts of each port are exactly those that the segments' entries call for, in their order, each once; else the first
/// port whose aren't, and the place, from 1, where these differ first.
pub(crate) fn match_ports(segments: &[Segment], receipts: &[Receipt]) -> Result<(), Mismatch>
    ensures same { OnOk result (AgreeByPort receipts.now (called_in segments.now)) }
    ensures odd { IfErr result (IsFirstOdd receipts.now (called_in segments.now)) }
{
    let greatest = greatest_port(segments, greatest_receipt(receipts));
    for port in 0..=greatest {
        if let Err(place) = match_port(segments, receipts, port) {
            return Err(Mismatch {
                port,
                place,
                segment: NO_SEGMENT,
            });
        }
    }
    Ok(())
}

/// Whether this is the mark at an index after a segment's entries.
fn ends_with(segment: &Segment, index: usize, mark: Mark) -> bool
    requires { index < length segment.now.from.marks }
    ensures { IsTrue result ↔ (mark ≡ slice_index_or (counted_all segment.now.from segment.now.entries).marks index mark) }
{
    let entries = segment.entries();
    let mut walk = Walk::new(segment.from(), index);
    let mut is_same = mark == segment.from().marks()[index];
    for entry in entries {
        if index_of(entry.entry.port) == index {
            is_same = walk.is_next(mark, entry);
        }
        walk.pass(entry);
    }
    is_same
}

/// Whether these are the marks after a segment's entries.
fn are_end_marks(segment: &Segment, marks: &[Mark]) -> bool
    ensures { IsTrue result ↔ (marks.now ≡ (counted_all segment.now.from segment.now.entries).marks) }
{
    if marks.len() != segment.from().marks().len() {
        return false;
    }
    for i in 0..marks.len() {
        if !ends_with(segment, i, marks[i]) {
            return false;
        }
    }
    true
}

/// A walk over all of a segment's entries, for the first mark.
fn walked(segment: &Segment) -> Walk
    ensures { IsAt result (counted_all segment.now.from segment.now.entries) }
{
    let entries = segment.entries();
    let mut walk = Walk::new(segment.from(), 0);
    for entry in entries {
        walk.pass(entry);
    }
    walk
}

/// Whether these are the numbers after a segment's entries.
fn are_end_numbers(segment: &Segment, counts: &JournalCounts) -> bool
    ensures { IsTrue result ↔ (counts.now ≡ counted_all segment.now.from segment.now.entries) }
{
    let walk = walked(segment);
    is_sum(counts.number(), walk.number, walk.entries)
        && is_sum(counts.published(), walk.published, walk.changes)
        && are_end_marks(segment, counts.marks())
}

/// Whether a segment goes on from the one before.
fn goes_on(before: &Segment, next: &Segment) -> bool
    ensures { IsTrue result ↔ GoesOn before.now next.now }
{
    is_same_router(next.router(), before.router())
        && is_same_state(next.base(), before.end())
        && are_end_numbers(before, next.from())
}

/// Whether this is the mark of a port that had no entry.
fn is_first_mark(mark: Mark, port: usize) -> bool
    ensures { IsTrue result ↔ (mark ≡ first_mark port) }
{
    mark.port as usize == port && mark.place == 0 && mark.entry == 0 && mark.published == 0
}

/// Whether these are the marks of ports that had no entry.
fn are_first_marks(marks: &[Mark]) -> bool
    ensures { IsTrue result ↔ (marks.now ≡ first_marks (length marks.now)) }
{
    for i in 0..marks.len() {
        if !is_first_mark(marks[i], i + 1) {
            return false;
        }
    }
    true
}

/// Whether these are the numbers of a router that had no entry.
fn are_first_numbers(counts: &JournalCounts) -> bool
    ensures { IsTrue result ↔ (counts.now ≡ first_counts (length counts.now.marks)) }
{
    counts.number() == 0 && counts.published() == 0 && are_first_marks(counts.marks())
}

/// Whether segments go on one from the other, the first of them from this one; else the number, from 1, of the first that doesn't.
pub(crate) fn find_break(last: &Segment, segments: &[Segment]) -> Result<(), u64>
    ensures continued { OnOk result (GoOnFrom last.now segments.now) }
    ensures place { IfErr result (λ number. IsFirstBreak last.now number segments.now) }
{
    let mut before = last;
    let mut number: u64 = 0;
    for next in segments {
        if !goes_on(before, next) {
            return Err(number + 1);
        }
        before = next;
        number += 1;
    }
    Ok(())
}

/// Whether segments are a whole journal; else the number, from 1, of the first that doesn't go on from the one before, which is
/// 1 where the first isn't the beginning of a journal.
fn find_gap(segments: &[Segment]) -> Result<(), u64>
    ensures joined { OnOk result (AreJoined segments.now) }
    ensures gap { IfErr result (λ number. IsFirstGap number segments.now) }
{
    let Some((first, rest)) = segments.split_first() else {
        return Ok(());
    };
    if !are_first_numbers(first.from()) {
        return Err(1);
    }
    match find_break(first, rest) {
        Ok(()) => Ok(()),
        Err(number) => Err(number + 1),
    }
}

/// Each segment's entries record a run. A law: it changes nothing when it runs.
pub(crate) fn are_segments(segments: &[Segment])
    ensures { All IsSegment segments.now }
{
    for segment in segments {
        segment.is_run();
    }
}

/// Segments that are a whole journal record one run of the abstract router, from the router as it was opened to what it knows
/// at their end. A law: it changes nothing when it runs.
pub fn whole_journals_are_runs(segments: &[Segment])
    ensures { AreJoined segments.now → AreOneRun segments.now }
{
    are_segments(segments);
}

/// Whether receipts and segments are those of one run: the segments are a whole journal, and the receipts of each port are
/// exactly those that its entries call for, in their order, each once. If so, how many entries there are; else the first port and
/// place where it fails, or the first segment that doesn't go on. Takes no memory. Its time is that of looking at all entries and
/// receipts once for each port up to the greatest, and once more at the entries for each mark.
pub fn reconcile(segments: &[Segment], receipts: &[Receipt]) -> Result<OneRun, Mismatch>
    ensures one_run { OnOk result (IsReconciled segments.now receipts.now) }
    ensures entries { IfOk result (λ one. one.entries ≡ length (entries_in segments.now)) }
    ensures mismatch { OnErr result (IsReconciled segments.now receipts.now → ⊥) }
    ensures place { IfErr result (IsMismatch segments.now receipts.now) }
{
    if let Err(segment) = find_gap(segments) {
        return Err(Mismatch {
            port: NO_PORT,
            place: NO_PLACE,
            segment,
        });
    }
    match match_ports(segments, receipts) {
        Ok(()) => {
            // Each entry has one receipt.
            let entries = receipts.len() as u64;
            Ok(OneRun { entries })
        }
        Err(mismatch) => Err(mismatch),
    }
}
