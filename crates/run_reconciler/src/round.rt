//! Whether what one more round of a run left goes on from the rounds before it.
ghost use Rattle.std.specs.Prelude.{◌+◌, ◌++◌, ℕ, IfErr, OnErr, OnOk, length};
ghost use Rattle.lsr_config.specs.Configs.{Setup};
ghost use Rattle.run_journal.specs.Journals.{Stretch};
ghost use Rattle.run_reconciler.specs.Judged.{ServesRun};
ghost use Rattle.run_reconciler.specs.Reconciled.{entries_in};
ghost use Rattle.run_reconciler.specs.Rounds.{IsLastOf, IsNextRound, IsNoRound, IsRunSoFar};

use crate::judging::{FIRST, stray_port};
use crate::reconciling::{
    Mismatch, NO_PLACE, NO_PORT, NO_SEGMENT, are_segments, find_break, match_ports,
};
use lsr_config::Config;
use run_journal::{Receipt, Segment};

/// Whether segments and receipts are those of the next round of a run, of which `last` was the last segment so far, and which so many
/// ports feed: there is a segment, the segments go on from `last` one after the other, and the receipts of each port are exactly those
/// that the round's entries call for, in their order, each once, and each is of one of the ports. Else why not: port 0, place 0 and
/// segment 1 where there is no segment; port 0, place 0 and the number, from 1, of the first segment that doesn't go on; the first port
/// whose receipts differ from those that its entries call for, and the place, from 1, where they do first; the port of the first receipt
/// that is of none of the ports, and place 1. Takes no memory. Its time is that of looking at all entries and receipts of the round once
/// for each port up to the greatest, and once more at the entries, and those of `last`, for each mark.
pub fn judge_round(
    last: &Segment,
    ports: usize,
    segments: &[Segment],
    receipts: &[Receipt],
) -> Result<(), Mismatch>
    ensures round { OnOk result (IsNextRound last.now ports segments.now receipts.now) }
    ensures mismatch { OnErr result (IsNextRound last.now ports segments.now receipts.now → ⊥) }
    ensures place { IfErr result (IsNoRound last.now ports segments.now receipts.now) }
{
    if segments.is_empty() {
        return Err(Mismatch {
            port: NO_PORT,
            place: NO_PLACE,
            segment: FIRST,
        });
    }
    if let Err(segment) = find_break(last, segments) {
        return Err(Mismatch {
            port: NO_PORT,
            place: NO_PLACE,
            segment,
        });
    }
    if let Err(mismatch) = match_ports(segments, receipts) {
        return Err(mismatch);
    }
    match stray_port(ports, receipts) {
        Some(port) => Err(Mismatch {
            port,
            place: FIRST,
            segment: NO_SEGMENT,
        }),
        None => Ok(()),
    }
}

/// The first round of a run, where [`judge`](crate::judge) says yes to it, is a run so far. A law: it changes nothing when it runs.
pub fn first_rounds_are_runs(
    config: &Config,
    ports: usize,
    segments: &[Segment],
    receipts: &[Receipt],
)
    ensures { (last : Stretch) → ServesRun config.now ports segments.now receipts.now → IsLastOf segments.now last
        → IsRunSoFar config.now ports last (length (entries_in segments.now)) }
{
    are_segments(segments);
}

/// A run so far goes on with each next round, to which [`judge_round`] says yes. A law: it changes nothing when it runs.
pub fn next_rounds_go_on(ports: usize, segments: &[Segment], receipts: &[Receipt])
    ensures { (config : Setup) (before last : Stretch) (count : ℕ) → IsRunSoFar config ports before count
        → IsNextRound before ports segments.now receipts.now → IsLastOf segments.now last
        → IsRunSoFar config ports last (count + length (entries_in segments.now)) }
{
    are_segments(segments);
}

/// The segments and receipts of a run, and those of its next round, are together those of one run of the router of this configuration.
/// A law: it changes nothing when it runs.
pub fn rounds_are_one_run(
    config: &Config,
    ports: usize,
    segments: &[Segment],
    receipts: &[Receipt],
    more: &[Segment],
    more_receipts: &[Receipt],
)
    ensures { (last : Stretch) → ServesRun config.now ports segments.now receipts.now → IsLastOf segments.now last
        → IsNextRound last ports more.now more_receipts.now
        → ServesRun config.now ports (segments.now ++ more.now) (receipts.now ++ more_receipts.now) }
{
    are_segments(segments);
    are_segments(more);
}
