//! What is known of a run whose rounds are given up one after the other.
ghost use Rattle.std.specs.Prelude.{◌≡◌, ◌+◌, ℕ, IfSome, OnOk, length};
ghost use Rattle.lsr_config.specs.Configs.{Setup};
ghost use Rattle.lsr_serve.specs.Reports.{IsReportOf};
ghost use Rattle.lsr_rounds.specs.Ended.{IsJudged, IsRunOfRounds, IsSoFar};

use crate::fault::RunFault;
use lsr_config::Config;
use lsr_serve::reconciler::{Mismatch, judge, judge_round};
use lsr_serve::workers::{Segment, Tally};
use lsr_serve::{PortCount, RunReport};
use std::alloc::{AllocError, Global};
use std::mem;

/// A run so far: its last segment, how many entries its rounds had in all, and how much each port did. Everything else of a round is given
/// up when it is reconciled.
pub struct RunSoFar {
    /// The last segment of the last round; none before the first.
    pub last: Option<Segment>,
    /// How many entries there were.
    pub entries: u64,
    /// How many segments there were.
    pub segments: u64,
    /// How much each port did, in the order of the ports.
    pub ports: Vec<PortCount>,
}

/// Written out, so that it is dropped by one call, whatever it holds.
impl Drop for RunSoFar {
    fn drop(self) {
        let RunSoFar {
            last: _last,
            entries: _,
            segments: _,
            ports: _ports,
        } = self;
    }
}

/// How many entries a run has with those of this segment, its last. None where they are more than can be counted.
fn entries_with(last: &Segment) -> Option<u64>
    ensures { IfSome result (λ count. count ≡ last.now.from.number + length last.now.entries) }
{
    let before = last.from().number();
    before.checked_add(last.entries().len() as u64)
}

/// What was counted of both. What is too great to be counted stays at the most that can be.
fn added(before: Tally, more: Tally) -> Tally {
    Tally {
        datagrams: before.datagrams.saturating_add(more.datagrams),
        dropped: before.dropped.saturating_add(more.dropped),
        passed: before.passed.saturating_add(more.passed),
        fed: before.fed.saturating_add(more.fed),
        refused: before.refused.saturating_add(more.refused),
        lost: before.lost.saturating_add(more.lost),
        faults: before.faults.saturating_add(more.faults),
    }
}

/// How much the ports did in a round and in those before it, in their order.
fn add_ports(before: &mut Vec<PortCount>, more: &[PortCount]) -> Result<(), AllocError> {
    for (place, count) in more.iter().enumerate() {
        match before.get_mut(place) {
            Some(sum) => {
                sum.receipts = sum.receipts.saturating_add(count.receipts);
                sum.tally = added(sum.tally, count.tally);
            }
            None => before.push(*count)?,
        }
    }
    Ok(())
}

impl RunSoFar {
    /// Before the first round.
    pub fn new(alloc: Global) -> RunSoFar
        ensures { (c : Setup) → (ports : ℕ) → IsSoFar c ports result }
    {
        RunSoFar {
            last: None,
            entries: 0,
            segments: 0,
            ports: Vec::new(alloc),
        }
    }

    /// A mismatch of a round, by its place in the run: that among all receipts of its port, or the number of its segment among all.
    fn in_run(&self, of_round: Mismatch) -> Mismatch {
        let Mismatch {
            port,
            place,
            segment,
        } = of_round;
        if segment > 0 {
            return Mismatch {
                port,
                place,
                segment: self.segments.saturating_add(segment),
            };
        }
        let before = match usize::from(port).checked_sub(1) {
            Some(index) => match self.ports.get(index) {
                Some(count) => count.receipts as u64,
                None => 0,
            },
            None => 0,
        };
        Mismatch {
            port,
            place: before.saturating_add(place),
            segment,
        }
    }

    /// Whether a round goes on from this, as one run of the router of the configuration; else where in the run it doesn't.
    fn judge(&self, config: &Config, round: &RunReport) -> Result<(), Mismatch>
        ensures { OnOk result (IsJudged config.now (length round.now.ports.items) self.now round.now) }
    {
        let segments = round.segments.as_slice();
        let receipts = round.receipts.as_slice();
        let judged = match &self.last {
            None => judge(config, round.ports.len(), segments, receipts),
            Some(last) => judge_round(last, round.ports.len(), segments, receipts),
        };
        match judged {
            Ok(()) => Ok(()),
            Err(mismatch) => Err(self.in_run(mismatch)),
        }
    }

    /// Reconciles one more round, and gives up all of it but its last segment: how much each port did in it. The fault is that it doesn't go
    /// on from this as one run of the router of the configuration, told by its place in the run, or that memory ran out.
    pub fn add(&mut self, config: &Config, round: RunReport) -> Result<Vec<PortCount>, RunFault>
        requires { IsReportOf config.now round }
        ensures { IsSoFar config.now (length round.ports.items) self.old → OnOk result (IsRunOfRounds config.now (length round.ports.items) self.new) }
    {
        self.judge(config, &round)?;
        let mut round = round;
        let segments = round.segments.len() as u64;
        let Some(last) = round.segments.pop() else {
            return Err(RunFault::from(AllocError));
        };
        let Some(entries) = entries_with(&last) else {
            return Err(RunFault::from(AllocError));
        };
        add_ports(&mut self.ports, round.ports.as_slice())?;
        self.segments = self.segments.saturating_add(segments);
        self.entries = entries;
        self.last = Some(last);
        let none = Vec::new(*round.ports.allocator());
        Ok(mem::replace(&mut round.ports, none))
    }
}
