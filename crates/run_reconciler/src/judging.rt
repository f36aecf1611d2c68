//! Whether what a run left is one run of the router of its configuration.
ghost use Rattle.std.specs.Prelude.{◌≡◌, ◌↔◌, IfErr, IsTrue, MatchOption, OnOk, length};
ghost use Rattle.abstract_router.specs.Steps.{opening};
ghost use Rattle.run_journal.specs.Marks.{first_counts};
ghost use Rattle.run_reconciler.specs.Reconciled.{AreJoined, IsReconciled};
ghost use Rattle.run_reconciler.specs.Judged.{AreOfPorts, BeginsWith, IsNoRun, IsPort, IsStrange, IsStrayPort, ServesRun};

use crate::reconciling::{
    Mismatch, NO_PLACE, NO_PORT, NO_SEGMENT, reconcile, whole_journals_are_runs,
};
use journal_bytes::{Exact, is_same_router};
use lsr_config::Config;
use run_journal::{JournalCounts, Receipt, Segment};

/// The first place, and the first segment.
pub(crate) const FIRST: u64 = 1;

/// Whether a segment, before which there was no entry, begins with the router of the configuration as it is opened.
fn is_opening(config: &Config, first: &Segment) -> bool
    requires { first.now.from.number ≡ 0 }
    ensures { IsTrue result ↔ ((first.now.router ≡ config.now.router)
        × (first.now.base ≡ opening config.now.router config.now.routes config.now.tunnels config.now.bypasses)) }
{
    first.is_run();
    let known = &first.base().facts;
    is_same_router(first.router(), &config.router)
        && known.routes.is_same(&config.routes)
        && known.tunnels.is_same(&config.tunnels)
        && known.bypasses.is_same(&config.bypasses)
}

/// Whether these numbers, of a router in which no entry was made, are those of so many ports.
fn has_ports(from: &JournalCounts, ports: usize) -> bool
    requires { from.now ≡ first_counts (length from.now.marks) }
    ensures { IsTrue result ↔ (from.now ≡ first_counts ports) }
{
    from.marks().len() == ports
}

/// Whether a whole journal begins with the router of the configuration as it is opened, with so many ports.
fn begins_with(config: &Config, ports: usize, segments: &[Segment]) -> bool
    requires { AreJoined segments.now }
    ensures { IsTrue result ↔ BeginsWith config.now ports segments.now }
{
    match segments.first() {
        Some(first) => has_ports(first.from(), ports) && is_opening(config, first),
        None => false,
    }
}

/// Whether there is a port of this number, where there are so many.
fn is_port(ports: usize, port: u16) -> bool
    ensures { IsTrue result ↔ IsPort ports port }
{
    port >= 1 && port as usize <= ports
}

/// The port of the first receipt that is of none of so many ports.
pub(crate) fn stray_port(ports: usize, receipts: &[Receipt]) -> Option<u16>
    ensures { MatchOption result (AreOfPorts ports receipts.now) (IsStrayPort ports receipts.now) }
{
    for receipt in receipts {
        let port = receipt.mark().port;
        if !is_port(ports, port) {
            return Some(port);
        }
    }
    None
}

/// Whether segments and receipts of one run are those of the router of this configuration, which so many ports fed. Else why not, as
/// [`judge`] says.
fn judge_reconciled(
    config: &Config,
    ports: usize,
    segments: &[Segment],
    receipts: &[Receipt],
) -> Result<(), Mismatch>
    requires { IsReconciled segments.now receipts.now }
    ensures run { OnOk result (ServesRun config.now ports segments.now receipts.now) }
    ensures strange { IfErr result (IsStrange config.now ports segments.now receipts.now) }
{
    whole_journals_are_runs(segments);
    if !begins_with(config, ports, segments) {
        return Err(Mismatch {
            port: NO_PORT,
            place: NO_PLACE,
            segment: FIRST,
        });
    }
    match stray_port(ports, receipts) {
        Some(port) => Err(Mismatch {
            port,
            place: FIRST,
            segment: NO_SEGMENT,
        }),
        None => Ok(()),
    }
}

/// Whether segments and receipts are those of one run of the router of this configuration, which so many ports fed: they are
/// reconciled, the first segment begins with the router as it is opened, and each receipt is of one of the ports. Else why not: as
/// [`reconcile`] says; port 0, place 0 and segment 1 where the run isn't one of this configuration; the port of the first receipt that is
/// of none of the ports, and place 1. Takes no memory.
pub fn judge(
    config: &Config,
    ports: usize,
    segments: &[Segment],
    receipts: &[Receipt],
) -> Result<(), Mismatch>
    ensures run { OnOk result (ServesRun config.now ports segments.now receipts.now) }
    ensures mismatch { IfErr result (IsNoRun config.now ports segments.now receipts.now) }
{
    match reconcile(segments, receipts) {
        Ok(_) => judge_reconciled(config, ports, segments, receipts),
        Err(mismatch) => Err(mismatch),
    }
}
