//! A router's links over sockets, in rounds.
ghost use Rattle.std.specs.Prelude.{◌≡◌, ◌+◌, ◌<◌, IfOk, OnOk, length};
ghost use Rattle.std.specs.Io.KnownBytes.{Appends};
ghost use Rattle.lsr_serve.specs.Told.{reconciled_text};
ghost use Rattle.lsr_rounds.specs.Ended.{IsRunOfRounds};

use crate::fault::RunFault;
use crate::operator::Operator;
use crate::round_keeper::RoundKeeper;
use crate::rounds::{RunEnd, serve_rounds};
use crate::so_far::RunSoFar;
use lsr_config::Config;
use lsr_serve::workers::{KeepSegments, OpenGate};
use lsr_serve::{
    LinkSockets, LinkWire, RoundFlag, ServeFault, UdpWire, open_clock_wire, open_wires,
};
use sorted_rows::Table;
use std::alloc::{AllocError, Global};
use std::io;
use std::io::Write;
use std::net::Net;
use std::sync::Wait;
use std::thread::Threads;
use std::time::Clock;

/// The same wires, which give nothing while the round is over. The only error is out of memory.
fn until_over<'a>(
    alloc: Global,
    wires: Vec<LinkWire<UdpWire<'a>>>,
    round: &'a RoundFlag,
) -> Result<Vec<LinkWire<UdpWire<'a>>>, AllocError>
    ensures { IfOk result (λ all. length all.items ≡ length wires.entry.items) }
{
    let mut all = Vec::with_capacity(alloc, wires.len())?;
    for link in wires {
        let LinkWire { number, wire } = link;
        all.push(LinkWire {
            number,
            wire: wire.until(round),
        })?;
    }
    Ok(all)
}

/// The sockets of a router's links, and the one from which the thread that began the run sends.
#[derive(Drop)]
pub struct OpenLinks<'a> {
    /// The links' wires.
    pub links: Vec<LinkWire<UdpWire<'a>>>,
    /// The wire by which the clock's port and the operator's send.
    pub wire: UdpWire<'a>,
    /// The round in which the wires wait.
    pub round: &'a RoundFlag,
}

/// Opens the sockets of these links, which wait for nothing while the round is over. The fault is that a socket can't be had, or that memory
/// ran out.
pub fn open_links<'a, R: Net>(
    net: &R,
    alloc: Global,
    links: &'a Table<u16, LinkSockets>,
    round: &'a RoundFlag,
) -> Result<OpenLinks<'a>, ServeFault>
    ensures { IfOk result (λ opened. length opened.links.items ≡ length links.now) }
{
    let wires = open_wires(net, alloc, links)?;
    let wire = open_clock_wire(net, links)?;
    let Ok(links) = until_over(alloc, wires, round) else {
        return Err(ServeFault::Memory);
    };
    Ok(OpenLinks { links, wire, round })
}

/// Serves the links of the router of a configuration over their sockets, in rounds, until the operator is done, as [`serve_rounds`] does. Who
/// keeps the journal is given each segment when it is taken, and comes back; the fault is also that a segment wasn't kept.
pub fn serve_links_until<
    R: Threads + Wait + Clock + Clone + Send + Sync + Drop,
    K: KeepSegments + Send + Drop,
    O: Operator,
>(
    rt: &R,
    alloc: Global,
    config: &Config,
    opened: OpenLinks<'_>,
    keeper: K,
    operator: &mut O,
) -> Result<RunEnd, RunFault>
    requires few { length opened.links.items < 62 }
    requires none { K.given keeper ≡ 0 }
    ensures { IfOk result (λ ended. IsRunOfRounds config.now (length opened.entry.links.items + 2) ended.run) }
{
    let OpenLinks { links, wire, round } = opened;
    let keeper = RoundKeeper::new(keeper, round);
    let (ended, _keeper) = serve_rounds(
        rt, alloc, config, links, wire, &OpenGate, round, keeper, operator,
    )?;
    if ended.kept != ended.run.segments {
        let number = ended.kept.saturating_add(1);
        return Err(RunFault::Serve(ServeFault::Unkept(number)));
    }
    Ok(ended)
}

/// Prints how many entries a run has whose rounds were reconciled. The error is the stream's.
pub fn tell_reconciled<W: Write>(run: &RunSoFar, output: &mut W) -> io::Result<()>
    ensures { OnOk result (Appends (W.contents output.old) (W.contents output.new) (reconciled_text run.now.entries)) }
{
    write!(output, "reconciled {} entries\n", run.entries)
}
