//! A router in one thread, which makes the steps that a core has to make, and what the core leaves.

ghost use Rattle.std.specs.Option.{IfSome};
ghost use Rattle.router_core.specs.Readies.{IsReady};

use crate::bench::{Bench, MEMORY, NO_MEMORY, again};
use crate::calls::Call;
use abstract_paths::Event;
use interface_workers::{Receipt, Segment, Work, is_same_state};
use journal_bytes::{are_same_items, written_frames};
use lsr_config::Config;
use lsr_facts::{Refusal, State};
use lsr_journal::write_segment;
use router_core::{Datagram, Machine, Ready};
use run_reconciler::reconcile;
use std::alloc::{AllocError, Global};

/// The most receipts, and the most segments, of a case.
const MOST: usize = 32;

/// A router in one thread, which makes the steps that a core has to make, and what the core leaves.
#[derive(Drop)]
pub struct Witness {
    /// The text of the configuration.
    text: String,
    machine: Machine,
    /// The receipts, those of each port in their order.
    pub receipts: Vec<Receipt>,
    /// The segments, in their order.
    pub segments: Vec<Segment>,
}

/// Whether a receipt says the step that is made ready.
fn is_told(alloc: Global, ready: &Ready, receipt: &Receipt) -> Result<bool, AllocError> {
    let frames = written_frames(alloc, ready.outputs())?;
    Ok(
        ready.reply() == receipt.reply()
            && are_same_items(frames.as_slice(), receipt.outputs().as_slice()),
    )
}

/// What is ready for an event: none where it is refused twice.
fn ready_for(machine: &Machine, alloc: Global, event: &Event) -> Option<Ready>
    ensures { IfSome result (IsReady machine.now event.now) }
{
    match machine.ready(alloc, event) {
        Ok(ready) => Some(ready),
        Err(_) => machine.ready(alloc, event).ok(),
    }
}

impl Witness {
    /// The router of a configuration, whose text this is, with room for what a core leaves. The only error is out of memory.
    pub fn open(alloc: Global, config: Config, text: String) -> Result<Witness, AllocError> {
        Ok(Witness {
            text,
            machine: Machine::open(alloc, config)?,
            receipts: Vec::with_capacity(alloc, MOST)?,
            segments: Vec::with_capacity(alloc, MOST)?,
        })
    }

    /// Whether this router knows the same. The only error is out of memory.
    pub fn knows(&self, alloc: Global, state: &State) -> Result<bool, AllocError> {
        Ok(is_same_state(&self.machine.export(alloc)?, state))
    }

    /// The event that a frame is; none where it is passed on.
    fn read(&self, alloc: Global, link: u16, frame: &[u8]) -> Option<Event> {
        match again!(self.machine.read(alloc, link, frame), Refusal::NoMemory, {}) {
            Ok(Datagram::Event(event)) => Some(event),
            _ => None,
        }
    }

    /// Makes the step of an event, and compares it with the core's receipt.
    fn step(&mut self, bench: &mut Bench<'_>, event: &Event, receipt: &Receipt) {
        let Some(ready) = ready_for(&self.machine, bench.alloc, event) else {
            bench.tell("refused\n");
            return;
        };
        let is_same = again!(is_told(bench.alloc, &ready, receipt), AllocError, {});
        bench.expect("the receipt says the same step", is_same);
        bench.mark(NO_MEMORY);
        self.machine.make(bench.alloc, ready);
        bench.mark(MEMORY);
    }

    /// Tells of a receipt that a call gave, makes the same step, and keeps the receipt.
    fn follow(
        &mut self,
        bench: &mut Bench<'_>,
        call: &Call,
        receipt: Receipt,
    ) -> Result<(), AllocError> {
        let mark = receipt.mark();
        let sent = receipt.outputs().as_slice().len() as u64;
        let port = u64::from(mark.port);
        bench.tell_filled(
            "port #: place # entry # published #, # frames\n",
            &[port, mark.place, mark.entry, mark.published, sent],
        );
        match call {
            Call::Feed(event) => self.step(bench, event, &receipt),
            Call::Serve(link, frame) => {
                if let Some(event) = self.read(bench.alloc, *link, frame.as_slice()) {
                    self.step(bench, &event, &receipt);
                }
            }
            Call::Rotate => bench.tell("no entry is due\n"),
        }
        Ok(self.receipts.push(receipt)?)
    }

    /// Writes the file of a segment, tells of both, and keeps the segment.
    fn keep(&mut self, bench: &mut Bench<'_>, segment: Segment) -> Result<(), AllocError> {
        let mut file = Vec::new(bench.alloc);
        again!(
            write_segment(self.text.as_str(), &segment, &mut file),
            AllocError,
            bench.expect("without memory no file is begun", Ok(file.is_empty()))
        )?;
        let entries = segment.entries().len() as u64;
        let from = segment.from();
        bench.tell_filled(
            "segment: # entries after #, # published\nfile: # bytes\n",
            &[entries, from.number(), from.published(), file.len() as u64],
        );
        Ok(self.segments.push(segment)?)
    }

    /// Tells what a call gave, makes the same steps, and keeps it. The only error is that memory ran out twice.
    pub fn take(
        &mut self,
        bench: &mut Bench<'_>,
        call: &Call,
        work: Work,
    ) -> Result<(), AllocError> {
        let Work {
            receipts,
            segments,
            tally,
            turns: _,
        } = work;
        if tally.passed > 0 {
            bench.tell("passed on\n");
        }
        for receipt in receipts {
            self.follow(bench, call, receipt)?;
        }
        for segment in segments {
            self.keep(bench, segment)?;
        }
        Ok(())
    }

    /// Tells whether receipts and segments are those of one run.
    pub fn tell_run(&self, bench: &Bench<'_>) {
        bench.mark(NO_MEMORY);
        let answer = reconcile(self.segments.as_slice(), self.receipts.as_slice());
        bench.mark(MEMORY);
        bench.tell(match answer {
            Ok(_) => "one run\n",
            Err(_) => "no run\n",
        });
    }
}
