//! What threads leave that feed a router.

use interface_workers::{Core, CoreName, Port, Receipt, Segment, Work, is_same_state};
use run_reconciler::reconcile;
use std::alloc::{AllocError, Global};
use std::sync::Wait;

/// Takes the entries of a router's journal by a port, and lets them go: how many there were. The only error is out of memory.
pub fn count_entries<L: CoreName, R: Wait + Drop>(
    rt: &R,
    alloc: Global,
    core: &Core<L, R>,
    port: &mut Port<L>,
) -> Result<usize, AllocError> {
    match core.rotate(rt, alloc, port) {
        Ok(segment) => Ok(segment.as_segment().entries().len()),
        Err(error) => Err(error),
    }
}

/// What threads that feed a router leave.
#[derive(Drop)]
pub struct Left {
    /// The receipts, those of each port in its order.
    pub receipts: Vec<Receipt>,
    /// The segments.
    pub segments: Vec<Segment>,
    /// Whether what the router knew at last is what the last segment ends with.
    pub is_end: bool,
    /// How many frames went on by their labels, or have arrived.
    pub forwarded: u64,
}

impl Left {
    /// Adds the work of a port. The only error is out of memory.
    fn add(&mut self, work: Work) -> Result<(), AllocError> {
        let Work {
            mut receipts,
            mut segments,
            tally,
            turns: _,
        } = work;
        self.forwarded = self.forwarded.saturating_add(tally.passed);
        self.receipts.append(&mut receipts)?;
        self.segments.append(&mut segments)?;
        Ok(())
    }

    /// Puts the last segment to the others, all in their order: by the number at their beginning, an empty one first. The only error is
    /// out of memory.
    fn put_last(&mut self, last: Segment) -> Result<(), AllocError> {
        self.segments.push(last)?;
        self.segments.sort_by_key(|segment| (segment.from().number(), segment.entries().len()))?;
        Ok(())
    }

    /// The works of all ports of a router, which is fed no more, with its last segment, all in their order. The only error is out of
    /// memory.
    pub fn gathered<L: CoreName, R: Wait + Drop>(
        rt: &R,
        alloc: Global,
        core: Core<L, R>,
        works: Vec<Result<Work, AllocError>>,
    ) -> Result<Left, AllocError> {
        let known = core.inspect(rt, alloc)?;
        let last = core.finish(alloc)?.last;
        let mut left = Left {
            receipts: Vec::new(alloc),
            segments: Vec::new(alloc),
            is_end: is_same_state(&known, last.end()),
            forwarded: 0,
        };
        for work in works {
            left.add(work?)?;
        }
        left.put_last(last)?;
        Ok(left)
    }

    /// Whether receipts and segments are those of one run.
    pub fn is_one_run(&self) -> bool {
        reconcile(self.segments.as_slice(), self.receipts.as_slice()).is_ok()
    }
}
