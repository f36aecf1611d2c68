//! Who sits at a router that is served.

ghost use Rattle.lsr_rounds.specs.Attending.{IsAttended};
ghost use Rattle.lsr_serve.specs.Below.workers.Chains.{HasRoom};

use lsr_serve::PortCount;
use lsr_serve::workers::{Core, CoreName, Gate, KeepSegments, Port, Wire, Work};
use std::alloc::Global;
use std::sync::Wait;
use std::time::Clock;

/// Where an operator sits: the router that is served, the gate before it, and what is waited for and taken memory by.
#[derive(Drop)]
pub struct Desk<'a, L: CoreName, R: Wait + Drop, K: KeepSegments + Drop, T: Wait + Clock, G: Gate> {
    /// What it waits by, and whose clock it reads.
    pub rt: &'a T,
    /// What it takes memory by.
    pub alloc: Global,
    /// The router.
    pub core: &'a Core<L, R, K>,
    /// What stands before the router.
    pub gate: &'a G,
}

/// Who sits at a router that is served, on the thread that began the run, which may do what the others can't, as to write files.
pub trait Operator {
    /// Whether the run is to end.
    fn is_done(&self) -> bool;

    /// Does one thing that the router is asked for, where one is, or comes within so many milliseconds. It may feed one event, by the
    /// operator's own port; what is sent goes to the wire.
    fn attend<
        L: CoreName,
        R: Wait + Drop,
        K: KeepSegments + Drop,
        T: Wait + Clock,
        W: Wire,
        G: Gate,
    >(
        &mut self,
        desk: &Desk<'_, L, R, K, T, G>,
        port: &mut Port<L>,
        wire: &mut W,
        work: &mut Work,
        within_ms: u64,
    )
        requires { HasRoom work.old }
        ensures { IsAttended L.config work.old port.old.mark port.old.taken work.new port.new.mark port.new.taken };

    /// What is done after each moment of the clock.
    fn after_moment<L: CoreName, R: Wait + Drop, K: KeepSegments + Drop, T: Wait + Clock, G: Gate>(
        &mut self,
        desk: &Desk<'_, L, R, K, T, G>,
    );

    /// What is done when a round is over and reconciled: of each port how much it did in the round, in the order of the ports.
    fn after_round(&mut self, ports: &[PortCount]);
}
