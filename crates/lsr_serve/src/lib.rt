//! A router over sockets.
#![tactic(auto)]

mod read_ahead;
mod round_flag;
mod run;
mod serving;
mod sockets;
mod turns;
mod udp_wire;

pub use interface_workers as workers;
pub use interface_workers::{KeepSegments, NotKept, SegmentCount};
pub use lsr_config::LinkSockets;
pub use round_flag::RoundFlag;
pub use run::{
    BesideClock, ClockAlone, PortCount, RunReport, TICK_MS, Turned, Worker, add_finished,
    add_segment, add_turned, add_work, link_workers, run_worker, run_workers, serve_on,
};
pub use run_reconciler as reconciler;
pub use serving::{copy_config, serve_links, tell_end, tell_gap, tell_lost, tell_ports, tell_run};
pub use sockets::read_sockets;
pub use turns::{DEFAULT_TURNS, MAX_TURNS, read_turns};
pub use udp_wire::{LinkWire, ServeFault, SocketFault, UdpWire, open_clock_wire, open_wires};
