//! Routers that are fed.
ghost use Rattle.std.specs.Prelude.{◌≡◌, ◌≤◌};

use crate::fault::Fault;
use interface_workers::{CoreName, Opened, SegmentCount, open};
use lsr_config::Config;
use std::alloc::Global;
use std::sync::Wait;
use std::sync::ledger::Blank;

/// The configuration that a text says. The fault is out of memory: the text says one.
pub fn read_config(alloc: Global, text: &str) -> Result<Config, Fault> {
    match Config::read(alloc, text) {
        Ok(config) => Ok(config),
        Err(_) => Err(Fault::Memory),
    }
}

/// The router of this name and its configuration, with ports of the numbers 1 to `ports`, and as many readers of its label table: for
/// threads that feed it. The segments of its journal are counted. The fault is out of memory.
pub fn open_router<L: CoreName, R: Wait + Drop>(
    alloc: Global,
    rt: R,
    blank: Blank,
    config: Config,
    ports: u16,
) -> Result<Opened<L, R>, Fault>
    requires name { blank.name ≡ L.name }
    requires parts { blank.parts ≡ L.parts }
    requires config { config ≡ L.config }
    requires enough { ports ≤ blank.parts }
    requires readers { ports ≤ 64 }
{
    match open::<L, R, SegmentCount>(
        alloc,
        rt,
        blank,
        config,
        ports,
        ports as usize,
        SegmentCount::new(),
    ) {
        Ok(opened) => Ok(opened),
        Err(_) => Err(Fault::Memory),
    }
}
