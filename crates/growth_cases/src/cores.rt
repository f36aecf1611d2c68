//! A router under its lock, which two ports feed in turn.

ghost use Rattle.std.specs.Prelude.{◌≡◌};

use crate::bench::{Bench, MEMORY, NO_MEMORY, again};
use crate::calls::{Call, OneFrame, read_calls};
use crate::witness::Witness;
use forwarding_table::{Action, Forwarding};
use interface_workers::{
    Core, CoreName, CoreReader, OpenGate, Opened, Port, SegmentCount, Work, open, serve_link,
};
use label_stacks::stack_of;
use lsr_config::Config;
use std::alloc::{AllocError, Global};
use std::marker::Brand;
use std::sync::Wait;
use std::sync::ledger::Blank;
use std::{fs, io};

/// The cases: the name of each, the file of its configuration, and the file of its lines.
const CASES: [(&str, &str, &str); 4] = [
    ("repair-row16", "repair-row16.toml", "repair-row16.step"),
    ("capacity-row", "capacity-row.toml", "capacity-row.step"),
    ("merge-row", "merge-row.toml", "merge-row.step"),
    ("row15-classes", "row15-classes.toml", "row15-classes.step"),
];
/// How many ports feed the router.
const PORTS: u16 = 2;
/// After how many entries each the journal is rotated.
const SEGMENT_ENTRIES: usize = 2;
/// The label that a reader looks up.
const LABEL: u32 = 16;
/// The bytes of a stack of that label alone, which 64 routers may pass on.
const STACK: &[u8] = &[0, 1, 1, 64];
/// The tunnel that a reader looks up.
const TUNNEL: u16 = 100;

/// What a reader sees of the published table: what is done with the label, with the tunnel's traffic, and the link over which a frame
/// under the label goes on.
type Looked = (Option<Action>, Option<Action>, Option<u16>);

/// A router under its lock, with its ports and a reader of its label table, and the witness beside it.
#[derive(Drop)]
struct Site<'a, L: CoreName, R: Wait + Drop> {
    rt: &'a R,
    core: Core<L, R>,
    ports: Vec<Port<L>>,
    /// The reader, but while a worker has it.
    reader: Option<CoreReader<L>>,
    witness: Witness,
}

/// What the reader sees, which has to be as new as the ports' last entries.
fn seen_by<L: CoreName>(reader: &mut CoreReader<L>, ports: &[Port<L>]) -> Looked {
    for port in ports {
        reader.learn(port);
    }
    let link = match reader.forward(&stack_of(1, STACK)) {
        Ok(Forwarding::Send { link, stack: _ }) => Some(link),
        _ => None,
    };
    (
        reader.look(LABEL).unwrap_or(None),
        reader.look_tunnel(TUNNEL).unwrap_or(None),
        link,
    )
}

impl<'a, L: CoreName, R: Wait + Drop> Site<'a, L, R> {
    /// What the reader sees.
    fn look(&mut self, bench: &Bench<'_>) -> Looked {
        bench.mark(NO_MEMORY);
        let looked = match &mut self.reader {
            Some(reader) => seen_by(reader, self.ports.as_slice()),
            None => (None, None, None),
        };
        bench.mark(MEMORY);
        looked
    }

    /// Whether the core knows what the witness knows.
    fn is_same(&self, alloc: Global) -> Result<bool, AllocError> {
        let state = self.core.inspect(self.rt, alloc)?;
        self.witness.knows(alloc, &state)
    }

    /// Makes a call by the port whose turn it is, and gives what came of it. What is refused is taken for out of memory.
    fn call(&mut self, alloc: Global, call: &Call) -> Result<Work, AllocError> {
        let turn = self.witness.receipts.len() % PORTS as usize;
        let Some(port) = self.ports.get_mut(turn) else {
            return Err(AllocError);
        };
        let mut work = Work::new(alloc, 1)?;
        match call {
            Call::Feed(event) => match self.core.feed(self.rt, alloc, port, event) {
                Ok(receipt) => work.receipts.push(receipt.into_receipt())?,
                Err(_) => return Err(AllocError),
            },
            Call::Serve(link, frame) => {
                let reader = &mut self.reader;
                return serve(self.rt, alloc, &self.core, port, reader, *link, frame);
            }
            Call::Rotate => {
                let segment = self.core.rotate(self.rt, alloc, port)?;
                work.segments.push(segment.into_segment())?;
            }
        }
        Ok(work)
    }

    /// Tells it where the core doesn't know what the witness knows.
    fn expect_same(&self, bench: &mut Bench<'_>, what: &str) {
        let is_same = again!(self.is_same(bench.alloc), AllocError, {});
        bench.expect(what, is_same);
    }

    /// Tells it where a call that found no memory changed something.
    fn expect_kept(&mut self, bench: &mut Bench<'_>, before: Looked) {
        let is_seen = self.look(bench) == before;
        bench.expect("without memory a reader sees the same", Ok(is_seen));
        self.expect_same(bench, "without memory the core knows the same");
    }

    /// Makes a call, once more where it found no memory, and has the witness take what came of it.
    fn make(&mut self, bench: &mut Bench<'_>, call: &Call) -> Result<(), AllocError> {
        let before = self.look(bench);
        let work = again!(
            self.call(bench.alloc, call),
            AllocError,
            self.expect_kept(bench, before)
        )?;
        self.witness.take(bench, call, work)?;
        self.expect_same(bench, "the core made the same step");
        Ok(())
    }

    /// Makes the calls, and takes the entries away when there are enough, and in the end. The last segment is empty: its base is what
    /// is known then.
    fn make_all(&mut self, bench: &mut Bench<'_>, calls: &[Call]) -> Result<(), AllocError> {
        for call in calls {
            self.make(bench, call)?;
            if self.witness.receipts.len() / SEGMENT_ENTRIES > self.witness.segments.len() {
                self.make(bench, &Call::Rotate)?;
            }
        }
        self.make(bench, &Call::Rotate)?;
        self.make(bench, &Call::Rotate)
    }

    /// Ends the core, and tells whether what is left is one run. A core that finds no memory at its end is gone: its end is made once.
    fn close(self, bench: &mut Bench<'_>) {
        let Site {
            rt: _,
            core,
            ports: _ports,
            reader: _reader,
            witness,
        } = self;
        if let Ok(finished) = core.finish(bench.alloc) {
            let is_next = finished.kept == witness.segments.len() as u64 + 1;
            let is_empty = finished.last.entries().is_empty();
            bench.expect(
                "the core ends with an empty segment",
                Ok(is_next && is_empty),
            );
        }
        witness.tell_run(bench);
    }
}

/// A worker's turn by a port, in which this frame comes over the link. What is refused is taken for out of memory.
fn serve<L: CoreName, R: Wait + Drop>(
    rt: &R,
    alloc: Global,
    core: &Core<L, R>,
    port: &mut Port<L>,
    reader: &mut Option<CoreReader<L>>,
    link: u16,
    frame: &[u8],
) -> Result<Work, AllocError> {
    let Some(given) = reader.take() else {
        return Err(AllocError);
    };
    let mut wire = OneFrame { frame };
    let (given, work) = serve_link(rt, alloc, core, port, given, link, &mut wire, &OpenGate, 1);
    *reader = Some(given);
    match work {
        Ok(work) if work.tally.refused == 0 => Ok(work),
        _ => Err(AllocError),
    }
}

/// Makes the calls of a core of this name and configuration, and tells whether what is left is one run.
fn run_named<L: CoreName, R: Wait + Clone + Drop>(
    rt: &R,
    bench: &mut Bench<'_>,
    blank: Blank,
    config: Config,
    witness: Witness,
    calls: &[Call],
) -> io::Result<()>
    requires name { blank.name ≡ L.name }
    requires parts { blank.parts ≡ L.parts }
    requires config { config ≡ L.config }
    requires ports { blank.parts ≡ PORTS }
{
    let waits = rt.clone()?;
    let keeper = SegmentCount::new();
    let Ok(
        Opened {
            core,
            ports,
            mut readers,
        },
    ) = open::<L, R, SegmentCount>(bench.alloc, waits, blank, config, PORTS, 1, keeper)
    else {
        return Err(io::Error::from(io::ErrorKind::OutOfMemory));
    };
    let reader = readers.pop();
    let mut site = Site {
        rt,
        core,
        ports,
        reader,
        witness,
    };
    site.make_all(bench, calls)?;
    site.close(bench);
    Ok(())
}

/// The configuration that the text says.
fn read_config(alloc: Global, text: &str) -> io::Result<Config> {
    match Config::read(alloc, text) {
        Ok(config) => Ok(config),
        Err(_) => Err(io::Error::from(io::ErrorKind::InvalidData)),
    }
}

/// Runs the case of these files on a new core.
fn run_new<R: Wait + Clone + Drop>(
    rt: &R,
    bench: &mut Bench<'_>,
    config: &str,
    lines: &str,
) -> io::Result<()> {
    let text = fs::read_to_string(bench.rt, config)?;
    let lines = fs::read_to_string(bench.rt, lines)?;
    let calls = read_calls(bench.alloc, lines.as_str())?;
    let config = read_config(bench.alloc, text.as_str())?;
    let same = read_config(bench.alloc, text.as_str())?;
    let witness = Witness::open(bench.alloc, same, text)?;
    let blank = Blank::new(u64::from(PORTS));
    run_named::<Brand, R>(rt, bench, blank, config, witness, calls.as_slice())
}

/// Runs the cases, each on a core of its own, which is opened again where there was no memory for it.
pub fn run<R: Wait + Clone + Drop>(rt: &R, bench: &mut Bench<'_>) -> io::Result<()> {
    for (name, config, lines) in CASES {
        bench.tell("== workers ");
        bench.tell(name);
        bench.tell("\n");
        again!(run_new(rt, bench, config, lines), _, {})?;
    }
    Ok(())
}
