//! How many look-ups of labels there are a second, in a published table and in a bare array.
ghost use Rattle.std.specs.Prelude.{◌≡◌, ◌≤◌, [], IfOk};
ghost use Rattle.lookup_plane.specs.Changes.{IsChangeOf};
ghost use Rattle.lsr_bench.specs.declared.lookups.TheConstants.{FIRST_LABEL, LAST_LABEL};

use crate::measuring::{nanos_since, per_second, tell};
use forwarding_table::Action;
use lookup_plane::{LookupReader, MAX_LABELS, OpenFault, Plane, TableChange};
use sorted_rows::Table;
use std::alloc::{AllocError, Global};
use std::sync::Wait;
use std::sync::atomic::{AtomicBool, Ordering};
use std::thread;
use std::thread::Threads;
use std::time::Instant;
use worker_cases::{Fault, OUT_LINK};

/// The first label of the range that is looked up.
const FIRST_LABEL: u32 = 16;
/// The last one: 4,096 labels in all.
const LAST_LABEL: u32 = FIRST_LABEL + MAX_LABELS - 1;
/// How far it is from one label that is looked up to the next, round and round: it comes to all of them.
const STRIDE: u32 = 1_657;
/// What is done with each label.
const SWAP: Action = Action::Swap {
    label: 100,
    link: OUT_LINK,
};

/// The most readers at once.
const MOST_READERS: usize = 4;
/// How many changes are published where nobody reads.
const CHANGES_ALONE: u32 = 100_000;
/// How many labels a burst looks up at once: as many as packets in a vector of forwarders that work in bursts.
const BURST: u32 = 256;
/// A look-up that takes more nanoseconds than these is long.
const LONG_NANOS: u64 = 10_000;
/// How many labels are looked up at once, and what is printed for it.
const WAYS: [(u32, &str); 2] = [(1, "single look-ups"), (BURST, "look-ups in bursts of 256")];

/// The label that is looked up in this turn.
fn label_in(turn: u32) -> u32
    ensures { (FIRST_LABEL ≤ result) × (result ≤ LAST_LABEL) }
{
    FIRST_LABEL + turn.wrapping_mul(STRIDE) % MAX_LABELS
}

/// What is done again and again.
trait Measured {
    /// Does it once. Of what it gives the sum is told.
    fn once(&mut self, alloc: Global) -> Result<u64, Fault>;
}

/// The writer of a table, of which all that it took in is published.
#[derive(Drop)]
struct Writer<R: Wait + Drop> {
    plane: Plane<R>,
    turn: u32,
    ghost first: { plane.first_label ≡ FIRST_LABEL },
    ghost last: { plane.last_label ≡ LAST_LABEL },
    ghost pending: { plane.pending ≡ [] },
}

/// The change by which a label is swapped. The only error is out of memory.
fn swap_of(alloc: Global, label: u32) -> Result<TableChange, AllocError>
    requires { (FIRST_LABEL ≤ label) × (label ≤ LAST_LABEL) }
    ensures { IfOk result (IsChangeOf FIRST_LABEL LAST_LABEL) }
{
    let rows = Vec::from_array(alloc, [(label, Some(SWAP))])?;
    Ok(TableChange {
        cleared: false,
        labels: Table::from_rows(rows),
        tunnels: Table::new(alloc),
    })
}

impl<R: Wait + Drop> Measured for Writer<R> {
    /// Publishes that one label more is swapped. It waits for readers that still read what was shown before the last change.
    fn once(&mut self, alloc: Global) -> Result<u64, Fault> {
        let change = swap_of(alloc, label_in(self.turn))?;
        self.turn = self.turn.wrapping_add(1);
        if self.plane.published_count() < u64::MAX && self.plane.append(change).is_ok() {
            self.plane.publish();
            return Ok(1);
        }
        Err(Fault::Memory)
    }
}

/// A table in which each label is swapped, and so many readers of it.
fn open<R: Wait + Clone + Drop>(
    alloc: Global,
    handles: &R,
    readers: usize,
) -> Result<(Writer<R>, Vec<LookupReader>), Fault>
    requires { readers ≤ 64 }
{
    let (plane, readers) = match Plane::new(
        alloc,
        handles.clone()?,
        FIRST_LABEL,
        LAST_LABEL,
        readers,
    ) {
        Ok(opened) => opened,
        Err(OpenFault::Memory) => return Err(Fault::Memory),
        Err(OpenFault::Reader) => return Err(Fault::Reader),
    };
    let mut writer = Writer { plane, turn: 0 };
    for _ in FIRST_LABEL..=LAST_LABEL {
        writer.once(alloc)?;
    }
    Ok((writer, readers))
}

/// A reader of a published table. It is away only while it reads.
#[derive(Drop)]
struct Reader {
    reader: Option<LookupReader>,
    turn: u32,
    burst: u32,
}

impl Measured for Reader {
    /// Looks the labels of a burst up, all by what the table shows at one moment: the sum of the links that frames would leave by.
    fn once(&mut self, _alloc: Global) -> Result<u64, Fault> {
        let Some(reader) = self.reader.take() else {
            return Err(Fault::Reader);
        };
        let Ok(lookups) = reader.enter() else {
            return Err(Fault::Reader);
        };
        let first = self.turn;
        self.turn = first.wrapping_add(self.burst);
        let mut links = 0_u64;
        for place in 0..self.burst {
            let label = label_in(first.wrapping_add(place));
            if let Some(Action::Swap { label: _, link }) = lookups.look(label) {
                links = links.wrapping_add(u64::from(link));
            }
        }
        self.reader = Some(lookups.leave());
        Ok(links)
    }
}

/// A reader of actions in a bare array, that of the first label first.
#[derive(Clone, Copy)]
struct Bare<'a> {
    actions: &'a [Option<Action>],
    turn: u32,
    burst: u32,
}

impl<'a> Measured for Bare<'a> {
    /// Looks the labels of a burst up: the sum of the links that frames would leave by.
    fn once(&mut self, _alloc: Global) -> Result<u64, Fault> {
        let first = self.turn;
        self.turn = first.wrapping_add(self.burst);
        let mut links = 0_u64;
        for place in 0..self.burst {
            let at = label_in(first.wrapping_add(place)) - FIRST_LABEL;
            if let Some(Some(Action::Swap { label: _, link })) = self.actions.get(at as usize) {
                links = links.wrapping_add(u64::from(*link));
            }
        }
        Ok(links)
    }
}

/// What readers do: how many labels each looks up at once, in how many rounds, and how many labels in each.
#[derive(Clone, Copy)]
struct Looks {
    burst: u32,
    rounds: u32,
    labels: u32,
}

/// What rounds of calls gave, and how long they took.
#[derive(Clone, Copy)]
struct Pace {
    /// The sum of what calls gave.
    sum: u64,
    /// How many labels they looked up.
    labels: u64,
    /// How many nanoseconds all rounds took, and how many the longest of them.
    nanos: u64,
    longest: u64,
    /// How many rounds took over 10 microseconds.
    long: u64,
    /// How many look-ups there were a second.
    rate: u64,
}

impl Pace {
    /// No round yet.
    const NONE: Pace = Pace {
        sum: 0,
        labels: 0,
        nanos: 0,
        longest: 0,
        long: 0,
        rate: 0,
    };
}

/// Makes rounds of calls, each round between two readings of the clock.
fn time_rounds<M: Measured>(
    rt: &HostRuntime,
    measured: &mut M,
    looks: Looks,
) -> Result<Pace, Fault> {
    let mut pace = Pace::NONE;
    let calls = looks.labels / looks.burst.max(1);
    for _ in 0..looks.rounds {
        let start = Instant::now(rt)?;
        for _ in 0..calls {
            pace.sum = pace.sum.wrapping_add(measured.once(rt.alloc())?);
        }
        let nanos = nanos_since(rt, start)?;
        pace.nanos = pace.nanos.saturating_add(nanos);
        pace.longest = pace.longest.max(nanos);
        if nanos > LONG_NANOS {
            pace.long = pace.long.saturating_add(1);
        }
    }
    pace.labels = u64::from(calls) * u64::from(looks.burst);
    pace.labels = pace.labels.saturating_mul(u64::from(looks.rounds));
    pace.rate = per_second(pace.labels, pace.nanos);
    Ok(pace)
}

/// The pace of one thread for each of these, all of which have to have found each label.
fn look_by<R: Threads + Sync, T: Measured + Send + Drop>(
    rt: &HostRuntime,
    handles: &R,
    tables: Vec<T>,
    looks: Looks,
) -> Result<Pace, Fault> {
    let all = thread::map_vec(
        handles,
        tables,
        &|table: T| {
            let mut table = table;
            time_rounds(rt, &mut table, looks)
        },
    )?;
    let mut pace = Pace::NONE;
    for one in all.as_slice() {
        match one {
            Ok(one) if one.sum == one.labels.saturating_mul(u64::from(OUT_LINK)) => {
                pace.rate = pace.rate.saturating_add(one.rate);
                pace.longest = pace.longest.max(one.longest);
                pace.long = pace.long.saturating_add(one.long);
            }
            Ok(_) => return Err(Fault::NotFound),
            Err(fault) => return Err(*fault),
        }
    }
    Ok(pace)
}

/// How many changes a second are published until it is done.
fn publish_until<R: Wait + Drop>(
    rt: &HostRuntime,
    writer: &mut Writer<R>,
    is_done: &AtomicBool,
) -> Result<u64, Fault> {
    let mut changes = 0_u64;
    let start = Instant::now(rt)?;
    for _ in 0..u64::MAX {
        if is_done.load(Ordering::SeqCst) {
            break;
        }
        changes = changes.saturating_add(writer.once(rt.alloc())?);
    }
    Ok(per_second(changes, nanos_since(rt, start)?))
}

/// The pace of so many readers of a table, and how many changes a second its writer publishes beside them: all the time, or none.
fn look<R: Threads + Wait + Clone + Send + Sync + Drop>(
    rt: &HostRuntime,
    handles: &R,
    readers: usize,
    looks: Looks,
    is_beside: bool,
) -> Result<(Pace, u64), Fault>
    requires { readers ≤ 64 }
{
    let (mut writer, readers) = match open(rt.alloc(), handles, readers) {
        Ok(opened) => opened,
        Err(fault) => return Err(fault),
    };
    let readers = readers
        .into_iter()
        .map(|reader| Reader {
            reader: Some(reader),
            turn: 0,
            burst: looks.burst,
        })
        .collect(rt.alloc())?;
    let is_done = AtomicBool::new(!is_beside);
    let (pace, changes) = thread::join(
        handles,
        || {
            let pace = look_by(rt, handles, readers, looks);
            is_done.store(true, Ordering::SeqCst);
            pace
        },
        || publish_until(rt, &mut writer, &is_done),
    );
    Ok((pace?, changes?))
}

/// Prints how many look-ups a second so many readers make without a writer, beside one, and in a bare array that they share.
fn measure_readers<R: Threads + Wait + Clone + Send + Sync + Drop>(
    rt: &HostRuntime,
    handles: &R,
    readers: usize,
    looks: Looks,
    words: &str,
) -> Result<(), Fault>
    requires { readers ≤ 64 }
{
    let alloc = rt.alloc();
    let (alone, _) = look(rt, handles, readers, looks, false)?;
    let (beside, changes) = look(rt, handles, readers, looks, true)?;
    let actions = vec![in alloc; Some(SWAP); MAX_LABELS as usize]?;
    let bare = Bare {
        actions: actions.as_slice(),
        turn: 0,
        burst: looks.burst,
    };
    let bare = look_by(rt, handles, vec![in alloc; bare; readers]?, looks)?;
    let numbers = [
        readers as u64,
        alone.rate,
        beside.rate,
        beside.rate.saturating_mul(100) / alone.rate.max(1),
        changes,
        bare.rate,
        beside.rate.saturating_mul(100) / bare.rate.max(1),
    ];
    let line =
        "readers #: # @ a second without a writer, # (#%) beside one that publishes # changes a second; # in a bare array, of which that is #%";
    tell(rt, line, &[words], &numbers)?;
    Ok(())
}

/// Measures look-ups, each reader of which makes so many.
pub(crate) fn measure_lookups<R: Threads + Wait + Clone + Send + Sync + Drop>(
    rt: &HostRuntime,
    handles: &R,
    count: u32,
) -> Result<(), Fault> {
    let (mut writer, _readers) = match open(rt.alloc(), handles, 0) {
        Ok(opened) => opened,
        Err(fault) => return Err(fault),
    };
    let looks = Looks {
        burst: 1,
        rounds: 1,
        labels: CHANGES_ALONE,
    };
    let changes = time_rounds(rt, &mut writer, looks)?;
    tell(rt, "readers 0: # changes a second", &[], &[changes.rate])?;
    for readers in 1..=MOST_READERS {
        for (burst, words) in WAYS {
            let looks = Looks {
                burst,
                rounds: 1,
                labels: count,
            };
            measure_readers(rt, handles, readers, looks, words)?;
        }
    }
    Ok(())
}

/// Measures the longest of so many look-ups beside a writer, and of as many pairs of readings of the clock with nothing between.
pub(crate) fn measure_longest<R: Threads + Wait + Clone + Send + Sync + Drop>(
    rt: &HostRuntime,
    handles: &R,
    count: u32,
) -> Result<(), Fault> {
    let looks = Looks {
        burst: 1,
        rounds: count,
        labels: 1,
    };
    let (pace, _) = look(rt, handles, 1, looks, true)?;
    let mut nothing = Bare {
        actions: &[],
        turn: 0,
        burst: 0,
    };
    let clock = time_rounds(rt, &mut nothing, looks)?;
    let numbers = [
        u64::from(count),
        pace.longest,
        pace.long,
        clock.longest,
        clock.long,
    ];
    let line =
        "longest of # look-ups beside a writer: # ns, # took over 10000 ns; of as many pairs of readings of the clock: # ns, # took over 10000 ns";
    tell(rt, line, &[], &numbers)?;
    Ok(())
}

/// Looks labels up in both ways beside a writer, so many by each reader, and prints that each was found.
pub(crate) fn count_lookups<R: Threads + Wait + Clone + Send + Sync + Drop>(
    rt: &HostRuntime,
    handles: &R,
    count: u32,
) -> Result<(), Fault> {
    for (burst, words) in WAYS {
        let looks = Looks {
            burst,
            rounds: 1,
            labels: count,
        };
        look(rt, handles, MOST_READERS, looks, true)?;
        let numbers = [MOST_READERS as u64, u64::from(count)];
        let line = "lookups: # readers found each label, # @ by each";
        tell(rt, line, &[words], &numbers)?;
    }
    Ok(())
}
