//! How long steps of one router take, which is fed by one thread.

use crate::measuring::{nanos_since, tell};
use lsr_config::BUILT_IN;
use lsr_facts::{Reply, WORST_PRIORITY};
use router_core::{Event, Machine, Served};
use std::alloc::Global;
use std::time::Instant;
use worker_cases::{
    Fault, IN_LINK, OUT_LINK, PATH_FRAME, RESV_FRAME, TEAR_FRAME, about_tunnel, put_bytes,
    read_config,
};

/// The most LSPs that a router knows.
const MOST_LSPS: u16 = 1_024;
/// The sizes of router at which each step is measured, in LSPs.
const SIZES: [u16; 3] = [1, 64, MOST_LSPS];
/// How often what a router does once is measured; the shortest time is told.
const RUNS: u32 = 8;
/// The refresh period of the built-in router, in milliseconds.
const REFRESH_MS: u64 = 30_000;
/// A time in which all that came has expired: three refresh periods and a half, and half as much again (RFC 2205, 3.7), and more.
const LIFETIME_MS: u64 = 200_000;

/// The limit of the built-in router's links, in its configuration.
const ITS_LIMIT: &str = "limit = 1250000";
/// A limit for as many LSPs as a router knows, each of which takes 125,000 bytes a second: 128,000,000.
const ROOMY_LIMIT: &str = "limit = 128000000";
/// A way round link 2, over link 3, and the tunnel that it runs in.
const A_BYPASS: &str = r#"
[[link]]
number = 3
address = "10.3.0.2"
peer = "10.3.0.5"
peer_router = "10.0.0.5"
limit = 128000000

[[tunnel]]
number = 2000
endpoint = "10.0.0.4"
route = ["10.0.0.5/32", "10.0.0.4/32"]
rate = "47f42400"
setup = 7
hold = 7
flags = 0
name = "round"

[[bypass]]
number = 1
tunnel = 2000
link = 2
"#;
/// The link of the bypass.
const ROUND_LINK: u16 = 3;
/// The Resv of the bypass's tunnel, without a checksum.
const ROUND_FRAME: &[u8] = b"\x01\x10\x02\x00\x00\xff\x00\x00\x6c\x00\x10\x01\x07\x0a\x00\x00\
\x04\x00\x00\x07\xd0\x0a\x00\x00\x02\x00\x0c\x03\x01\x0a\x03\x00\
\x05\x00\x00\x00\x03\x00\x08\x05\x01\x00\x00\x75\x30\x00\x08\x08\
\x01\x00\x00\x00\x12\x00\x24\x09\x02\x00\x00\x00\x07\x05\x00\x00\
\x06\x7f\x00\x00\x05\x47\xf4\x24\x00\x47\xf4\x24\x00\x7f\x80\x00\
\x00\x00\x00\x00\x40\x00\x00\x05\xdc\x00\x0c\x0a\x07\x0a\x00\x00\
\x02\x00\x00\x00\x01\x00\x08\x10\x01\x00\x00\x01\xf4";

/// The place of the number of its tunnel in each frame of a message.
const TUNNEL_AT: usize = 19;
/// The place of the priorities in [`PATH_FRAME`], setup before holding.
const PRIORITIES_AT: usize = 85;
/// The best ones.
const BEST: [u8; 2] = [0, 0];
/// The place of the flags there.
const FLAGS_AT: usize = 87;
/// The flags that ask for protection of the link, and for a record with labels (RFC 3209, 4.7.2).
const PROTECTED: [u8; 1] = [0x17];
/// The place of the rate of the token bucket in [`RESV_FRAME`], and of its size.
const RATE_AT: usize = 69;

const SIZE_AT: usize = 73;
/// The word in which a message has a rate of 128,000,000 bytes a second, that of 1,024 LSPs (RFC 2210, 3).
const WHOLE_RATE: [u8; 4] = [0x4c, 0xf4, 0x24, 0x00];
/// Bytes that are no frame: the kind is unknown.
const JUNK: &[u8] = b"\x07junk";

/// What comes to a router.
#[derive(Clone, Copy)]
enum Input {
    /// The Path of an LSP.
    Path,
    /// Its Resv.
    Resv,
    /// Its PathTear.
    Tear,
    /// Bytes that are no frame.
    Junk,
    /// The end of so many milliseconds.
    Pass(u64),
    /// Link 2 goes down, on which all are reserved.
    Down,
}

/// How the LSPs are set up before.
#[derive(Clone, Copy)]
enum Setting {
    /// All are reserved.
    Reserved,
    /// All are protected by a bypass.
    Protected,
    /// The Resv of the last one is awaited, for which all others have to give way.
    Awaited,
}

/// What is printed for a step of a router, or for three; what comes; how its LSPs are set up before; and whether it is taken again and
/// again, with one LSP after the other, or once, with all of them.
type Step = (&'static str, &'static [Input], Setting, bool);

/// The steps that are measured.
const STEPS: [Step; 9] = [
    ("a Path again", &[Input::Path], Setting::Reserved, true),
    ("a Resv again", &[Input::Resv], Setting::Reserved, true),
    (
        "a PathTear, a Path and a Resv",
        &[Input::Tear, Input::Path, Input::Resv],
        Setting::Reserved,
        true,
    ),
    (
        "an idle millisecond",
        &[Input::Pass(1)],
        Setting::Reserved,
        true,
    ),
    ("junk", &[Input::Junk], Setting::Reserved, true),
    (
        "all are refreshed",
        &[Input::Pass(REFRESH_MS)],
        Setting::Reserved,
        false,
    ),
    (
        "link down, all are reserved on it",
        &[Input::Down],
        Setting::Reserved,
        false,
    ),
    (
        "link down, all are repaired",
        &[Input::Down],
        Setting::Protected,
        false,
    ),
    (
        "a Resv takes all others",
        &[Input::Resv],
        Setting::Awaited,
        false,
    ),
];

/// What a router replies to a frame that comes over a link, and how many frames it sends; none where it takes nothing.
fn reply_to(alloc: Global, router: &mut Machine, link: u16, frame: &[u8]) -> Option<(Reply, u64)> {
    match &router.serve_datagram(alloc, link, frame) {
        Ok(Served::Made(made)) => Some((made.reply, made.outputs.as_slice().len() as u64)),
        _ => None,
    }
}

/// A frame comes over a link, about the tunnel of this number, and is done: how many frames that sends.
fn feed(
    alloc: Global,
    router: &mut Machine,
    link: u16,
    frame: &mut Vec<u8>,
    tunnel: u16,
) -> Result<u64, Fault> {
    put_bytes(frame, TUNNEL_AT, &tunnel.to_be_bytes());
    match reply_to(alloc, router, link, frame.as_slice()) {
        Some((Reply::Done, sent)) => Ok(sent),
        _ => Err(Fault::NotTaken),
    }
}

/// A router, and the frames that come to it. Each frame is put about the LSP that it comes of.
#[derive(Drop)]
struct Fed {
    router: Machine,
    path: Vec<u8>,
    resv: Vec<u8>,
    tear: Vec<u8>,
    /// How many LSPs it is fed.
    lsps: u16,
    /// The tunnel of the LSP of which something came last.
    tunnel: u16,
    moment: u64,
}

impl Fed {
    /// The router of the built-in configuration with room for all LSPs, and with more of this text, that is to be fed so many.
    fn new(alloc: Global, more: &str, lsps: u16) -> Result<Fed, Fault> {
        let roomy = BUILT_IN.replace(alloc, ITS_LIMIT, ROOMY_LIMIT)?;
        let text = format!(in alloc; "{roomy}{more}")?;
        Ok(Fed {
            router: Machine::open(alloc, read_config(alloc, text.as_str())?)?,
            path: about_tunnel(alloc, PATH_FRAME, 1)?,
            resv: about_tunnel(alloc, RESV_FRAME, 1)?,
            tear: about_tunnel(alloc, TEAR_FRAME, 1)?,
            lsps,
            tunnel: 0,
            moment: 0,
        })
    }

    /// A router to which the Path and the Resv of so many LSPs came. Where a bypass protects them there is one less, whose place its tunnel
    /// has. Where the last Resv is awaited, it didn't come; its LSP is set up and held at the best priority, and takes all that may be reserved.
    fn open(alloc: Global, setting: Setting, lsps: u16) -> Result<Fed, Fault> {
        let (more, lsps) = match setting {
            Setting::Protected => (A_BYPASS, lsps.min(MOST_LSPS - 1)),
            _ => ("", lsps),
        };
        let mut fed = Fed::new(alloc, more, lsps)?;
        if matches!(setting, Setting::Protected) {
            put_bytes(&mut fed.path, FLAGS_AT, &PROTECTED);
            fed.take(alloc, Input::Pass(1))?;
            reply_to(alloc, &mut fed.router, ROUND_LINK, ROUND_FRAME);
        }
        for tunnel in 1..=lsps {
            fed.tunnel = tunnel;
            if tunnel == lsps && matches!(setting, Setting::Awaited) {
                put_bytes(&mut fed.path, PRIORITIES_AT, &BEST);
                put_bytes(&mut fed.resv, RATE_AT, &WHOLE_RATE);
                put_bytes(&mut fed.resv, SIZE_AT, &WHOLE_RATE);
                fed.take(alloc, Input::Path)?;
                fed.tunnel = tunnel.saturating_sub(1);
            } else {
                fed.take(alloc, Input::Path)?;
                fed.take(alloc, Input::Resv)?;
            }
        }
        Ok(fed)
    }

    /// This comes, and is done: how many frames that sends.
    fn take(&mut self, alloc: Global, input: Input) -> Result<u64, Fault> {
        let tunnel = self.tunnel;
        let router = &mut self.router;
        let event = match input {
            Input::Path => return feed(alloc, router, IN_LINK, &mut self.path, tunnel),
            Input::Resv => return feed(alloc, router, OUT_LINK, &mut self.resv, tunnel),
            Input::Tear => return feed(alloc, router, IN_LINK, &mut self.tear, tunnel),
            Input::Junk => match reply_to(alloc, router, IN_LINK, JUNK) {
                Some(_) => return Err(Fault::NotTaken),
                None => return Ok(0),
            },
            Input::Pass(milliseconds) => {
                self.moment = self.moment.saturating_add(milliseconds);
                Event::Tick(self.moment)
            }
            Input::Down => Event::LinkDown(OUT_LINK),
        };
        match &router.serve_event(alloc, event) {
            Ok(made) if matches!(made.reply, Reply::Done) => {
                Ok(made.outputs.as_slice().len() as u64)
            }
            _ => Err(Fault::NotTaken),
        }
    }

    /// So many times all of this comes, of one LSP after the other: how many frames that sends.
    fn take_all(&mut self, alloc: Global, inputs: &[Input], calls: u32) -> Result<u64, Fault> {
        let mut sent = 0_u64;
        for _ in 0..calls {
            self.tunnel = if self.tunnel < self.lsps {
                self.tunnel + 1
            } else {
                1
            };
            for input in inputs {
                sent = sent.saturating_add(self.take(alloc, *input)?);
            }
        }
        Ok(sent)
    }

    /// Prints how many LSPs it knows, and how much of link 2 is reserved at each of the eight priorities or a better one: the sum of the eight.
    fn tell_known(&self, rt: &HostRuntime) -> Result<(), Fault> {
        let known = self.router.export(rt.alloc())?.facts.paths.as_slice().len();
        let mut reserved = 0_u64;
        for priority in 0..=WORST_PRIORITY {
            reserved = reserved.saturating_add(self.router.reserved(OUT_LINK, priority));
        }
        let line = "steps: # LSPs known; bytes a second reserved, the sum over priorities: #";
        tell(rt, line, &[], &[known as u64, reserved])?;
        Ok(())
    }
}

/// Measures how long steps take by routers of each size, by so many of those that a router takes again and again: of the others the shortest
/// of eight.
pub(crate) fn measure_steps(rt: &HostRuntime, count: u32) -> Result<(), Fault> {
    for (words, inputs, setting, is_again) in STEPS {
        let (runs, calls) = if is_again { (1, count) } else { (RUNS, 1) };
        for lsps in SIZES {
            let mut nanos = u64::MAX;
            for _ in 0..runs {
                let mut fed = Fed::open(rt.alloc(), setting, lsps)?;
                let start = Instant::now(rt)?;
                fed.take_all(rt.alloc(), inputs, calls)?;
                nanos = nanos.min(nanos_since(rt, start)?);
            }
            let numbers = [u64::from(lsps), nanos / u64::from(calls.max(1))];
            tell(rt, "steps: # LSPs: @: # ns", &[words], &numbers)?;
        }
    }
    Ok(())
}

/// A router knows all the LSPs that it may; then one more comes, and then a moment past every expiry. Prints what it knows.
fn count_filled(rt: &HostRuntime) -> Result<(), Fault> {
    let alloc = rt.alloc();
    let mut fed = Fed::open(alloc, Setting::Reserved, MOST_LSPS)?;
    fed.tell_known(rt)?;
    let more = about_tunnel(alloc, PATH_FRAME, MOST_LSPS + 1)?;
    let reply = reply_to(alloc, &mut fed.router, IN_LINK, more.as_slice());
    let Some((Reply::Error(error), _)) = reply else {
        return Err(Fault::NotTaken);
    };
    let numbers = [u64::from(error.code), u64::from(error.value)];
    tell(rt, "steps: one more: error # #", &[], &numbers)?;
    fed.take(alloc, Input::Pass(LIFETIME_MS))?;
    fed.tell_known(rt)
}

/// Has a router of the most LSPs take steps, so many of those that it takes again and again, and prints what it sends and knows.
pub(crate) fn count_steps(rt: &HostRuntime, count: u32) -> Result<(), Fault> {
    let lsps = u64::from(MOST_LSPS);
    for (words, inputs, setting, is_again) in STEPS {
        let calls = if is_again { count } else { 1 };
        let mut fed = Fed::open(rt.alloc(), setting, MOST_LSPS)?;
        let frames = fed.take_all(rt.alloc(), inputs, calls)?;
        if is_again {
            let numbers = [lsps, u64::from(calls), frames];
            let line = "steps: # LSPs: @, # times: # frames are sent";
            tell(rt, line, &[words], &numbers)?;
        } else {
            let line = "steps: # LSPs: @: # frames are sent";
            tell(rt, line, &[words], &[lsps, frames])?;
        }
    }
    count_filled(rt)
}
