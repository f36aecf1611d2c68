//! The neighbours of a router with four links, which send over sockets, and the wires that take what they send.

use lsr_serve::{LinkSockets, LinkWire, ServeFault, UdpWire, open_wires};
use sorted_rows::Table;
use std::alloc::{AllocError, Global};
use std::net::{Net, SocketAddr, UdpSocket};
use std::sync::atomic::{AtomicU64, Ordering};
use std::thread;
use std::thread::Threads;
use std::time::Duration;
use worker_cases::{
    Fault, LABELLED_FRAME, OUT_LINK, PATH_FRAME, RESV_FRAME, Wire, WireFault, about_tunnel,
};

/// How many links the router has.
pub(crate) const LINKS: u16 = 4;
/// Any port of this machine that nobody has.
const ANY: &str = "127.0.0.1:0";
/// How many frames a neighbour sends before the first of them is taken: as many as a socket keeps.
const WINDOW: u64 = 64;
/// How long a neighbour sleeps until it looks again how many were taken, in microseconds.
const LOOK_US: u64 = 50;
/// How often it looks before it gives up: a minute in all.
const MOST_LOOKS: u32 = 1_200_000;
/// The tunnels whose Paths come where frames are forwarded, each over the link of its number. Whichever comes first has the label of
/// [`LABELLED_FRAME`], so the Resvs of all three come.
const TUNNELS: [u16; 3] = [1, 3, 4];
/// How many labelled frames come for each message, where frames are forwarded.
const FRAMES_A_MESSAGE: u32 = 15;
/// Which share of the frames of one neighbour the neighbour of link 2 sends for its Resvs alone.
const RESV_SHARE: u32 = 16;

/// What the neighbours send.
#[derive(Clone, Copy)]
pub(crate) enum Traffic {
    /// Each its own Path, again and again.
    Paths,
    /// Labelled frames, and before 15 of them a message: of link 2 the Resvs of the others' Paths, one after the other, else a Path.
    Frames,
}

/// What comes: of what kind, from how many neighbours, and how many frames of each.
#[derive(Clone, Copy)]
pub(crate) struct Load {
    /// What they send.
    pub traffic: Traffic,
    /// How many neighbours send: those of the links from 1 on, one or all four.
    pub neighbours: u16,
    /// How many frames each of them sends.
    pub count: u32,
    /// Whether a worker is shown what came together; else it takes each frame by itself.
    pub is_shown_more: bool,
}

impl Load {
    /// How many frames the neighbour of a link sends. Where frames are forwarded that of link 2 sends its Resvs in any case.
    fn count_over(&self, link: u16) -> u32 {
        match (self.traffic, link) {
            _ if link <= self.neighbours => self.count,
            (Traffic::Frames, OUT_LINK) => self.count / RESV_SHARE,
            _ => 0,
        }
    }
}

/// An address that nobody has. Its socket is held among these, so that the next address is another one.
fn free_address<R: Net>(net: &R, held: &mut Vec<UdpSocket>) -> Result<SocketAddr, Fault> {
    let socket = UdpSocket::bind(net, ANY)?;
    let address = socket.local_addr()?;
    let Ok(()) = held.push(socket) else {
        return Err(Fault::Memory);
    };
    Ok(address)
}

/// The sockets of the links, all at addresses of this machine that nobody has, each another one. Those of the neighbours are put to these.
pub(crate) fn free_links<R: Net>(
    net: &R,
    alloc: Global,
    neighbours: &mut Vec<UdpSocket>,
) -> Result<Table<u16, LinkSockets>, Fault> {
    let mut held = Vec::new(alloc);
    let mut links = Table::new(alloc);
    for number in 1..=LINKS {
        let listen = free_address(net, &mut held)?;
        let send = free_address(net, neighbours)?;
        links.set(number, LinkSockets { listen, send })?;
    }
    Ok(links)
}

/// The messages that the neighbour of a link sends, one after the other.
fn messages_of(alloc: Global, traffic: Traffic, link: u16) -> Result<Vec<Vec<u8>>, AllocError> {
    let mut messages = Vec::new(alloc);
    if matches!(traffic, Traffic::Frames) && link == OUT_LINK {
        for tunnel in TUNNELS {
            messages.push(about_tunnel(alloc, RESV_FRAME, tunnel)?)?;
        }
    } else {
        messages.push(about_tunnel(alloc, PATH_FRAME, link)?)?;
    }
    Ok(messages)
}

/// A neighbour that sends messages round and round, and labelled frames after each.
#[derive(Drop)]
pub(crate) struct Sender<'a> {
    /// Its socket.
    socket: UdpSocket,
    /// Where the router listens.
    to: SocketAddr,
    /// The messages.
    messages: Vec<Vec<u8>>,
    /// How many labelled frames come after each.
    labelled: u32,
    /// How many the router took.
    taken: &'a AtomicU64,
    /// How many are sent in all.
    count: u32,
}

impl<'a> Sender<'a> {
    /// Sends all, each as soon as the router took so many that one more may be sent; whether all were sent.
    fn send_all(&self, rt: &HostRuntime) -> bool {
        let messages = self.messages.as_slice();
        let mut place = 0_usize;
        let mut labelled = 0_u32;
        for turn in 0..self.count {
            let mut frame = LABELLED_FRAME;
            if labelled == 0 {
                let Some(message) = messages.get(place % messages.len().max(1)) else {
                    return false;
                };
                frame = message.as_slice();
                place = place.wrapping_add(1);
                labelled = self.labelled;
            } else {
                labelled = labelled.saturating_sub(1);
            }
            for _ in 0..MOST_LOOKS {
                if u64::from(turn) < self.taken.load(Ordering::SeqCst).saturating_add(WINDOW) {
                    break;
                }
                thread::sleep(rt, Duration::from_micros(LOOK_US));
            }
            let taken = self.taken.load(Ordering::SeqCst);
            if u64::from(turn) >= taken.saturating_add(WINDOW)
                || self.socket.send_to(frame, self.to).is_err()
            {
                return false;
            }
        }
        true
    }
}

/// The neighbours of the links by these sockets, each of which sends its part of the load, with how many of its frames were taken.
pub(crate) fn senders<'a>(
    alloc: Global,
    links: &Table<u16, LinkSockets>,
    sockets: Vec<UdpSocket>,
    counts: &'a [AtomicU64],
    load: &Load,
) -> Result<Vec<Sender<'a>>, Fault> {
    let labelled = match load.traffic {
        Traffic::Paths => 0,
        Traffic::Frames => FRAMES_A_MESSAGE,
    };
    let mut senders = Vec::new(alloc);
    for ((row, socket), taken) in links.as_slice().iter().zip(sockets).zip(counts) {
        let messages = messages_of(alloc, load.traffic, row.0)?;
        let sender = Sender {
            socket,
            to: row.1.listen,
            messages,
            labelled,
            taken,
            count: load.count_over(row.0),
        };
        let Ok(()) = senders.push(sender) else {
            return Err(Fault::Memory);
        };
    }
    Ok(senders)
}

/// Has each neighbour send all. The fault is out of memory, or that one gave up.
pub(crate) fn send_all<R: Threads + Sync>(
    rt: &HostRuntime,
    handles: &R,
    senders: Vec<Sender<'_>>,
) -> Result<(), Fault> {
    let sent = thread::map_vec(handles, senders, &|sender: Sender<'_>| sender.send_all(rt))?;
    if sent.iter().all(|is_sent| *is_sent) {
        Ok(())
    } else {
        Err(Fault::NotSent)
    }
}

/// A wire that counts what it took, and takes no more than was sent.
#[derive(Drop)]
pub(crate) struct CountedWire<'a, W> {
    /// The wire.
    pub wire: W,
    /// How many frames it took.
    pub taken: &'a AtomicU64,
    /// How many were sent in all.
    pub sent: u64,
    /// Whether it shows what came together.
    pub is_shown_more: bool,
}

impl<'a, W: Wire> Wire for CountedWire<'a, W> {
    ghost use Rattle.std.specs.Prelude.{None};

    ghost history = { λ counted. record { failed = (W.history counted.wire).failed; answered = None; given = None } };

    /// The next frame that came; none where all that were sent are taken.
    fn receive(&mut self, buffer: &mut [u8]) -> Result<Option<usize>, WireFault> {
        if self.taken.load(Ordering::SeqCst) >= self.sent {
            return Ok(None);
        }
        let came = self.wire.receive(buffer);
        if let Ok(Some(_)) = came {
            self.taken.fetch_add(1, Ordering::SeqCst);
        }
        came
    }

    /// A frame that the wire has more, where that is shown, and not all that were sent are taken.
    fn ahead(&self, index: usize) -> Option<&[u8]> {
        if !self.is_shown_more || self.taken.load(Ordering::SeqCst) >= self.sent {
            return None;
        }
        self.wire.ahead(index)
    }

    fn send(&mut self, link: u16, bytes: &[u8]) -> Result<(), WireFault> {
        self.wire.send(link, bytes)
    }

    fn failures(&self) -> u64 {
        self.wire.failures()
    }
}

/// The wires of the links. The fault is that their sockets can't be had, or that memory ran out.
pub(crate) fn wires<'a, R: Net>(
    net: &R,
    alloc: Global,
    links: &'a Table<u16, LinkSockets>,
) -> Result<Vec<LinkWire<UdpWire<'a>>>, Fault> {
    match open_wires(net, alloc, links) {
        Ok(wires) => Ok(wires),
        Err(ServeFault::Socket { link, .. }) => Err(Fault::Socket(link)),
        // (no segment is kept where wires are opened)
        Err(ServeFault::Memory | ServeFault::Unkept(_)) => Err(Fault::Memory),
    }
}

/// The wires, each of which counts what it took, and takes no more than its neighbour sends.
pub(crate) fn counted<'a, W: Drop>(
    alloc: Global,
    links: Vec<LinkWire<W>>,
    counts: &'a [AtomicU64],
    load: Load,
) -> Result<Vec<LinkWire<CountedWire<'a, W>>>, AllocError> {
    links
        .into_iter()
        .zip(counts)
        .map(|(LinkWire { number, wire }, taken)| LinkWire {
            number,
            wire: CountedWire {
                wire,
                taken,
                sent: u64::from(load.count_over(number)),
                is_shown_more: load.is_shown_more,
            },
        })
        .collect(alloc)
}
