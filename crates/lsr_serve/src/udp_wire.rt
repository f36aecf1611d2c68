//! Wires over UDP sockets of this machine.
ghost use Rattle.std.specs.Prelude.{◌≡◌, ◌+◌, ◌-◌, ◌^◌, ◌<◌, ◌≤◌, ◌↔◌, length, map, take, IfNone, IfOk, IfSome, IsTrue, OnOk};
ghost use Rattle.lsr_serve.specs.Local.{AreLinkLocal, AreLocal, IsLocal};

use crate::read_ahead::{MOST_AHEAD, ReadAhead};
use crate::round_flag::RoundFlag;
use interface_workers::{Wire, WireFault};
use lsr_config::LinkSockets;
use sorted_rows::Table;
use std::alloc::Global;
use std::io;
use std::io::ErrorKind;
use std::net::{IpAddr, Ipv4Addr, Ipv6Addr, Net, SocketAddr, UdpSocket};
use std::time::Duration;
use thiserror::Error;

/// How long a wire waits for a frame before it looks whether its round is over, in milliseconds.
const RECEIVE_MS: u64 = 10;
/// How often it waits so for a frame: 100 milliseconds in all.
const RECEIVES: u32 = 10;
/// The port that stands for any that the system has, to which no neighbour can send.
const ANY_PORT: u16 = 0;
/// The number that stands for the clock's wire, which is no link's.
const CLOCK: u16 = 0;

/// Why a link can't have an address.
#[derive(Clone, Copy, Debug, PartialEq, Eq, Error)]
pub enum SocketFault {
    /// It isn't this machine's alone.
    #[error("is no loopback address: routers of this program are neighbours on one machine; give 127.0.0.1 or [::1]")]
    NotLocal,
    /// It is of another family than the first link's.
    #[error("isn't of the family of the first link's listen: give all links IPv4 addresses, or all IPv6 addresses")]
    OtherFamily,
    /// It has no port.
    #[error("has port 0, to which no neighbour can send: give a port from 1 to 65535")]
    NoPort,
    /// The link would send to itself.
    #[error("is send and listen of one link, which would send to itself: give the neighbour's listen as send")]
    Itself,
    /// Another program, router or link has it.
    #[error("is in use: end the router or program that has it, or give a port that no other link has")]
    Taken,
    /// Permissions don't allow it.
    #[error("isn't allowed: give a port from 1024 on, or look at this user's rights")]
    Forbidden,
    /// The system doesn't open it.
    #[error("can't be opened: see whether this machine has the address, and how many sockets are open")]
    Unopened,
}

/// Why links aren't served.
#[derive(Clone, Copy, Debug, PartialEq, Eq, Error)]
pub enum ServeFault {
    /// A link can't have this address; of link 0, the port of the clock can't have one from which it sends.
    #[error("link {link}: socket\n  {address} {fault}")]
    Socket {
        /// The link's number.
        link: u16,
        /// The address.
        address: SocketAddr,
        /// Why.
        fault: SocketFault,
    },
    /// There is no memory.
    #[error("memory")]
    Memory,
    /// The segment of the journal of this number wasn't kept, for want of memory.
    #[error("segment {0}: not kept\n  there was no memory for it: the files of the journal end with the one before it")]
    Unkept(u64),
}

/// A link's number, and the wire on which its frames come.
#[derive(Drop)]
pub struct LinkWire<W> {
    /// The link's number.
    pub number: u16,
    /// Its wire.
    pub wire: W,
}

/// A UDP socket of this machine, on which frames come and from which they go to the neighbours of all links. It isn't known who
/// sent what came, nor whether what was sent came anywhere.
#[derive(Drop)]
pub struct UdpWire<'a> {
    socket: UdpSocket,
    links: &'a Table<u16, LinkSockets>,
    /// When it waits for nothing any more, if it may be told so.
    round: Option<&'a RoundFlag>,
    failures: u64,
    /// What came together with the last frame, where frames are read ahead.
    came: Option<ReadAhead>,
    /// Whether the socket waits for a frame.
    waits: bool,
}

impl<'a> UdpWire<'a> {
    /// A wire on which frames come at the address, and which reads them ahead into this room, if there is any. The error is the system's.
    fn bind<R: Net>(
        net: &R,
        address: SocketAddr,
        links: &'a Table<u16, LinkSockets>,
        ahead: Option<ReadAhead>,
    ) -> io::Result<UdpWire<'a>> {
        let socket = UdpSocket::bind(net, address)?;
        socket.set_read_timeout(Some(Duration::from_millis(RECEIVE_MS)))?;
        Ok(UdpWire {
            socket,
            links,
            round: None,
            failures: 0,
            came: ahead,
            waits: true,
        })
    }

    /// The same wire, which gives nothing, and doesn't wait, while the round is over.
    pub fn until(self, round: &'a RoundFlag) -> UdpWire<'a> {
        let UdpWire {
            socket,
            links,
            round: _,
            failures,
            came,
            waits,
        } = self;
        UdpWire {
            socket,
            links,
            round: Some(round),
            failures,
            came,
            waits,
        }
    }

    /// Whether it is told to wait for nothing.
    fn is_over(&self) -> bool {
        match self.round {
            Some(round) => round.is_over(),
            None => false,
        }
    }

    /// Whether the socket waits from now on, or doesn't.
    fn wait(&mut self, waits: bool) -> io::Result<()>
        ensures { self.new.failures ≡ self.old.failures }
    {
        if self.waits != waits {
            self.socket.set_nonblocking(!waits)?;
            self.waits = waits;
        }
        Ok(())
    }

    /// Reads what has come already, as far as there is room. The error is the system's; what was read before it stays.
    fn read_ahead(&mut self) -> io::Result<()>
        ensures { self.new.failures ≡ self.old.failures }
    {
        self.wait(false)?;
        let Some(came) = &mut self.came else {
            return Ok(());
        };
        for _ in 0..MOST_AHEAD {
            let Some(space) = came.space() else {
                return Ok(());
            };
            match self.socket.recv_from(space) {
                Ok((len, _)) => came.put(len),
                Err(fault) if is_silence(fault.kind()) => return Ok(()),
                Err(fault) => return Err(fault),
            }
        }
        Ok(())
    }

    /// The next frame of those that were read ahead.
    fn take_ahead(&mut self, buffer: &mut [u8]) -> Option<usize>
        ensures length { IfSome result (λ n. n ≤ length buffer.new) }
        ensures failures { self.new.failures ≡ self.old.failures }
    {
        match &mut self.came {
            Some(came) => came.take(buffer),
            None => None,
        }
    }

    /// The next frame that comes, or none where none comes in time, or the round is over. The error is the system's.
    fn await_frame(&mut self, buffer: &mut [u8]) -> io::Result<Option<usize>>
        ensures length { IfOk result (λ got. IfSome got (λ n. n ≤ length buffer.new)) }
        ensures failures { self.new.failures ≡ self.old.failures }
    {
        self.wait(true)?;
        for _ in 0..RECEIVES {
            if self.is_over() {
                return Ok(None);
            }
            match self.socket.recv_from(buffer) {
                Ok((len, _)) => return Ok(Some(len)),
                Err(fault) if is_silence(fault.kind()) => {}
                Err(fault) => return Err(fault),
            }
        }
        Ok(None)
    }

    /// One more failure.
    fn fail(&mut self) -> WireFault
        requires { self.old.failures < 2 ^ 64 - 1 }
        ensures { self.new.failures ≡ self.old.failures + 1 }
    {
        self.failures += 1;
        WireFault
    }
}

/// Whether a receive that ends so gave nothing, and the wire is as it was: it has waited for its time, or the process was stopped and goes on.
fn is_silence(kind: ErrorKind) -> bool {
    matches!(
        kind,
        ErrorKind::WouldBlock | ErrorKind::TimedOut | ErrorKind::Interrupted
    )
}

impl<'a> Wire for UdpWire<'a> {
    ghost use Rattle.std.specs.Prelude.{None};

    ghost history = { λ wire. record { failed = wire.failures; answered = None; given = None } };

    /// The next frame that came, or none where none came in 100 milliseconds. While its round is over there is none, at once.
    fn receive(&mut self, buffer: &mut [u8]) -> Result<Option<usize>, WireFault> {
        if self.is_over() {
            return Ok(None);
        }
        if self.came.is_some() && self.ahead(0).is_none() && self.read_ahead().is_err() {
            return Err(self.fail());
        }
        if let Some(len) = self.take_ahead(buffer) {
            return Ok(Some(len));
        }
        match self.await_frame(buffer) {
            Ok(len) => Ok(len),
            Err(_) => Err(self.fail()),
        }
    }

    /// A frame that was read ahead and isn't asked for yet. While its round is over there is none.
    fn ahead(&self, index: usize) -> Option<&[u8]> {
        if self.is_over() {
            return None;
        }
        match &self.came {
            Some(came) => came.get(index),
            None => None,
        }
    }

    /// Sends a frame to the neighbour of the link. A link that isn't there is a fault, and a frame that the socket doesn't take
    /// whole.
    fn send(&mut self, link: u16, bytes: &[u8]) -> Result<(), WireFault> {
        let Some(sockets) = self.links.get(&link) else {
            return Err(self.fail());
        };
        if self.wait(true).is_err() {
            return Err(self.fail());
        }
        match self.socket.send_to(bytes, sockets.send) {
            Ok(len) if len == bytes.len() => Ok(()),
            _ => Err(self.fail()),
        }
    }

    fn failures(&self) -> u64 {
        self.failures
    }
}

/// An address of this machine of the family of the first link's, at any port; of IPv4 where there are no links.
fn any_address(links: &Table<u16, LinkSockets>) -> SocketAddr {
    match links.as_slice().first() {
        Some((_, first)) if first.listen.is_ipv6() => {
            SocketAddr::new(IpAddr::V6(Ipv6Addr::LOCALHOST), ANY_PORT)
        }
        _ => SocketAddr::new(IpAddr::V4(Ipv4Addr::LOCALHOST), ANY_PORT),
    }
}

/// Whether the address is this machine's alone, and of the family of the other.
fn is_local(address: SocketAddr, like: SocketAddr) -> bool
    ensures { IsTrue result ↔ IsLocal like address }
{
    address.ip().is_loopback() && address.is_ipv4() == like.is_ipv4()
}

/// Why a link can't have the address, where it can't.
fn address_fault(address: SocketAddr, like: SocketAddr) -> Option<SocketFault>
    ensures { IfNone result (IsLocal like address) }
{
    if !address.ip().is_loopback() {
        return Some(SocketFault::NotLocal);
    }
    if !is_local(address, like) {
        return Some(SocketFault::OtherFamily);
    }
    if address.port() == ANY_PORT {
        return Some(SocketFault::NoPort);
    }
    None
}

/// Which address a link can't have, and why, where it can't have one of its two.
fn link_fault(sockets: LinkSockets, like: SocketAddr) -> Option<(SocketAddr, SocketFault)>
    ensures { IfNone result (AreLinkLocal like sockets) }
{
    if let Some(fault) = address_fault(sockets.listen, like) {
        return Some((sockets.listen, fault));
    }
    if let Some(fault) = address_fault(sockets.send, like) {
        return Some((sockets.send, fault));
    }
    if sockets.send == sockets.listen {
        return Some((sockets.send, SocketFault::Itself));
    }
    None
}

/// Why the system doesn't open a socket, by the kind of its error.
fn system_fault(kind: ErrorKind) -> SocketFault {
    match kind {
        ErrorKind::AddrInUse => SocketFault::Taken,
        ErrorKind::PermissionDenied => SocketFault::Forbidden,
        _ => SocketFault::Unopened,
    }
}

/// The wire of a link. The fault is that its sockets can't be had, or that there is no memory.
fn open_wire<'a, R: Net>(
    net: &R,
    alloc: Global,
    links: &'a Table<u16, LinkSockets>,
    like: SocketAddr,
    link: u16,
    sockets: LinkSockets,
) -> Result<LinkWire<UdpWire<'a>>, ServeFault>
    ensures number { IfOk result (λ opened. opened.number ≡ link) }
    ensures local { OnOk result (AreLinkLocal like sockets) }
{
    if let Some((address, fault)) = link_fault(sockets, like) {
        return Err(ServeFault::Socket {
            link,
            address,
            fault,
        });
    }
    let Ok(ahead) = ReadAhead::new(alloc) else {
        return Err(ServeFault::Memory);
    };
    match UdpWire::bind(net, sockets.listen, links, Some(ahead)) {
        Ok(wire) => Ok(LinkWire { number: link, wire }),
        Err(error) => Err(ServeFault::Socket {
            link,
            address: sockets.listen,
            fault: system_fault(error.kind()),
        }),
    }
}

/// The wire from which the clock's port sends: a socket of its own. The fault is that it can't be had.
pub fn open_clock_wire<'a, R: Net>(
    net: &R,
    links: &'a Table<u16, LinkSockets>,
) -> Result<UdpWire<'a>, ServeFault> {
    let address = any_address(links);
    match UdpWire::bind(net, address, links, None) {
        Ok(wire) => Ok(wire),
        Err(error) => Err(ServeFault::Socket {
            link: CLOCK,
            address,
            fault: system_fault(error.kind()),
        }),
    }
}

/// The wires of the links, in their order. A router of sockets is one of this machine: all addresses have to be its loopback
/// addresses, and of one family. The first link whose sockets can't be had is the fault; the sockets before it are closed.
pub fn open_wires<'a, R: Net>(
    net: &R,
    alloc: Global,
    links: &'a Table<u16, LinkSockets>,
) -> Result<Vec<LinkWire<UdpWire<'a>>>, ServeFault>
    ensures numbers { IfOk result (λ wires. map (λ wire. wire.number) wires.items ≡ map (λ row. row.0) links.now) }
    ensures local { OnOk result (AreLocal links.now) }
{
    let like = any_address(links);
    let rows = links.as_slice();
    let mut wires = Vec::new(alloc);
    for row in rows {
        let wire = open_wire(net, alloc, links, like, row.0, row.1)?;
        let Ok(()) = wires.push(wire) else {
            return Err(ServeFault::Memory);
        };
    }
    Ok(wires)
}
