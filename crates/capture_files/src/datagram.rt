ghost use Rattle.std.specs.Prelude.{◌≡◌, ◌≤◌, ◌*◌, length, true, IsTrue};
ghost use Rattle.capture_files.specs.Datagrams.{carried, content_in, datagram_in, has_header, header_len, is_fragment, total_len, udp_in};

use crate::link::ip_in;
use crate::packet::Packet;
use byteorder::{BigEndian, ByteOrder};

/// The protocol of RSVP (RFC 2205, 3.1.1).
const RSVP: u8 = 46;
/// The protocol of UDP (RFC 768).
const UDP: u8 = 17;
/// Bytes of an IPv4 header without options (RFC 791, 3.1).
const HEADER_LEN: usize = 20;
/// The version of IPv4, in the upper half of its first byte.
const VERSION: u8 = 4;
/// The bits of the half bytes of an IPv4 header's first byte.
const HALF_BITS: u32 = 4;
/// The lower half of that byte, the header's length in words.
const LENGTH_MASK: u8 = 0xf;
/// The bytes of such a word.
const WORD_LEN: usize = 4;
/// Where the total length stands in an IPv4 header.
const TOTAL_FIELD: usize = 2;
/// Where flags and the fragment's offset stand in it.
const FRAGMENT_FIELD: usize = 6;
/// The bits of that field which only a fragment has: more fragments follow, or it isn't the first.
const FRAGMENT_MASK: u16 = 0x3fff;
/// Where the protocol stands in an IPv4 header.
const PROTOCOL_FIELD: usize = 9;
/// Bytes of a UDP header (RFC 768).
const UDP_HEADER_LEN: usize = 8;
/// Where the destination port stands in it.
const DESTINATION_FIELD: usize = 2;
/// Where the length stands in it.
const UDP_LENGTH_FIELD: usize = 4;

/// What a packet carries for RSVP.
#[derive(Clone, Copy)]
pub enum PacketContent<'a> {
    /// The bytes of an IPv4 packet of protocol 46: an RSVP message, if they are one. They aren't looked at.
    Rsvp(&'a [u8]),
    /// A UDP datagram: a frame of a router, if its ports and its payload say so. Its checksum isn't looked at.
    Udp {
        /// The port that it comes from.
        source_port: u16,
        /// The port that it is for.
        destination_port: u16,
        /// What stands after its header.
        payload: &'a [u8],
    },
    /// A fragment of an IPv4 packet of protocol 46 or 17. Fragments aren't put together.
    Fragment,
    /// An IPv4 packet of protocol 46 or 17, and not all of its bytes were captured.
    Cut,
    /// Anything else.
    Other,
}

/// Whether the bytes begin with the header of an IPv4 packet that has a total length of no fewer bytes.
fn has_header(ip: &[u8]) -> bool
    ensures { result ≡ has_header ip.now }
{
    ip.len() >= HEADER_LEN
        && ip[0] >> HALF_BITS == VERSION
        && header_len(ip) >= HEADER_LEN
        && header_len(ip) <= total_len(ip)
}

/// The length in bytes of an IPv4 header.
fn header_len(ip: &[u8]) -> usize
    requires { 20 ≤ length ip.now }
    ensures { result ≡ header_len ip.now }
{
    usize::from(ip[0] & LENGTH_MASK) * WORD_LEN
}

/// The length in bytes of an IPv4 packet, with its header.
fn total_len(ip: &[u8]) -> usize
    requires { 20 ≤ length ip.now }
    ensures { result ≡ total_len ip.now }
{
    usize::from(BigEndian::read_u16(&ip[TOTAL_FIELD..]))
}

/// Whether an IPv4 packet is a fragment of one.
fn is_fragment(ip: &[u8]) -> bool
    requires { 20 ≤ length ip.now }
    ensures { result ≡ is_fragment ip.now }
{
    BigEndian::read_u16(&ip[FRAGMENT_FIELD..]) & FRAGMENT_MASK != 0
}

/// The UDP datagram that the payload of an IPv4 packet is.
#[tactic(auto, unfolding(crate::specs::Datagrams::udp_in))]
fn udp_in(datagram: &[u8]) -> PacketContent<'_>
    ensures { carried result ≡ udp_in datagram.now }
{
    if datagram.len() < UDP_HEADER_LEN {
        return PacketContent::Other;
    }
    let len = usize::from(BigEndian::read_u16(&datagram[UDP_LENGTH_FIELD..]));
    if len < UDP_HEADER_LEN || datagram.len() < len {
        return PacketContent::Other;
    }
    PacketContent::Udp {
        source_port: BigEndian::read_u16(datagram),
        destination_port: BigEndian::read_u16(&datagram[DESTINATION_FIELD..]),
        payload: &datagram[UDP_HEADER_LEN..len],
    }
}

/// What an IP packet carries.
#[tactic(auto, unfolding(crate::specs::Datagrams::datagram_in))]
fn datagram_in(ip: &[u8]) -> PacketContent<'_>
    ensures { carried result ≡ datagram_in ip.now }
{
    if !has_header(ip) {
        return PacketContent::Other;
    }
    let protocol = ip[PROTOCOL_FIELD];
    if protocol != RSVP && protocol != UDP {
        return PacketContent::Other;
    }
    if is_fragment(ip) {
        return PacketContent::Fragment;
    }
    if ip.len() < total_len(ip) {
        return PacketContent::Cut;
    }
    let payload = &ip[header_len(ip)..total_len(ip)];
    if protocol == RSVP {
        PacketContent::Rsvp(payload)
    } else {
        udp_in(payload)
    }
}

impl<'a> Packet<'a> {
    /// What the packet carries for RSVP. Known are Ethernet with at most eight IEEE 802.1Q tags (link type 1), raw IP (101,
    /// 228, 12 and 14) and Linux's cooked packets (113 and 276); packets of other link types are
    /// [`PacketContent::Other`].
    pub fn content(&self) -> PacketContent<'a>
        ensures { carried result ≡ content_in self.now.link_type self.now.bytes.now }
    {
        match ip_in(self.link_type, self.bytes) {
            Some(ip) => datagram_in(ip),
            None => PacketContent::Other,
        }
    }
}
