//! Capture files, classic pcap and pcapng, packet by packet where they lie, and what a packet carries for RSVP: a message
//! in an IPv4 datagram of protocol 46, or the payload of a UDP datagram. Any bytes have an answer, nothing is copied, and
//! the packets before a damaged place can be read.
#![tactic(auto)]

mod block;
mod body;
mod capture;
mod datagram;
mod endian;
mod fault;
mod format;
mod link;
mod options;
mod packet;
mod record;
mod times;

pub use capture::Capture;
pub use datagram::PacketContent;
pub use fault::{CaptureFault, Damage};
pub use packet::Packet;
