//! What a reader of capture files gives of a file, packet by packet, with what `lsr decode` doesn't print.

use anyhow::Result;
use capture_files::{Capture, Packet, PacketContent};
use std::alloc::{AllocError, Global};
use std::fs;

/// The files.
const FILES: [&str; 4] = [
    "captures/classic.pcap",
    "captures/classic-cut.pcap",
    "captures/blocks.pcapng",
    "captures/text.pcap",
];

/// What the packet carries, in words, with its bytes in hexadecimal digits.
fn content_text(alloc: Global, packet: &Packet) -> Result<String, AllocError> {
    match packet.content() {
        PacketContent::Rsvp(message) => format!(in alloc; "rsvp {}", hex::encode(alloc, message)?),
        PacketContent::Udp {
            source_port,
            destination_port,
            payload,
        } => {
            let digits = hex::encode(alloc, payload)?;
            format!(in alloc; "udp {source_port} {destination_port} {digits}")
        }
        PacketContent::Fragment => String::from_str(alloc, "fragment"),
        PacketContent::Cut => String::from_str(alloc, "cut"),
        PacketContent::Other => String::from_str(alloc, "other"),
    }
}

/// Tells of a packet: its number, its time, its link type, its length on its link, and what it carries.
fn tell_packet(rt: &HostRuntime, packet: &Packet) -> Result<()> {
    let content = content_text(rt.alloc(), packet)?;
    let number = packet.number;
    let link_type = packet.link_type;
    let len = packet.original_len;
    let time = packet.time.unwrap_or_default();
    let seconds = time.as_secs();
    let nanos = time.subsec_nanos();
    println!(rt; "  packet {number} {seconds}.{nanos:09} link {link_type} length {len} {content}")?;
    Ok(())
}

/// Tells what a reader gives of the file: its packets, one after the other, and why it breaks, if it does.
fn tell_file(rt: &HostRuntime, name: &str) -> Result<()> {
    println!(rt; "{name}")?;
    let file = fs::read(rt, name)?;
    let mut capture = match Capture::open(rt.alloc(), file.as_slice()) {
        Ok(capture) => capture,
        Err(fault) => {
            println!(rt; "  {fault}")?;
            return Ok(());
        }
    };
    while let Some(next) = capture.next_packet() {
        match next {
            Ok(packet) => tell_packet(rt, &packet)?,
            Err(fault) => println!(rt; "  {fault}")?,
        }
    }
    let word = match capture.next_packet() {
        Some(_) => "more",
        None => "end",
    };
    println!(rt; "  {word}")?;
    Ok(())
}

/// Tells of each file.
pub fn run(rt: &HostRuntime) -> Result<()> {
    for name in FILES {
        tell_file(rt, name)?;
    }
    Ok(())
}
