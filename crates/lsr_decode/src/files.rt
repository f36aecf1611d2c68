//! `lsr decode FILE`: the messages of a capture file, each under its packet's number and time.
ghost use Rattle.std.specs.Prelude.{◌≡◌, ◌<◌, ◌+◌, ◌^◌, ℕ, List, IfOk, OnOk, length, option_map};
ghost use Rattle.std.specs.Duration.{as_nanos};
ghost use Rattle.std.specs.Io.KnownBytes.{Appends};
ghost use Rattle.capture_files.specs.Datagrams.{carried};
ghost use Rattle.capture_files.specs.declared.packet.Packet.{Packet};
ghost use Rattle.lsr_decode.specs.declared.files.FileEnding.{FileEnding};
ghost use Rattle.lsr_decode.specs.Files.{DecodesFile, Shows, ShowsPacket, advice_of, carried_by, counted, counts_of, file_ending_text, file_status, heading_text, hop_message, is_file_name, message_in, time_text};

use crate::decoding::message_text;
use capture_files::{Capture, CaptureFault, Damage, Packet, PacketContent};
use line_streams::{ByteStream, InputFault, read_bytes, tell_input_fault};
use lsr_facts::Refusal;
use lsr_text::refusal_name;
use std::alloc::Global;
use std::io;
use std::io::Write;
use std::time::Duration;

/// The kind of a Hop frame, its first byte: a message stands after it (docs/WIRE.md, Frames).
const HOP: u8 = 1;
/// The version of RSVP, in the upper half of a message's first byte (RFC 2205, 3.1.1).
const VERSION: u8 = 1;
/// The bits of the half bytes of that byte.
const HALF_BITS: u32 = 4;

/// How a run over a capture file ends.
#[derive(Clone, Copy)]
pub enum FileEnding {
    /// It was read to its end; this says whether a message was refused.
    Whole(bool),
    /// It breaks here. What stands before that place was printed.
    Damaged(CaptureFault),
    /// It can't be read, or there is no memory for it. Nothing was printed.
    Unread(InputFault),
}

/// Whether the word is the name of a file: it has a dot or a slash.
pub fn is_file_name(word: &str) -> bool
    ensures { result ≡ is_file_name word.now }
{
    word.as_bytes()
        .iter()
        .any(|byte| *byte == b'.' || *byte == b'/')
}

/// The message of a Hop frame, which the payload of a UDP datagram may be.
fn hop_message(payload: &[u8]) -> Option<&[u8]>
    ensures { option_map (λ message. message.now) result ≡ hop_message payload.now }
{
    let [kind, message @ ..] = payload else {
        return None;
    };
    let [first, ..] = message else {
        return None;
    };
    if *kind == HOP && *first >> HALF_BITS == VERSION {
        Some(message)
    } else {
        None
    }
}

/// How many packets of a capture carry a message, of protocol 46 or in a Hop frame, and how many don't.
#[derive(Clone, Copy)]
struct Counts {
    /// Packets that carry one.
    messages: u64,
    /// Fragments, which aren't put together.
    fragments: u64,
    /// Packets of which not all bytes were captured.
    cut: u64,
    /// Packets that carry something else.
    others: u64,
}

/// The message that a packet of this content carries. The packet is counted.
fn count<'a>(counts: &mut Counts, content: PacketContent<'a>) -> Option<&'a [u8]>
    requires messages { counts.old.messages + 1 < 2 ^ 64 }
    requires fragments { counts.old.fragments + 1 < 2 ^ 64 }
    requires cut { counts.old.cut + 1 < 2 ^ 64 }
    requires others { counts.old.others + 1 < 2 ^ 64 }
    ensures message { option_map (λ message. message.now) result ≡ message_in (carried content.entry) }
    ensures counted { counts.new ≡ counted counts.old (carried content.entry) }
{
    let message = match content {
        PacketContent::Rsvp(message) => Some(message),
        PacketContent::Udp { payload, .. } => hop_message(payload),
        PacketContent::Fragment => {
            counts.fragments += 1;
            return None;
        }
        PacketContent::Cut => {
            counts.cut += 1;
            return None;
        }
        PacketContent::Other => None,
    };
    if message.is_some() {
        counts.messages += 1;
    } else {
        counts.others += 1;
    }
    message
}

/// Prints a time in seconds since the beginning of 1970. The error is the output's.
fn put_time<W: Write>(time: Option<Duration>, output: &mut W) -> io::Result<()>
    ensures { OnOk result (Appends (W.contents output.old) (W.contents output.new) (time_text (option_map as_nanos time))) }
{
    match time {
        Some(time) => {
            let seconds = time.as_secs();
            let nanos = time.subsec_nanos();
            write!(output, "{seconds}.{nanos:09}")
        }
        None => write!(output, "unknown"),
    }
}

/// Prints the packet's number and time. The error is the output's.
fn put_heading<W: Write>(packet: &Packet, output: &mut W) -> io::Result<()>
    ensures { OnOk result (Appends (W.contents output.old) (W.contents output.new) (heading_text packet.now)) }
{
    let number = packet.number;
    write!(output, "packet {number} ")?;
    put_time(packet.time, output)?;
    write!(output, "\n")
}

/// Prints the packet's message, if it carries one, or why it is refused, and an empty line after it: whether it is refused.
/// The packet is counted. The error is the output's.
fn put_packet<W: Write>(
    alloc: Global,
    fields: bool,
    counts: &mut Counts,
    packet: &Packet,
    output: &mut W,
) -> io::Result<bool>
    requires messages { counts.old.messages + 1 < 2 ^ 64 }
    requires fragments { counts.old.fragments + 1 < 2 ^ 64 }
    requires cut { counts.old.cut + 1 < 2 ^ 64 }
    requires others { counts.old.others + 1 < 2 ^ 64 }
    ensures shown { IfOk result (λ refused. (block : List ℕ) × Appends (W.contents output.old) (W.contents output.new) block
        × ShowsPacket fields packet.now block refused) }
    ensures counted { OnOk result (counts.new ≡ counted counts.old (carried_by packet.now)) }
{
    let Some(message) = count(counts, packet.content()) else {
        return Ok(false);
    };
    put_heading(packet, output)?;
    match message_text(alloc, fields, message) {
        Ok(text) => {
            write!(output, "{text}\n")?;
            Ok(false)
        }
        Err(fault) => {
            let refusal = Refusal::Unread(fault);
            let kind = refusal.number();
            let name = refusal_name(refusal);
            write!(output, "refused {kind} {name}\n\n")?;
            Ok(true)
        }
    }
}

/// Prints the messages of the packets of a capture file, as far as it can be read, and counts the packets. The error is the
/// output's.
fn put_packets<W: Write>(
    alloc: Global,
    fields: bool,
    file: &[u8],
    output: &mut W,
) -> io::Result<(Counts, FileEnding)>
    requires { length file.now + 1 < 2 ^ 64 }
    ensures { IfOk result (λ found. (packets : List Packet) × (blocks : List ℕ) × Appends (W.contents output.old) (W.contents output.new) blocks
        × Shows fields file.now packets blocks found.1 × (found.0 ≡ counts_of packets)) }
{
    let mut counts = Counts {
        messages: 0,
        fragments: 0,
        cut: 0,
        others: 0,
    };
    let mut refused = false;
    let mut capture = match Capture::open(alloc, file) {
        Ok(capture) => capture,
        Err(fault) => return Ok((counts, FileEnding::Damaged(fault))),
    };
    while let Some(next) = capture.next_packet() {
        match next {
            Ok(packet) => {
                let is_bad = put_packet(alloc, fields, &mut counts, &packet, output)?;
                refused = refused | is_bad;
            }
            Err(fault) => return Ok((counts, FileEnding::Damaged(fault))),
        }
    }
    Ok((counts, FileEnding::Whole(refused)))
}

/// Prints the messages of a capture file, and how many packets carry one and how many don't. The error is the output's.
fn decode_file<S: ByteStream, W: Write>(
    alloc: Global,
    fields: bool,
    input: &mut S,
    output: &mut W,
) -> io::Result<FileEnding>
    ensures { IfOk result (λ ending. (printed : List ℕ) × Appends (W.contents output.old) (W.contents output.new) printed
        × DecodesFile fields (S.stream input.old) printed ending) }
{
    let file = match read_bytes(alloc, input) {
        Ok(file) => file,
        Err(fault) => return Ok(FileEnding::Unread(fault)),
    };
    let (counts, ending) = put_packets(alloc, fields, file.as_slice(), output)?;
    let messages = counts.messages;
    let fragments = counts.fragments;
    let cut = counts.cut;
    let others = counts.others;
    write!(
        output,
        "messages {messages}\nfragments {fragments}\ncut {cut}\nothers {others}\n"
    )?;
    Ok(ending)
}

/// What is wrong with a capture file, and what to do.
fn advice_of(damage: Damage) -> &'static str
    ensures { result.now ≡ advice_of damage }
{
    match damage {
        Damage::Short => "the file ends too early: copy it again, or let its capture end first",
        Damage::Magic =>
            "this is no pcap and no pcapng file: look at its name, or convert it to pcap",
        Damage::Version => "its version is unknown: convert it to pcap",
        Damage::Length => "a length is wrong: copy the file again",
        Damage::Interface => "a packet's interface isn't described: convert the file to pcap",
        Damage::Memory => "there is no memory for an interface: free some and try again",
    }
}

/// Tells why the file of this name wasn't read to its end, and gives the status. The error is the stream's.
fn tell_file_ending<E: Write>(error: &mut E, name: &str, ending: &FileEnding) -> io::Result<u8>
    ensures status { IfOk result (λ status. status ≡ file_status ending.now) }
    ensures told { OnOk result (Appends (E.contents error.old) (E.contents error.new) (file_ending_text name.now ending.now)) }
{
    match ending {
        FileEnding::Whole(false) => Ok(0),
        FileEnding::Whole(true) => Ok(1),
        FileEnding::Damaged(fault) => {
            let at = fault.at;
            let advice = advice_of(fault.damage);
            write!(error, "damaged\n  {name}, byte {at}: {advice}\n")?;
            Ok(1)
        }
        FileEnding::Unread(fault) => {
            tell_input_fault(error, name, *fault)?;
            Ok(1)
        }
    }
}

/// `lsr decode FILE [--fields]`: prints the messages of the capture file of this name, each under its packet's number and time, and
/// then how many packets carry one and how many don't. Tells on the error stream why the file wasn't read to its end, and
/// gives the status: 0, or 1 where a message is refused or the file wasn't read to its end. The error is that a stream
/// could not be written.
pub fn run_decode_file<S: ByteStream, W: Write, E: Write>(
    alloc: Global,
    fields: bool,
    name: &str,
    input: &mut S,
    output: &mut W,
    error: &mut E,
) -> io::Result<u8>
    ensures { IfOk result (λ status. (ending : FileEnding) × (printed : List ℕ) × (status ≡ file_status ending)
        × DecodesFile fields (S.stream input.old) printed ending
        × Appends (W.contents output.old) (W.contents output.new) printed
        × Appends (E.contents error.old) (E.contents error.new) (file_ending_text name.now ending)) }
{
    let ending = decode_file(alloc, fields, input, output)?;
    tell_file_ending(error, name, &ending)
}
