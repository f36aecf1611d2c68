ghost use Rattle.std.specs.Prelude.{◌≡◌, ◌≤◌, ◌+◌, length, None, Some, IfErr, IfOk, option_map, slice_get};
ghost use Rattle.std.specs.Duration.{as_nanos};
ghost use Rattle.capture_files.specs.Numbers.{field};
ghost use Rattle.capture_files.specs.Bodies.{HasNumber, Says, body_fault, enhanced_fault, enhanced_in, enhanced_len, enhanced_of, enhanced_time, resolution_in, simple_fault, simple_in, simple_len};
ghost use Rattle.capture_files.specs.Packets.{seen};

use crate::block::{Block, SECTION_BLOCK};
use crate::endian::Endian;
use crate::fault::Damage;
use crate::options::option_of;
use crate::packet::Packet;
use crate::times::time_of;
use std::time::Duration;

/// The type of an interface description (draft-ietf-opsawg-pcapng, 4.2).
const INTERFACE_BLOCK: u32 = 1;
/// The type of a simple packet (draft-ietf-opsawg-pcapng, 4.4).
const SIMPLE_BLOCK: u32 = 3;
/// The type of an enhanced packet (draft-ietf-opsawg-pcapng, 4.3).
const ENHANCED_BLOCK: u32 = 6;

/// Bytes of a section header's body before its options.
const SECTION_HEAD_LEN: usize = 16;
/// Where the major version stands in it.
const MAJOR_FIELD: usize = 4;
/// The major version of sections.
const MAJOR_VERSION: u16 = 1;

/// Bytes of an interface description's body before its options.
const INTERFACE_HEAD_LEN: usize = 8;
/// Where it has the most bytes that are captured of a packet.
const SNAP_FIELD: usize = 4;
/// The option that says what times count: if_tsresol.
const RESOLUTION_OPTION: u16 = 9;
/// The option that says from when they count: if_tsoffset.
const OFFSET_OPTION: u16 = 14;
/// What times count where no option says it: 10^-6 seconds.
const MICROS: u8 = 6;

/// Bytes of an enhanced packet's body before its packet.
const ENHANCED_HEAD_LEN: usize = 20;
/// Where it has the high word of its time.
const HIGH_FIELD: usize = 4;
/// Where it has the low word of its time.
const LOW_FIELD: usize = 8;
/// Where it has its captured length.
const CAPTURED_FIELD: usize = 12;
/// Where it has its original length.
const ORIGINAL_FIELD: usize = 16;
/// The bits of a word.
const WORD_BITS: u32 = 32;

/// Bytes of a simple packet's body before its packet.
const SIMPLE_HEAD_LEN: usize = 4;

/// An interface that a section describes.
#[derive(Clone, Copy)]
pub(crate) struct Interface {
    /// The link type of its packets.
    pub link_type: u16,
    /// The most bytes that are captured of a packet, 0 where it is cut nowhere.
    pub snap_len: u32,
    /// What its times count, as if_tsresol has it. None where they don't count from the beginning of 1970.
    pub resolution: Option<u8>,
}

/// What a block says.
#[derive(Clone, Copy)]
pub(crate) enum Said<'a> {
    /// A section of this byte order begins.
    Section(Endian),
    /// The section has this interface.
    Interface(Interface),
    /// A packet.
    Packet(Packet<'a>),
    /// Nothing that is looked at.
    Other,
}

/// What an interface's times count, by its options. None where they don't count from the beginning of 1970.
fn resolution_of(endian: Endian, options: &[u8]) -> Option<u8>
    ensures { result ≡ resolution_in endian options.now }
{
    if option_of(endian, OFFSET_OPTION, options).is_some() {
        return None;
    }
    match option_of(endian, RESOLUTION_OPTION, options) {
        Some(value) if value.len() == 1 => Some(value[0]),
        _ => Some(MICROS),
    }
}

/// The time of an enhanced packet.
fn time_at(endian: Endian, resolution: Option<u8>, body: &[u8]) -> Option<Duration>
    requires { 20 ≤ length body.now }
    ensures { option_map as_nanos result ≡ enhanced_time endian resolution body.now }
{
    let high = u64::from(endian.read_u32(&body[HIGH_FIELD..]));
    let low = u64::from(endian.read_u32(&body[LOW_FIELD..]));
    time_of(resolution, (high << WORD_BITS) + low)
}

/// How many bytes an enhanced packet has in its block.
fn captured_len(endian: Endian, body: &[u8]) -> usize
    requires { 20 ≤ length body.now }
    ensures { result ≡ enhanced_len endian body.now }
{
    endian.read_u32(&body[CAPTURED_FIELD..]) as usize
}

/// The packet of this interface that an enhanced packet's body says, which gets this number and is whole.
fn whole_packet<'a>(
    endian: Endian,
    interface: Interface,
    number: usize,
    body: &'a [u8],
) -> Packet<'a>
    requires { 20 + enhanced_len endian body.now ≤ length body.now }
    ensures packet { seen result ≡ enhanced_of endian body.now interface }
    ensures number { result.number ≡ number }
{
    let (_, rest) = body.split_at(ENHANCED_HEAD_LEN);
    Packet {
        number,
        time: time_at(endian, interface.resolution, body),
        link_type: interface.link_type,
        bytes: &rest[..captured_len(endian, body)],
        original_len: endian.read_u32(&body[ORIGINAL_FIELD..]),
    }
}

/// The interface of an enhanced packet, where its section has described it.
fn interface_at(endian: Endian, interfaces: &[Interface], body: &[u8]) -> Option<Interface>
    requires { 4 ≤ length body.now }
    ensures { result ≡ slice_get interfaces.now (field endian 0 4 body.now) }
{
    interfaces.get(endian.read_u32(body) as usize).copied()
}

/// The packet that an enhanced packet's body says, which gets this number.
#[tactic(auto, unfolding(crate::specs::Bodies::enhanced_fault))]
fn enhanced_of<'a>(
    endian: Endian,
    interfaces: &[Interface],
    number: usize,
    body: &'a [u8],
) -> Result<Packet<'a>, Damage>
    ensures fault { IfErr result (λ damage. enhanced_fault endian interfaces.now body.now ≡ Some damage) }
    ensures good { IfOk result (λ p. enhanced_fault endian interfaces.now body.now ≡ None) }
    ensures packet { IfOk result (λ p. Some (seen p) ≡ enhanced_in endian interfaces.now body.now) }
    ensures number { IfOk result (λ p. p.number ≡ number) }
{
    if body.len() < ENHANCED_HEAD_LEN {
        return Err(Damage::Length);
    }
    let Some(interface) = interface_at(endian, interfaces, body) else {
        return Err(Damage::Interface);
    };
    if body.len() - ENHANCED_HEAD_LEN < captured_len(endian, body) {
        return Err(Damage::Length);
    }
    Ok(whole_packet(endian, interface, number, body))
}

/// How many bytes a simple packet of this interface has in its block, if it had so many on its link.
fn simple_len(original_len: u32, interface: Interface) -> u32
    ensures { result ≡ simple_len original_len interface }
{
    if interface.snap_len == 0 {
        original_len
    } else {
        original_len.min(interface.snap_len)
    }
}

/// The packet that a simple packet's body says, which gets this number.
#[tactic(auto, unfolding(crate::specs::Bodies::simple_fault))]
fn simple_of<'a>(
    endian: Endian,
    interfaces: &[Interface],
    number: usize,
    body: &'a [u8],
) -> Result<Packet<'a>, Damage>
    ensures fault { IfErr result (λ damage. simple_fault endian interfaces.now body.now ≡ Some damage) }
    ensures good { IfOk result (λ p. simple_fault endian interfaces.now body.now ≡ None) }
    ensures packet { IfOk result (λ p. Some (seen p) ≡ simple_in endian interfaces.now body.now) }
    ensures number { IfOk result (λ p. p.number ≡ number) }
{
    if body.len() < SIMPLE_HEAD_LEN {
        return Err(Damage::Length);
    }
    let Some(interface) = interfaces.get(0) else {
        return Err(Damage::Interface);
    };
    let (_, rest) = body.split_at(SIMPLE_HEAD_LEN);
    let original_len = endian.read_u32(body);
    let captured_len = simple_len(original_len, *interface) as usize;
    if rest.len() < captured_len {
        return Err(Damage::Length);
    }
    Ok(Packet {
        number,
        time: None,
        link_type: interface.link_type,
        bytes: &rest[..captured_len],
        original_len,
    })
}

/// What a block says, in a section with these interfaces; a packet gets this number.
#[tactic(auto, unfolding(crate::specs::Bodies::section_fault, crate::specs::Bodies::interface_fault))]
pub(crate) fn said_by<'a>(
    block: &Block<'a>,
    interfaces: &[Interface],
    number: usize,
) -> Result<Said<'a>, Damage>
    ensures fault { IfErr result (λ damage. body_fault block.now.kind block.now.endian interfaces.now block.now.body.now ≡ Some damage) }
    ensures good { IfOk result (λ said. body_fault block.now.kind block.now.endian interfaces.now block.now.body.now ≡ None) }
    ensures said { IfOk result (λ said. Says block.now.kind block.now.endian interfaces.now block.now.body.now said) }
    ensures number { IfOk result (HasNumber number) }
{
    let endian = block.endian;
    let body = block.body;
    match block.kind {
        SECTION_BLOCK => {
            if body.len() < SECTION_HEAD_LEN {
                return Err(Damage::Length);
            }
            if endian.read_u16(&body[MAJOR_FIELD..]) != MAJOR_VERSION {
                return Err(Damage::Version);
            }
            Ok(Said::Section(endian))
        }
        INTERFACE_BLOCK => {
            if body.len() < INTERFACE_HEAD_LEN {
                return Err(Damage::Length);
            }
            Ok(Said::Interface(Interface {
                link_type: endian.read_u16(body),
                snap_len: endian.read_u32(&body[SNAP_FIELD..]),
                resolution: resolution_of(endian, &body[INTERFACE_HEAD_LEN..]),
            }))
        }
        SIMPLE_BLOCK => match simple_of(endian, interfaces, number, body) {
            Ok(packet) => Ok(Said::Packet(packet)),
            Err(damage) => Err(damage),
        },
        ENHANCED_BLOCK => match enhanced_of(endian, interfaces, number, body) {
            Ok(packet) => Ok(Said::Packet(packet)),
            Err(damage) => Err(damage),
        },
        _ => Ok(Said::Other),
    }
}
