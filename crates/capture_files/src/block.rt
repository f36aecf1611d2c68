ghost use Rattle.std.specs.Prelude.{◌≡◌, ◌≤◌, length, Some, IfErr, IfOk};
ghost use Rattle.capture_files.specs.Blocks.{IsBlock, frame_fault, order_in};

use crate::endian::Endian;
use crate::fault::Damage;
use crate::options::WORD_LEN;
use byteorder::{BigEndian, ByteOrder};

/// The type of a section's header, the same in both byte orders (draft-ietf-opsawg-pcapng, 4.1).
pub(crate) const SECTION_BLOCK: u32 = 0x0a0d_0d0a;
/// Bytes of a block's type and its two lengths (draft-ietf-opsawg-pcapng, 3.1).
pub(crate) const BLOCK_FRAME_LEN: usize = 12;
/// Where a block's length stands in it.
const LENGTH_FIELD: usize = 4;
/// Where its body begins.
const BODY_START: usize = 8;
/// The byte-order magic of a section whose numbers have the highest byte first.
const MAGIC_BIG: u32 = 0x1a2b_3c4d;
/// The same, with the lowest byte first.
const MAGIC_LITTLE: u32 = 0x4d3c_2b1a;

/// A block of a pcapng file, where it lies.
#[derive(Clone, Copy)]
pub(crate) struct Block<'a> {
    /// The byte order of its numbers.
    pub endian: Endian,
    /// Its type.
    pub kind: u32,
    /// What stands between its two lengths.
    pub body: &'a [u8],
}

/// The byte order of the first block, in a section of this one. None where it begins a section of an unknown one.
fn order_of(section: Endian, bytes: &[u8]) -> Option<Endian>
    requires { 12 ≤ length bytes.now }
    ensures { result ≡ order_in section bytes.now }
{
    if BigEndian::read_u32(bytes) != SECTION_BLOCK {
        return Some(section);
    }
    match BigEndian::read_u32(&bytes[BODY_START..]) {
        MAGIC_BIG => Some(Endian::Big),
        MAGIC_LITTLE => Some(Endian::Little),
        _ => None,
    }
}

/// The first block, in a section of this byte order, or its first fault.
#[tactic(auto, unfolding(crate::specs::Blocks::frame_fault, crate::specs::Blocks::length_fault))]
pub(crate) fn block_of(section: Endian, bytes: &[u8]) -> Result<Block<'_>, Damage>
    ensures fault { IfErr result (λ damage. frame_fault section bytes.now ≡ Some damage) }
    ensures block { IfOk result (λ block. IsBlock section bytes.now block) }
{
    if bytes.len() < BLOCK_FRAME_LEN {
        return Err(Damage::Short);
    }
    let Some(endian) = order_of(section, bytes) else {
        return Err(Damage::Magic);
    };
    let len = endian.read_u32(&bytes[LENGTH_FIELD..]) as usize;
    if len < BLOCK_FRAME_LEN || len % WORD_LEN != 0 {
        return Err(Damage::Length);
    }
    if bytes.len() < len {
        return Err(Damage::Short);
    }
    let (front, end) = bytes.split_at(len - WORD_LEN);
    if endian.read_u32(end) as usize != len {
        return Err(Damage::Length);
    }
    Ok(Block {
        endian,
        kind: endian.read_u32(bytes),
        body: &front[BODY_START..],
    })
}
