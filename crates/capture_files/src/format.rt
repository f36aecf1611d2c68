ghost use Rattle.std.specs.Prelude.{◌≡◌, ◌≤◌, ◌<◌, [], length, None, Some, IfErr, IfOk};
ghost use Rattle.capture_files.specs.Bodies.{HasNumber};
ghost use Rattle.capture_files.specs.Files.{BeginsWith, IsDamaged, Starts, opening_fault};

use crate::block::{BLOCK_FRAME_LEN, SECTION_BLOCK, block_of};
use crate::body::{Interface, Said, said_by};
use crate::endian::Endian;
use crate::fault::Damage;
use crate::record::{Classic, RECORD_HEADER_LEN, magic_of, read_record};
use byteorder::{BigEndian, ByteOrder};

/// Bytes of a file's magic number.
const MAGIC_LEN: usize = 4;
/// Bytes of a classic pcap file before its first record (draft-ietf-opsawg-pcap, 4).
const FILE_HEADER_LEN: usize = 24;
/// Where the major version stands in that header.
const MAJOR_FIELD: usize = 4;
/// The major version of classic pcap files.
const MAJOR_VERSION: u16 = 2;
/// Where the link type stands in the header.
const LINK_TYPE_FIELD: usize = 20;
/// The bits of that field which are the link type.
const LINK_TYPE_MASK: u32 = 0xffff;

/// How a file goes on.
#[derive(Clone, Copy)]
pub(crate) enum Format {
    /// With the records of a classic pcap file.
    Records(Classic),
    /// With the blocks of a pcapng file, in a section of this byte order. The first block begins a section of its own.
    Blocks(Endian),
}

/// How the file goes on from its beginning, and from where: a classic pcap file with the records after its header, a pcapng
/// file with its first block.
#[tactic(auto, unfolding(crate::specs::Files::opening_fault, crate::specs::Records::header_fault))]
pub(crate) fn read_opening(file: &[u8]) -> Result<(Format, &[u8]), Damage>
    ensures fault { IfErr result (λ damage. opening_fault file.now ≡ Some damage) }
    ensures good { IfOk result (λ r. opening_fault file.now ≡ None) }
    ensures starts { IfOk result (λ r. Starts file.now (record { format = r.0; interfaces = [] }) r.1.now) }
    ensures within { IfOk result (λ r. length r.1.now ≤ length file.now) }
{
    if file.len() < MAGIC_LEN {
        return Err(Damage::Short);
    }
    if BigEndian::read_u32(file) == SECTION_BLOCK {
        return Ok((Format::Blocks(Endian::Big), file));
    }
    let Some((endian, unit)) = magic_of(file) else {
        return Err(Damage::Magic);
    };
    if file.len() < FILE_HEADER_LEN {
        return Err(Damage::Short);
    }
    if endian.read_u16(&file[MAJOR_FIELD..]) != MAJOR_VERSION {
        return Err(Damage::Version);
    }
    let link_type = (endian.read_u32(&file[LINK_TYPE_FIELD..]) & LINK_TYPE_MASK) as u16;
    let form = Classic {
        endian,
        unit,
        link_type,
    };
    let (_, records) = file.split_at(FILE_HEADER_LEN);
    Ok((Format::Records(form), records))
}

/// What the first record or block says, and its length in bytes. A packet gets this number.
pub(crate) fn read_next<'a>(
    format: Format,
    interfaces: &[Interface],
    number: usize,
    bytes: &'a [u8],
) -> Result<(Said<'a>, usize), Damage>
    ensures fault { IfErr result (λ damage. IsDamaged format interfaces.now bytes.now damage) }
    ensures said { IfOk result (λ r. BeginsWith format interfaces.now bytes.now r.0 r.1) }
    ensures number { IfOk result (λ r. HasNumber number r.0) }
    ensures some { IfOk result (λ r. 0 < r.1) }
    ensures fits { IfOk result (λ r. r.1 ≤ length bytes.now) }
{
    match format {
        Format::Records(form) => {
            let packet = match read_record(form, number, bytes) {
                Ok(packet) => packet,
                Err(damage) => return Err(damage),
            };
            Ok((Said::Packet(packet), RECORD_HEADER_LEN + packet.bytes.len()))
        }
        Format::Blocks(section) => {
            let block = match block_of(section, bytes) {
                Ok(block) => block,
                Err(damage) => return Err(damage),
            };
            match said_by(&block, interfaces, number) {
                Ok(said) => Ok((said, BLOCK_FRAME_LEN + block.body.len())),
                Err(damage) => Err(damage),
            }
        }
    }
}
