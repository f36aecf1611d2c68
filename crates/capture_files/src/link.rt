ghost use Rattle.std.specs.Prelude.{◌≡◌, ◌≤◌, drop, option_map};
ghost use Rattle.capture_files.specs.Links.{after_tags, has_tag, ip_after, ip_in};

use byteorder::{BigEndian, ByteOrder};

/// The link type of Ethernet (draft-ietf-opsawg-pcaplinktype).
const ETHERNET: u16 = 1;
/// The link type of Linux's cooked packets.
const COOKED: u16 = 113;
/// The link type of their version 2.
const COOKED_2: u16 = 276;
/// The link type of raw IP packets.
const RAW_IP: u16 = 101;
/// The link type of raw IPv4 packets.
const RAW_IPV4: u16 = 228;
/// What some systems write for raw IP packets.
const RAW_BSD: u16 = 12;
/// The same, of OpenBSD.
const RAW_OPENBSD: u16 = 14;

/// Bytes of the two addresses before the EtherType of an Ethernet frame (RFC 894).
const ADDRESSES_LEN: usize = 12;
/// Bytes before the EtherType of a cooked packet.
const COOKED_LEN: usize = 14;
/// Bytes of the header of a cooked packet of version 2. It begins with the EtherType.
const COOKED_2_LEN: usize = 20;
/// Bytes of an EtherType.
const ETHERTYPE_LEN: usize = 2;
/// The EtherType of IPv4.
const IPV4: u16 = 0x0800;
/// The EtherType of an IEEE 802.1Q tag.
const TAG: u16 = 0x8100;
/// The EtherType of an outer tag.
const OUTER_TAG: u16 = 0x88a8;
/// Bytes of a tag with its EtherType.
const TAG_LEN: usize = 4;
/// The most tags that are passed over.
const MAX_TAGS: usize = 8;

/// Whether a tag stands first, and an EtherType after it.
fn has_tag(bytes: &[u8]) -> bool
    ensures { result ≡ has_tag bytes.now }
{
    if bytes.len() < TAG_LEN {
        return false;
    }
    let ethertype = BigEndian::read_u16(bytes);
    ethertype == TAG || ethertype == OUTER_TAG
}

/// What stands after so many bytes and the tags that follow them; nothing, where there are fewer.
fn after_tags(bytes: &[u8], start: usize) -> &[u8]
    ensures { result.now ≡ after_tags 8 (drop start bytes.now) }
{
    if bytes.len() < start {
        return &[];
    }
    let mut left = MAX_TAGS;
    let (_, mut rest) = bytes.split_at(start);
    while left > 0 {
        if !has_tag(rest) {
            return rest;
        }
        left -= 1;
        let (_, behind) = rest.split_at(TAG_LEN);
        rest = behind;
    }
    rest
}

/// The IPv4 packet after a header of so many bytes, which begins with its EtherType.
fn ip_after(header_len: usize, bytes: &[u8]) -> Option<&[u8]>
    requires { 2 ≤ header_len }
    ensures { option_map (λ ip. ip.now) result ≡ ip_after header_len bytes.now }
{
    if bytes.len() >= header_len && BigEndian::read_u16(bytes) == IPV4 {
        Some(&bytes[header_len..])
    } else {
        None
    }
}

/// The IP packet of a packet of this link type. None where it has none, or its link type isn't known.
#[tactic(auto, unfolding(crate::specs::Links::ip_in))]
pub(crate) fn ip_in(link_type: u16, bytes: &[u8]) -> Option<&[u8]>
    ensures { option_map (λ ip. ip.now) result ≡ ip_in link_type bytes.now }
{
    match link_type {
        ETHERNET => ip_after(ETHERTYPE_LEN, after_tags(bytes, ADDRESSES_LEN)),
        COOKED => ip_after(ETHERTYPE_LEN, after_tags(bytes, COOKED_LEN)),
        COOKED_2 => ip_after(COOKED_2_LEN, bytes),
        RAW_IP | RAW_IPV4 | RAW_BSD | RAW_OPENBSD => Some(bytes),
        _ => None,
    }
}
