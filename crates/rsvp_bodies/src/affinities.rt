ghost use Rattle.std.specs.Prelude.{◌≡◌, ◌≤◌, ◌++◌, OnOk, OnErr, length};
ghost use Rattle.rsvp_bodies.specs.Affinities.{affinities_at, affinities_body, IsAffinities};

use byteorder::{BigEndian, ByteOrder};
use std::alloc::AllocError;

/// Resource affinities (RFC 3209, 4.7.2): sets of link attributes, a bit each.
#[derive(Clone, Copy, Debug, PartialEq, Eq)]
pub struct Affinities {
    /// No link with any of these may be used.
    pub exclude_any: u32,
    /// Only links with at least one of these may be used, or any link where the set is empty.
    pub include_any: u32,
    /// Only links with all of these may be used.
    pub include_all: u32,
}

/// The affinities in the first twelve bytes.
pub(crate) fn affinities_of(body: &[u8]) -> Affinities
    requires { 12 ≤ length body.now }
    ensures { result ≡ affinities_at body.now }
{
    Affinities {
        exclude_any: BigEndian::read_u32(body),
        include_any: BigEndian::read_u32(&body[4..]),
        include_all: BigEndian::read_u32(&body[8..]),
    }
}

/// Appends the affinities, which stand before the rest of the body. The only error is out of memory, which
/// leaves `out` as it was.
pub(crate) fn write_affinities(affinities: Affinities, out: &mut Vec<u8>) -> Result<(), AllocError>
    ensures ok { OnOk result (out.new.items ≡ out.old.items ++ affinities_body affinities) }
    ensures err { OnErr result (out.new.items ≡ out.old.items) }
    ensures fits { IsAffinities affinities }
{
    let [a, b, c, d] = affinities.exclude_any.to_be_bytes();
    let [e, f, g, h] = affinities.include_any.to_be_bytes();
    let [i, j, k, l] = affinities.include_all.to_be_bytes();
    out.extend_from_slice(&[a, b, c, d, e, f, g, h, i, j, k, l])
}
