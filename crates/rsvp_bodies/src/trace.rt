ghost use Rattle.std.specs.Prelude.{◌≡◌};

use crate::prefix::{Prefix, prefix_of};
use crate::route_numbers::{
    HEAD_LEN, IPV4_LEN, IPV4_TYPE, LABEL_C_TYPE, LABEL_LEN, LABEL_TYPE, PREFIX_TAIL_LEN,
};
use crate::subobject::Subobject;
use crate::{Kept, ObjectFault, Rule};
use byteorder::{BigEndian, ByteOrder};
use std::alloc::{AllocError, Global};

/// An entry of a recorded route (RFC 3209, 4.4.1).
#[derive(Debug, PartialEq, Eq, Drop)]
pub enum Trace {
    /// A node on the way, by an address of its own (RFC 3209, 4.4.1.1). Its flags: 0x01 local protection
    /// available, 0x02 in use; 0x04 bandwidth protection, 0x08 node protection (RFC 4090, 4.4).
    Ipv4 { prefix: Prefix, flags: u8 },
    /// The label that a node gave out, of the C-Type that a LABEL object has (RFC 3209, 4.4.1.3). Its flag
    /// 0x01 says that the label is taken on every link of the node.
    Label { flags: u8, label: u32 },
    /// An entry of another type, or a label in another form.
    Other(OtherTrace),
}

/// The rule of entries that are neither an IPv4 address nor a label in the form of [`Trace::Label`].
#[derive(Debug, Drop)]
pub struct OtherTraceRule;

impl Rule for OtherTraceRule {
    ghost use Rattle.rsvp_bodies.specs.Subobjects.{IsOtherTrace};

    ghost Allows = { IsOtherTrace };
}

/// An entry that is neither an IPv4 address nor a label in the form of [`Trace::Label`], kept byte for byte
/// as it came, with its type and its length.
pub type OtherTrace = Kept<OtherTraceRule>;

impl Clone for Trace {
    ghost is_clone = { λ source copy. copy ≡ source };

    /// A copy of the entry. The only error is out of memory.
    fn clone(&self) -> Result<Trace, AllocError> {
        match self {
            Trace::Ipv4 { prefix, flags } => Ok(Trace::Ipv4 {
                prefix: *prefix,
                flags: *flags,
            }),
            Trace::Label { flags, label } => Ok(Trace::Label {
                flags: *flags,
                label: *label,
            }),
            Trace::Other(other) => Ok(Trace::Other(other.clone()?)),
        }
    }
}

impl Subobject for Trace {
    ghost use Rattle.rsvp_bodies.specs.Traces.{SpellsTrace, trace_bytes};
    ghost use Rattle.rsvp_bodies.specs.TraceLaws.{equal_is_same_lem, is_subobject_lem, one_value_lem, same_length_lem};

    ghost Spells = { SpellsTrace };

    ghost spelling = { trace_bytes };

    ghost is_subobject = { is_subobject_lem };

    ghost one_value = { one_value_lem };

    ghost same_length = { same_length_lem };

    ghost clones_equal = { λ source copy same. same };

    ghost equal_is_same = { equal_is_same_lem };

    fn read(alloc: Global, bytes: &[u8]) -> Result<Trace, ObjectFault> {
        match bytes {
            [IPV4_TYPE, IPV4_LEN, prefix @ .., flags] => Ok(Trace::Ipv4 {
                prefix: prefix_of(prefix),
                flags: *flags,
            }),
            [IPV4_TYPE, ..] => Err(ObjectFault::Length),
            [LABEL_TYPE, LABEL_LEN, flags, LABEL_C_TYPE, label @ ..] => Ok(Trace::Label {
                flags: *flags,
                label: BigEndian::read_u32(label),
            }),
            _ => Ok(Trace::Other(OtherTrace::copy_of(alloc, bytes)?)),
        }
    }

    fn write(&self, out: &mut Vec<u8>) -> Result<(), AllocError> {
        match self {
            Trace::Ipv4 { prefix, flags } => {
                let [a, b, c, d] = prefix.address.octets();
                out.extend_from_slice(&[IPV4_TYPE, IPV4_LEN, a, b, c, d, prefix.length, *flags])
            }
            Trace::Label { flags, label } => {
                let mut number = [0; 4];
                BigEndian::write_u32(&mut number, *label);
                let [a, b, c, d] = number;
                out.extend_from_slice(&[LABEL_TYPE, LABEL_LEN, *flags, LABEL_C_TYPE, a, b, c, d])
            }
            Trace::Other(other) => out.extend_from_slice(other.as_slice()),
        }
    }

    fn byte_len(&self) -> usize {
        match self {
            Trace::Ipv4 { prefix, .. } => HEAD_LEN
                + prefix.address.octets().len()
                + PREFIX_TAIL_LEN,
            Trace::Label { .. } => usize::from(LABEL_LEN),
            Trace::Other(other) => other.as_slice().len(),
        }
    }
}
