use crate::octets::put_byte;
use crate::prefixes::PrefixField;
use crate::subobjects::is_other_trace;
use field_bytes::{
    Both, Byte, Choice, Counted, Made, Making, Octets, OneOf, Only, Pair, Put, ReadFault, Word,
    Writing, put_counted,
};
use rsvp_bodies::{OtherTrace, Prefix, Trace};
use std::alloc::{AllocError, Global};

/// The kind of an address, of a label, and of another entry.
const TRACE_IPV4: u8 = 1;

const TRACE_LABEL: u8 = 3;

const TRACE_OTHER: u8 = 255;

/// How an entry of a recorded route is spelled: by 1, its prefix and its flags; by 3, its flags and its label; or by 255 and its bytes.
pub struct TraceParts;

/// An entry of a recorded route.
pub type TraceField = Made<TraceParts>;

/// What follows an entry's kind, by the kind.
type TraceKinds = Both<
    2,
    Only<Pair<PrefixField, Byte>>,
    Both<252, Only<Pair<Byte, Word>>, Only<Counted>>,
>;

impl Making for TraceParts {
    ghost use Rattle.std.specs.Prelude.{refl};
    ghost use Rattle.rsvp_bodies.specs.declared.trace.Trace.TheVariants as traces;
    ghost use Rattle.body_fields.specs.Routes.{trace_bytes};
    ghost use Rattle.body_fields.specs.Traces.{IsKeptTrace, trace_parts, trace_told};

    type Parts = Choice<1, TraceKinds>;

    type Whole = Trace;

    ghost Allows = { IsKeptTrace };

    ghost back = { trace_parts };

    ghost spelling = { trace_bytes };

    ghost told = { trace_told };

    ghost spelled = { elim [ traces.Ipv4 prefix flags ↦ refl | traces.Label flags label ↦ refl | traces.Other bytes ↦ refl ] };

    fn make(
        _alloc: Global,
        parts: OneOf<(Prefix, u8), OneOf<(u8, u32), Octets>>,
    ) -> Result<Trace, ReadFault> {
        match parts {
            OneOf::This((prefix, flags)) => Ok(Trace::Ipv4 { prefix, flags }),
            OneOf::Other(OneOf::This((flags, label))) => Ok(Trace::Label { flags, label }),
            OneOf::Other(OneOf::Other(bytes)) if is_other_trace(bytes.as_slice()) => {
                Ok(Trace::Other(OtherTrace::from_vec(bytes.into_vec())))
            }
            OneOf::Other(OneOf::Other(_)) => Err(ReadFault::Format),
        }
    }
}

impl Writing for TraceParts {
    fn put_parts(trace: &Trace, out: &mut Vec<u8>) -> Result<(), AllocError> {
        match trace {
            Trace::Ipv4 { prefix, flags } => {
                put_byte(TRACE_IPV4, out)?;
                PrefixField::put(prefix, out)?;
                put_byte(*flags, out)
            }
            Trace::Label { flags, label } => {
                put_byte(TRACE_LABEL, out)?;
                put_byte(*flags, out)?;
                Word::put(label, out)
            }
            Trace::Other(other) => {
                put_byte(TRACE_OTHER, out)?;
                put_counted(other.as_slice(), out)
            }
        }
    }
}
