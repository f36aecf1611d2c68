ghost use Rattle.std.specs.Prelude.{◌≡◌};

use crate::prefix::{Prefix, prefix_of};
use crate::route_numbers::{HEAD_LEN, IPV4_LEN, IPV4_TYPE, LOOSE, PREFIX_TAIL_LEN};
use crate::subobject::Subobject;
use crate::{Kept, ObjectFault, Rule};
use std::alloc::{AllocError, Global};

/// A step of an explicit route (RFC 3209, 4.3.3).
#[derive(Debug, PartialEq, Eq, Drop)]
pub enum Step {
    /// To one of the prefix's nodes (RFC 3209, 4.3.3.2): over no other node, or, where the step is loose,
    /// over any (RFC 3209, 4.3.3.1).
    Ipv4 { loose: bool, prefix: Prefix },
    /// A step of another type.
    Other(OtherStep),
}

/// The rule of steps of another type than IPv4: with their type and their length, whole words of four bytes.
#[derive(Debug, Drop)]
pub struct OtherStepRule;

impl Rule for OtherStepRule {
    ghost use Rattle.rsvp_bodies.specs.Subobjects.{IsOtherStep};

    ghost Allows = { IsOtherStep };
}

/// A step that isn't of type IPv4, kept byte for byte as it came, with its type and its length.
pub type OtherStep = Kept<OtherStepRule>;

impl Clone for Step {
    ghost is_clone = { λ source copy. copy ≡ source };

    /// A copy of the step. The only error is out of memory.
    fn clone(&self) -> Result<Step, AllocError> {
        match self {
            Step::Ipv4 { loose, prefix } => Ok(Step::Ipv4 {
                loose: *loose,
                prefix: *prefix,
            }),
            Step::Other(other) => Ok(Step::Other(other.clone()?)),
        }
    }
}

impl Subobject for Step {
    ghost use Rattle.rsvp_bodies.specs.Steps.{SpellsStep, step_bytes};
    ghost use Rattle.rsvp_bodies.specs.StepLaws.{equal_is_same_lem, is_subobject_lem, one_value_lem, same_length_lem};

    ghost Spells = { SpellsStep };

    ghost spelling = { step_bytes };

    ghost is_subobject = { is_subobject_lem };

    ghost one_value = { one_value_lem };

    ghost same_length = { same_length_lem };

    ghost clones_equal = { λ source copy same. same };

    ghost equal_is_same = { equal_is_same_lem };

    fn read(alloc: Global, bytes: &[u8]) -> Result<Step, ObjectFault> {
        match bytes {
            [kind, IPV4_LEN, prefix @ .., _] if kind & !LOOSE == IPV4_TYPE => Ok(Step::Ipv4 {
                loose: kind & LOOSE != 0,
                prefix: prefix_of(prefix),
            }),
            [kind, ..] if kind & !LOOSE == IPV4_TYPE => Err(ObjectFault::Length),
            _ => Ok(Step::Other(OtherStep::copy_of(alloc, bytes)?)),
        }
    }

    fn write(&self, out: &mut Vec<u8>) -> Result<(), AllocError> {
        match self {
            Step::Ipv4 { loose, prefix } => {
                let kind = if *loose { LOOSE | IPV4_TYPE } else { IPV4_TYPE };
                let [a, b, c, d] = prefix.address.octets();
                out.extend_from_slice(&[kind, IPV4_LEN, a, b, c, d, prefix.length, 0])
            }
            Step::Other(other) => out.extend_from_slice(other.as_slice()),
        }
    }

    fn byte_len(&self) -> usize {
        match self {
            Step::Ipv4 { prefix, .. } => HEAD_LEN + prefix.address.octets().len() + PREFIX_TAIL_LEN,
            Step::Other(other) => other.as_slice().len(),
        }
    }
}
