use crate::octets::put_byte;
use crate::prefixes::PrefixField;
use crate::subobjects::is_other_step;
use field_bytes::{
    Both, Choice, Counted, Flag, Made, Making, Octets, OneOf, Only, Pair, Put, ReadFault, Writing,
    put_counted,
};
use rsvp_bodies::{OtherStep, Prefix, Step};
use std::alloc::{AllocError, Global};

/// The kind of a step to an IPv4 prefix, and of one of another type.
const STEP_IPV4: u8 = 1;

const STEP_OTHER: u8 = 2;

/// How a step is spelled: by 1, whether it is loose and its prefix; or by 2 and its bytes.
pub struct StepParts;

/// A step of a route.
pub type StepField = Made<StepParts>;

impl Making for StepParts {
    ghost use Rattle.std.specs.Prelude.{refl};
    ghost use Rattle.rsvp_bodies.specs.declared.step.Step.TheVariants as steps;
    ghost use Rattle.journal_bytes.specs.Events.{step_bytes};
    ghost use Rattle.body_fields.specs.Steps.{IsKeptStep, step_parts, step_told};

    type Parts = Choice<1, Both<1, Only<Pair<Flag, PrefixField>>, Only<Counted>>>;

    type Whole = Step;

    ghost Allows = { IsKeptStep };

    ghost back = { step_parts };

    ghost spelling = { step_bytes };

    ghost told = { step_told };

    ghost spelled = { elim [ steps.Ipv4 loose prefix ↦ refl | steps.Other bytes ↦ refl ] };

    fn make(_alloc: Global, parts: OneOf<(bool, Prefix), Octets>) -> Result<Step, ReadFault> {
        match parts {
            OneOf::This((loose, prefix)) => Ok(Step::Ipv4 { loose, prefix }),
            OneOf::Other(bytes) if is_other_step(bytes.as_slice()) => {
                Ok(Step::Other(OtherStep::from_vec(bytes.into_vec())))
            }
            OneOf::Other(_) => Err(ReadFault::Format),
        }
    }
}

impl Writing for StepParts {
    fn put_parts(step: &Step, out: &mut Vec<u8>) -> Result<(), AllocError> {
        match step {
            Step::Ipv4 { loose, prefix } => {
                put_byte(STEP_IPV4, out)?;
                Flag::put(loose, out)?;
                PrefixField::put(prefix, out)
            }
            Step::Other(other) => {
                put_byte(STEP_OTHER, out)?;
                put_counted(other.as_slice(), out)
            }
        }
    }
}
