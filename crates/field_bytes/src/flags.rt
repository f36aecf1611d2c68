use crate::fault::ReadFault;
use crate::field::{Field, Put};
use std::alloc::{AllocError, Global};

/// What is true or not, in 1 byte: 1 or 0.
pub struct Flag;

impl Field for Flag {
    ghost use Rattle.std.specs.Prelude.{◌∷◌, []};
    ghost use Rattle.field_bytes.specs.NumberLaws.{flag_byte, one_flag};

    type Value = bool;

    ghost Fits = { λ flag. Unit {0} };

    ghost spelling = { λ flag. flag_byte flag ∷ [] };

    ghost one = { one_flag };

    fn read(_alloc: Global, bytes: &[u8]) -> Result<(bool, &[u8]), ReadFault> {
        match bytes {
            [0, rest @ ..] => Ok((false, rest)),
            [1, rest @ ..] => Ok((true, rest)),
            _ => Err(ReadFault::Format),
        }
    }
}

impl Put for Flag {
    fn put(value: &bool, out: &mut Vec<u8>) -> Result<(), AllocError> {
        out.extend_from_slice(&[if *value { 1 } else { 0 }])
    }
}
