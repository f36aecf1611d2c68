use crate::fault::ReadFault;
use crate::field::{Field, Put};
use std::alloc::{AllocError, Global};

/// No bytes at all.
pub struct Nothing;

impl Field for Nothing {
    ghost use Rattle.std.specs.Prelude.{[]};
    ghost use Rattle.field_bytes.specs.NumberLaws.{one_nothing};

    type Value = ();

    ghost Fits = { λ nothing. Unit {0} };

    ghost spelling = { λ nothing. [] };

    ghost one = { one_nothing };

    fn read(_alloc: Global, bytes: &[u8]) -> Result<((), &[u8]), ReadFault> {
        Ok(((), bytes))
    }
}

/// A number of 1 byte.
pub struct Byte;

impl Field for Byte {
    ghost use Rattle.std.specs.Prelude.{◌<◌, ◌^◌, ◌∷◌, []};
    ghost use Rattle.field_bytes.specs.NumberLaws.{one_byte};

    type Value = u8;

    ghost Fits = { λ n. n < 2 ^ 8 };

    ghost spelling = { λ n. n ∷ [] };

    ghost one = { one_byte };

    fn read(_alloc: Global, bytes: &[u8]) -> Result<(u8, &[u8]), ReadFault> {
        match bytes {
            [a, rest @ ..] => Ok((*a, rest)),
            _ => Err(ReadFault::Format),
        }
    }
}

/// A number of 2 bytes, the highest first.
pub struct Short;

impl Field for Short {
    ghost use Rattle.std.specs.Prelude.{◌<◌, ◌^◌};
    ghost use Rattle.std.specs.Int.{to_be_bytes, w16};
    ghost use Rattle.field_bytes.specs.NumberLaws.{one_short};

    type Value = u16;

    ghost Fits = { λ n. n < 2 ^ 16 };

    ghost spelling = { to_be_bytes w16 };

    ghost one = { one_short };

    fn read(_alloc: Global, bytes: &[u8]) -> Result<(u16, &[u8]), ReadFault> {
        match bytes {
            [a, b, rest @ ..] => Ok((u16::from_be_bytes([*a, *b]), rest)),
            _ => Err(ReadFault::Format),
        }
    }
}

/// A number of 4 bytes, the highest first.
pub struct Word;

impl Field for Word {
    ghost use Rattle.std.specs.Prelude.{◌<◌, ◌^◌};
    ghost use Rattle.std.specs.Int.{to_be_bytes, w32};
    ghost use Rattle.field_bytes.specs.NumberLaws.{one_word};

    type Value = u32;

    ghost Fits = { λ n. n < 2 ^ 32 };

    ghost spelling = { to_be_bytes w32 };

    ghost one = { one_word };

    fn read(_alloc: Global, bytes: &[u8]) -> Result<(u32, &[u8]), ReadFault> {
        match bytes {
            [a, b, c, d, rest @ ..] => Ok((u32::from_be_bytes([*a, *b, *c, *d]), rest)),
            _ => Err(ReadFault::Format),
        }
    }
}

/// A number of 8 bytes, the highest first.
pub struct Long;

impl Field for Long {
    ghost use Rattle.std.specs.Prelude.{◌<◌, ◌^◌};
    ghost use Rattle.std.specs.Int.{to_be_bytes, w64};
    ghost use Rattle.field_bytes.specs.NumberLaws.{one_long};

    type Value = u64;

    ghost Fits = { λ n. n < 2 ^ 64 };

    ghost spelling = { to_be_bytes w64 };

    ghost one = { one_long };

    fn read(_alloc: Global, bytes: &[u8]) -> Result<(u64, &[u8]), ReadFault> {
        match bytes {
            [a, b, c, d, e, f, g, h, rest @ ..] => Ok((
                u64::from_be_bytes([*a, *b, *c, *d, *e, *f, *g, *h]),
                rest,
            )),
            _ => Err(ReadFault::Format),
        }
    }
}

impl Put for Short {
    fn put(value: &u16, out: &mut Vec<u8>) -> Result<(), AllocError> {
        out.extend_from_slice(&value.to_be_bytes())
    }
}

impl Put for Word {
    fn put(value: &u32, out: &mut Vec<u8>) -> Result<(), AllocError> {
        out.extend_from_slice(&value.to_be_bytes())
    }
}

impl Put for Long {
    fn put(value: &u64, out: &mut Vec<u8>) -> Result<(), AllocError> {
        out.extend_from_slice(&value.to_be_bytes())
    }
}
