ghost use Rattle.std.specs.Prelude.{◌≡◌, ◌++◌, List, ℕ, OnOk};
ghost use Rattle.field_bytes.specs.Making.{IsSpelledBy, IsToldApart, MadeFits, Makes};

use crate::fault::ReadFault;
use crate::field::{Field, Put};
use std::alloc::{AllocError, Global};
use std::marker::PhantomData;

/// A value that is spelled by its parts, one behind the other.
pub trait Making {
    /// The parts.
    type Parts: Field;

    /// What is made of them.
    type Whole: Drop;

    // what can be made
    ghost Allows: { Self.Whole → Type 0 };

    // its parts
    ghost back: { Self.Whole → Self.Parts.Value };

    // the bytes that spell it
    ghost spelling: { Self.Whole → List ℕ };

    /// What has these parts.
    fn make(alloc: Global, parts: <Self::Parts as Field>::Value) -> Result<Self::Whole, ReadFault>
        ensures { Makes Allows back parts result };

    // No parts are those of two.
    ghost told: { IsToldApart Allows back };

    // Its spelling is that of its parts.
    ghost spelled: { IsSpelledBy back spelling Self.Parts.spelling };
}

/// The field of what is made of parts.
pub struct Made<M> {
    kind: PhantomData<M>,
}

impl<M: Making> Field for Made<M> {
    ghost use Rattle.field_bytes.specs.Making.{MadeFits, one_made};

    type Value = M::Whole;

    ghost Fits = { MadeFits M.Allows M.back M.Parts.Fits };

    ghost spelling = { M.spelling };

    ghost one = { one_made M.Allows M.back M.spelling M.Parts.Fits M.Parts.spelling M.told M.spelled M.Parts.one };

    fn read(alloc: Global, bytes: &[u8]) -> Result<(M::Whole, &[u8]), ReadFault> {
        let (parts, rest) = M::Parts::read(alloc, bytes)?;
        Ok((M::make(alloc, parts)?, rest))
    }
}

/// What is written by its parts.
pub trait Writing: Making {
    /// Appends the bytes that spell it. The only errors are out of memory, and what has no spelling.
    fn put_parts(whole: &Self::Whole, out: &mut Vec<u8>) -> Result<(), AllocError>
        ensures ok { OnOk result (out.new.items ≡ out.old.items ++ Self.spelling whole.now) }
        ensures fits { OnOk result (MadeFits Self.Allows Self.back Self.Parts.Fits whole.now) };
}

impl<M: Writing> Put for Made<M> {
    fn put(value: &M::Whole, out: &mut Vec<u8>) -> Result<(), AllocError> {
        M::put_parts(value, out)
    }
}
