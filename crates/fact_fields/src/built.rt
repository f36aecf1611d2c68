ghost use Rattle.std.specs.Prelude.{◌≡◌, ◌++◌, List, ℕ, OnOk};
ghost use Rattle.field_bytes.specs.Making.{IsSpelledBy, IsToldApart, MadeFits, Makes};

use field_bytes::{Field, Put, ReadFault};
use std::alloc::{AllocError, Global};
use std::marker::PhantomData;

/// How a value of a type that isn't this crate's is spelled: by its parts, one after the other.
pub trait MakingOf<W> {
    /// The parts.
    type Parts: Field;

    // what can be made
    ghost Allows: { W → Type 0 };

    // its parts
    ghost back: { W → Self.Parts.Value };

    // the bytes that spell it
    ghost spelling: { W → List ℕ };

    /// What has these parts.
    fn make(alloc: Global, parts: <Self::Parts as Field>::Value) -> Result<W, ReadFault>
        ensures { Makes Allows back parts result };

    // No parts are those of two.
    ghost told: { IsToldApart Allows back };

    // Its spelling is that of its parts.
    ghost spelled: { IsSpelledBy back spelling Self.Parts.spelling };
}

/// The field of what is made so of parts.
pub struct Built<W, M> {
    kinds: PhantomData<(W, M)>,
}

impl<W: Drop, M: MakingOf<W>> Field for Built<W, M> {
    ghost use Rattle.field_bytes.specs.Making.{MadeFits, one_made};

    type Value = W;

    ghost Fits = { MadeFits M.Allows M.back M.Parts.Fits };

    ghost spelling = { M.spelling };

    ghost one = { one_made M.Allows M.back M.spelling M.Parts.Fits M.Parts.spelling M.told M.spelled M.Parts.one };

    fn read(alloc: Global, bytes: &[u8]) -> Result<(W, &[u8]), ReadFault> {
        let (parts, rest) = M::Parts::read(alloc, bytes)?;
        Ok((M::make(alloc, parts)?, rest))
    }
}

/// What is written so by its parts.
pub trait WritingOf<W>: MakingOf<W> {
    /// Appends the bytes that spell it. The only errors are out of memory, and what has no spelling.
    fn put_parts(whole: &W, out: &mut Vec<u8>) -> Result<(), AllocError>
        ensures ok { OnOk result (out.new.items ≡ out.old.items ++ Self.spelling whole.now) }
        ensures fits { OnOk result (MadeFits Self.Allows Self.back Self.Parts.Fits whole.now) };
}

impl<W: Drop, M: WritingOf<W>> Put for Built<W, M> {
    fn put(value: &W, out: &mut Vec<u8>) -> Result<(), AllocError> {
        M::put_parts(value, out)
    }
}
