ghost use Rattle.std.specs.Prelude.{◌≡◌, ◌++◌, List, ℕ, OnOk};
ghost use Rattle.field_bytes.specs.Spelling.{Answers, IsOne};

use crate::fault::ReadFault;
use std::alloc::{AllocError, Global};

/// A kind of field in a file.
pub trait Field {
    /// What a field of this kind says.
    type Value: Drop;

    // the values that have a spelling
    ghost Fits: { Self.Value → Type 0 };

    // the bytes that spell a value
    ghost spelling: { Self.Value → List ℕ };

    /// The value that stands at the head of the bytes, and the bytes behind it.
    fn read(alloc: Global, bytes: &[u8]) -> Result<(Self::Value, &[u8]), ReadFault>
        ensures { Answers Fits spelling bytes.now result };

    // No bytes begin with the spellings of two values.
    ghost one: { IsOne Fits spelling };
}

/// A kind of field that is written.
pub trait Put: Field {
    /// Appends the bytes that spell a value. The only errors are out of memory, and a value without a spelling.
    fn put(value: &Self::Value, out: &mut Vec<u8>) -> Result<(), AllocError>
        ensures ok { OnOk result (out.new.items ≡ out.old.items ++ Self.spelling value.now) }
        ensures fits { OnOk result (Self.Fits value.now) };
}
