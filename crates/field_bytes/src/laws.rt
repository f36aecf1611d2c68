ghost use Rattle.field_bytes.specs.Spelling.{IsOne};

use crate::field::Field;

/// No bytes begin with the spellings of two values of a kind of field. A law: it does nothing when it runs.
pub fn bytes_tell_apart<F: Field>()
    ensures { IsOne F.Fits F.spelling }
{}
