use crate::fault::ReadFault;
use crate::field::Field;
use std::alloc::Global;
use std::marker::PhantomData;

/// What may be absent: 0, or 1 and the field.
pub struct Optional<A> {
    kind: PhantomData<A>,
}

impl<A: Field> Field for Optional<A> {
    ghost use Rattle.field_bytes.specs.OptionLaws.{OptionFits, one_option, option_bytes};

    type Value = Option<A::Value>;

    ghost Fits = { OptionFits A.Fits };

    ghost spelling = { option_bytes A.spelling };

    ghost one = { one_option A.Fits A.spelling A.one };

    fn read(alloc: Global, bytes: &[u8]) -> Result<(Option<A::Value>, &[u8]), ReadFault> {
        match bytes {
            [0, rest @ ..] => Ok((None, rest)),
            [1, rest @ ..] => {
                let (value, rest) = A::read(alloc, rest)?;
                Ok((Some(value), rest))
            }
            _ => Err(ReadFault::Format),
        }
    }
}
