use crate::fault::ReadFault;
use crate::field::Field;
use crate::octets::Octets;
use std::alloc::Global;
use std::marker::PhantomData;

/// The bytes that spell a value of a kind, kept as they stand.
pub struct TextOf<A> {
    kind: PhantomData<A>,
}

impl<A: Field> Field for TextOf<A> {
    ghost use Rattle.field_bytes.specs.TextLaws.{IsText, one_text};

    type Value = Octets;

    ghost Fits = { IsText A.Fits A.spelling };

    ghost spelling = { λ bytes. bytes };

    ghost one = { one_text A.Fits A.spelling A.one };

    fn read(alloc: Global, bytes: &[u8]) -> Result<(Octets, &[u8]), ReadFault> {
        let (_value, rest) = A::read(alloc, bytes)?;
        let (text, rest) = bytes.split_at(bytes.len() - rest.len());
        Ok((Octets::copy_of(alloc, text)?, rest))
    }
}
