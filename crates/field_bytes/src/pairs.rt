use crate::fault::ReadFault;
use crate::field::{Field, Put};
use std::alloc::{AllocError, Global};
use std::marker::PhantomData;

/// A field, and another one behind it.
pub struct Pair<A, B> {
    kinds: PhantomData<(A, B)>,
}

impl<A: Field, B: Field> Field for Pair<A, B> {
    ghost use Rattle.field_bytes.specs.PairLaws.{PairFits, one_pair, pair_bytes};

    type Value = (A::Value, B::Value);

    ghost Fits = { PairFits A.Fits B.Fits };

    ghost spelling = { pair_bytes A.spelling B.spelling };

    ghost one = { one_pair A.Fits B.Fits A.spelling B.spelling A.one B.one };

    fn read(alloc: Global, bytes: &[u8]) -> Result<((A::Value, B::Value), &[u8]), ReadFault> {
        let (first, bytes) = A::read(alloc, bytes)?;
        let (second, bytes) = B::read(alloc, bytes)?;
        Ok(((first, second), bytes))
    }
}

impl<A: Put, B: Put> Put for Pair<A, B> {
    fn put(value: &(A::Value, B::Value), out: &mut Vec<u8>) -> Result<(), AllocError> {
        A::put(&value.0, out)?;
        B::put(&value.1, out)
    }
}
