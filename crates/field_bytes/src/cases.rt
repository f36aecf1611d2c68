ghost use Rattle.std.specs.Prelude.{◌≡◌, List, ℕ};
ghost use Rattle.field_bytes.specs.CaseLaws.{AnswersCase, IsOneCase};

use crate::fault::ReadFault;
use crate::field::Field;
use std::alloc::Global;
use std::marker::PhantomData;

/// One of two.
#[derive(Debug, Drop)]
pub enum OneOf<A, B> {
    /// The first.
    This(A),
    /// The second.
    Other(B),
}

/// Kinds of values, told apart by a number.
pub trait Cases {
    /// What is of one of these kinds.
    type Value: Drop;

    // the values that have a spelling
    ghost Fits: { Self.Value → Type 0 };

    // the number of a value's kind, from 0
    ghost tag: { Self.Value → ℕ };

    // the bytes that spell a value of its kind
    ghost fields: { Self.Value → List ℕ };

    /// The value of this kind that stands at the head of the bytes, and the bytes behind it.
    fn read_case(alloc: Global, kind: u8, bytes: &[u8]) -> Result<(Self::Value, &[u8]), ReadFault>
        ensures { AnswersCase Fits tag fields kind bytes.now result };

    // No bytes begin with the spellings of two values of one kind.
    ghost one: { IsOneCase Fits tag fields };
}

/// One kind, whose number is 0.
pub struct Only<A> {
    kind: PhantomData<A>,
}

impl<A: Field> Cases for Only<A> {
    ghost use Rattle.field_bytes.specs.CaseLaws.{no_tag, one_only};

    type Value = A::Value;

    ghost Fits = { A.Fits };

    ghost tag = { no_tag };

    ghost fields = { A.spelling };

    ghost one = { one_only A.Fits A.spelling A.one };

    fn read_case(alloc: Global, kind: u8, bytes: &[u8]) -> Result<(A::Value, &[u8]), ReadFault> {
        if kind == 0 {
            A::read(alloc, bytes)
        } else {
            Err(ReadFault::Format)
        }
    }
}

/// So many kinds, and others behind them, whose numbers go on.
pub struct Both<const COUNT: u8, L, R> {
    kinds: PhantomData<(L, R)>,
}

impl<const COUNT: u8, L: Cases, R: Cases> Cases for Both<COUNT, L, R> {
    ghost use Rattle.field_bytes.specs.CaseLaws.{BothFit, both_fields, both_tag, one_both};

    type Value = OneOf<L::Value, R::Value>;

    ghost Fits = { BothFit COUNT L.tag L.Fits R.Fits };

    ghost tag = { both_tag COUNT L.tag R.tag };

    ghost fields = { both_fields L.fields R.fields };

    ghost one = { one_both COUNT L.Fits R.Fits L.tag R.tag L.fields R.fields L.one R.one };

    fn read_case(
        alloc: Global,
        kind: u8,
        bytes: &[u8],
    ) -> Result<(OneOf<L::Value, R::Value>, &[u8]), ReadFault> {
        if kind < COUNT {
            let (value, rest) = L::read_case(alloc, kind, bytes)?;
            return Ok((OneOf::This(value), rest));
        }
        let (value, rest) = R::read_case(alloc, kind - COUNT, bytes)?;
        Ok((OneOf::Other(value), rest))
    }
}

/// A value of one of these kinds: its kind's number, counted from the first, in 1 byte, and the value.
pub struct Choice<const FIRST: u8, C> {
    kinds: PhantomData<C>,
}

impl<const FIRST: u8, C: Cases> Field for Choice<FIRST, C> {
    ghost use Rattle.field_bytes.specs.CaseLaws.{choice_bytes, one_choice};

    type Value = C::Value;

    ghost Fits = { C.Fits };

    ghost spelling = { choice_bytes FIRST C.tag C.fields };

    ghost one = { one_choice FIRST C.Fits C.tag C.fields C.one };

    fn read(alloc: Global, bytes: &[u8]) -> Result<(C::Value, &[u8]), ReadFault> {
        match bytes {
            [kind, rest @ ..] if *kind >= FIRST => C::read_case(alloc, *kind - FIRST, rest),
            _ => Err(ReadFault::Format),
        }
    }
}
