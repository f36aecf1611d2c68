ghost use Rattle.std.specs.Prelude.{◌≡◌, ◌↔◌, nat_eq, IfOk, IsTrue, List, ℕ};
ghost use Rattle.std.specs.Cmp.{partial_equiv_from_equiv};
ghost use Rattle.std.specs.Cmp.Lexicographic.{pointwise, nat_list_eq_equiv};

use std::alloc::{AllocError, Global};
use std::marker::{Model, PhantomData};

/// Which bytes a value of [`Kept`] may have.
pub trait Rule {
    // the bytes may be kept
    ghost Allows: { List ℕ → Type 0 };
}

/// Bytes that are kept as they came, and that the rule allows. Contracts see the list of them.
#[derive(Debug, Drop)]
pub struct Kept<R: Rule> {
    bytes: Vec<u8>,
    rule: PhantomData<R>,
}

impl<R: Rule> Model for Kept<R> {
    ghost use Rattle.std.specs.Prelude.{List, ℕ};

    ghost Value = { List ℕ };

    ghost view = { λ k. k.bytes.items };

    ghost invariant = { λ k. R.Allows k.bytes.items };
}

impl<R: Rule> Kept<R> {
    /// These bytes. Takes no memory.
    pub fn from_vec(bytes: Vec<u8>) -> Kept<R>
        requires { R.Allows bytes.items }
        ensures { result ≡ bytes.items }
    {
        Kept {
            bytes,
            rule: PhantomData,
        }
    }

    /// A copy of these bytes. The only error is out of memory.
    pub fn copy_of(alloc: Global, bytes: &[u8]) -> Result<Kept<R>, AllocError>
        requires { R.Allows bytes.now }
        ensures { IfOk result (λ kept. kept ≡ bytes.now) }
    {
        Ok(Kept::from_vec(Vec::from_slice(alloc, bytes)?))
    }

    /// The bytes.
    pub fn as_slice(&self) -> &[u8]
        ensures bytes { result.now ≡ self.now }
        ensures fits { R.Allows self.now }
    {
        self.bytes.as_slice()
    }
}

impl<R: Rule> PartialEq for Kept<R> {
    ghost eq = { pointwise nat_eq };

    ghost laws = { partial_equiv_from_equiv nat_list_eq_equiv };

    /// Whether their bytes are the same.
    fn eq(&self, other: &Kept<R>) -> bool
        ensures same { IsTrue result ↔ (self.now ≡ other.now) }
        ensures pairwise { result ≡ pointwise nat_eq self.now other.now }
    {
        self.as_slice() == other.as_slice()
    }
}

impl<R: Rule> Eq for Kept<R> {
    ghost laws = { nat_list_eq_equiv };
}

impl<R: Rule> Clone for Kept<R> {
    ghost is_clone = { λ source copy. copy ≡ source };

    /// A copy. The only error is out of memory.
    fn clone(&self) -> Result<Kept<R>, AllocError> {
        Kept::copy_of(*self.bytes.allocator(), self.as_slice())
    }
}
