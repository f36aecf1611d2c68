ghost use Rattle.std.specs.Prelude.{◌≡◌, ◌↔◌, nat_eq, IsTrue};
ghost use Rattle.std.specs.Cmp.{partial_equiv_from_equiv};
ghost use Rattle.std.specs.Cmp.Lexicographic.{pointwise, nat_list_eq_equiv};
ghost use Rattle.rsvp_bodies.specs.Bodies.{IsBody};

use crate::Body;
use std::alloc::AllocError;
use std::marker::{Model, PhantomData};

/// What one side of a flow says of its traffic: the body of an object, kept as it came, of any length and
/// whatever its bytes. Contracts see the list of its bytes.
#[derive(Debug, Drop)]
pub struct Description<Side> {
    body: Body,
    side: PhantomData<Side>,
}

impl<Side> Model for Description<Side> {
    ghost use Rattle.std.specs.Prelude.{List, ℕ};

    ghost Value = { List ℕ };

    ghost view = { λ d. d.body };
}

impl<Side> Description<Side> {
    /// The description with this body. Takes no memory.
    pub fn from_body(body: Body) -> Description<Side>
        ensures { result ≡ body }
    {
        Description {
            body,
            side: PhantomData,
        }
    }

    /// The bytes of the body.
    pub fn as_slice(&self) -> &[u8]
        ensures bytes { result.now ≡ self.now }
        ensures fits { IsBody self.now }
    {
        self.body.as_slice()
    }
}

impl<Side> PartialEq for Description<Side> {
    ghost eq = { pointwise nat_eq };

    ghost laws = { partial_equiv_from_equiv nat_list_eq_equiv };

    /// Whether their bytes are the same.
    fn eq(&self, other: &Description<Side>) -> bool
        ensures same { IsTrue result ↔ (self.now ≡ other.now) }
        ensures pairwise { result ≡ pointwise nat_eq self.now other.now }
    {
        self.body == other.body
    }
}

impl<Side> Eq for Description<Side> {
    ghost laws = { nat_list_eq_equiv };
}

impl<Side> Clone for Description<Side> {
    ghost is_clone = { λ source copy. copy ≡ source };

    /// A copy. The only error is out of memory.
    fn clone(&self) -> Result<Description<Side>, AllocError> {
        Ok(Description::from_body(self.body.clone()?))
    }
}
