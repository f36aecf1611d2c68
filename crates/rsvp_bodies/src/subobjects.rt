ghost use Rattle.std.specs.Prelude.{◌≡◌, ◌≤◌, ◌++◌, ◌↔◌, [], length, OnOk, OnErr, IsTrue};
ghost use Rattle.std.specs.Cmp.Lexicographic.{pointwise, lists_per, lists_equiv};
ghost use Rattle.std.specs.List.{flat_map};
ghost use Rattle.rsvp_bodies.specs.Bodies.{IsBody};
ghost use Rattle.rsvp_bodies.specs.Reading.{ReadsWhole, SpellsEach};

use crate::subobject::{Subobject, split_first};
use crate::{Body, ObjectFault};
use std::alloc::{AllocError, Global};
use std::marker::Model;

/// The subobjects of one object, in their order. What they are written as fits an object's body, so it has
/// at most [`Body::MAX_LEN`] bytes. Contracts see the list.
#[derive(Debug, Drop)]
pub struct Subobjects<T: Subobject> {
    items: Vec<T>,
}

impl<T: Subobject> Model for Subobjects<T> {
    ghost use Rattle.std.specs.Prelude.{List, ◌≤◌, length};
    ghost use Rattle.std.specs.List.{flat_map};

    ghost Value = { List T };

    ghost view = { λ s. s.items.items };

    ghost invariant = { λ s. length (flat_map T.spelling s.items.items) ≤ 65528 };
}

impl<T: Subobject> Subobjects<T> {
    /// No subobjects. Takes no memory.
    pub fn new(alloc: Global) -> Subobjects<T>
        ensures { result ≡ [] }
    {
        Subobjects {
            items: Vec::new(alloc),
        }
    }

    /// These subobjects, which fit ([`Subobjects::fits`]). Takes no memory.
    pub fn from_vec(items: Vec<T>) -> Subobjects<T>
        requires { length (flat_map T.spelling items.items) ≤ 65528 }
        ensures { result ≡ items.items }
    {
        Subobjects { items }
    }

    /// The subobjects.
    pub fn as_slice(&self) -> &[T]
        ensures items { result.now ≡ self.now }
        ensures fits { length (flat_map T.spelling self.now) ≤ 65528 }
    {
        self.items.as_slice()
    }

    /// Whether what these subobjects are written as fits an object's body.
    pub fn fits(items: &[T]) -> bool
        ensures { IsTrue result ↔ (length (flat_map T.spelling items.now) ≤ 65528) }
    {
        let mut room = Body::MAX_LEN;
        for item in items {
            let len = item.byte_len();
            if len > room {
                return false;
            }
            room -= len;
        }
        true
    }

    /// How many bytes the subobjects are written as, at most [`Body::MAX_LEN`].
    pub fn byte_len(&self) -> usize
        ensures len { result ≡ length (flat_map T.spelling self.now) }
        ensures fits { result ≤ 65528 }
    {
        let mut len = 0;
        for item in &self.items {
            len += item.byte_len();
        }
        len
    }

    /// The subobjects that the body of an object spells, each cut off by its own length. Where one's length
    /// is below 4, no multiple of 4, past the end or wrong for its type, it is the fault
    /// [`ObjectFault::Length`].
    pub(crate) fn read(alloc: Global, bytes: &[u8]) -> Result<Subobjects<T>, ObjectFault>
        requires { IsBody bytes.now }
        ensures { ReadsWhole (SpellsEach T.Spells) bytes.now result }
    {
        let mut items = Vec::new(alloc);
        let mut rest = bytes;
        while !rest.is_empty() {
            let Some((first, after)) = split_first(rest) else {
                return Err(ObjectFault::Length);
            };
            items.push(T::read(alloc, first)?)?;
            rest = after;
        }
        Ok(Subobjects::from_vec(items))
    }

    /// Writes the subobjects after what `out` holds. The only error is out of memory, which leaves `out`
    /// as it was.
    pub(crate) fn write(&self, out: &mut Vec<u8>) -> Result<(), AllocError>
        ensures ok { OnOk result (out.new.items ≡ out.old.items ++ flat_map T.spelling self.now) }
        ensures again { OnOk result (SpellsEach T.Spells (flat_map T.spelling self.now) self.now) }
        ensures body { OnOk result (IsBody (flat_map T.spelling self.now)) }
        ensures err { OnErr result (out.new.items ≡ out.old.items) }
    {
        let start = out.len();
        for item in &self.items {
            if let Err(error) = item.write(out) {
                out.truncate(start);
                return Err(error);
            }
        }
        Ok(())
    }
}

impl<T: Subobject> PartialEq for Subobjects<T> {
    ghost eq = { pointwise T.eq };

    ghost laws = { lists_per T.PartialEq.laws };

    /// Whether they are the same subobjects in the same order.
    fn eq(&self, other: &Subobjects<T>) -> bool
        ensures same { IsTrue result ↔ (self.now ≡ other.now) }
        ensures pairwise { result ≡ pointwise T.eq self.now other.now }
    {
        self.as_slice() == other.as_slice()
    }
}

impl<T: Subobject> Eq for Subobjects<T> {
    ghost laws = { lists_equiv T.Eq.laws };
}

impl<T: Subobject> Clone for Subobjects<T> {
    ghost is_clone = { λ source copy. copy ≡ source };

    /// A copy of the subobjects. The only error is out of memory.
    fn clone(&self) -> Result<Subobjects<T>, AllocError> {
        Ok(Subobjects::from_vec(self.items.clone()?))
    }
}
