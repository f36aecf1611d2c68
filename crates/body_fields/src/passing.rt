ghost use Rattle.std.specs.Prelude.{◌≡◌, ◌↔◌, IsTrue, IfOk};
ghost use Rattle.rsvp_bodies.specs.Bodies.{IsBody};

use crate::octets::put_byte;
use field_bytes::{
    Byte, Counted, Items, Made, Making, Many, Octets, Pair, ReadFault, Writing, put_counted,
    put_list,
};
use rsvp_bodies::Body;
use rsvp_contents::Passing;
use rsvp_objects::{Kind, Opaque};
use std::alloc::{AllocError, Global};

/// Bytes of a body's words.
const WORD_LEN: usize = 4;

/// How an object that is passed on is spelled: by its class, its C-Type and its body.
pub struct OpaqueParts;

/// An object that is kept as its class, its C-Type and its body.
pub type OpaqueField = Made<OpaqueParts>;

/// Whether the bytes are a body: whole words, as many as an object has room for.
fn is_body(bytes: &[u8]) -> bool
    ensures { IsTrue result ↔ IsBody bytes.now }
{
    bytes.len() % WORD_LEN == 0 && bytes.len() <= Body::MAX_LEN
}

impl Making for OpaqueParts {
    ghost use Rattle.std.specs.Prelude.{refl};
    ghost use Rattle.body_fields.specs.Passing.{IsOpaque, opaque_bytes, opaque_parts, opaque_told};

    type Parts = Pair<Byte, Pair<Byte, Counted>>;

    type Whole = Opaque;

    ghost Allows = { IsOpaque };

    ghost back = { opaque_parts };

    ghost spelling = { opaque_bytes };

    ghost told = { opaque_told };

    ghost spelled = { λ object. refl };

    fn make(_alloc: Global, parts: (u8, (u8, Octets))) -> Result<Opaque, ReadFault> {
        let (class, (ctype, body)) = parts;
        if !Kind::of(class, ctype).is_kept() || !is_body(body.as_slice()) {
            return Err(ReadFault::Format);
        }
        Ok(Opaque::new(class, ctype, Body::from_vec(body.into_vec())))
    }
}

impl Writing for OpaqueParts {
    fn put_parts(object: &Opaque, out: &mut Vec<u8>) -> Result<(), AllocError> {
        put_byte(object.class(), out)?;
        put_byte(object.ctype(), out)?;
        put_counted(object.body().as_slice(), out)
    }
}

/// How objects that are passed on are spelled: one after the other.
pub struct PassingParts;

/// Objects that are passed on: how many there are, and the objects.
pub type PassingField = Made<PassingParts>;

/// The objects, in their order. The only error is out of memory.
fn passing_of(alloc: Global, objects: Vec<Opaque>) -> Result<Passing, AllocError>
    ensures { IfOk result (λ passing. passing ≡ objects.items) }
{
    let mut passing = Passing::new(alloc);
    for object in objects {
        passing.push(object)?;
    }
    Ok(passing)
}

impl Making for PassingParts {
    ghost use Rattle.std.specs.Prelude.{refl};
    ghost use Rattle.body_fields.specs.Passing.{passing_bytes, same_passing};

    type Parts = Many<OpaqueField>;

    type Whole = Passing;

    ghost Allows = { λ objects. Unit {0} };

    ghost back = { same_passing };

    ghost spelling = { passing_bytes };

    ghost told = { λ x y _ _ same. same };

    ghost spelled = { λ objects. refl };

    fn make(alloc: Global, parts: Items<Opaque>) -> Result<Passing, ReadFault> {
        Ok(passing_of(alloc, parts.into_vec())?)
    }
}

impl Writing for PassingParts {
    fn put_parts(passing: &Passing, out: &mut Vec<u8>) -> Result<(), AllocError> {
        put_list::<OpaqueField>(passing.as_slice(), out)
    }
}
