ghost use Rattle.std.specs.Prelude.{◌≡◌, ◌↔◌, IsTrue, IfOk};
ghost use Rattle.std.specs.Cmp.{decided, partial_equiv_from_equiv};
ghost use Rattle.rsvp_objects.specs.Kinds.{kind_of, is_kept};
ghost use Rattle.rsvp_objects.specs.RawLaws.{same_raw, same_raw_lem};
ghost use Rattle.rsvp_bodies.specs.Bodies.{IsBody};

use crate::kind::Kind;
use rsvp_bodies::Body;
use std::alloc::AllocError;
use std::marker::Model;

/// An object that is kept as its Class-Num, its C-Type and its body: NULL, INTEGRITY, SCOPE, ADSPEC,
/// POLICY_DATA, RESV_CONFIRM, a known class with a C-Type that isn't listed, and every unknown class.
#[derive(Debug, Drop)]
pub struct Opaque {
    class: u8,
    ctype: u8,
    body: Body,
}

impl Model for Opaque {
    ghost use Rattle.std.specs.Prelude.{IsTrue};
    ghost use Rattle.rsvp_objects.specs.Kinds.{kind_of, is_kept};
    ghost use Rattle.rsvp_objects.specs.Raw.{Raw};

    ghost Value = { Raw };

    ghost view = { λ o. record { class = o.class; ctype = o.ctype; body = o.body } };

    ghost invariant = { λ o. IsTrue (is_kept (kind_of o.class o.ctype)) };
}

impl Opaque {
    /// The object with this class, C-Type and body. Takes no memory.
    pub fn new(class: u8, ctype: u8, body: Body) -> Opaque
        requires { IsTrue (is_kept (kind_of class ctype)) }
        ensures { result ≡ record { class = class; ctype = ctype; body = body } }
    {
        Opaque { class, ctype, body }
    }

    /// The Class-Num.
    pub fn class(&self) -> u8
        ensures { result ≡ self.now.class }
    {
        self.class
    }

    /// The C-Type.
    pub fn ctype(&self) -> u8
        ensures { result ≡ self.now.ctype }
    {
        self.ctype
    }

    /// The body.
    pub fn body(&self) -> &Body
        ensures body { result.now ≡ self.now.body }
        ensures kept { IsTrue (is_kept (kind_of self.now.class self.now.ctype)) }
    {
        &self.body
    }

    /// What the object is, as far as its class and C-Type tell.
    pub fn kind(&self) -> Kind
        ensures kind { result ≡ kind_of self.now.class self.now.ctype }
        ensures kept { IsTrue (is_kept result) }
    {
        Kind::of(self.class, self.ctype)
    }
}

impl PartialEq for Opaque {
    ghost eq = { same_raw };

    ghost laws = { partial_equiv_from_equiv (decided same_raw same_raw_lem) };

    /// Whether class, C-Type and body are the same.
    fn eq(&self, other: &Opaque) -> bool
        ensures same { IsTrue result ↔ (self.now ≡ other.now) }
        ensures parts { result ≡ same_raw self.now other.now }
    {
        let are_alike = self.class == other.class && self.ctype == other.ctype;
        are_alike && self.body == other.body
    }
}

impl Eq for Opaque {
    ghost laws = { decided same_raw same_raw_lem };
}

impl Clone for Opaque {
    ghost is_clone = { λ source copy. copy ≡ source };

    /// A copy of the object. The only error is out of memory.
    fn clone(&self) -> Result<Opaque, AllocError> {
        Ok(Opaque {
            class: self.class,
            ctype: self.ctype,
            body: self.body.clone()?,
        })
    }
}
