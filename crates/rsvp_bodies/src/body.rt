ghost use Rattle.rsvp_bodies.specs.Bodies.{IsBody};

use crate::kept::{Kept, Rule};

/// The rule of bodies: whole words of four bytes, at most [`Body::MAX_LEN`] bytes of them.
#[derive(Debug, Drop)]
pub struct BodyRule;

impl Rule for BodyRule {
    ghost Allows = { IsBody };
}

/// The body of an object, kept byte for byte as it came.
pub type Body = Kept<BodyRule>;

impl Body {
    /// The most bytes that a body has: an object's length is a number of 16 bits that is a multiple of
    /// 4 and counts 4 bytes of header too (RFC 2205, 3.1.2).
    pub const MAX_LEN: usize = 65_528;
}
