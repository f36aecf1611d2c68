ghost use Rattle.std.specs.Prelude.{◌≡◌, ◌↔◌, IsTrue, IfOk};
ghost use Rattle.rsvp_bodies.specs.Reading.{ReadsWhole};
ghost use Rattle.rsvp_bodies.specs.Attributes.{HasName, attr_with, SpellsAttr, SpellsAttrRa};

use crate::ObjectFault;
use crate::affinities::{Affinities, affinities_of};
use crate::attr::{Attr, Name};
use crate::attr_numbers::*;
use std::alloc::{AllocError, Global};

/// True where priorities, flags and a name fit the bytes.
fn has_name(body: &[u8]) -> bool
    ensures { IsTrue result ↔ HasName body.now }
{
    body.len() >= HEAD_LEN && HEAD_LEN + usize::from(body[3]) <= body.len()
}

/// The attributes with these affinities and with what the bytes say of the rest.
fn attr_of(alloc: Global, affinities: Option<Affinities>, body: &[u8]) -> Result<Attr, AllocError>
    requires { HasName body.now }
    ensures { IfOk result (λ attr. attr ≡ attr_with affinities body.now) }
{
    let name_end = HEAD_LEN + usize::from(body[3]);
    Ok(Attr {
        affinities,
        setup: body[0],
        hold: body[1],
        flags: body[2],
        name: Name::copy_of(alloc, &body[HEAD_LEN..name_end])?,
    })
}

/// The attributes without affinities that a body of C-Type 7 spells (RFC 3209, 4.7.1). The fault is
/// [`ObjectFault::Length`] where it has fewer than 4 bytes or the name is longer than what is left.
pub fn read_attr(alloc: Global, body: &[u8]) -> Result<Attr, ObjectFault>
    ensures { ReadsWhole SpellsAttr body.now result }
{
    if !has_name(body) {
        return Err(ObjectFault::Length);
    }
    Ok(attr_of(alloc, None, body)?)
}

/// The attributes with affinities that a body of C-Type 1 spells (RFC 3209, 4.7.2). The fault is
/// [`ObjectFault::Length`] where it has fewer than 16 bytes or the name is longer than what is left.
pub fn read_attr_ra(alloc: Global, body: &[u8]) -> Result<Attr, ObjectFault>
    ensures { ReadsWhole SpellsAttrRa body.now result }
{
    if body.len() < AFFINITIES_LEN || !has_name(&body[AFFINITIES_LEN..]) {
        return Err(ObjectFault::Length);
    }
    let affinities = affinities_of(body);
    Ok(attr_of(alloc, Some(affinities), &body[AFFINITIES_LEN..])?)
}
