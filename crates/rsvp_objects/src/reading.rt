ghost use Rattle.std.specs.Prelude.{◌≡◌, ◌≢◌, length, Option, IfOk, IfErr};
ghost use Rattle.std.specs.Option.{option_map};
ghost use Rattle.rsvp_bodies.specs.Bodies.{IsBody};
ghost use Rattle.rsvp_bodies.specs.Reading.{ReadsFirst, ReadsWhole};
ghost use Rattle.rsvp_objects.specs.Framing.{frame_in};
ghost use Rattle.rsvp_objects.specs.Kinds.{kind_of};
ghost use Rattle.rsvp_objects.specs.Objects.{SpellsAs, SpellsObject};

use crate::fixed::*;
use crate::kind::Kind;
use crate::numbers::*;
use crate::object::Object;
use crate::opaque::Opaque;
use byteorder::{BigEndian, ByteOrder};
use rsvp_bodies::{
    Body, Flowspec, ObjectFault, Tspec, read_attr, read_attr_ra, read_record, read_route,
};
use std::alloc::Global;

/// The parts of an object where it lies.
#[derive(Clone, Copy)]
pub struct ObjectParts<'a> {
    /// The Class-Num.
    pub class: u8,
    /// The C-Type.
    pub ctype: u8,
    /// What stands after the header.
    pub body: &'a [u8],
}

/// The first object's parts, where its length is good.
#[tactic(auto, unfolding(crate::specs::Framing::frame_in))]
pub fn frame_of(bytes: &[u8]) -> Option<ObjectParts<'_>>
    ensures { option_map (λ f. record { class = f.class; ctype = f.ctype; body = f.body.now }) result
        ≡ frame_in bytes.now }
{
    if bytes.len() < HEADER_LEN {
        return None;
    }
    let len = usize::from(BigEndian::read_u16(bytes));
    if len < HEADER_LEN || len % WORD_LEN != 0 || len > bytes.len() {
        return None;
    }
    Some(ObjectParts {
        class: bytes[2],
        ctype: bytes[3],
        body: &bytes[HEADER_LEN..len],
    })
}

/// The body, where it has so many bytes.
fn sized(body: &[u8], len: usize) -> Result<&[u8], ObjectFault>
    ensures good { IfOk result (λ same. (length body.now ≡ len) × (same.now ≡ body.now)) }
    ensures wrong { IfErr result (λ fault. (fault ≡ ObjectFault.Length) × (length body.now ≢ len)) }
{
    if body.len() == len {
        Ok(body)
    } else {
        Err(ObjectFault::Length)
    }
}

/// What an object of this class and C-Type says in this body.
fn read_value(alloc: Global, class: u8, ctype: u8, body: &[u8]) -> Result<Object, ObjectFault>
    requires { IsBody body.now }
    ensures { ReadsWhole
        (λ body. SpellsAs (kind_of class ctype) (record { class = class; ctype = ctype; body = body }))
        body.now result }
{
    match Kind::of(class, ctype) {
        Kind::Session => Ok(Object::Session(session_of(sized(body, SESSION_LEN)?))),
        Kind::Hop => Ok(Object::Hop(hop_of(sized(body, HOP_LEN)?))),
        Kind::TimeValues => Ok(Object::TimeValues(time_values_of(sized(body, TIME_VALUES_LEN)?))),
        Kind::ErrorSpec => Ok(Object::ErrorSpec(error_spec_of(sized(body, ERROR_SPEC_LEN)?))),
        Kind::Style => Ok(Object::Style(style_of(sized(body, STYLE_LEN)?))),
        Kind::Flowspec => Ok(Object::Flowspec(Flowspec::from_body(Body::copy_of(alloc, body)?))),
        Kind::FilterSpec => Ok(Object::FilterSpec(template_of(sized(body, TEMPLATE_LEN)?))),
        Kind::SenderTemplate => Ok(Object::SenderTemplate(template_of(sized(body, TEMPLATE_LEN)?))),
        Kind::SenderTspec => Ok(Object::SenderTspec(Tspec::from_body(Body::copy_of(alloc, body)?))),
        Kind::Label => Ok(Object::Label(label_of(sized(body, LABEL_LEN)?))),
        Kind::LabelRequest => Ok(Object::LabelRequest(label_request_of(sized(
            body,
            LABEL_REQUEST_LEN,
        )?))),
        Kind::ExplicitRoute => read_route(alloc, body).map(Object::ExplicitRoute),
        Kind::RecordRoute => read_record(alloc, body).map(Object::RecordRoute),
        Kind::FastReroute => Ok(Object::FastReroute(fast_reroute_of(sized(
            body,
            FAST_REROUTE_LEN,
        )?))),
        Kind::SessionAttribute => read_attr(alloc, body).map(Object::SessionAttribute),
        Kind::SessionAttributeRa => read_attr_ra(alloc, body).map(Object::SessionAttribute),
        Kind::Null
        | Kind::Integrity
        | Kind::Scope
        | Kind::Adspec
        | Kind::PolicyData
        | Kind::ResvConfirm
        | Kind::Unlisted
        | Kind::Unknown(_) => Ok(Object::Other(Opaque::new(
            class,
            ctype,
            Body::copy_of(alloc, body)?,
        ))),
    }
}

/// The object that the first bytes spell, and how many bytes it takes. What follows it isn't read.
///
/// [`ObjectFault::Length`] comes only where the first bytes spell no object. Out of memory can come in
/// place of any answer.
pub fn read_object(alloc: Global, bytes: &[u8]) -> Result<(Object, usize), ObjectFault>
    ensures { ReadsFirst SpellsObject bytes.now result }
{
    let Some(frame) = frame_of(bytes) else {
        return Err(ObjectFault::Length);
    };
    let object = read_value(alloc, frame.class, frame.ctype, frame.body)?;
    Ok((object, HEADER_LEN + frame.body.len()))
}
