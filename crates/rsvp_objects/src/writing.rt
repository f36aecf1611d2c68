ghost use Rattle.std.specs.Prelude.{◌≡◌, ◌≤◌, ◌+◌, ◌∷◌, [], ◌++◌, OnOk, OnErr, take, length};
ghost use Rattle.byteorder.specs.Endian.{big_bytes};
ghost use Rattle.rsvp_bodies.specs.Bodies.{IsBody};
ghost use Rattle.rsvp_objects.specs.Objects.{IsObject, SpellsObject, attr_raw, raw_of, spelling};
ghost use Rattle.rsvp_objects.specs.Raw.{object_bytes};
ghost use Rattle.rsvp_bodies.specs.Attributes.{IsAttr};

use crate::fixed::*;
use crate::numbers::*;
use crate::object::Object;
use crate::opaque::Opaque;
use rsvp_bodies::{Attr, Flowspec, Record, Route, Tspec, write_record, write_route};
use std::alloc::AllocError;

/// Appends an object's header: its length with these four bytes, its class and its C-Type.
fn put_header(out: &mut Vec<u8>, class: u8, ctype: u8, body_len: usize) -> Result<(), AllocError>
    requires { body_len ≤ 65528 }
    ensures ok { OnOk result
        (out.new.items ≡ out.old.items ++ (big_bytes 2 (body_len + 4) ++ (class ∷ ctype ∷ []))) }
    ensures err { OnErr result (out.new.items ≡ out.old.items) }
{
    let [high, low] = ((HEADER_LEN + body_len) as u16).to_be_bytes();
    out.extend_from_slice(&[high, low, class, ctype])
}

/// Appends an object with this body.
fn put_raw(out: &mut Vec<u8>, class: u8, ctype: u8, body: &[u8]) -> Result<(), AllocError>
    requires { IsBody body.now }
    ensures ok { OnOk result
        (out.new.items ≡ out.old.items ++ object_bytes (record { class = class; ctype = ctype; body = body.now })) }
    ensures err { OnErr result (take (length out.old.items) out.new.items ≡ out.old.items) }
{
    put_header(out, class, ctype, body.len())?;
    out.extend_from_slice(body)
}

/// Appends an EXPLICIT_ROUTE.
fn put_route(out: &mut Vec<u8>, route: &Route) -> Result<(), AllocError>
    ensures ok { OnOk result
        (out.new.items ≡ out.old.items ++ object_bytes (raw_of (Object.ExplicitRoute route.now))) }
    ensures err { OnErr result (take (length out.old.items) out.new.items ≡ out.old.items) }
    ensures fits { OnOk result (IsObject (Object.ExplicitRoute route.now)) }
{
    put_header(out, CLASS_EXPLICIT_ROUTE, CTYPE_FIRST, route.byte_len())?;
    write_route(route, out)
}

/// Appends a RECORD_ROUTE.
fn put_record(out: &mut Vec<u8>, recorded: &Record) -> Result<(), AllocError>
    ensures ok { OnOk result
        (out.new.items ≡ out.old.items ++ object_bytes (raw_of (Object.RecordRoute recorded.now))) }
    ensures err { OnErr result (take (length out.old.items) out.new.items ≡ out.old.items) }
    ensures fits { OnOk result (IsObject (Object.RecordRoute recorded.now)) }
{
    put_header(out, CLASS_RECORD_ROUTE, CTYPE_FIRST, recorded.byte_len())?;
    write_record(recorded, out)
}

/// Appends a SESSION_ATTRIBUTE, of the C-Type with affinities where it has them.
fn put_attr(out: &mut Vec<u8>, attr: &Attr) -> Result<(), AllocError>
    ensures ok { OnOk result (out.new.items ≡ out.old.items ++ object_bytes (attr_raw attr.now)) }
    ensures err { OnErr result (take (length out.old.items) out.new.items ≡ out.old.items) }
    ensures fits { OnOk result (IsAttr attr.now) }
{
    put_header(out, CLASS_SESSION_ATTRIBUTE, attr.ctype(), attr.byte_len())?;
    attr.write(out)
}

/// Appends the object. Where there is no memory for it, a part of it may stand after what was there.
fn put_object(object: &Object, out: &mut Vec<u8>) -> Result<(), AllocError>
    ensures ok { OnOk result (out.new.items ≡ out.old.items ++ spelling object.now) }
    ensures err { OnErr result (take (length out.old.items) out.new.items ≡ out.old.items) }
    ensures fits { OnOk result (IsObject object.now) }
{
    let (class, ctype) = (object.class(), object.ctype());
    match object {
        Object::Session(session) => put_raw(out, class, ctype, &session_bytes(*session)),
        Object::Hop(hop) => put_raw(out, class, ctype, &hop_bytes(*hop)),
        Object::TimeValues(time) => put_raw(out, class, ctype, &word_bytes(time.refresh_ms)),
        Object::ErrorSpec(error) => put_raw(out, class, ctype, &error_spec_bytes(*error)),
        Object::Style(style) => put_raw(out, class, ctype, &word_bytes(style.word)),
        Object::Flowspec(flowspec) => put_raw(out, class, ctype, flowspec.as_slice()),
        Object::FilterSpec(filter) => put_raw(out, class, ctype, &template_bytes(*filter)),
        Object::SenderTemplate(sender) => put_raw(out, class, ctype, &template_bytes(*sender)),
        Object::SenderTspec(tspec) => put_raw(out, class, ctype, tspec.as_slice()),
        Object::Label(label) => put_raw(out, class, ctype, &word_bytes(label.number)),
        Object::LabelRequest(request) => put_raw(out, class, ctype, &label_request_bytes(*request)),
        Object::ExplicitRoute(route) => put_route(out, route),
        Object::RecordRoute(recorded) => put_record(out, recorded),
        Object::FastReroute(request) => put_raw(out, class, ctype, &fast_reroute_bytes(*request)),
        Object::SessionAttribute(attr) => put_attr(out, attr),
        Object::Other(other) => put_raw(out, class, ctype, other.body().as_slice()),
    }
}

/// Hands on whether something was written after the first `start` bytes; where it wasn't, these alone
/// are left.
fn or_undo(
    written: Result<(), AllocError>,
    out: &mut Vec<u8>,
    start: usize,
) -> Result<(), AllocError>
    ensures same { result ≡ written }
    ensures ok { OnOk result (out.new.items ≡ out.old.items) }
    ensures err { OnErr result (out.new.items ≡ take start out.old.items) }
{
    if written.is_err() {
        out.truncate(start);
    }
    written
}

/// Appends the object's one written spelling, with reserved bytes and padding as zeros. The only error
/// is out of memory, which leaves `out` as it was.
pub fn write_object(object: &Object, out: &mut Vec<u8>) -> Result<(), AllocError>
    ensures ok { OnOk result (out.new.items ≡ out.old.items ++ spelling object.now) }

    // What is written is read as the same object.
    ensures again { OnOk result (SpellsObject (spelling object.now) object.now) }
    ensures err { OnErr result (out.new.items ≡ out.old.items) }
{
    let start = out.len();
    let written = put_object(object, out);
    or_undo(written, out, start)
}

/// Appends a FLOWSPEC, as [`write_object`].
pub fn write_flowspec(value: &Flowspec, out: &mut Vec<u8>) -> Result<(), AllocError>
    ensures ok { OnOk result (out.new.items ≡ out.old.items ++ spelling (Object.Flowspec value.now)) }
    ensures again { OnOk result
        (SpellsObject (spelling (Object.Flowspec value.now)) (Object.Flowspec value.now)) }
    ensures err { OnErr result (out.new.items ≡ out.old.items) }
{
    let start = out.len();
    let written = put_raw(out, CLASS_FLOWSPEC, CTYPE_INTSERV, value.as_slice());
    or_undo(written, out, start)
}

/// Appends a SENDER_TSPEC, as [`write_object`].
pub fn write_tspec(value: &Tspec, out: &mut Vec<u8>) -> Result<(), AllocError>
    ensures ok { OnOk result (out.new.items ≡ out.old.items ++ spelling (Object.SenderTspec value.now)) }
    ensures again { OnOk result
        (SpellsObject (spelling (Object.SenderTspec value.now)) (Object.SenderTspec value.now)) }
    ensures err { OnErr result (out.new.items ≡ out.old.items) }
{
    let start = out.len();
    let written = put_raw(out, CLASS_SENDER_TSPEC, CTYPE_INTSERV, value.as_slice());
    or_undo(written, out, start)
}

/// Appends an EXPLICIT_ROUTE, as [`write_object`].
pub fn write_explicit_route(value: &Route, out: &mut Vec<u8>) -> Result<(), AllocError>
    ensures ok { OnOk result (out.new.items ≡ out.old.items ++ spelling (Object.ExplicitRoute value.now)) }
    ensures again { OnOk result
        (SpellsObject (spelling (Object.ExplicitRoute value.now)) (Object.ExplicitRoute value.now)) }
    ensures err { OnErr result (out.new.items ≡ out.old.items) }
{
    let start = out.len();
    let written = put_route(out, value);
    or_undo(written, out, start)
}

/// Appends a RECORD_ROUTE, as [`write_object`].
pub fn write_record_route(value: &Record, out: &mut Vec<u8>) -> Result<(), AllocError>
    ensures ok { OnOk result (out.new.items ≡ out.old.items ++ spelling (Object.RecordRoute value.now)) }
    ensures again { OnOk result
        (SpellsObject (spelling (Object.RecordRoute value.now)) (Object.RecordRoute value.now)) }
    ensures err { OnErr result (out.new.items ≡ out.old.items) }
{
    let start = out.len();
    let written = put_record(out, value);
    or_undo(written, out, start)
}

/// Appends a SESSION_ATTRIBUTE, as [`write_object`].
pub fn write_session_attribute(value: &Attr, out: &mut Vec<u8>) -> Result<(), AllocError>
    ensures ok { OnOk result (out.new.items ≡ out.old.items ++ spelling (Object.SessionAttribute value.now)) }
    ensures again { OnOk result
        (SpellsObject (spelling (Object.SessionAttribute value.now)) (Object.SessionAttribute value.now)) }
    ensures err { OnErr result (out.new.items ≡ out.old.items) }
{
    let start = out.len();
    let written = put_attr(out, value);
    or_undo(written, out, start)
}

/// Appends an object that is kept as its class, C-Type and body, as [`write_object`].
pub fn write_opaque(value: &Opaque, out: &mut Vec<u8>) -> Result<(), AllocError>
    ensures ok { OnOk result (out.new.items ≡ out.old.items ++ spelling (Object.Other value.now)) }
    ensures again { OnOk result
        (SpellsObject (spelling (Object.Other value.now)) (Object.Other value.now)) }
    ensures err { OnErr result (out.new.items ≡ out.old.items) }
{
    let start = out.len();
    let written = put_raw(out, value.class(), value.ctype(), value.body().as_slice());
    or_undo(written, out, start)
}
