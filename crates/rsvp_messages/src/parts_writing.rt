//! Parts of a message that stand there or don't. The only error is out of memory.

ghost use Rattle.std.specs.Prelude.{◌≡◌, ◌++◌, ◌∷◌, [], OnOk, OnErr, All, map, take, length};
ghost use Rattle.std.specs.List.{flat_map};
ghost use Rattle.rsvp_objects.specs.Objects.{spelling};
ghost use Rattle.rsvp_contents.specs.Written.{adspec, before_sender, if_some};
ghost use Rattle.rsvp_messages.specs.Parts.{IsSpelled};

use rsvp_bodies::{Record, Route, Tspec};
use rsvp_objects::numbers::CLASS_ADSPEC;
use rsvp_objects::{
    Attr, FastReroute, Object, Opaque, write_explicit_route, write_opaque, write_record_route,
    write_session_attribute, write_tspec,
};
use std::alloc::AllocError;

/// Appends an object, as [`rsvp_objects::write_object`] does, and lets it go: in one place, for all messages.
pub(crate) fn write_object(object: Object, out: &mut Vec<u8>) -> Result<(), AllocError>
    ensures ok { OnOk result (out.new.items ≡ out.old.items ++ spelling object) }
    ensures again { OnOk result (IsSpelled object) }
    ensures err { OnErr result (out.new.items ≡ out.old.items) }
{
    rsvp_objects::write_object(&object, out)
}

/// Appends an EXPLICIT_ROUTE, where there is one.
pub(crate) fn put_route(route: &Option<Route>, out: &mut Vec<u8>) -> Result<(), AllocError>
    ensures ok { OnOk result (out.new.items ≡ out.old.items ++ flat_map spelling (if_some route.now Object.ExplicitRoute)) }
    ensures spelled { OnOk result (All IsSpelled (if_some route.now Object.ExplicitRoute)) }
    ensures err { OnErr result (out.new.items ≡ out.old.items) }
{
    match route {
        Some(route) => write_explicit_route(route, out),
        None => Ok(()),
    }
}

/// Appends a SESSION_ATTRIBUTE, where there is one.
pub(crate) fn put_attr(attr: &Option<Attr>, out: &mut Vec<u8>) -> Result<(), AllocError>
    ensures ok { OnOk result (out.new.items ≡ out.old.items ++ flat_map spelling (if_some attr.now Object.SessionAttribute)) }
    ensures spelled { OnOk result (All IsSpelled (if_some attr.now Object.SessionAttribute)) }
    ensures err { OnErr result (out.new.items ≡ out.old.items) }
{
    match attr {
        Some(attr) => write_session_attribute(attr, out),
        None => Ok(()),
    }
}

/// Appends a FAST_REROUTE, where there is one.
pub(crate) fn put_fast_reroute(
    request: Option<FastReroute>,
    out: &mut Vec<u8>,
) -> Result<(), AllocError>
    ensures ok { OnOk result (out.new.items ≡ out.old.items ++ flat_map spelling (if_some request Object.FastReroute)) }
    ensures spelled { OnOk result (All IsSpelled (if_some request Object.FastReroute)) }
    ensures err { OnErr result (out.new.items ≡ out.old.items) }
{
    match request {
        Some(request) => write_object(Object::FastReroute(request), out),
        None => Ok(()),
    }
}

/// Appends a RECORD_ROUTE, where there is one.
pub(crate) fn put_record(recorded: &Option<Record>, out: &mut Vec<u8>) -> Result<(), AllocError>
    ensures ok { OnOk result (out.new.items ≡ out.old.items ++ flat_map spelling (if_some recorded.now Object.RecordRoute)) }
    ensures spelled { OnOk result (All IsSpelled (if_some recorded.now Object.RecordRoute)) }
    ensures err { OnErr result (out.new.items ≡ out.old.items) }
{
    match recorded {
        Some(recorded) => write_record_route(recorded, out),
        None => Ok(()),
    }
}

/// Appends a SENDER_TSPEC, where there is one.
pub(crate) fn put_tspec(tspec: &Option<Tspec>, out: &mut Vec<u8>) -> Result<(), AllocError>
    ensures ok { OnOk result (out.new.items ≡ out.old.items ++ flat_map spelling (if_some tspec.now Object.SenderTspec)) }
    ensures spelled { OnOk result (All IsSpelled (if_some tspec.now Object.SenderTspec)) }
    ensures err { OnErr result (out.new.items ≡ out.old.items) }
{
    match tspec {
        Some(tspec) => write_tspec(tspec, out),
        None => Ok(()),
    }
}

/// Appends an object that is passed on, unless it is an ADSPEC.
fn put_unless_adspec(object: &Opaque, out: &mut Vec<u8>) -> Result<(), AllocError>
    ensures ok { OnOk result (out.new.items ≡ out.old.items ++ flat_map spelling (before_sender (object.now ∷ []))) }
    ensures spelled { OnOk result (All IsSpelled (before_sender (object.now ∷ []))) }
    ensures err { OnErr result (out.new.items ≡ out.old.items) }
{
    if object.class() != CLASS_ADSPEC {
        write_opaque(object, out)
    } else {
        Ok(())
    }
}

/// Appends an object that is passed on if it is an ADSPEC.
fn put_if_adspec(object: &Opaque, out: &mut Vec<u8>) -> Result<(), AllocError>
    ensures ok { OnOk result (out.new.items ≡ out.old.items ++ flat_map spelling (adspec (object.now ∷ []))) }
    ensures spelled { OnOk result (All IsSpelled (adspec (object.now ∷ []))) }
    ensures err { OnErr result (out.new.items ≡ out.old.items) }
{
    if object.class() == CLASS_ADSPEC {
        write_opaque(object, out)
    } else {
        Ok(())
    }
}

/// Appends what is passed on, but for the ADSPEC. Where there is no memory for it, some of it may stand
/// after what was there.
pub(crate) fn put_before_sender(passing: &[Opaque], out: &mut Vec<u8>) -> Result<(), AllocError>
    ensures ok { OnOk result (out.new.items ≡ out.old.items ++ flat_map spelling (before_sender passing.now)) }
    ensures spelled { OnOk result (All IsSpelled (before_sender passing.now)) }
    ensures err { OnErr result (take (length out.old.items) out.new.items ≡ out.old.items) }
{
    for object in passing {
        put_unless_adspec(object, out)?;
    }
    Ok(())
}

/// Appends the ADSPEC of what is passed on. Where there is no memory for it, some of it may stand after
/// what was there.
pub(crate) fn put_adspec(passing: &[Opaque], out: &mut Vec<u8>) -> Result<(), AllocError>
    ensures ok { OnOk result (out.new.items ≡ out.old.items ++ flat_map spelling (adspec passing.now)) }
    ensures spelled { OnOk result (All IsSpelled (adspec passing.now)) }
    ensures err { OnErr result (take (length out.old.items) out.new.items ≡ out.old.items) }
{
    for object in passing {
        put_if_adspec(object, out)?;
    }
    Ok(())
}

/// Appends all that is passed on. Where there is no memory for it, some of it may stand after what was there.
pub(crate) fn put_passing(passing: &[Opaque], out: &mut Vec<u8>) -> Result<(), AllocError>
    ensures ok { OnOk result (out.new.items ≡ out.old.items ++ flat_map spelling (map Object.Other passing.now)) }
    ensures spelled { OnOk result (All IsSpelled (map Object.Other passing.now)) }
    ensures err { OnErr result (take (length out.old.items) out.new.items ≡ out.old.items) }
{
    for object in passing {
        write_opaque(object, out)?;
    }
    Ok(())
}
