//! The objects of each message, in their order. Where there is no memory for one, a part of them may stand
//! after what was there.

ghost use Rattle.std.specs.Prelude.{◌≡◌, ◌++◌, OnOk, OnErr, All, take, length};
ghost use Rattle.std.specs.List.{flat_map};
ghost use Rattle.rsvp_objects.specs.Objects.{spelling};
ghost use Rattle.rsvp_contents.specs.Written.{path_err_objects, path_objects, path_tear_objects, resv_err_objects, resv_objects, resv_tear_objects};
ghost use Rattle.rsvp_messages.specs.Parts.{IsSpelled, path_sender, path_start, path_wish};

use crate::flows_writing::{put_error_descriptors, put_filters, put_flow_descriptors};
use crate::parts_writing::*;
use rsvp_contents::{Path, PathErr, PathTear, Resv, ResvErr, ResvTear};
use rsvp_objects::{Object, write_tspec};
use std::alloc::AllocError;

/// Appends SESSION, RSVP_HOP and TIME_VALUES.
fn put_path_start(path: &Path, out: &mut Vec<u8>) -> Result<(), AllocError>
    ensures ok { OnOk result (out.new.items ≡ out.old.items ++ flat_map spelling (path_start path.now)) }
    ensures spelled { OnOk result (All IsSpelled (path_start path.now)) }
    ensures err { OnErr result (take (length out.old.items) out.new.items ≡ out.old.items) }
{
    write_object(Object::Session(path.session), out)?;
    write_object(Object::Hop(path.hop), out)?;
    write_object(Object::TimeValues(path.time), out)
}

/// Appends EXPLICIT_ROUTE, LABEL_REQUEST, SESSION_ATTRIBUTE and FAST_REROUTE.
fn put_path_wish(path: &Path, out: &mut Vec<u8>) -> Result<(), AllocError>
    ensures ok { OnOk result (out.new.items ≡ out.old.items ++ flat_map spelling (path_wish path.now)) }
    ensures spelled { OnOk result (All IsSpelled (path_wish path.now)) }
    ensures err { OnErr result (take (length out.old.items) out.new.items ≡ out.old.items) }
{
    put_route(&path.route, out)?;
    write_object(Object::LabelRequest(path.label_request), out)?;
    put_attr(&path.attr, out)?;
    put_fast_reroute(path.fast_reroute, out)
}

/// Appends SENDER_TEMPLATE, SENDER_TSPEC, ADSPEC and RECORD_ROUTE: the sender descriptor (RFC 3209, 3.1).
fn put_path_sender(path: &Path, out: &mut Vec<u8>) -> Result<(), AllocError>
    ensures ok { OnOk result (out.new.items ≡ out.old.items ++ flat_map spelling (path_sender path.now)) }
    ensures spelled { OnOk result (All IsSpelled (path_sender path.now)) }
    ensures err { OnErr result (take (length out.old.items) out.new.items ≡ out.old.items) }
{
    write_object(Object::SenderTemplate(path.sender), out)?;
    write_tspec(&path.tspec, out)?;
    put_adspec(path.passing.as_slice(), out)?;
    put_record(&path.recorded, out)
}

/// Appends the objects of a Path (RFC 2205, 3.1.3; RFC 3209, 3.1; RFC 4090, 4.1).
pub(crate) fn put_path(path: &Path, out: &mut Vec<u8>) -> Result<(), AllocError>
    ensures ok { OnOk result (out.new.items ≡ out.old.items ++ flat_map spelling (path_objects path.now)) }
    ensures spelled { OnOk result (All IsSpelled (path_objects path.now)) }
    ensures err { OnErr result (take (length out.old.items) out.new.items ≡ out.old.items) }
{
    put_path_start(path, out)?;
    put_path_wish(path, out)?;
    put_before_sender(path.passing.as_slice(), out)?;
    put_path_sender(path, out)
}

/// Appends the objects of a PathErr (RFC 2205, 3.1.7).
pub(crate) fn put_path_err(error: &PathErr, out: &mut Vec<u8>) -> Result<(), AllocError>
    ensures ok { OnOk result (out.new.items ≡ out.old.items ++ flat_map spelling (path_err_objects error.now)) }
    ensures spelled { OnOk result (All IsSpelled (path_err_objects error.now)) }
    ensures err { OnErr result (take (length out.old.items) out.new.items ≡ out.old.items) }
{
    write_object(Object::Session(error.session), out)?;
    write_object(Object::ErrorSpec(error.error), out)?;
    write_object(Object::SenderTemplate(error.sender), out)?;
    put_tspec(&error.tspec, out)
}

/// Appends the objects of a PathTear (RFC 2205, 3.1.5).
pub(crate) fn put_path_tear(tear: &PathTear, out: &mut Vec<u8>) -> Result<(), AllocError>
    ensures ok { OnOk result (out.new.items ≡ out.old.items ++ flat_map spelling (path_tear_objects tear.now)) }
    ensures spelled { OnOk result (All IsSpelled (path_tear_objects tear.now)) }
    ensures err { OnErr result (take (length out.old.items) out.new.items ≡ out.old.items) }
{
    write_object(Object::Session(tear.session), out)?;
    write_object(Object::Hop(tear.hop), out)?;
    write_object(Object::SenderTemplate(tear.sender), out)
}

/// Appends the objects of a Resv (RFC 2205, 3.1.4; RFC 3209, 3.2).
pub(crate) fn put_resv(resv: &Resv, out: &mut Vec<u8>) -> Result<(), AllocError>
    ensures ok { OnOk result (out.new.items ≡ out.old.items ++ flat_map spelling (resv_objects resv.now)) }
    ensures spelled { OnOk result (All IsSpelled (resv_objects resv.now)) }
    ensures err { OnErr result (take (length out.old.items) out.new.items ≡ out.old.items) }
{
    write_object(Object::Session(resv.session), out)?;
    write_object(Object::Hop(resv.hop), out)?;
    write_object(Object::TimeValues(resv.time), out)?;
    put_passing(resv.passing.as_slice(), out)?;
    write_object(Object::Style(resv.style), out)?;
    put_flow_descriptors(resv.descriptors.as_slice(), out)
}

/// Appends the objects of a ResvErr (RFC 2205, 3.1.8).
pub(crate) fn put_resv_err(error: &ResvErr, out: &mut Vec<u8>) -> Result<(), AllocError>
    ensures ok { OnOk result (out.new.items ≡ out.old.items ++ flat_map spelling (resv_err_objects error.now)) }
    ensures spelled { OnOk result (All IsSpelled (resv_err_objects error.now)) }
    ensures err { OnErr result (take (length out.old.items) out.new.items ≡ out.old.items) }
{
    write_object(Object::Session(error.session), out)?;
    write_object(Object::Hop(error.hop), out)?;
    write_object(Object::ErrorSpec(error.error), out)?;
    write_object(Object::Style(error.style), out)?;
    put_error_descriptors(error.descriptors.as_slice(), out)
}

/// Appends the objects of a ResvTear (RFC 2205, 3.1.6).
pub(crate) fn put_resv_tear(tear: &ResvTear, out: &mut Vec<u8>) -> Result<(), AllocError>
    ensures ok { OnOk result (out.new.items ≡ out.old.items ++ flat_map spelling (resv_tear_objects tear.now)) }
    ensures spelled { OnOk result (All IsSpelled (resv_tear_objects tear.now)) }
    ensures err { OnErr result (take (length out.old.items) out.new.items ≡ out.old.items) }
{
    write_object(Object::Session(tear.session), out)?;
    write_object(Object::Hop(tear.hop), out)?;
    write_object(Object::Style(tear.style), out)?;
    put_filters(tear.filters.as_slice(), out)
}
