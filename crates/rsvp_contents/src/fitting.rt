//! Whether content fits a message.

ghost use Rattle.std.specs.Prelude.{◌≡◌, IsTrue, true};
ghost use Rattle.std.specs.Option.{option_map_or};
ghost use Rattle.rsvp_contents.specs.Fitting.{HasRoom, are_passed_by, fits_content, fits_parts, fits_path, fits_resv, has_adspec_last, has_one_fast_reroute, have_short_records};
ghost use Rattle.rsvp_contents.specs.Limits.{is_short_route, is_short_record};

use crate::lengths::*;
use crate::limits::{is_short_passing, is_short_record, is_short_route, passes};
use crate::messages::{Content, Path, Resv};
use crate::numbers::{MAX_MESSAGE_LEN, TYPE_PATH, TYPE_RESV};
use crate::{FlowDescriptor, counts_on, fits_style};
use rsvp_objects::numbers::{CLASS_ADSPEC, CLASS_FAST_REROUTE};
use rsvp_objects::{FastReroute, Opaque, Record, Route};

/// Whether an explicit route, where there is one, is within its limits.
fn has_short_route(route: &Option<Route>) -> bool
    ensures { result ≡ option_map_or is_short_route route.now true }
{
    match route {
        Some(route) => is_short_route(route),
        None => true,
    }
}

/// Whether a recorded route, where there is one, is within its limits.
fn has_short_record(recorded: &Option<Record>) -> bool
    ensures { result ≡ option_map_or is_short_record recorded.now true }
{
    match recorded {
        Some(recorded) => is_short_record(recorded),
        None => true,
    }
}

/// Whether each object is an ADSPEC or one that a message of this type passes on (RFC 2205, 3.10).
pub fn are_passed_by(kind: u8, objects: &[Opaque]) -> bool
    ensures { result ≡ are_passed_by kind objects.now }
{
    objects.iter().all(|object| object.class() == CLASS_ADSPEC || passes(kind, object))
}

/// Whether none but the last is an ADSPEC.
pub fn has_adspec_last(objects: &[Opaque]) -> bool
    ensures { result ≡ has_adspec_last objects.now }
{
    match objects {
        [others @ .., _] => others.iter().all(|object| object.class() != CLASS_ADSPEC),
        [] => true,
    }
}

/// Whether at most one object is of class FAST_REROUTE: the Path's own, or one that is passed on.
pub fn has_one_fast_reroute(own: Option<FastReroute>, objects: &[Opaque]) -> bool
    ensures { result ≡ has_one_fast_reroute own objects.now }
{
    let passed = objects
        .iter()
        .filter(|object| object.class() == CLASS_FAST_REROUTE)
        .count();
    match own {
        Some(_) => passed == 0,
        None => passed <= 1,
    }
}

/// Whether the parts of a Path fit.
fn fits_path(path: &Path) -> bool
    ensures { result ≡ fits_path path.now }
{
    let objects = path.passing.as_slice();
    has_short_route(&path.route)
        && has_short_record(&path.recorded)
        && is_short_passing(&path.passing)
        && are_passed_by(TYPE_PATH, objects)
        && has_adspec_last(objects)
        && has_one_fast_reroute(path.fast_reroute, objects)
}

/// Whether the record of each flow descriptor, where it has one, is within its limits.
fn have_short_records(descriptors: &[FlowDescriptor]) -> bool
    ensures { result ≡ have_short_records descriptors.now }
{
    descriptors
        .iter()
        .all(|descriptor| has_short_record(&descriptor.recorded))
}

/// Whether the parts of a Resv fit.
fn fits_resv(resv: &Resv) -> bool
    ensures { result ≡ fits_resv resv.now }
{
    let objects = resv.passing.as_slice();
    let descriptors = resv.descriptors.as_slice();
    have_short_records(descriptors)
        && is_short_passing(&resv.passing)
        && are_passed_by(TYPE_RESV, objects)
        && has_adspec_last(objects)
        && fits_style(resv.style, descriptors)
}

/// Whether the content fits a message.
pub(crate) fn fits(content: &Content) -> bool
    ensures fits { result ≡ fits_content content.now }
    ensures room { IsTrue (fits_parts content.now) → HasRoom content.now → result ≡ true }
{
    match content {
        Content::Path(path) => fits_path(path) && path_len(path) <= MAX_MESSAGE_LEN,
        Content::Resv(resv) => fits_resv(resv) && is_resv_within(resv),
        Content::PathErr(error) => path_err_len(error) <= MAX_MESSAGE_LEN,
        Content::ResvErr(error) => {
            counts_on(error.descriptors.as_slice()) && is_resv_err_within(error)
        }
        Content::PathTear(tear) => path_tear_len(tear) <= MAX_MESSAGE_LEN,
        Content::ResvTear(tear) => {
            !tear.filters.as_slice().is_empty() && is_resv_tear_within(tear)
        }
    }
}
