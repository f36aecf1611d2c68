//! How many bytes content is written in.

ghost use Rattle.std.specs.Prelude.{◌≡◌, ◌≤◌, ◌+◌, ◌*◌, IsTrue, true, nat_le, length, sum_by};
ghost use Rattle.std.specs.List.{flat_map};
ghost use Rattle.rsvp_objects.specs.declared.object.Object.TheVariants as object;
ghost use Rattle.rsvp_objects.specs.Objects.{spelling};
ghost use Rattle.rsvp_contents.specs.declared.messages.Content.TheVariants as content;
ghost use Rattle.rsvp_contents.specs.Fitting.{HasRoom, fits_path, fits_resv, written_len};
ghost use Rattle.rsvp_contents.specs.Written.{if_some};

use crate::messages::{Path, PathErr, PathTear, Resv, ResvErr, ResvTear};
use crate::numbers::{ADDRESS_LEN, HEADER_LEN, MAX_MESSAGE_LEN};
use crate::passing::Passing;
use crate::{are_errors_within, are_filters_within, are_flows_within};
use rsvp_objects::numbers::{
    AFFINITIES_LEN, ATTRIBUTE_HEAD_LEN, ERROR_SPEC_LEN, FAST_REROUTE_LEN,
    HEADER_LEN as OBJECT_HEADER_LEN, HOP_LEN, LABEL_REQUEST_LEN, SESSION_LEN, STYLE_LEN,
    TEMPLATE_LEN, TIME_VALUES_LEN, WORD_LEN,
};
use rsvp_objects::{Attr, ErrorSpec, FastReroute, Hop, Record, Route, Session, Template, Tspec};

/// How many bytes a SESSION is written in.
fn session_len(session: Session) -> usize
    ensures len { result ≡ length (spelling (object.Session session)) }
    ensures fixed { result ≡ 16 }
{
    prove!(session.endpoint.octets().len() == ADDRESS_LEN);
    prove!(session.extended.octets().len() == ADDRESS_LEN);
    OBJECT_HEADER_LEN + SESSION_LEN
}

/// How many bytes an RSVP_HOP is written in.
fn hop_len(hop: Hop) -> usize
    ensures len { result ≡ length (spelling (object.Hop hop)) }
    ensures fixed { result ≡ 12 }
{
    prove!(hop.address.octets().len() == ADDRESS_LEN);
    OBJECT_HEADER_LEN + HOP_LEN
}

/// How many bytes an ERROR_SPEC is written in.
fn error_len(error: ErrorSpec) -> usize
    ensures len { result ≡ length (spelling (object.ErrorSpec error)) }
    ensures fixed { result ≡ 12 }
{
    prove!(error.node.octets().len() == ADDRESS_LEN);
    OBJECT_HEADER_LEN + ERROR_SPEC_LEN
}

/// How many bytes a SENDER_TEMPLATE is written in.
fn sender_len(sender: Template) -> usize
    ensures len { result ≡ length (spelling (object.SenderTemplate sender)) }
    ensures fixed { result ≡ 12 }
{
    prove!(sender.sender.octets().len() == ADDRESS_LEN);
    OBJECT_HEADER_LEN + TEMPLATE_LEN
}

/// How many bytes an explicit route is written in, where there is one.
fn route_len(route: &Option<Route>) -> usize
    ensures len { result ≡ length (flat_map spelling (if_some route.now object.ExplicitRoute)) }
    ensures most { result ≤ 65532 }
{
    match route {
        Some(route) => OBJECT_HEADER_LEN + route.byte_len(),
        None => 0,
    }
}

/// How many bytes a recorded route is written in, where there is one.
fn record_len(recorded: &Option<Record>) -> usize
    ensures len { result ≡ length (flat_map spelling (if_some recorded.now object.RecordRoute)) }
    ensures most { result ≤ 65532 }
{
    match recorded {
        Some(recorded) => OBJECT_HEADER_LEN + recorded.byte_len(),
        None => 0,
    }
}

/// How many bytes attributes are written in, where there are any.
fn attr_len(attr: &Option<Attr>) -> usize
    ensures len { result ≡ length (flat_map spelling (if_some attr.now object.SessionAttribute)) }
    ensures most { result ≤ 276 }
{
    let Some(attr) = attr else {
        return 0;
    };
    let affinities_len = match attr.affinities {
        Some(_) => AFFINITIES_LEN,
        None => 0,
    };
    let name_words = attr.name.as_slice().len().div_ceil(WORD_LEN);
    OBJECT_HEADER_LEN + affinities_len + ATTRIBUTE_HEAD_LEN + name_words * WORD_LEN
}

/// How many bytes a FAST_REROUTE is written in, where there is one.
fn fast_reroute_len(wish: &Option<FastReroute>) -> usize
    ensures len { result ≡ length (flat_map spelling (if_some wish.now object.FastReroute)) }
    ensures most { result ≤ 24 }
{
    match wish {
        Some(_) => OBJECT_HEADER_LEN + FAST_REROUTE_LEN,
        None => 0,
    }
}

/// How many bytes a Tspec is written in.
fn tspec_len(tspec: &Tspec) -> usize
    ensures len { result ≡ length (spelling (object.SenderTspec tspec.now)) }
    ensures most { result ≤ 65532 }
{
    OBJECT_HEADER_LEN + tspec.as_slice().len()
}

/// How many bytes what is passed on is written in.
fn passing_len(passing: &Passing) -> usize
    requires { length passing.now ≤ 8 }
    ensures len { result ≡ sum_by (λ o. length o.body + 4) passing.now }
    ensures most { result ≤ 8 * 65532 }
{
    let objects = passing.as_slice();
    let mut len = 0;
    for object in objects {
        len += OBJECT_HEADER_LEN + object.body().as_slice().len();
    }
    len
}

/// How many bytes a Path is written in, with the header.
pub(crate) fn path_len(path: &Path) -> usize
    requires { length path.now.passing ≤ 8 }
    ensures len { result ≡ written_len (content.Path path.now) }
    ensures room { IsTrue (fits_path path.now) → HasRoom (content.Path path.now) → result ≤ 4096 }
{
    HEADER_LEN
        + session_len(path.session)
        + hop_len(path.hop)
        + (OBJECT_HEADER_LEN + TIME_VALUES_LEN)
        + route_len(&path.route)
        + (OBJECT_HEADER_LEN + LABEL_REQUEST_LEN)
        + attr_len(&path.attr)
        + fast_reroute_len(&path.fast_reroute)
        + passing_len(&path.passing)
        + sender_len(path.sender)
        + tspec_len(&path.tspec)
        + record_len(&path.recorded)
}

/// How many bytes a PathErr is written in, with the header.
pub(crate) fn path_err_len(error: &PathErr) -> usize
    ensures len { result ≡ written_len (content.PathErr error.now) }
    ensures room { HasRoom (content.PathErr error.now) → result ≤ 4096 }
{
    let tspec_len = match &error.tspec {
        Some(tspec) => tspec_len(tspec),
        None => 0,
    };
    HEADER_LEN
        + session_len(error.session)
        + error_len(error.error)
        + sender_len(error.sender)
        + tspec_len
}

/// How many bytes a PathTear is written in, with the header.
pub(crate) fn path_tear_len(tear: &PathTear) -> usize
    ensures len { result ≡ written_len (content.PathTear tear.now) }
    ensures room { result ≤ 4096 }
{
    HEADER_LEN + session_len(tear.session) + hop_len(tear.hop) + sender_len(tear.sender)
}

/// Bytes of a STYLE with its header.
const STYLE_SIZE: usize = OBJECT_HEADER_LEN + STYLE_LEN;
/// Bytes of a TIME_VALUES with its header.
const TIME_SIZE: usize = OBJECT_HEADER_LEN + TIME_VALUES_LEN;

/// Whether a Resv is written in at most [`MAX_MESSAGE_LEN`] bytes, with the header.
pub(crate) fn is_resv_within(resv: &Resv) -> bool
    requires { length resv.now.passing ≤ 8 }
    ensures within { result ≡ nat_le (written_len (content.Resv resv.now)) 4096 }
    ensures room { IsTrue (fits_resv resv.now) → HasRoom (content.Resv resv.now) → result ≡ true }
{
    let head_len = HEADER_LEN
        + session_len(resv.session)
        + hop_len(resv.hop)
        + TIME_SIZE
        + passing_len(&resv.passing)
        + STYLE_SIZE;
    head_len <= MAX_MESSAGE_LEN
        && are_flows_within(MAX_MESSAGE_LEN - head_len, resv.descriptors.as_slice())
}

/// Whether a ResvErr is written in at most [`MAX_MESSAGE_LEN`] bytes, with the header.
pub(crate) fn is_resv_err_within(error: &ResvErr) -> bool
    ensures within { result ≡ nat_le (written_len (content.ResvErr error.now)) 4096 }
    ensures room { HasRoom (content.ResvErr error.now) → result ≡ true }
{
    let head_len = HEADER_LEN
        + session_len(error.session)
        + hop_len(error.hop)
        + error_len(error.error)
        + STYLE_SIZE;
    are_errors_within(MAX_MESSAGE_LEN - head_len, error.descriptors.as_slice())
}

/// Whether a ResvTear is written in at most [`MAX_MESSAGE_LEN`] bytes, with the header.
pub(crate) fn is_resv_tear_within(tear: &ResvTear) -> bool
    ensures within { result ≡ nat_le (written_len (content.ResvTear tear.now)) 4096 }
    ensures room { HasRoom (content.ResvTear tear.now) → result ≡ true }
{
    let head_len = HEADER_LEN + session_len(tear.session) + hop_len(tear.hop) + STYLE_SIZE;
    are_filters_within(MAX_MESSAGE_LEN - head_len, tear.filters.as_slice())
}
