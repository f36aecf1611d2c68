//! What a message says, from what its objects say.

ghost use Rattle.std.specs.Prelude.{◌≡◌, IfOk};
ghost use Rattle.rsvp_contents.specs.Picking.{content_with, is_short, one_or_more, path_of, path_err_of, path_tear_of, placed_flows, resv_of, resv_err_of, resv_tear_of};
ghost use Rattle.rsvp_contents.specs.Spelling.{IsMessage};
ghost use Rattle.rsvp_messages.specs.Answering.{reading_with};

use rsvp_contents::limits::{are_short_records, is_short_passing, is_short_record, is_short_route};
use rsvp_contents::numbers::*;
use rsvp_contents::{
    Content, FlowDescriptors, Message, Parts, Passing, Path, PathErr, PathTear, Reading, Resv,
    ResvErr, ResvTear, error_descriptors_of, filters_of, flow_descriptors_of, is_other,
};
use rsvp_objects::{Object, Style};
use std::alloc::{AllocError, Global};

/// The Path that the parts make (RFC 2205, 3.1.3; RFC 3209, 3.1).
fn path_of(parts: Parts, passing: Passing) -> Option<Content>
    ensures { result ≡ path_of parts passing }
{
    Some(Content::Path(Path {
        session: parts.session?,
        hop: parts.hop?,
        time: parts.time?,
        label_request: parts.label_request?,
        sender: parts.sender?,
        tspec: parts.tspec?,
        route: parts.route,
        attr: parts.attr,
        fast_reroute: parts.fast_reroute,
        passing,
        recorded: parts.recorded,
    }))
}

/// The PathErr that the parts make (RFC 2205, 3.1.7).
fn path_err_of(parts: Parts) -> Option<Content>
    ensures { result ≡ path_err_of parts }
{
    Some(Content::PathErr(PathErr {
        session: parts.session?,
        error: parts.error?,
        sender: parts.sender?,
        tspec: parts.tspec,
    }))
}

/// The PathTear that the parts make (RFC 2205, 3.1.5).
fn path_tear_of(parts: &Parts) -> Option<Content>
    ensures { result ≡ path_tear_of parts.now }
{
    Some(Content::PathTear(PathTear {
        session: parts.session?,
        hop: parts.hop?,
        sender: parts.sender?,
    }))
}

/// The flow descriptors of a Resv of this style; none where they break its grammar.
fn placed_flows(
    alloc: Global,
    style: Style,
    misplaced: bool,
    flows: &[Object],
) -> Result<Option<FlowDescriptors>, AllocError>
    ensures { IfOk result (λ found. found ≡ placed_flows style misplaced flows.now) }
{
    if !is_other(style) && misplaced {
        return Ok(None);
    }
    flow_descriptors_of(alloc, style, flows)
}

/// The Resv that the parts make (RFC 2205, 3.1.4; RFC 3209, 3.2).
fn resv_of(
    alloc: Global,
    parts: &Parts,
    passing: Passing,
    misplaced: bool,
    flows: &[Object],
) -> Result<Option<Content>, AllocError>
    ensures { IfOk result (λ found. found ≡ resv_of parts.now passing misplaced flows.now) }
{
    let (Some(session), Some(hop), Some(time), Some(style)) = (
        parts.session,
        parts.hop,
        parts.time,
        parts.style,
    ) else {
        return Ok(None);
    };
    let Some(descriptors) = placed_flows(alloc, style, misplaced, flows)? else {
        return Ok(None);
    };
    Ok(Some(Content::Resv(Resv {
        session,
        hop,
        time,
        passing,
        style,
        descriptors,
    })))
}

/// The ResvErr that the parts make (RFC 2205, 3.1.8).
fn resv_err_of(
    alloc: Global,
    parts: &Parts,
    flows: &[Object],
) -> Result<Option<Content>, AllocError>
    ensures { IfOk result (λ found. found ≡ resv_err_of parts.now flows.now) }
{
    let (Some(session), Some(hop), Some(error), Some(style)) = (
        parts.session,
        parts.hop,
        parts.error,
        parts.style,
    ) else {
        return Ok(None);
    };
    Ok(Some(Content::ResvErr(ResvErr {
        session,
        hop,
        error,
        style,
        descriptors: error_descriptors_of(alloc, flows)?,
    })))
}

/// The ResvTear that the parts make (RFC 2205, 3.1.6).
fn resv_tear_of(
    alloc: Global,
    parts: &Parts,
    flows: &[Object],
) -> Result<Option<Content>, AllocError>
    ensures { IfOk result (λ found. found ≡ resv_tear_of parts.now flows.now) }
{
    let (Some(session), Some(hop), Some(style)) = (parts.session, parts.hop, parts.style) else {
        return Ok(None);
    };
    let filters = filters_of(alloc, flows)?;
    if filters.as_slice().is_empty() {
        return Ok(None);
    }
    Ok(Some(Content::ResvTear(ResvTear {
        session,
        hop,
        style,
        filters,
    })))
}

/// Whether what a message of this type says is within its limits.
pub fn is_short(kind: u8, parts: &Parts, passing: &Passing, flows: &[Object]) -> bool
    ensures { result ≡ is_short kind parts.now passing.now flows.now }
{
    match kind {
        TYPE_PATH => {
            if let Some(route) = &parts.route
                && !is_short_route(route)
            {
                return false;
            }
            if let Some(recorded) = &parts.recorded
                && !is_short_record(recorded)
            {
                return false;
            }
            is_short_passing(passing)
        }
        TYPE_RESV => are_short_records(flows) && is_short_passing(passing),
        _ => true,
    }
}

/// What a message of this type says; none where something that it needs is absent. The only error is out of
/// memory.
pub fn content_of(
    alloc: Global,
    kind: u8,
    parts: Parts,
    passing: Passing,
    misplaced: bool,
    flows: &[Object],
) -> Result<Option<Content>, AllocError>
    ensures { IfOk result (λ found. found ≡ content_with kind parts passing misplaced flows.now) }
{
    match kind {
        TYPE_PATH => Ok(path_of(parts, passing)),
        TYPE_RESV => resv_of(alloc, &parts, passing, misplaced, flows),
        TYPE_PATH_ERR => Ok(path_err_of(parts)),
        TYPE_RESV_ERR => resv_err_of(alloc, &parts, flows),
        TYPE_PATH_TEAR => Ok(path_tear_of(&parts)),
        TYPE_RESV_TEAR => resv_tear_of(alloc, &parts, flows),
        _ => Ok(None),
    }
}

/// The message with this content, read as one that isn't known where an object was refused. The only error is out of memory.
pub fn reading_of(
    alloc: Global,
    content: Content,
    refused: Option<(u8, u8)>,
) -> Result<Reading, AllocError>
    requires { IsMessage content }
    ensures { IfOk result (λ reading. reading ≡ reading_with content refused) }
{
    let message = Message::new(alloc, content)?;
    match refused {
        None => Ok(Reading::Whole(message)),
        Some((class, ctype)) => Ok(Reading::Unknown(message, class, ctype)),
    }
}
