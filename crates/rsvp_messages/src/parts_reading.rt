ghost use Rattle.std.specs.Prelude.{◌≡◌, ◌&&◌, [], ◌∷◌, ◌++◌, IfOk, OnOk, false, is_some, if◌then◌else◌};
ghost use Rattle.std.specs.Option.{option_or};
ghost use Rattle.rsvp_contents.specs.Flows.{is_flow};
ghost use Rattle.rsvp_contents.specs.Behind.{flows_in};
ghost use Rattle.rsvp_contents.specs.Counting.{has_style};
ghost use Rattle.rsvp_contents.specs.Picking.{parts_in, passing_of};
ghost use Rattle.rsvp_messages.specs.Joining.{adspecs_in, flow_more, joined, passing_in};

use crate::look::{has_style, is_flow};
use rsvp_contents::limits::passes;
use rsvp_contents::{Parts, Passing};
use rsvp_objects::numbers::CLASS_ADSPEC;
use rsvp_objects::{Object, Opaque, Style};
use std::alloc::{AllocError, Global};

/// What no objects say.
fn no_parts() -> Parts
    ensures { result ≡ parts_in 0 [] }
{
    Parts {
        session: None,
        hop: None,
        time: None,
        error: None,
        style: None,
        sender: None,
        tspec: None,
        label_request: None,
        route: None,
        recorded: None,
        attr: None,
        fast_reroute: None,
    }
}

/// Puts the value where none stands yet.
fn keep_first<T: Drop>(place: &mut Option<T>, value: T)
    ensures { place.new ≡ option_or place.old (Some value) }
{
    if place.is_none() {
        *place = Some(value);
    }
}

/// Adds what one more object says, which isn't one of flow descriptors where the type has these.
fn join(kind: u8, parts: &mut Parts, object: Object)
    requires { (is_flow object && has_style kind) ≡ false }
    ensures { parts.new ≡ joined kind parts.old object }
{
    match object {
        Object::Session(session) => keep_first(&mut parts.session, session),
        Object::Hop(hop) => keep_first(&mut parts.hop, hop),
        Object::TimeValues(time) => keep_first(&mut parts.time, time),
        Object::ErrorSpec(error) => keep_first(&mut parts.error, error),
        Object::Style(style) => keep_first(&mut parts.style, style),
        Object::SenderTemplate(sender) => keep_first(&mut parts.sender, sender),
        Object::SenderTspec(tspec) => keep_first(&mut parts.tspec, tspec),
        Object::LabelRequest(request) => keep_first(&mut parts.label_request, request),
        Object::ExplicitRoute(route) => keep_first(&mut parts.route, route),
        Object::RecordRoute(recorded) => keep_first(&mut parts.recorded, recorded),
        Object::SessionAttribute(attr) => keep_first(&mut parts.attr, attr),
        Object::FastReroute(wish) => keep_first(&mut parts.fast_reroute, wish),
        _ => {}
    }
}

/// Puts an object that is kept as its bytes with those that are passed on, if it is.
fn pass_on(
    kind: u8,
    passing: &mut Passing,
    adspecs: &mut Vec<Opaque>,
    other: Opaque,
) -> Result<(), AllocError>
    ensures passing { OnOk result (passing.new ≡ passing.old ++ passing_in kind (Object.Other other ∷ [])) }
    ensures adspecs { OnOk result (adspecs.new.items ≡ adspecs.old.items ++ adspecs_in (Object.Other other ∷ [])) }
{
    if passes(kind, &other) {
        passing.push(other)?;
    } else if other.class() == CLASS_ADSPEC {
        adspecs.push(other)?;
    }
    Ok(())
}

/// Puts an object of flow descriptors with those that stand after STYLE, if it is known already.
fn keep_flow(
    style: Option<Style>,
    flows: &mut Vec<Object>,
    object: Object,
) -> Result<(), AllocError>
    ensures { OnOk result (flows.new.items ≡ flows.old.items ++ (if is_some style then object ∷ [] else [])) }
{
    if style.is_some() {
        flows.push(object)?;
    }
    Ok(())
}

/// Adds what one more object says that isn't kept as its bytes, or puts it with flow descriptors.
fn add_typed(
    kind: u8,
    parts: &mut Parts,
    flows: &mut Vec<Object>,
    object: Object,
) -> Result<(), AllocError>
    ensures parts { OnOk result (parts.new ≡ joined kind parts.old object) }
    ensures flows { OnOk result (flows.new.items ≡ flows.old.items ++ flow_more kind parts.old object) }
{
    if is_flow(&object) && has_style(kind) {
        keep_flow(parts.style, flows, object)?;
    } else {
        join(kind, parts, object);
    }
    Ok(())
}

/// Adds what one more object says, or puts it with those that are passed on or with flow descriptors.
fn add(
    kind: u8,
    parts: &mut Parts,
    passing: &mut Passing,
    adspecs: &mut Vec<Opaque>,
    flows: &mut Vec<Object>,
    object: Object,
) -> Result<(), AllocError>
    ensures parts { OnOk result (parts.new ≡ joined kind parts.old object) }
    ensures passing { OnOk result (passing.new ≡ passing.old ++ passing_in kind (object ∷ [])) }
    ensures adspecs { OnOk result (adspecs.new.items ≡ adspecs.old.items ++ adspecs_in (object ∷ [])) }
    ensures flows { OnOk result (flows.new.items ≡ flows.old.items ++ flow_more kind parts.old object) }
{
    match object {
        Object::Other(other) => pass_on(kind, passing, adspecs, other),
        object => add_typed(kind, parts, flows, object),
    }
}

/// What the objects that count in a message of this type say: their values; which are passed on, in their
/// order, the ADSPEC last; and those of flow descriptors after STYLE.
pub fn parts_of(
    alloc: Global,
    kind: u8,
    objects: Vec<Object>,
) -> Result<(Parts, Passing, Vec<Object>), AllocError>
    ensures parts { IfOk result (λ r. r.0 ≡ parts_in kind objects.items) }
    ensures passing { IfOk result (λ r. r.1 ≡ passing_of kind objects.items) }
    ensures flows { IfOk result (λ r. r.2.items ≡ flows_in kind objects.items) }
{
    let mut parts = no_parts();
    let mut passing = Passing::new(alloc);
    let mut adspecs = Vec::new(alloc);
    let mut flows = Vec::new(alloc);
    for object in objects {
        add(
            kind,
            &mut parts,
            &mut passing,
            &mut adspecs,
            &mut flows,
            object,
        )?;
    }
    for adspec in adspecs {
        passing.push(adspec)?;
    }
    Ok((parts, passing, flows))
}
