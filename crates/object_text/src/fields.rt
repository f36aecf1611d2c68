//! The lines of an object.
ghost use Rattle.std.specs.Prelude.{◌≡◌, ◌++◌, OnOk, string_bytes};
ghost use Rattle.object_text.specs.Fields.{fields_text, subobject_lines, words_of};

use crate::classes::push_kind;
use crate::routes::{push_steps, push_traces};
use crate::traffic::push_traffic;
use crate::values::{
    push_attribute, push_error, push_hop, push_request, push_reroute, push_session, push_style,
    push_template,
};
use rsvp_objects::{Kind, Object};
use std::alloc::{AllocError, Global};
use std::fmt::Write;

/// Appends what the object says on the line of its class.
#[tactic(auto, unfolding(crate::specs::Fields::words_of))]
fn push_words(alloc: Global, text: &mut String, object: &Object) -> Result<(), AllocError>
    ensures { OnOk result (string_bytes text.new ≡ string_bytes text.old ++ words_of object.now) }
{
    match object {
        Object::Session(session) => push_session(text, session),
        Object::Hop(hop) => push_hop(text, hop),
        Object::TimeValues(times) => {
            let refresh_ms = times.refresh_ms;
            write!(text, " refresh {refresh_ms} ms")
        }
        Object::ErrorSpec(error) => push_error(alloc, text, error),
        Object::Style(style) => push_style(alloc, text, style),
        Object::Flowspec(flowspec) => push_traffic(alloc, text, flowspec.as_slice()),
        Object::FilterSpec(template) => push_template(text, template),
        Object::SenderTemplate(template) => push_template(text, template),
        Object::SenderTspec(tspec) => push_traffic(alloc, text, tspec.as_slice()),
        Object::Label(label) => {
            let number = label.number;
            write!(text, " label {number}")
        }
        Object::LabelRequest(request) => push_request(alloc, text, request),
        Object::ExplicitRoute(_) => Ok(()),
        Object::RecordRoute(_) => Ok(()),
        Object::FastReroute(reroute) => push_reroute(alloc, text, reroute),
        Object::SessionAttribute(attr) => push_attribute(alloc, text, attr),
        Object::Other(_) => Ok(()),
    }
}

/// Appends the lines of the subobjects of a route.
#[tactic(auto, unfolding(crate::specs::Fields::subobject_lines))]
fn push_subobjects(alloc: Global, text: &mut String, object: &Object) -> Result<(), AllocError>
    ensures { OnOk result (string_bytes text.new ≡ string_bytes text.old ++ subobject_lines object.now) }
{
    match object {
        Object::ExplicitRoute(route) => push_steps(alloc, text, route.as_slice()),
        Object::RecordRoute(record) => push_traces(alloc, text, record.as_slice()),
        Object::Session(_)
        | Object::Hop(_)
        | Object::TimeValues(_)
        | Object::ErrorSpec(_)
        | Object::Style(_)
        | Object::Flowspec(_)
        | Object::FilterSpec(_)
        | Object::SenderTemplate(_)
        | Object::SenderTspec(_)
        | Object::Label(_)
        | Object::LabelRequest(_)
        | Object::FastReroute(_)
        | Object::SessionAttribute(_)
        | Object::Other(_) => Ok(()),
    }
}

/// Appends the lines of the object: one for its class and its fields, with two spaces before it, and in a route one for each
/// subobject, with four. The only error is that memory ran out.
pub fn push_fields(alloc: Global, text: &mut String, object: &Object) -> Result<(), AllocError>
    ensures { OnOk result (string_bytes text.new ≡ string_bytes text.old ++ fields_text object.now) }
{
    let class = object.class();
    let ctype = object.ctype();
    text.push_str("  ")?;
    push_kind(text, Kind::of(class, ctype), class, ctype)?;
    push_words(alloc, text, object)?;
    text.push_str("\n")?;
    push_subobjects(alloc, text, object)
}
