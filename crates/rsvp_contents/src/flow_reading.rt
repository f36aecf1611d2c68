//! What the objects after STYLE say.

ghost use Rattle.std.specs.Prelude.{◌≡◌, IfOk, None};
ghost use Rattle.std.specs.List.{count_by};
ghost use Rattle.std.specs.Option.{option_map};
ghost use Rattle.rsvp_contents.specs.Errors.{errors_of, filters_of};
ghost use Rattle.rsvp_contents.specs.Firsts.{counting, labelled};
ghost use Rattle.rsvp_contents.specs.Flows.{flows_of, is_flowspec, styled_flows};

use crate::descriptors::*;
use crate::style::{is_other, is_shared};
use rsvp_objects::{Flowspec, Object, Style};
use std::alloc::{AllocError, Global};

/// The FLOWSPEC that counts for what the objects begin with, where one may count already, and the objects
/// after it.
fn counting<'a>(
    before: Option<&'a Flowspec>,
    objects: &'a [Object],
) -> (Option<&'a Flowspec>, &'a [Object])
    ensures { (option_map (λ f. f.now) result.0, result.1.now) ≡ counting (option_map (λ f. f.now) before.entry) objects.now }
{
    match objects {
        [Object::Flowspec(flowspec), rest @ ..] => (Some(flowspec), rest),
        _ => (before, objects),
    }
}

/// The flow descriptor that the objects begin with, for which this FLOWSPEC counts, and the objects after it.
fn labelled<'a>(
    flowspec: &Flowspec,
    objects: &'a [Object],
) -> Result<Option<(FlowDescriptor, &'a [Object])>, AllocError>
    ensures { IfOk result (λ found. option_map (λ r. (r.0, r.1.now)) found ≡ labelled flowspec.now objects.now) }
{
    let (filter, label, recorded, rest) = match objects {
        [
            Object::FilterSpec(filter),
            Object::Label(label),
            Object::RecordRoute(recorded),
            rest @ ..,
        ] => (*filter, *label, Some(recorded.clone()?), rest),
        [Object::FilterSpec(filter), Object::Label(label), rest @ ..] => {
            (*filter, *label, None, rest)
        }
        _ => return Ok(None),
    };
    let descriptor = FlowDescriptor {
        flowspec: flowspec.clone()?,
        filter,
        label,
        recorded,
    };
    Ok(Some((descriptor, rest)))
}

/// The flow descriptors that these objects say, all of them of flow descriptors; none where they say none.
fn flows_of(alloc: Global, objects: &[Object]) -> Result<Option<FlowDescriptors>, AllocError>
    ensures { IfOk result (λ found. found ≡ flows_of None objects.now) }
{
    let mut found = FlowDescriptors::new(alloc);
    let mut before = None;
    let mut rest = objects;
    while !rest.is_empty() {
        let (Some(flowspec), behind) = counting(before, rest) else {
            return Ok(None);
        };
        let Some((descriptor, after)) = labelled(flowspec, behind)? else {
            return Ok(None);
        };
        found.push(descriptor)?;
        before = Some(flowspec);
        rest = after;
    }
    Ok(Some(found))
}

/// Whether the object is a FLOWSPEC.
fn is_flowspec(object: &Object) -> bool
    ensures { result ≡ is_flowspec object.now }
{
    matches!(object, Object::Flowspec(_))
}

/// How many of the objects are FLOWSPECs.
fn flowspecs_in(objects: &[Object]) -> usize
    ensures { result ≡ count_by is_flowspec objects.now }
{
    let mut count = 0;
    for object in objects {
        if is_flowspec(object) {
            count += 1;
        }
    }
    count
}

/// The flow descriptors that the objects after a STYLE say, of which all are objects of flow descriptors;
/// none where they break the style's grammar. Of another style than FF and SE nothing is read. The only error
/// is out of memory.
pub fn flow_descriptors_of(
    alloc: Global,
    style: Style,
    objects: &[Object],
) -> Result<Option<FlowDescriptors>, AllocError>
    ensures { IfOk result (λ found. found ≡ styled_flows style objects.now) }
{
    if is_other(style) {
        return Ok(Some(FlowDescriptors::new(alloc)));
    }
    if objects.is_empty() || (is_shared(style) && flowspecs_in(objects) > 1) {
        return Ok(None);
    }
    flows_of(alloc, objects)
}

/// A copy of the FLOWSPEC that counts, if one does.
fn copy_of(flowspec: Option<&Flowspec>) -> Result<Option<Flowspec>, AllocError>
    ensures { IfOk result (λ copy. copy ≡ option_map (λ f. f.now) flowspec.entry) }
{
    match flowspec {
        Some(flowspec) => Ok(Some(flowspec.clone()?)),
        None => Ok(None),
    }
}

/// The error flow descriptors that the objects after a STYLE say. The only error is out of memory.
pub fn error_descriptors_of(
    alloc: Global,
    objects: &[Object],
) -> Result<ErrorDescriptors, AllocError>
    ensures { IfOk result (λ found. found ≡ errors_of None objects.now) }
{
    let mut found = ErrorDescriptors::new(alloc);
    let mut before: Option<&Flowspec> = None;
    for object in objects {
        match object {
            Object::Flowspec(flowspec) => before = Some(flowspec),
            Object::FilterSpec(filter) => found.push(ErrorDescriptor {
                flowspec: copy_of(before)?,
                filter: *filter,
            })?,
            _ => {}
        }
    }
    Ok(found)
}

/// The LSPs that the objects after a STYLE name. The only error is out of memory.
pub fn filters_of(alloc: Global, objects: &[Object]) -> Result<Filters, AllocError>
    ensures { IfOk result (λ found. found ≡ filters_of objects.now) }
{
    let mut found = Filters::new(alloc);
    for object in objects {
        if let Object::FilterSpec(filter) = object {
            found.push(*filter)?;
        }
    }
    Ok(found)
}
