//! What stands after STYLE. Where there is no memory for it, some of it may stand after what was there.

ghost use Rattle.std.specs.Prelude.{◌≡◌, ◌++◌, ◌∷◌, [], None, OnOk, OnErr, All, map, take, length};
ghost use Rattle.std.specs.List.{flat_map};
ghost use Rattle.std.specs.Option.{option_map};
ghost use Rattle.rsvp_objects.specs.Objects.{spelling};
ghost use Rattle.rsvp_contents.specs.Errors.{error_objects};
ghost use Rattle.rsvp_contents.specs.Flows.{flow_objects, flowspec_objects};
ghost use Rattle.rsvp_messages.specs.Parts.{IsSpelled};

use crate::parts_writing::{put_record, write_object};
use rsvp_bodies::Flowspec;
use rsvp_contents::{ErrorDescriptor, FlowDescriptor};
use rsvp_objects::{Object, Template, write_flowspec};
use std::alloc::AllocError;

/// Appends a FLOWSPEC, unless it counts already.
fn put_flowspec(
    before: Option<&Flowspec>,
    flowspec: &Flowspec,
    out: &mut Vec<u8>,
) -> Result<(), AllocError>
    ensures ok { OnOk result (out.new.items ≡ out.old.items ++ flat_map spelling (flowspec_objects (option_map (λ f. f.now) before.entry) flowspec.now)) }
    ensures spelled { OnOk result (All IsSpelled (flowspec_objects (option_map (λ f. f.now) before.entry) flowspec.now)) }
    ensures err { OnErr result (out.new.items ≡ out.old.items) }
{
    match before {
        Some(before) if before == flowspec => Ok(()),
        _ => write_flowspec(flowspec, out),
    }
}

/// Appends a flow descriptor after one for which this FLOWSPEC counts, if there is one.
fn put_flow_descriptor(
    before: Option<&Flowspec>,
    descriptor: &FlowDescriptor,
    out: &mut Vec<u8>,
) -> Result<(), AllocError>
    ensures ok { OnOk result (out.new.items ≡ out.old.items ++ flat_map spelling (flow_objects (option_map (λ f. f.now) before.entry) (descriptor.now ∷ []))) }
    ensures spelled { OnOk result (All IsSpelled (flow_objects (option_map (λ f. f.now) before.entry) (descriptor.now ∷ []))) }
    ensures err { OnErr result (take (length out.old.items) out.new.items ≡ out.old.items) }
{
    put_flowspec(before, &descriptor.flowspec, out)?;
    write_object(Object::FilterSpec(descriptor.filter), out)?;
    write_object(Object::Label(descriptor.label), out)?;
    put_record(&descriptor.recorded, out)
}

/// Appends flow descriptors.
pub(crate) fn put_flow_descriptors(
    descriptors: &[FlowDescriptor],
    out: &mut Vec<u8>,
) -> Result<(), AllocError>
    ensures ok { OnOk result (out.new.items ≡ out.old.items ++ flat_map spelling (flow_objects None descriptors.now)) }
    ensures spelled { OnOk result (All IsSpelled (flow_objects None descriptors.now)) }
    ensures err { OnErr result (take (length out.old.items) out.new.items ≡ out.old.items) }
{
    let mut before: Option<&Flowspec> = None;
    for descriptor in descriptors {
        put_flow_descriptor(before, descriptor, out)?;
        before = Some(&descriptor.flowspec);
    }
    Ok(())
}

/// Appends an error flow descriptor after one for which this FLOWSPEC counts, if there is one.
fn put_error_descriptor(
    before: Option<&Flowspec>,
    descriptor: &ErrorDescriptor,
    out: &mut Vec<u8>,
) -> Result<(), AllocError>
    ensures ok { OnOk result (out.new.items ≡ out.old.items ++ flat_map spelling (error_objects (option_map (λ f. f.now) before.entry) (descriptor.now ∷ []))) }
    ensures spelled { OnOk result (All IsSpelled (error_objects (option_map (λ f. f.now) before.entry) (descriptor.now ∷ []))) }
    ensures err { OnErr result (take (length out.old.items) out.new.items ≡ out.old.items) }
{
    if let Some(flowspec) = &descriptor.flowspec {
        put_flowspec(before, flowspec, out)?;
    }
    write_object(Object::FilterSpec(descriptor.filter), out)
}

/// Appends error flow descriptors.
pub(crate) fn put_error_descriptors(
    descriptors: &[ErrorDescriptor],
    out: &mut Vec<u8>,
) -> Result<(), AllocError>
    ensures ok { OnOk result (out.new.items ≡ out.old.items ++ flat_map spelling (error_objects None descriptors.now)) }
    ensures spelled { OnOk result (All IsSpelled (error_objects None descriptors.now)) }
    ensures err { OnErr result (take (length out.old.items) out.new.items ≡ out.old.items) }
{
    let mut before: Option<&Flowspec> = None;
    for descriptor in descriptors {
        put_error_descriptor(before, descriptor, out)?;
        before = descriptor.flowspec.as_ref();
    }
    Ok(())
}

/// Appends the LSPs that are named.
pub(crate) fn put_filters(filters: &[Template], out: &mut Vec<u8>) -> Result<(), AllocError>
    ensures ok { OnOk result (out.new.items ≡ out.old.items ++ flat_map spelling (map Object.FilterSpec filters.now)) }
    ensures spelled { OnOk result (All IsSpelled (map Object.FilterSpec filters.now)) }
    ensures err { OnErr result (take (length out.old.items) out.new.items ≡ out.old.items) }
{
    for filter in filters {
        write_object(Object::FilterSpec(*filter), out)?;
    }
    Ok(())
}
