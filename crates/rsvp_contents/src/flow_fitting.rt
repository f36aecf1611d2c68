//! Whether what stands after STYLE fits a message.

ghost use Rattle.std.specs.Prelude.{◌≡◌, ◌≤◌, ◌∷◌, [], nat_le, length, map, false, None};
ghost use Rattle.std.specs.List.{list_all};
ghost use Rattle.std.specs.Option.{option_map};
ghost use Rattle.rsvp_objects.specs.declared.object.Object.TheVariants as object;
ghost use Rattle.rsvp_objects.specs.Objects.{spelling};
ghost use Rattle.rsvp_contents.specs.Errors.{counts_on, error_objects};
ghost use Rattle.rsvp_contents.specs.Flows.{are_shared, fits_style, flow_objects, flowspec_objects, if_some, is_same};
ghost use Rattle.rsvp_contents.specs.Lengths.{spelled_len};

use crate::descriptors::*;
use crate::style::{is_other, is_shared};
use rsvp_objects::numbers::{HEADER_LEN, LABEL_LEN, TEMPLATE_LEN};
use rsvp_objects::{Flowspec, Record, Style, Template};

/// Bytes of an IPv4 address.
const ADDRESS_LEN: usize = 4;

/// Whether others have the FLOWSPEC of the first.
fn all_like(first: &FlowDescriptor, others: &[FlowDescriptor]) -> bool
    ensures { result ≡ list_all (λ other. is_same first.now.flowspec other.flowspec) others.now }
{
    others.iter().all(|other| first.flowspec == other.flowspec)
}

/// Whether all have the FLOWSPEC of the first.
fn are_shared(descriptors: &[FlowDescriptor]) -> bool
    ensures { result ≡ are_shared descriptors.now }
{
    match descriptors {
        [first, others @ ..] => all_like(first, others),
        [] => true,
    }
}

/// Whether the flow descriptors are such as the style has: one or more of FF and SE, all with one FLOWSPEC of
/// SE, none of another style.
pub fn fits_style(style: Style, descriptors: &[FlowDescriptor]) -> bool
    ensures { result ≡ fits_style style descriptors.now }
{
    if is_other(style) {
        return descriptors.is_empty();
    }
    !descriptors.is_empty() && (!is_shared(style) || are_shared(descriptors))
}

/// Whether after a descriptor for which a FLOWSPEC counts one counts for each.
pub fn counts_on(descriptors: &[ErrorDescriptor]) -> bool
    ensures { result ≡ counts_on false descriptors.now }
{
    let mut counted = false;
    for descriptor in descriptors {
        if counted && descriptor.flowspec.is_none() {
            return false;
        }
        counted = descriptor.flowspec.is_some();
    }
    true
}

/// How many bytes a FILTER_SPEC is written in.
fn filter_len(filter: Template) -> usize
    ensures len { result ≡ length (spelling (object.FilterSpec filter)) }
    ensures fixed { result ≡ 12 }
{
    prove!(filter.sender.octets().len() == ADDRESS_LEN);
    HEADER_LEN + TEMPLATE_LEN
}

/// How many bytes a FLOWSPEC is written in after another.
fn flowspec_len(before: Option<&Flowspec>, flowspec: &Flowspec) -> usize
    ensures len { result ≡ spelled_len (flowspec_objects (option_map (λ f. f.now) before.entry) flowspec.now) }
    ensures most { result ≤ 65532 }
{
    match before {
        Some(before) if before == flowspec => 0,
        _ => HEADER_LEN + flowspec.as_slice().len(),
    }
}

/// How many bytes a recorded route is written in, where there is one.
fn record_len(recorded: &Option<Record>) -> usize
    ensures len { result ≡ spelled_len (if_some recorded.now object.RecordRoute) }
    ensures most { result ≤ 65532 }
{
    match recorded {
        Some(recorded) => HEADER_LEN + recorded.byte_len(),
        None => 0,
    }
}

/// How many bytes a flow descriptor is written in, after one for which this FLOWSPEC counts.
fn flow_len(before: Option<&Flowspec>, descriptor: &FlowDescriptor) -> usize
    ensures len { result ≡ spelled_len (flow_objects (option_map (λ f. f.now) before.entry) (descriptor.now ∷ [])) }
    ensures most { result ≤ 131084 }
{
    flowspec_len(before, &descriptor.flowspec)
        + filter_len(descriptor.filter)
        + (HEADER_LEN + LABEL_LEN)
        + record_len(&descriptor.recorded)
}

/// Whether flow descriptors are written in at most `most` bytes.
pub fn are_flows_within(most: usize, descriptors: &[FlowDescriptor]) -> bool
    ensures { result ≡ nat_le (spelled_len (flow_objects None descriptors.now)) most }
{
    let mut room = most;
    let mut before: Option<&Flowspec> = None;
    for descriptor in descriptors {
        let len = flow_len(before, descriptor);
        if len > room {
            return false;
        }
        room -= len;
        before = Some(&descriptor.flowspec);
    }
    true
}

/// How many bytes an error flow descriptor is written in, after one for which this FLOWSPEC counts.
fn error_len(before: Option<&Flowspec>, descriptor: &ErrorDescriptor) -> usize
    ensures len { result ≡ spelled_len (error_objects (option_map (λ f. f.now) before.entry) (descriptor.now ∷ [])) }
    ensures most { result ≤ 65544 }
{
    let flowspec_len = match &descriptor.flowspec {
        Some(flowspec) => flowspec_len(before, flowspec),
        None => 0,
    };
    flowspec_len + filter_len(descriptor.filter)
}

/// Whether error flow descriptors are written in at most `most` bytes.
pub fn are_errors_within(most: usize, descriptors: &[ErrorDescriptor]) -> bool
    ensures { result ≡ nat_le (spelled_len (error_objects None descriptors.now)) most }
{
    let mut room = most;
    let mut before: Option<&Flowspec> = None;
    for descriptor in descriptors {
        let len = error_len(before, descriptor);
        if len > room {
            return false;
        }
        room -= len;
        before = descriptor.flowspec.as_ref();
    }
    true
}

/// Whether filters are written in at most `most` bytes.
pub fn are_filters_within(most: usize, filters: &[Template]) -> bool
    ensures { result ≡ nat_le (spelled_len (map object.FilterSpec filters.now)) most }
{
    let mut room = most;
    for filter in filters {
        let len = filter_len(*filter);
        if len > room {
            return false;
        }
        room -= len;
    }
    true
}
