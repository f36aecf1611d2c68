//! The objects of RSVP as the router reads and writes them: SESSION, RSVP_HOP, TIME_VALUES, ERROR_SPEC,
//! STYLE, FLOWSPEC, FILTER_SPEC, SENDER_TEMPLATE and SENDER_TSPEC of RFC 2205 and RFC 2210; LABEL,
//! LABEL_REQUEST, EXPLICIT_ROUTE, RECORD_ROUTE and SESSION_ATTRIBUTE of RFC 3209; FAST_REROUTE of
//! RFC 4090. Every other object is kept as its class, its C-Type and its body.
#![tactic(auto)]

mod fixed;
mod kind;
mod laws;
pub mod numbers;
mod object;
mod opaque;
mod reading;
mod values;
mod writing;

pub use kind::{Kind, Treatment};
pub use laws::{one_object, written_no_longer};
pub use object::Object;
pub use opaque::Opaque;
pub use reading::read_object;
pub use rsvp_bodies::{
    Affinities, Attr, Body, Flowspec, Name, NameRule, ObjectFault, OtherStep, OtherTrace, Prefix,
    RateWord, Record, Route, Step, Subobject, Subobjects, Trace, TrafficFault, Tspec,
    is_same_address,
};
pub use values::{
    ErrorSpec, FastReroute, Hop, Label, LabelRequest, Session, Style, Template, TimeValues,
};
pub use writing::{
    write_explicit_route, write_flowspec, write_object, write_opaque, write_record_route,
    write_session_attribute, write_tspec,
};
