//! What the messages of RSVP say, and which bytes spell it: Path, Resv, PathErr, ResvErr, PathTear and
//! ResvTear (RFC 2205, 3.1; RFC 3209, 3), the flow descriptors of a Resv, a ResvErr and a ResvTear (RFC 2205, 3.1.4, 3.1.6 and
//! 3.1.8; RFC 3209, 3.2), the faults of bytes that spell none, and the limits on what a message carries.
#![tactic(auto)]

mod descriptors;
mod dropped;
mod fitting;
mod flow_fitting;
mod flow_reading;
pub mod laws;
mod lengths;
pub mod limits;
mod message;
mod messages;
pub mod numbers;
mod parts;
mod passing;
mod sequence;
mod style;

pub use descriptors::{
    ErrorDescriptor, ErrorDescriptors, Filters, FlowDescriptor, FlowDescriptors,
};
pub use dropped::Dropped;
pub use fitting::{are_passed_by, has_adspec_last, has_one_fast_reroute};
pub use flow_fitting::{
    are_errors_within, are_filters_within, are_flows_within, counts_on, fits_style,
};
pub use flow_reading::{error_descriptors_of, filters_of, flow_descriptors_of};
pub use message::{Message, Reading};
pub use messages::{Content, Path, PathErr, PathTear, Resv, ResvErr, ResvTear};
pub use parts::Parts;
pub use passing::Passing;
pub use rsvp_objects::{
    Attr, FastReroute, Hop, LabelRequest, Prefix, Record, Route, Session, Template, Tspec,
};
pub use sequence::{Exact, Sequence};
pub use style::{FIXED_FILTER, SHARED_EXPLICIT, is_fixed, is_other, is_shared};
