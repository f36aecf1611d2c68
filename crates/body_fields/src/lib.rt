//! Fields of a file that say what RSVP's objects say: prefixes, routes, records, attributes, protection, traffic, and objects that
//! are passed on. Each is read exactly and written; which bytes spell it is `journal_bytes`' where events have it, too.
#![tactic(auto)]

mod affinities;
mod attributes;
mod octets;
mod passing;
mod prefixes;
mod protection;
mod routes;
mod steps;
mod subobjects;
mod traces;
mod traffic;

pub use affinities::{AffinitiesField, AffinitiesParts};
pub use attributes::{AttrField, AttrParts};
pub use octets::put_byte;
pub use passing::{OpaqueField, OpaqueParts, PassingField, PassingParts};
pub use prefixes::{PrefixField, PrefixParts};
pub use protection::{ProtectionField, ProtectionParts};
pub use routes::{RecordField, RecordParts, RouteField, RouteParts};
pub use steps::{StepField, StepParts};
pub use traces::{TraceField, TraceParts};
pub use traffic::{TrafficField, TrafficParts};
