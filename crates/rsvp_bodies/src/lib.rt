//! The bodies of RSVP's objects: routes and records (RFC 3209, 4.3 and 4.4), traffic descriptors (RFC 2210, 3.1 and 3.2), what a
//! sender asks for its LSP (SESSION_ATTRIBUTE: RFC 3209, 4.7), and bytes that are kept as they came. Each is read, written, and
//! refused in one way; rates, prefixes and the steps of a route are also read as operators write them.
#![tactic(auto)]

mod address;
mod affinities;
mod attr;
mod attr_laws;
pub mod attr_numbers;
mod attr_reading;
mod body;
mod description;
mod fault;
mod flowspec;
mod kept;
mod prefix;
mod prefix_words;
mod rate;
mod rate_laws;
mod rate_words;
pub mod route_laws;
mod route_numbers;
mod routes;
mod shape;
mod step;
mod step_words;
mod subobject;
mod subobjects;
mod trace;
mod traffic_fault;
pub mod traffic_numbers;
mod tspec;

pub use address::{address_of, is_same_address};
pub use affinities::Affinities;
pub use attr::{Attr, Name, NameRule};
pub use attr_laws::equal_attributes_are_same;
pub use attr_reading::{read_attr, read_attr_ra};
pub use body::{Body, BodyRule};
pub use description::Description;
pub use fault::ObjectFault;
pub use flowspec::{Flowspec, Receiver};
pub use kept::{Kept, Rule};
pub use prefix::Prefix;
pub use prefix_words::read_prefix;
pub use rate::RateWord;
pub use rate_laws::rates_mean_their_words;
pub use rate_words::{read_rate, tspec_of};
pub use routes::{Record, Route, read_record, read_route, write_record, write_route};
pub use step::{OtherStep, OtherStepRule, Step};
pub use step_words::read_step;
pub use subobject::Subobject;
pub use subobjects::Subobjects;
pub use trace::{OtherTrace, OtherTraceRule, Trace};
pub use traffic_fault::TrafficFault;
pub use tspec::{Sender, Tspec};
