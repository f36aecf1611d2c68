//! The rules of messages: what a step asks of a message, of a path or a reservation that is known, and of what goes on of
//! it; the errors that it tells, and to whom; the message that ends what another set up, and whether one that is wanted
//! rests. Each function computes one definition of the abstract router. What next hops are is
//! passed on with them.
#![tactic(auto)]

mod errors;
mod frames;
mod merging;
mod messages;
mod paths;
mod resting;
mod spelling;
mod tears;
mod through;
mod told;
mod upstream;
mod wanted;

pub use errors::{reservation_error, traffic_error};
pub use explicit_routes::{
    Frame, Output, Outputs, RouteError, RouteFault, Way, head_way, is_up, link_at, route_to,
};
pub use frames::tear_by;
pub use merging::{
    came_through, is_beside, is_full_beside, is_stack, may_join, stack_origin, under,
};
pub use messages::{found_here, lsp, routed_by, sent_back, sent_by};
pub use paths::{
    ETHERTYPE_IPV4, carries_ipv4, drops_record, has_been_here, has_no_rate, knows_record, lifetime,
    link_of, origins_of, rest_of, role_of, unknown_object, way_for,
};
pub use resting::rests;
pub use tears::{is_from, is_torn_by, leaves_by, origins_without};
pub use through::{head_through, hop_through, labelled_by, stack_under};
pub use told::{
    renamed_leaves_room, resv_err, resv_err_leaves_room, resv_leaves_room, told_downstream,
    told_preempted,
};
pub use upstream::{path_err, told_upstream};
pub use wanted::{goes_on, path_onward};
