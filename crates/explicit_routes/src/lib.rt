//! The next hop of a path, by its explicit route or towards its endpoint (RFC 3209, 4.3.4), and the route that
//! it records (RFC 3209, 4.4.3).
#![tactic(auto)]

mod copies;
mod fault;
mod hops;
mod lent;
mod places;
mod records;
mod routing;

pub use abstract_paths::{Frame, Output, Outputs};
pub use copies::copy_behind;
pub use fault::{RouteError, RouteFault};
pub use hops::{choose_hop, head_way, nodes_of};
pub use lent::{Rest, Way, step_to};
pub use places::{contains, is_own, is_up, link_at, node_at};
pub use records::{has_loop, has_room, own_entry, push_hop};
pub use routing::route_to;
