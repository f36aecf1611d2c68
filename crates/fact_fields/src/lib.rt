//! Fields of a file that say what a router knows: keys of LSPs, paths and their origins, reservations and repairs, tunnels and bypasses,
//! promises, and what is kept alive; and tables of rows of any kind. Each is read exactly and written.
#![tactic(auto)]

mod built;
mod keys;
mod options;
mod origins;
mod paths;
mod resvs;
mod sent;
mod tables;
mod tunnels;

pub use built::{Built, MakingOf, WritingOf};
pub use keys::KeyField;
pub use paths::{PathField, PathRequest, PathWay};
pub use resvs::{AssignmentField, RepairField, ResvEnd, ResvField};
pub use sent::{Refreshed, Sent, SentField, put_sent};
pub use tables::{TableField, TableParts};
pub use tunnels::{BypassField, PlainBypassField, TunnelField, TunnelIds, put_tunnel};
