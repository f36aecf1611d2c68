//! What the state wants kept alive at the neighbours and at the ends and heads of bypasses (RFC 2205, 3.7; RFC 4090, 6.4.3
//! and 6.4.4 for backup Paths), by what is known of its LSPs, whoever keeps that: Paths downstream, and Resvs upstream.
#![tactic(auto)]

mod addresses;
mod backups;
mod downstream;
mod records;
mod reserved;
mod resv;
mod routes;
mod upstream;

pub use downstream::{Wanted, items_at_keys};
pub use upstream::{WantedUpstream, upstream_at_keys};
