//! Tunnels that are changed without a gap (RFC 3209, 2.5): once the new LSP of one is reserved, its traffic goes over to that,
//! and the LSP that carried it goes.
#![tactic(auto)]

mod takeover;

pub use takeover::take_over;
