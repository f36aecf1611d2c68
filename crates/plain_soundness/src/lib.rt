//! Whether what a router knows is sound, as plain values: a decision for whoever trusts no table. It names a clause that is
//! broken, as docs/ROUTER.md does.
#![tactic(auto)]

mod apart;
mod assignments;
mod checks;
mod clause;
mod keys;
mod labels;
mod links;
mod paths;
mod resvs;
mod sent;
mod soundness;
mod standing;
mod tunnels;

pub use clause::Clause;
pub use soundness::unsound;
