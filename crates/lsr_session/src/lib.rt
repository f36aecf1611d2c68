//! A session of `lsr step`: its router, and what it answers to requests. The router's type is passed on.
#![tactic(auto)]

mod lsps;
mod passing;
mod recent;
mod requests;
mod shown;

pub use passing::passed_text;
pub use recent::Recent;
pub use requests::{Session, hop_frame};
pub use router_core::{Machine, Served};
pub use shown::show;
