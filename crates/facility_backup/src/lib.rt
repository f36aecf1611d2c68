//! Local repair over bypass tunnels: the decisions of a point of local repair with facility backup (RFC 4090, 3.2 and 6),
//! by what is known of its LSPs, whoever keeps that. An LSP is signalled, held or repaired, and only one that is held can
//! be repaired. No decision takes memory but what a repair keeps.
#![tactic(auto)]

mod bypass_tunnels;
mod labels;
mod matching;
mod protecting;
mod repairs;
mod same;
mod selecting;
mod standing;
mod surroundings;

pub use bypass_tunnels::{bypass_tunnel_at, bypass_tunnel_by, over_at};
pub use matching::is_for;
pub use protecting::{is_preferred, is_protected, selected_by};
pub use repairs::{Held, held_lsp, repair};
pub use same::{leaves_path, leaves_repair, leaves_resv};
pub use selecting::{own_flags, select};
pub use standing::{held_of, repair_stands, stands};
pub use state_views::{Edits, StateView};
pub use surroundings::is_same_around;
