//! Laws of the abstract router that its readers want to know, and that no other crate stands on. Each is the
//! contract of a function that does nothing.
#![tactic(auto)]

pub mod bypass_choices;
pub mod errors;
pub mod frames;
pub mod label_holders;
pub mod labels;
pub mod lsp_ids;
pub mod merging;
pub mod moments;
pub mod promises;
pub mod repairs;
pub mod reservations;
pub mod reserving;
pub mod sending;
pub mod stays;
pub mod tunnels;
