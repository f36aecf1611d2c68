//! The text that an operator reads: names of refusals, the lines of answers and of frames, and those of what a router
//! knows.
#![tactic(auto)]

mod answers;
mod frames;
mod labels;
mod lsps;
mod names;
mod routes;
mod rows;
mod shown;
mod summary;
mod tunnels;

pub use answers::{answer_text, push_refusal, push_replies, push_reply};
pub use frames::{push_bytes_words, push_delivery, push_sent, push_written};
pub use labels::labels_text;
pub use lsps::{path_lsp_text, resv_lsp_text};
pub use names::{OUT_OF_MEMORY, refusal_name};
pub use routes::{push_name, push_prefix, push_steps};
pub use rows::{
    PRIORITIES, push_bypass, push_head, push_label, push_link, push_resv, resvs_text, table_text,
};
pub use shown::{paths_text, push_key};
pub use summary::{push_assigned_bypass, push_counts, push_reserved_link};
pub use tunnels::{push_tunnel, tunnels_text};
