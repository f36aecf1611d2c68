//! What the program `lsr` does over streams and files, each run by itself: sessions, journals, worlds, configurations and
//! captures. Nothing here opens a socket or starts a thread.
#![tactic(auto)]

mod checking;
mod decoding;
mod endings;
mod files;
mod live;
mod playing;
mod recording;
mod session;
mod showing;
mod written;

pub use checking::run_check_of;
pub use decoding::run_decode_on;
pub use endings::{BAD_WORDS, DONE, FAILED, RunEnding, Source, status_of, tell_ending};
pub use files::{FilesByName, SystemFiles};
pub use live::{run_live, run_live_of};
pub use lsr_decode::run_decode;
pub use playing::{run_lab_of, run_play_of};
pub use recording::{run_recorded, run_recorded_of};
pub use session::{misconfigured, read_config_text, run_step, run_step_of, said};
pub use showing::run_show_journal_of;
pub use written::{OutputFault, Unwritten, WritesFiles, segment_name, tell_output_fault};
