//! The program `lsr` as functions over streams, files and sockets: what its words ask for is done, told and given as a status.
#![tactic(auto)]

mod attending;
mod command;
mod configuring;
mod console;
mod keeping;
mod lasting;
mod named_output;
mod serving;
mod telling;
mod waiting;

pub use command::{end, run, run_asked, tell_unread_words};
pub use configuring::run_config_of;
pub use console::run_console_of;
pub use lsr_runs::{
    FilesByName, OutputFault, RunEnding, Source, SystemFiles, WritesFiles, run_decode, run_live,
    run_step,
};
pub use serving::run_serve_of;
