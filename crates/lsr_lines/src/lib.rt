//! An operator's lines: what each line of an input asks for, and a run that answers them one after the other, whoever
//! answers.
#![tactic(auto)]

mod commands;
mod forms;
mod lines;
mod live;
mod lsps;
mod numbers;
mod run;
mod shown;
mod step;
mod words;

pub use abstract_paths::Command;
pub use commands::{has_return, read_command};
pub use forms::{expected_form, form_among, tell_bad_form, tell_bad_line, unseen_end};
pub use lines::{Arrival, Request, are_hex_digits, read_request};
pub use live::{LiveEnding, serve_lines};
pub use lsps::{LspName, SenderName, SessionName};
pub use numbers::{read_link, read_whole};
pub use run::{RunStop, Serves, run_lines};
pub use shown::Shown;
pub use step::{Answers, Ending, is_remark, put_full, step_lines};
pub use words::{next_two, next_word, only_word};
